// Laws of the types of files.
ghost use Rattle.unit_scopes.specs.Laws.{TypesAreSeen};

/// Each type that is seen in a file is a type of a file, at its place, and has its name: what is asked of types that are to have a grammar.
pub fn types_seen_law()
    ensures { TypesAreSeen }
{}
