// What is held of units is what their files say.
ghost use Rattle.unit_scopes.specs.SourceLaws.{SourcesAreOfFiles, IndexesAnswer, PlacesPick};

/// There is one source for each file, at its place, with its predicates numbered behind those of the files before it.
pub fn sources_law()
    ensures { SourcesAreOfFiles }
{}

/// An index answers as its file.
pub fn index_law()
    ensures { IndexesAnswer }
{}

/// At the places of a predicate stand its clauses and the assertions about it, in order.
pub fn places_law()
    ensures { PlacesPick }
{}
