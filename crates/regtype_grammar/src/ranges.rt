// Grammars in range.
ghost use Rattle.regtype_grammar.specs.Ranges.{ListingsStayInRange, GrammarsAreInRange};

/// A grammar in range stays so with the lists of one of its names, and gets no other atoms and functors than the fixed ones.
pub fn listings_in_range_law()
    ensures { ListingsStayInRange }
{}

/// The grammar of types is in range, has the names of the types that are seen, and no other atoms and functors than the fixed ones and those of the types.
pub fn grammars_in_range_law()
    ensures { GrammarsAreInRange }
{}
