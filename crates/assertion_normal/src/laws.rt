// What is true of all that assertions give.
ghost use Rattle.assertion_normal.specs.Laws.{ConditionsAreNumbered, OwnTroubleIsTold, TroublesAreFound, RangesGrow, NormalsAreInRange};

use regtype_grammar::{listings_in_range_law, meanings_law};

/// What assertions give is about their predicate: its conditions are numbered one after the other, and none but the first is one on calls.
pub fn conditions_law()
    ensures { ConditionsAreNumbered }
{}

/// An assertion's trouble is that a name means nothing exactly where one of its names does, and that a name means several types exactly where one does and none means nothing.
pub fn own_trouble_law()
    ensures { OwnTroubleIsTold }
{}

/// There is no first trouble exactly where no assertion is in trouble; a trouble is the first one exactly where it is that of an assertion at its line, and no other comes before it.
pub fn troubles_law()
    ensures { TroublesAreFound }
{}

/// Conditions and entries in range of a grammar are in range of each larger one.
pub fn ranges_grow_law()
    ensures { RangesGrow }
{}

/// What assertions give is about their predicate, and in range, and the grammar behind it stays in range.
pub fn normals_in_range_law()
    ensures { NormalsAreInRange }
{
    meanings_law();
    listings_in_range_law();
}
