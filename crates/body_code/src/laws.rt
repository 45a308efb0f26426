// What is true of bodies and of their problems.
ghost use Rattle.body_code.specs.Laws.{FirstIsFound, BodiesAreOfParts};
ghost use Rattle.body_code.specs.Ranges.{HeadsAreInRange, ClausesAreInRange};

use regtype_grammar::{listings_in_range_law, meanings_law};

/// Of several problems there is no first one exactly where none is there; where there is one, it is one of them, and none of the others comes before it.
pub fn problems_law()
    ensures { FirstIsFound }
{}

/// A body is what its outermost makes of its parts as bodies.
pub fn bodies_law()
    ensures { BodiesAreOfParts }
{}

/// The name of a head in range is one of the names, and its arguments are few; the clause of a sentence is in range of each program that has what the sentence may speak of, and the grammar behind it stays in range.
pub fn compiled_in_range_law()
    ensures heads { HeadsAreInRange }
    ensures clauses { ClausesAreInRange }
{
    meanings_law();
    listings_in_range_law();
}
