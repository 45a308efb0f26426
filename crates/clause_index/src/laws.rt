// What an index selects of a program, and what becomes of the clauses that it leaves out.
ghost use Rattle.clause_index.specs.Laws.{SelectsInOrder, SelectsAll, LeftOutClash};

/// Of the keys of a program are selected the places of the clauses that can match, in order.
pub fn selected_law()
    ensures { SelectsInOrder }
{}

/// All clauses are selected where the key is free, or where the predicate has no arguments in a program in range.
pub fn all_selected_law()
    ensures { SelectsAll }
{}

/// A clause that is left out clashes with the call in its first equation, whatever its variables are.
pub fn left_out_law()
    ensures { LeftOutClash }
{}
