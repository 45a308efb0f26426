// What later changes leave as it was.
ghost use Rattle.term_heap.specs.PastStays.{PastStays};

/// Later changes leave the history at each earlier length, each cell that was not free, and how many cells there were at least; each change has a serial that comes after the last one.
pub fn past_law()
    ensures { PastStays }
{}
