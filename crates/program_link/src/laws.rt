// What is true of faults.
ghost use Rattle.program_link.specs.Laws.{LeastIsFound};

/// The fault that comes first is one of the faults, and none of them comes before it by file, line and kind; there is none exactly where there are no faults.
pub fn least_fault_law()
    ensures { LeastIsFound }
{}
