// What is in range of a program.
ghost use Rattle.prog_data.specs.RangeLaws.{RangesAreKept, PartsAgree};

use term_core::ranges_law;

/// What is in range of a program stays so when terms in range are put for variables, and when names come behind the program's.
pub fn program_ranges_law()
    ensures { RangesAreKept }
{
    ranges_law();
}

/// In a program in range the conditions of a predicate are exactly those that name it.
pub fn program_parts_law()
    ensures { PartsAgree }
{}
