// What units in range say is in range.
ghost use Rattle.unit_scopes.specs.Ranges.{FilesStayInRange};

use assertion_read::assertions_in_range_law;
use dcg_expand::rules_in_range_law;
use fsyntax_expand::clauses_in_range_law;

/// Where units are in range, so are the clauses and the assertions that their sentences say, behind the expansions too.
pub fn files_in_range_law()
    ensures { FilesStayInRange }
{
    rules_in_range_law();
    clauses_in_range_law();
    assertions_in_range_law();
}
