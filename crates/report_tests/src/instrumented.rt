// What an instrumented program keeps, by statuses.
use crate::programs::facts;
use instrumenter::instrument;
use prog_data::{Check, Clause, Goal, Status};
use std::alloc::Global;
use term_core::NoMemory;

// The statuses of a condition on calls, on success and on the computation, and the sum of what is kept of them: 1, 2
// and 4, and 10 for each of the two clauses that ends in an exit.
const ROWS: [([Status; 3], u64); 8] = [
    ([Status::Checked, Status::Checked, Status::Checked], 0),
    ([Status::Check, Status::Checked, Status::Checked], 1),
    ([Status::False, Status::Checked, Status::Checked], 1),
    ([Status::Checked, Status::False, Status::Checked], 22),
    ([Status::Checked, Status::Check, Status::Checked], 22),
    ([Status::Checked, Status::Checked, Status::Check], 24),
    ([Status::Check, Status::Checked, Status::Check], 25),
    ([Status::Check, Status::Check, Status::False], 27),
];

fn check_number(check: &Check) -> u64 {
    match check {
        Check::Calls(0) => 1,
        Check::Note(1) => 2,
        Check::Mark(_) => 4,
        _ => 100,
    }
}

fn exit_number(clause: &Clause) -> u64 {
    match &clause.body {
        Goal::Exit => 10,
        _ => 0,
    }
}

fn kept(alloc: Global, statuses: &[Status]) -> Result<u64, NoMemory> {
    let made = instrument(alloc, facts(alloc, true, true)?, statuses)?;
    let mut sum = 0u64;
    for pred in made.preds.as_slice() {
        for check in pred.call_checks.as_slice() {
            sum = sum.saturating_add(check_number(check));
        }
        for clause in pred.clauses.as_slice() {
            sum = sum.saturating_add(exit_number(clause));
        }
    }
    Ok(sum)
}

// The first row that is answered otherwise.
fn first_other(alloc: Global, rows: &[([Status; 3], u64)]) -> Result<Option<u64>, NoMemory> {
    for row in rows {
        let sum = kept(alloc, &row.0)?;
        if sum != row.1 {
            return Ok(Some(sum));
        }
    }
    Ok(None)
}

#[test]
fn what_is_not_checked_is_kept(rt: HostRuntime) -> Result<(), NoMemory> {
    assert_eq!(rt; first_other(rt.alloc(), &ROWS)?, None);
    Ok(())
}
