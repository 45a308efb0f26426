// A program and its predicates with the checks that are kept.
ghost use Rattle.std.specs.Prelude.{◌≡◌, ◌++◌, map, not, IfOk, OnOk, if◌then◌else◌};
ghost use Rattle.prog_data.specs.declared.programs.Check.TheVariants as check;
ghost use Rattle.prog_data.specs.Programs.{IsProgram, HasNoExit};
ghost use Rattle.machine_model.specs.Instrumented.{one_mark, has_exit, with_exit, instrumented_pred, instrumented};
ghost use Rattle.instrumenter.specs.RangeLaws.{InstrumentedInRange};

use crate::bodies::{reversed, with_exits};
use crate::kept::{Part, kept_of};
use prog_data::{Check, Clause, Pred, Program, Status, program_ranges_law};
use sqlite_items::Items;
use std::alloc::Global;
use std::mem::replace;
use term_core::NoMemory;

fn push_calls(checks: &mut Items<Check>, conditions: &[u64]) -> Result<(), NoMemory>
    ensures { OnOk result (checks.new ≡ checks.old ++ map check.Calls conditions.now) }
{
    for condition in conditions {
        checks.push(Check::Calls(*condition))?;
    }
    Ok(())
}

fn push_notes(checks: &mut Items<Check>, conditions: &[u64]) -> Result<(), NoMemory>
    ensures { OnOk result (checks.new ≡ checks.old ++ map check.Note conditions.now) }
{
    for condition in conditions {
        checks.push(Check::Note(*condition))?;
    }
    Ok(())
}

// One mark of the conditions, if there are any.
fn push_mark(checks: &mut Items<Check>, conditions: Items<u64>) -> Result<(), NoMemory>
    ensures { OnOk result (checks.new ≡ checks.old ++ one_mark conditions) }
{
    if !conditions.is_empty() {
        checks.push(Check::Mark(conditions))?;
    }
    Ok(())
}

// The call checks of kept conditions.
fn checks_for(
    alloc: Global,
    calls: &[u64],
    notes: &[u64],
    marks: Items<u64>,
) -> Result<Items<Check>, NoMemory>
    ensures { IfOk result (λ cs. cs ≡ map check.Calls calls.now ++ map check.Note notes.now ++ one_mark marks) }
{
    let mut checks = Items::new(alloc);
    push_calls(&mut checks, calls)?;
    push_notes(&mut checks, notes)?;
    push_mark(&mut checks, marks)?;
    Ok(checks)
}

// Whether an exit tests something.
fn has_exit(notes: &[u64], marks: &[u64]) -> bool
    ensures { result ≡ has_exit notes.now marks.now }
{
    !(notes.is_empty() && marks.is_empty())
}

// The clauses, with exits where an exit tests something.
fn clauses_for(
    alloc: Global,
    exits: bool,
    clauses: Items<Clause>,
) -> Result<Items<Clause>, NoMemory>
    ensures { IfOk result (λ cs. cs ≡ (if exits then map with_exit clauses else clauses)) }
{
    if exits {
        with_exits(alloc, clauses)
    } else {
        Ok(clauses)
    }
}

// A predicate with the call checks of its kept conditions, and with exits where an exit tests something.
fn instrumented_pred(
    alloc: Global,
    program: &Program,
    statuses: &[Status],
    pred: Pred,
) -> Result<Pred, NoMemory>
    ensures { IfOk result (λ p. p ≡ instrumented_pred program.now statuses.now pred) }
{
    let mut pred = pred;
    let calls = kept_of(
        alloc,
        program,
        statuses,
        Part::AtCall,
        pred.conds.as_slice(),
    )?;
    let notes = kept_of(
        alloc,
        program,
        statuses,
        Part::AtExit,
        pred.conds.as_slice(),
    )?;
    let marks = kept_of(
        alloc,
        program,
        statuses,
        Part::OfMark,
        pred.conds.as_slice(),
    )?;
    let exits = has_exit(notes.as_slice(), marks.as_slice());
    let clauses = replace(&mut pred.clauses, Items::new(alloc));
    pred.clauses = clauses_for(alloc, exits, clauses)?;
    pred.call_checks = checks_for(alloc, calls.as_slice(), notes.as_slice(), marks)?;
    Ok(pred)
}

// The predicates of a program, each so.
fn instrumented_preds(
    alloc: Global,
    program: &Program,
    statuses: &[Status],
    preds: Items<Pred>,
) -> Result<Items<Pred>, NoMemory>
    ensures { IfOk result (λ ps. ps ≡ map (instrumented_pred program.now statuses.now) preds) }
{
    let mut left = reversed(alloc, preds)?;
    let mut made = Items::new(alloc);
    while let Some(pred) = left.pop() {
        made.push(instrumented_pred(alloc, program, statuses, pred)?)?;
    }
    Ok(made)
}

// The program with the checks that are kept.
fn with_checks(alloc: Global, program: Program, statuses: &[Status]) -> Result<Program, NoMemory>
    ensures { IfOk result (λ p. p ≡ instrumented program statuses.now) }
{
    let mut program = program;
    let preds = replace(&mut program.preds, Items::new(alloc));
    program.preds = instrumented_preds(alloc, &program, statuses, preds)?;
    Ok(program)
}

/// The program with call checks and exits for exactly the conditions whose status is not checked (Stulova, Morales,
/// Hermenegildo, "Reducing the overhead of assertion run-time checks via static analysis", 2016): what the analysis has
/// shown is tested no more. Names, conditions, claims, exports and entries stay as they are. Where the program is in
/// range and no body of it ends in an exit, as in one that was linked, the program that is given is in range too.
///
/// # Errors
///
/// Only for want of memory; the program is gone then.
pub fn instrument(alloc: Global, program: Program, statuses: &[Status]) -> Result<Program, NoMemory>
    ensures program { IfOk result (λ p. p ≡ instrumented program statuses.now) }
    ensures range { IsProgram program → HasNoExit program → IfOk result (λ p. IsProgram p) }
{
    instrumented_range_law();
    with_checks(alloc, program, statuses)
}

/// The instrumented program is in range where the program is.
pub fn instrumented_range_law()
    ensures { InstrumentedInRange }
{
    program_ranges_law();
}
