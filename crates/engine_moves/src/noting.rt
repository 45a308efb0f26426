// Notes that a call takes of conditions whose Pre holds.
ghost use Rattle.std.specs.Prelude.{◌≡◌, ◌≤◌, ◌+◌, ◌∷◌, [], filter, flat_map, IfOk};
ghost use Rattle.prog_data.specs.Conditions.{kind_of};
ghost use Rattle.prog_data.specs.GrammarRange.{IsGrammar};
ghost use Rattle.prop_check.specs.Places.{row_at};
ghost use Rattle.term_heap.specs.Changes.{size_of};
ghost use Rattle.engine_moves.specs.Looking.{is_of, checked_by, looked_by, looks_by, IsNoted};

use crate::looking::{Kind, checks_of, conditions_of, is_of};
use crate::readings::Reading;
use engine_state::Row;
use prog_data::{Check, Program};
use prop_check::pre_holds_at;
use term_core::NoMemory;
use term_heap::Heap;

// Adds a condition to the notes where its Pre holds; one test.
fn note_one(
    program: &Program,
    heap: &Heap,
    args: Row,
    condition: u64,
    notes: &mut Vec<u64>,
) -> Result<u64, NoMemory>
    requires grammar { IsGrammar program.now.grammar }
    requires row { args.first + args.count ≤ size_of heap.now.changes }
    ensures { IfOk result (λ tests. IsNoted program.now (row_at heap.now.changes args.first args.count) (condition ∷ []) notes.old.items notes.new.items tests) }
{
    if !pre_holds_at(program, heap, condition, args.first, args.count) {
        return Ok(1);
    }
    notes.push(condition)?;
    Ok(1)
}

// Adds conditions to the notes where their Pre holds; so many tests.
fn note_each(
    program: &Program,
    heap: &Heap,
    args: Row,
    conditions: &[u64],
    notes: &mut Vec<u64>,
) -> Result<u64, NoMemory>
    requires grammar { IsGrammar program.now.grammar }
    requires row { args.first + args.count ≤ size_of heap.now.changes }
    ensures { IfOk result (λ tests. IsNoted program.now (row_at heap.now.changes args.first args.count) conditions.now notes.old.items notes.new.items tests) }
{
    let mut tests = 0u64;
    for condition in conditions {
        let one = note_one(program, heap, args, *condition, notes)?;
        tests = tests.saturating_add(one);
    }
    Ok(tests)
}

// Adds a condition to the notes where it is of a kind and its Pre holds; one test where it is of the kind.
fn note_by_kind(
    program: &Program,
    heap: &Heap,
    kind: Kind,
    args: Row,
    condition: u64,
    notes: &mut Vec<u64>,
) -> Result<u64, NoMemory>
    requires grammar { IsGrammar program.now.grammar }
    requires row { args.first + args.count ≤ size_of heap.now.changes }
    ensures { IfOk result (λ tests. IsNoted program.now (row_at heap.now.changes args.first args.count) (filter (λ c. is_of kind (kind_of program.now c)) (condition ∷ [])) notes.old.items notes.new.items tests) }
{
    if is_of(program, kind, condition) {
        let tests = note_one(program, heap, args, condition, notes)?;
        return Ok(tests);
    }
    Ok(0)
}

// Adds the conditions of a kind to the notes where their Pre holds; so many tests.
fn note_all(
    program: &Program,
    heap: &Heap,
    kind: Kind,
    args: Row,
    conditions: &[u64],
    notes: &mut Vec<u64>,
) -> Result<u64, NoMemory>
    requires grammar { IsGrammar program.now.grammar }
    requires row { args.first + args.count ≤ size_of heap.now.changes }
    ensures { IfOk result (λ tests. IsNoted program.now (row_at heap.now.changes args.first args.count) (filter (λ c. is_of kind (kind_of program.now c)) conditions.now) notes.old.items notes.new.items tests) }
{
    let mut tests = 0u64;
    for condition in conditions {
        let one = note_by_kind(program, heap, kind, args, *condition, notes)?;
        tests = tests.saturating_add(one);
    }
    Ok(tests)
}

// Adds the conditions of a kind in a call check to the notes where their Pre holds; so many tests.
fn note_check(
    program: &Program,
    heap: &Heap,
    kind: Kind,
    args: Row,
    check: &Check,
    notes: &mut Vec<u64>,
) -> Result<u64, NoMemory>
    requires grammar { IsGrammar program.now.grammar }
    requires row { args.first + args.count ≤ size_of heap.now.changes }
    ensures { IfOk result (λ tests. IsNoted program.now (row_at heap.now.changes args.first args.count) (checked_by kind check.now) notes.old.items notes.new.items tests) }
{
    match kind {
        Kind::Success => match check {
            Check::Note(condition) => {
                let tests = note_one(program, heap, args, *condition, notes)?;
                Ok(tests)
            }
            Check::Calls(_) | Check::Mark(_) => Ok(0),
        },
        Kind::Comp => match check {
            Check::Mark(conditions) => {
                let tests = note_each(program, heap, args, conditions.as_slice(), notes)?;
                Ok(tests)
            }
            Check::Calls(_) | Check::Note(_) => Ok(0),
        },
    }
}

// Adds the conditions of a kind in call checks to the notes where their Pre holds; so many tests.
fn note_checks(
    program: &Program,
    heap: &Heap,
    kind: Kind,
    args: Row,
    checks: &[Check],
    notes: &mut Vec<u64>,
) -> Result<u64, NoMemory>
    requires grammar { IsGrammar program.now.grammar }
    requires row { args.first + args.count ≤ size_of heap.now.changes }
    ensures { IfOk result (λ tests. IsNoted program.now (row_at heap.now.changes args.first args.count) (flat_map (checked_by kind) checks.now) notes.old.items notes.new.items tests) }
{
    let mut tests = 0u64;
    for check in checks {
        let some = note_check(program, heap, kind, args, check, notes)?;
        tests = tests.saturating_add(some);
    }
    Ok(tests)
}

/// Adds the conditions of a kind that a call of a predicate looks at to the notes where their Pre holds. How many tests that
/// are, at most the greatest number of 64 bits.
///
/// # Errors
///
/// Only for want of memory.
pub(crate) fn take_notes(
    program: &Program,
    heap: &Heap,
    reading: Reading,
    kind: Kind,
    pred: u64,
    args: Row,
    notes: &mut Vec<u64>,
) -> Result<u64, NoMemory>
    requires grammar { IsGrammar program.now.grammar }
    requires row { args.first + args.count ≤ size_of heap.now.changes }
    ensures { IfOk result (λ tests. IsNoted program.now (row_at heap.now.changes args.first args.count) (looked_by kind (looks_by program.now reading pred)) notes.old.items notes.new.items tests) }
{
    match reading {
        Reading::All | Reading::AllTold => {
            let conditions = conditions_of(program, pred);
            let tests = note_all(program, heap, kind, args, conditions, notes)?;
            Ok(tests)
        }
        Reading::Kept | Reading::KeptTold => {
            let checks = checks_of(program, pred);
            let tests = note_checks(program, heap, kind, args, checks, notes)?;
            Ok(tests)
        }
    }
}
