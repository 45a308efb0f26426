// The trying of a clause for a call.
ghost use Rattle.std.specs.Prelude.{◌≡◌, [], ℕ, Some, IfOk, MatchOption};
ghost use Rattle.prog_data.specs.Goals.{is_exit, ends_in_exit, pred_of, without_exit};
ghost use Rattle.prog_data.specs.declared.goals.Goal.{out-Goal};
ghost use Rattle.prog_data.specs.declared.goals.Goal as goal;
ghost use Rattle.prog_data.specs.declared.programs.Program.{Program};
ghost use Rattle.machine_model.specs.State.{State, Going};
ghost use Rattle.engine_state.specs.Stages.{IsKept};
ghost use Rattle.engine_moves.specs.Readings.{tests_by};
ghost use Rattle.engine_moves.specs.Turned.{IsMoveTo, HasTurned};
ghost use Rattle.engine_moves.specs.Tries.{IsPendingPlaced, try_state, IsToTry, HasVariables, HasBehind, entered_state, IsEntered};

use crate::readings::Reading;
use crate::relied::relied_law;
use crate::turns::Turn;
use engine_state::{Engine, Pending, Setting, Stage, clauses_law};
use prog_data::{Clause, Ending, Goal, Program};
use sqlite_items::at;
use std::alloc::Global;
use term_core::NoMemory;
use term_heap::Heap;
use unify_core::{Unified, match_head, new_law};

// The clauses of a predicate, none where there is no such predicate.
fn clauses_of(program: &Program, pred: u64) -> &[Clause]
    ensures { result.now ≡ (pred_of program.now pred).clauses }
{
    match program.preds.get(pred as usize) {
        Some(pred) => pred.clauses.as_slice(),
        None => &[],
    }
}

// Whether a goal is an exit.
fn is_exit(goal: &Goal) -> bool
    ensures { result ≡ is_exit (out-Goal goal.now) }
{
    match goal {
        Goal::Exit => true,
        Goal::True
        | Goal::Fail
        | Goal::Cut
        | Goal::Call(_, _)
        | Goal::Builtin(_, _)
        | Goal::Conj(_, _)
        | Goal::Disj(_, _)
        | Goal::IfElse(_, _, _)
        | Goal::Not(_) => false,
    }
}

// Whether a body is an exit or ends in one.
fn ends_in_exit(body: &Goal) -> bool
    ensures { result ≡ ends_in_exit body.now }
{
    match body {
        Goal::Exit => true,
        Goal::Conj(_, last) => is_exit(last.get()),
        Goal::True
        | Goal::Fail
        | Goal::Cut
        | Goal::Call(_, _)
        | Goal::Builtin(_, _)
        | Goal::Disj(_, _)
        | Goal::IfElse(_, _, _)
        | Goal::Not(_) => false,
    }
}

// Whether the exit of a call stands after a body.
fn has_exit(reading: Reading, body: &Goal) -> bool
    ensures { (program : Program) → result ≡ (tests_by program reading).exits body.now }
{
    match reading {
        Reading::All | Reading::AllTold => true,
        Reading::Kept | Reading::KeptTold => ends_in_exit(body),
    }
}

// A body without the exit that it ends in; none where it is the exit alone.
fn without_exit(body: &Goal) -> Option<&Goal>
    ensures { MatchOption result (body.now ≡ goal.Exit) (λ left. left.now ≡ without_exit body.now) }
{
    match body {
        Goal::Exit => None,
        Goal::Conj(first, last) => {
            if is_exit(last.get()) {
                return Some(first.get());
            }
            Some(body)
        }
        Goal::True
        | Goal::Fail
        | Goal::Cut
        | Goal::Call(_, _)
        | Goal::Builtin(_, _)
        | Goal::Disj(_, _)
        | Goal::IfElse(_, _, _)
        | Goal::Not(_) => Some(body),
    }
}

// New variables, where there are any to be; the place of the first.
fn add_variables(heap: &mut Heap, count: u64) -> Result<u64, NoMemory>
    ensures { IfOk result (λ base. HasVariables heap.old count base heap.new) }
{
    clauses_law();
    new_law();
    let base = heap.len();
    if count == 0 {
        return Ok(base);
    }
    let first = heap.fresh(count)?;
    let _size = heap.len();
    Ok(first)
}

// Puts the exit of a call before the tasks behind it, where a reading has one after a body and it tests something; the link with the first of the tasks then.
fn put_behind(
    engine: &mut Engine<'_>,
    reading: Reading,
    body: &Goal,
    pending: Pending,
) -> Result<u64, NoMemory>
    requires kept { IsKept engine.old }
    requires placed { IsPendingPlaced engine.old pending }
    ensures { IfOk result (λ k. HasBehind reading engine.old body.now pending k engine.new) }
{
    if has_exit(reading, body) {
        let link = engine.put_exit(pending.exit, pending.rest)?;
        return Ok(link);
    }
    Ok(pending.rest)
}

// A clause was entered: its body is due, and behind it the exit of the call.
fn enter<'p>(
    engine: &mut Engine<'p>,
    reading: Reading,
    clause: &'p Clause,
    base: u64,
    pending: Pending,
) -> Result<Stage<'p>, NoMemory>
    requires { IsEntered reading engine.old clause.now base pending }
    ensures { (bound : ℕ) (from : State) → IsMoveTo (tests_by engine.old.program.now reading) engine.old.program.now bound from [] 0 (Some (Going (entered_state reading engine.old clause.now base pending))) →
        IfOk result (λ stage. HasTurned reading bound engine.old from [] 0 engine.new stage) }
{
    relied_law();
    let rest = put_behind(engine, reading, &clause.body, pending)?;
    match without_exit(&clause.body) {
        None => Ok(Stage::Doing(rest)),
        Some(body) => {
            let setting = Setting {
                base,
                height: pending.height,
                place: clause.place,
                rest,
            };
            Ok(Stage::Goal(body, setting))
        }
    }
}

/// Tries the clause with a number for a call.
///
/// A clause that is not there fails, and so does one whose head cannot be made the same as the call. Where a variable would occur in its own value the run is over.
///
/// # Errors
///
/// Only for want of memory.
pub(crate) fn try_clause<'p>(
    engine: &mut Engine<'p>,
    alloc: Global,
    reading: Reading,
    number: u64,
    pending: Pending,
) -> Result<Turn<'p>, NoMemory>
    requires { IsToTry engine.old number pending }
    ensures { (bound : ℕ) → IfOk result (λ turn. HasTurned reading bound engine.old (try_state engine.old number pending) [] turn.tests engine.new turn.stage) }
{
    relied_law();
    let program = engine.program;
    match at(clauses_of(program, pending.exit.pred), number as usize) {
        None => Ok(Turn {
            stage: Stage::Failed,
            tests: 0,
        }),
        Some(clause) => {
            let base = add_variables(&mut engine.heap, clause.vars)?;
            let first = pending.exit.args.first;
            let head = clause.head.as_slice();
            let found = match_head(alloc, &mut engine.heap, head, base, first)?;
            let _size = engine.heap.len();
            match found {
                Unified::Same => {
                    let stage = enter(engine, reading, clause, base, pending)?;
                    Ok(Turn { stage, tests: 0 })
                }
                Unified::Clash => Ok(Turn {
                    stage: Stage::Failed,
                    tests: 0,
                }),
                Unified::Cyclic => Ok(Turn {
                    stage: Stage::Over(Ending::Cyclic(clause.place)),
                    tests: 0,
                }),
            }
        }
    }
}
