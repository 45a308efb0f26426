// Exits of calls.
ghost use Rattle.std.specs.Prelude.{◌≡◌, [], ℕ, map, length, IfOk};
ghost use Rattle.prog_data.specs.declared.events.Event.TheVariants.{Broken};
ghost use Rattle.machine_model.specs.State.{exit_mark};
ghost use Rattle.machine_model.specs.Step.{mark_of, mark_conds, mark_exited};
ghost use Rattle.term_heap.specs.Changes.{size_of};
ghost use Rattle.engine_state.specs.Views.{row_of};
ghost use Rattle.engine_state.specs.Notes.{IsRowWithin};
ghost use Rattle.engine_state.specs.Moments.{IsCallPlaced};
ghost use Rattle.engine_state.specs.Stages.{choices_at, IsKept, IsAt};
ghost use Rattle.engine_state.specs.StepsMade.{found_at_exit, found_at_mark};
ghost use Rattle.engine_state.specs.Findings.{HasAdded};
ghost use Rattle.engine_state.specs.Turns.{GoesTo};
ghost use Rattle.engine_moves.specs.Readings.{tests_by};
ghost use Rattle.engine_moves.specs.Turned.{HasTurned};
ghost use Rattle.engine_moves.specs.Calling.{terms_at};
ghost use Rattle.engine_moves.specs.Exiting.{exit_state, IsExitPlaced, HasTestedExit};

use crate::looking::stops;
use crate::readings::Reading;
use crate::turns::Turn;
use engine_state::{
    Counted, Engine, Exit, Stage, exits_law, moves_law, noted, test_all, tests_law,
};
use machine_model::leaner_states_law;
use prop_check::{exit_breaks, post_holds_at};
use term_core::NoMemory;

// Tests the conditions that were noted at the call.
fn test_notes<'p>(
    engine: &Engine<'p>,
    reading: Reading,
    told: &mut Vec<u64>,
    exit: Exit,
) -> Result<Counted, NoMemory>
    requires kept { IsKept engine.now }
    requires placed { IsCallPlaced engine.now.program.now (size_of engine.now.heap.changes) exit.pred exit.args }
    requires noted { IsRowWithin (length engine.now.notes.items) exit.noted }
    ensures { IfOk result (λ r. HasAdded (tests_by engine.now.program.now reading).stops 1 (found_at_exit engine.now.program.now (terms_at engine.now exit.args)) (row_of engine.now.notes.items exit.noted) told.old.items told.new.items r.tests r.ended) }
{
    let args = exit.args;
    let holds = |c| post_holds_at(engine.program, &engine.heap, c, args.first, args.count);
    let conditions = noted(engine.notes.as_slice(), exit.noted);
    let counted = test_all(holds, conditions, stops(reading), 1, told)?;
    Ok(counted)
}

// Tests the conditions of a call's mark, if it has one. These tests do not count.
fn test_mark<'p>(
    engine: &Engine<'p>,
    reading: Reading,
    told: &mut Vec<u64>,
    mark: Option<u64>,
) -> Result<Counted, NoMemory>
    requires { IsKept engine.now }
    ensures { IfOk result (λ r. HasAdded (tests_by engine.now.program.now reading).stops 0 (found_at_mark engine.now.program.now (mark_exited (mark_of mark (choices_at engine.now)))) (mark_conds (mark_of mark (choices_at engine.now))) told.old.items told.new.items r.tests r.ended) }
{
    tests_law();
    match mark {
        None => Ok(Counted {
            tests: 0,
            ended: None,
        }),
        Some(height) => {
            let marked = engine.mark_at(height);
            let exited = marked.exited;
            let holds = |c| !exit_breaks(engine.program, c, exited);
            let conditions = noted(engine.notes.as_slice(), marked.conds);
            let counted = test_all(holds, conditions, stops(reading), 0, told)?;
            Ok(counted)
        }
    }
}

// Tests the conditions that were noted at the call, and then those of its mark.
fn test_exit<'p>(
    engine: &Engine<'p>,
    reading: Reading,
    told: &mut Vec<u64>,
    exit: Exit,
) -> Result<Counted, NoMemory>
    requires kept { IsKept engine.now }
    requires placed { IsCallPlaced engine.now.program.now (size_of engine.now.heap.changes) exit.pred exit.args }
    requires noted { IsRowWithin (length engine.now.notes.items) exit.noted }
    ensures { IfOk result (λ r. HasTestedExit reading engine.now exit told.old.items told.new.items r) }
{
    tests_law();
    let first = test_notes(engine, reading, told, exit)?;
    match first.ended {
        Some(_) => Ok(first),
        None => {
            let second = test_mark(engine, reading, told, exit.mark)?;
            Ok(Counted {
                tests: first.tests.saturating_add(second.tests),
                ended: second.ended,
            })
        }
    }
}

// Exits a call's mark, if it has one.
fn leave_mark<'p>(engine: &mut Engine<'p>, mark: Option<u64>)
    requires { IsKept engine.old }
    ensures { GoesTo engine.old (length engine.old.links.items) (exit_mark mark (choices_at engine.old)) engine.new }
{
    match mark {
        None => {}
        Some(height) => engine.exit_at(height),
    }
}

/// At an exit of a call, before the tasks from a link on. Conditions that are broken are told, or the first of them ends the
/// run.
///
/// # Errors
///
/// Only for want of memory.
pub fn do_exit<'p>(
    engine: &mut Engine<'p>,
    reading: Reading,
    told: &mut Vec<u64>,
    exit: Exit,
    rest: u64,
) -> Result<Turn<'p>, NoMemory>
    requires at { IsAt engine.old (exit_state engine.old exit rest) (IsExitPlaced engine.old exit rest) }
    requires none { told.old.items ≡ [] }
    ensures { IfOk result (λ turn. (bound : ℕ) → HasTurned reading bound engine.old (exit_state engine.old exit rest) (map Broken told.new.items) turn.tests engine.new turn.stage) }
{
    exits_law();
    moves_law();
    leaner_states_law();
    let tested = test_exit(engine, reading, told, exit)?;
    match tested.ended {
        Some(ending) => Ok(Turn {
            stage: Stage::Over(ending),
            tests: tested.tests,
        }),
        None => {
            leave_mark(engine, exit.mark);
            Ok(Turn {
                stage: Stage::Doing(rest),
                tests: tested.tests,
            })
        }
    }
}
