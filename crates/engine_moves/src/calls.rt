// Calls.
ghost use Rattle.std.specs.Prelude.{◌≡◌, ◌≤◌, ◌<◌, ◌++◌, [], map, length, IfOk, OnOk};
ghost use Rattle.prog_data.specs.declared.events.Event.TheVariants.{Broken};
ghost use Rattle.term_heap.specs.Changes.{size_of};
ghost use Rattle.engine_state.specs.declared.stages.Stage.TheVariants.{Calling};
ghost use Rattle.engine_state.specs.Views.{row_of};
ghost use Rattle.engine_state.specs.Notes.{IsRowWithin};
ghost use Rattle.engine_state.specs.Moments.{IsCallPlaced};
ghost use Rattle.engine_state.specs.Stages.{choices_at, IsKept, IsWhole};
ghost use Rattle.engine_state.specs.StepsMade.{found_at_call};
ghost use Rattle.engine_state.specs.Findings.{HasAdded};
ghost use Rattle.engine_state.specs.Turns.{GoesTo};
ghost use Rattle.engine_moves.specs.Readings.{tests_by};
ghost use Rattle.engine_moves.specs.Turned.{HasTurned};
ghost use Rattle.engine_moves.specs.Looking.{looks_by};
ghost use Rattle.engine_moves.specs.Calling.{terms_at, call_state, chosen_now, HasNoted, HasMarked, HasCalled};

use crate::choosing::first_key;
use crate::looking::{Kind, calls_condition, stops};
use crate::noting::take_notes;
use crate::readings::Reading;
use crate::turns::Turn;
use clause_index::{left_out_law, selected_law};
use engine_state::{
    Alternative, Counted, Engine, Exit, Pending, Row, Stage, calls_law, chosen_law,
    moments_give_law, moments_law, moves_law, notes_law, pushed_law, test_all, tests_law,
};
use machine_model::leaner_states_law;
use prog_data::{Ending, Place};
use prop_check::calls_hold_at;
use term_core::NoMemory;

// Tests the calls condition of a call.
fn test_call<'p>(
    engine: &Engine<'p>,
    reading: Reading,
    told: &mut Vec<u64>,
    pred: u64,
    args: Row,
) -> Result<Counted, NoMemory>
    requires kept { IsKept engine.now }
    requires placed { IsCallPlaced engine.now.program.now (size_of engine.now.heap.changes) pred args }
    ensures { IfOk result (λ r. HasAdded (tests_by engine.now.program.now reading).stops 1 (found_at_call engine.now.program.now (terms_at engine.now args)) (looks_by engine.now.program.now reading pred).calls told.old.items told.new.items r.tests r.ended) }
{
    tests_law();
    match calls_condition(engine.program, reading, pred) {
        None => Ok(Counted {
            tests: 0,
            ended: None,
        }),
        Some(condition) => {
            let holds = |c| calls_hold_at(engine.program, &engine.heap, c, args.first, args.count);
            let counted = test_all(holds, &[condition], stops(reading), 1, told)?;
            Ok(counted)
        }
    }
}

/// Notes that were taken: their row, and how many tests that were.
#[derive(Clone, Copy, Drop)]
pub(crate) struct Noted {
    row: Row,
    tests: u64,
}

// Takes notes of the conditions of a kind that a call looks at, where their Pre holds.
fn note_conditions<'p>(
    engine: &mut Engine<'p>,
    reading: Reading,
    kind: Kind,
    pred: u64,
    args: Row,
) -> Result<Noted, NoMemory>
    requires kept { IsKept engine.old }
    requires placed { IsCallPlaced engine.old.program.now (size_of engine.old.heap.changes) pred args }
    ensures { IfOk result (λ n. HasNoted reading kind pred args engine.old n engine.new) }
{
    notes_law();
    moments_law();
    moments_give_law();
    let first = engine.notes.len() as u64;
    let tests = take_notes(
        engine.program,
        &engine.heap,
        reading,
        kind,
        pred,
        args,
        &mut engine.notes,
    )?;
    let count = engine.notes.len() as u64 - first;
    let row = Row { first, count };
    Ok(Noted { row, tests })
}

// Makes a mark of conditions, if there are any; its height.
fn add_mark<'p>(
    engine: &mut Engine<'p>,
    pred: u64,
    conditions: Row,
) -> Result<Option<u64>, NoMemory>
    requires kept { IsKept engine.old }
    requires noted { IsRowWithin (length engine.old.notes.items) conditions }
    ensures { IfOk result (λ mark. HasMarked engine.old pred (row_of engine.old.notes.items conditions) mark engine.new) }
{
    pushed_law();
    if conditions.count == 0 {
        return Ok(None);
    }
    let height = engine.height()?;
    engine.add_point(Alternative::Marks(pred, conditions, false))?;
    Ok(Some(height))
}

// Makes a choice point with the clauses of a call that can match, if there are any.
fn add_clauses<'p>(engine: &mut Engine<'p>, exit: Exit, rest: u64) -> Result<(), NoMemory>
    requires kept { IsKept engine.old }
    requires placed { IsCallPlaced engine.old.program.now (size_of engine.old.heap.changes) exit.pred exit.args }
    requires noted { IsRowWithin (length engine.old.notes.items) exit.noted }
    requires rest { rest ≤ length engine.old.links.items }
    ensures { OnOk result (GoesTo engine.old (length engine.old.links.items) (chosen_now engine.old exit rest ++ choices_at engine.old) engine.new) }
{
    pushed_law();
    selected_law();
    let key = first_key(&engine.heap, exit.args);
    let count = engine.count_selected(exit.pred, key);
    if count == 0 {
        return Ok(());
    }
    let height = engine.height()?;
    let call = Pending { exit, height, rest };
    engine.add_point(Alternative::Retries(key, 0, count, call))?;
    Ok(())
}

// Makes a call that its tests have not ended: takes notes, and makes a mark and choices of the clauses that can match. How many tests Pre
// took, at most the greatest number of 64 bits.
fn make_call<'p>(
    engine: &mut Engine<'p>,
    reading: Reading,
    bound: u64,
    pred: u64,
    args: Row,
    rest: u64,
) -> Result<u64, NoMemory>
    requires kept { IsKept engine.old }
    requires placed { IsCallPlaced engine.old.program.now (size_of engine.old.heap.changes) pred args }
    requires rest { rest ≤ length engine.old.links.items }
    requires bound { engine.old.calls < bound }
    ensures { IfOk result (λ tests. HasCalled reading bound pred args rest engine.old tests engine.new) }
{
    engine.let_go(rest);
    let marked = note_conditions(engine, reading, Kind::Comp, pred, args)?;
    let mark = add_mark(engine, pred, marked.row)?;
    let noted = note_conditions(engine, reading, Kind::Success, pred, args)?;
    let exit = Exit {
        pred,
        args,
        noted: noted.row,
        mark,
    };
    add_clauses(engine, exit, rest)?;
    engine.calls += 1;
    Ok(noted.tests.saturating_add(marked.tests))
}

/// At a call, with the place of its arguments, its height, the place of its clause and the link behind it. At the bound no
/// more is tested; conditions that are broken are told, or the first of them ends the run.
///
/// # Errors
///
/// Only for want of memory.
pub fn do_call<'p>(
    engine: &mut Engine<'p>,
    reading: Reading,
    bound: u64,
    told: &mut Vec<u64>,
    pred: u64,
    args: Row,
    height: u64,
    place: Place,
    rest: u64,
) -> Result<Turn<'p>, NoMemory>
    requires whole { IsWhole engine.old (Calling pred args height place rest) }
    requires none { told.old.items ≡ [] }
    ensures { IfOk result (λ turn. HasTurned reading bound engine.old (call_state engine.old pred args height place rest) (map Broken told.new.items) turn.tests engine.new turn.stage) }
{
    calls_law();
    chosen_law();
    left_out_law();
    moves_law();
    leaner_states_law();
    if engine.calls >= bound {
        let stage = Stage::Over(Ending::Bound);
        return Ok(Turn { stage, tests: 0 });
    }
    let tested = test_call(engine, reading, told, pred, args)?;
    match tested.ended {
        Some(ending) => Ok(Turn {
            stage: Stage::Over(ending),
            tests: tested.tests,
        }),
        None => {
            let looked = make_call(engine, reading, bound, pred, args, rest)?;
            Ok(Turn {
                stage: Stage::Failed,
                tests: tested.tests.saturating_add(looked),
            })
        }
    }
}
