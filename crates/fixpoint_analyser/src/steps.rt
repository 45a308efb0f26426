// One step of the analysis: what a call, an exit and a clause add to the table.
ghost use Rattle.std.specs.Prelude.{◌≡◌, ◌==◌, ◌<◌, ◌&&◌, ◌||◌, [], length, map, slice_index_or, IsTrue, OnOk};
ghost use Rattle.std.specs.List.{AllByRecursion};
ghost use Rattle.prog_data.specs.Programs.{IsProgram};
ghost use Rattle.name_order.specs.Relations.{order};
ghost use Rattle.goal_transfer.specs.Range.{CallGiven};
ghost use Rattle.goal_transfer.specs.Laws.{ExitGiven};
ghost use Rattle.goal_transfer.specs.States.{list_seen, call_seen, effect_seen};
ghost use Rattle.goal_transfer.specs.Tables.{row_seen, facts_of, IsReached, HasExit};
ghost use Rattle.fixpoint_analyser.specs.Callers.{stands_in};
ghost use Rattle.fixpoint_analyser.specs.Laws.{AllReach, AllExit};
ghost use Rattle.fixpoint_analyser.specs.Progress.{AreCallers, IsUnderWay, Steps, Wakes, IsFit};

use crate::exits::store_exit;
use crate::laws::relied_law;
use crate::rows::{join_call, join_exit};
use crate::waiting::Waiting;
use goal_transfer::{Effect, Reached};
use name_order::Relations;
use prog_data::{Program, Row, Value};
use sqlite_items::Items;
use std::alloc::Global;
use term_core::NoMemory;

// A predicate waits whose calls have changed and, where it exits, each of its callers: its narrowed exit hangs on its calls.
fn wake(
    waiting: &mut Waiting,
    callers: &[Items<u64>],
    pred: u64,
    exits: bool,
) -> Result<(), NoMemory>
    requires pred { pred < length waiting.old }
    requires callers { pred < length callers.now }
    ensures { OnOk result (Wakes waiting.old waiting.new (λ p. (pred == p) || (exits && stands_in (slice_index_or callers.now pred []) p))) }
{
    waiting.add(pred)?;
    if !exits {
        return Ok(());
    }
    waiting.add_all(callers[pred as usize].as_slice())?;
    Ok(())
}

// Each caller of a predicate waits.
fn wake_callers(waiting: &mut Waiting, callers: &[Items<u64>], pred: u64) -> Result<(), NoMemory>
    requires { pred < length callers.now }
    ensures { OnOk result (Wakes waiting.old waiting.new (λ p. stands_in (slice_index_or callers.now pred []) p)) }
{
    let list = &callers[pred as usize];
    waiting.add_all(list.as_slice())?;
    Ok(())
}

/// A call is joined into its predicate's row. Who has to be looked at again waits.
pub(crate) fn take_call(
    alloc: Global,
    program: &Program,
    rel: &Relations,
    callers: &[Items<u64>],
    rows: &mut [Row],
    exits: &mut [Option<Items<Value>>],
    waiting: &mut Waiting,
    call: &Reached,
) -> Result<(), NoMemory>
    requires grammar { rel.now ≡ program.now.grammar }
    requires range { IsProgram program.now }
    requires callers { AreCallers program.now callers.now }
    requires under_way { IsUnderWay program.now rows.old exits.old waiting.old }
    requires given { CallGiven program.now (order program.now.grammar) (call_seen call.now) }
    requires all { AllReach program.now (call_seen call.now) }
    ensures steps { OnOk result (Steps program.now rows.old waiting.old rows.new exits.new waiting.new) }
    ensures reached { OnOk result (IsReached (map row_seen rows.new) (call_seen call.now)) }
{
    relied_law(); // for the proof
    let pred = call.pred;
    if !join_call(rows, pred, call.args.as_slice()) {
        return Ok(());
    }
    store_exit(alloc, program, rel, rows, exits, pred)?;
    wake(waiting, callers, pred, rows[pred as usize].exits)?;
    Ok(())
}

/// Calls are joined into their rows, one after the other.
pub(crate) fn take_calls(
    alloc: Global,
    program: &Program,
    rel: &Relations,
    callers: &[Items<u64>],
    rows: &mut [Row],
    exits: &mut [Option<Items<Value>>],
    waiting: &mut Waiting,
    calls: &[Reached],
) -> Result<(), NoMemory>
    requires grammar { rel.now ≡ program.now.grammar }
    requires range { IsProgram program.now }
    requires callers { AreCallers program.now callers.now }
    requires under_way { IsUnderWay program.now rows.old exits.old waiting.old }
    requires given { AllByRecursion (CallGiven program.now (order program.now.grammar)) (map call_seen calls.now) }
    requires all { AllByRecursion (AllReach program.now) (map call_seen calls.now) }
    ensures steps { OnOk result (Steps program.now rows.old waiting.old rows.new exits.new waiting.new) }
    ensures reached { OnOk result (AllByRecursion (IsReached (map row_seen rows.new)) (map call_seen calls.now)) }
{
    relied_law(); // for the proof
    for call in calls {
        take_call(alloc, program, rel, callers, rows, exits, waiting, call)?;
    }
    Ok(())
}

/// An exit of a predicate that is reached, if there is one, is joined into its row. Who has to be looked at again waits.
pub(crate) fn take_exit(
    alloc: Global,
    program: &Program,
    rel: &Relations,
    callers: &[Items<u64>],
    rows: &mut [Row],
    exits: &mut [Option<Items<Value>>],
    waiting: &mut Waiting,
    pred: u64,
    exit: &Option<Items<Value>>,
) -> Result<(), NoMemory>
    requires grammar { rel.now ≡ program.now.grammar }
    requires range { IsProgram program.now }
    requires callers { AreCallers program.now callers.now }
    requires under_way { IsUnderWay program.now rows.old exits.old waiting.old }
    requires pred { pred < length program.now.preds }
    requires reached { IsTrue (facts_of (map row_seen rows.old) pred).reached }
    requires given { ExitGiven program.now (order program.now.grammar) pred (list_seen exit.now) }
    requires all { AllExit program.now pred (list_seen exit.now) }
    ensures steps { OnOk result (Steps program.now rows.old waiting.old rows.new exits.new waiting.new) }
    ensures had { OnOk result (HasExit (facts_of (map row_seen rows.new) pred) (list_seen exit.now)) }
{
    relied_law(); // for the proof
    if !join_exit(rows, pred, exit) {
        return Ok(());
    }
    store_exit(alloc, program, rel, rows, exits, pred)?;
    wake_callers(waiting, callers, pred)?;
    Ok(())
}

/// What a clause of a predicate that is reached gives is joined into the table.
pub(crate) fn take_effect(
    alloc: Global,
    program: &Program,
    rel: &Relations,
    callers: &[Items<u64>],
    rows: &mut [Row],
    exits: &mut [Option<Items<Value>>],
    waiting: &mut Waiting,
    pred: u64,
    effect: &Effect,
) -> Result<(), NoMemory>
    requires grammar { rel.now ≡ program.now.grammar }
    requires range { IsProgram program.now }
    requires callers { AreCallers program.now callers.now }
    requires under_way { IsUnderWay program.now rows.old exits.old waiting.old }
    requires pred { pred < length program.now.preds }
    requires reached { IsTrue (facts_of (map row_seen rows.old) pred).reached }
    requires effect { IsFit program.now pred (effect_seen effect.now) }
    ensures steps { OnOk result (Steps program.now rows.old waiting.old rows.new exits.new waiting.new) }
    ensures reached { OnOk result (AllByRecursion (IsReached (map row_seen rows.new)) (effect_seen effect.now).calls) }
    ensures had { OnOk result (HasExit (facts_of (map row_seen rows.new) pred) (effect_seen effect.now).exit) }
{
    relied_law(); // for the proof
    take_calls(
        alloc,
        program,
        rel,
        callers,
        rows,
        exits,
        waiting,
        &effect.calls,
    )?;
    take_exit(
        alloc,
        program,
        rel,
        callers,
        rows,
        exits,
        waiting,
        pred,
        &effect.exit,
    )?;
    Ok(())
}
