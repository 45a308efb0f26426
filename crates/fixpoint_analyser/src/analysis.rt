// The analysis: predicates are looked at as long as one waits.
ghost use Rattle.std.specs.Prelude.{◌≡◌, ◌⊎◌, ℕ, ◌<◌, true, false, length, map, slice_get, Some, Contains, IsTrue, IfOk, OnOk};
ghost use Rattle.prog_data.specs.declared.programs.Clause.{Clause as ClauseValue};
ghost use Rattle.prog_data.specs.declared.programs.Entry.{Entry as EntryValue};
ghost use Rattle.prog_data.specs.Goals.{pred_of};
ghost use Rattle.prog_data.specs.Programs.{IsProgram};
ghost use Rattle.goal_transfer.specs.Tables.{row_seen, table_seen, facts_of, Least, TableLeq};
ghost use Rattle.fixpoint_analyser.specs.Ascent.{bottom, IsDoneFor, IsDone};
ghost use Rattle.fixpoint_analyser.specs.Progress.{AreCallers, IsUnderWay, Steps, FirstSettled, IsSettled, IsEntered};
ghost use Rattle.fixpoint_analyser.specs.Waits.{waits};

use crate::callers::callers_of;
use crate::exits::no_exits;
use crate::laws::relied_law;
use crate::rows::bottom;
use crate::steps::{take_call, take_effect};
use crate::waiting::Waiting;
use goal_transfer::{Reached, run_clause_by, types_of};
use name_order::Relations;
use prog_data::{Entry, Program, Row, Table, Value};
use sqlite_items::Items;
use std::alloc::Global;
use term_core::NoMemory;
use type_domain::all_set;

// A clause of a predicate that is reached is run, and what it gives is joined into the table.
fn run_one(
    alloc: Global,
    program: &Program,
    rel: &Relations,
    callers: &[Items<u64>],
    rows: &mut [Row],
    exits: &mut [Option<Items<Value>>],
    waiting: &mut Waiting,
    pred: u64,
    clause: u64,
) -> Result<(), NoMemory>
    requires grammar { rel.now ≡ program.now.grammar }
    requires range { IsProgram program.now }
    requires callers { AreCallers program.now callers.now }
    requires under_way { IsUnderWay program.now rows.old exits.old waiting.old }
    requires pred { pred < length program.now.preds }
    requires clause { clause < length (pred_of program.now pred).clauses }
    requires reached { IsTrue (facts_of (map row_seen rows.old) pred).reached }
    ensures steps { OnOk result (Steps program.now rows.old waiting.old rows.new exits.new waiting.new) }
    ensures settled { OnOk result ((c : ClauseValue) → slice_get (pred_of program.now pred).clauses clause ≡ Some c → (waits waiting.new pred ≡ true) ⊎ IsDoneFor program.now (map row_seen rows.new) pred c) }
{
    relied_law(); // for the proof
    let entry = rows[pred as usize].entry.as_slice();
    let effect = run_clause_by(alloc, program, rel, exits, entry, pred, clause)?;
    take_effect(
        alloc, program, rel, callers, rows, exits, waiting, pred, &effect,
    )?;
    Ok(())
}

// Each clause of a predicate that is reached is run.
fn run_all(
    alloc: Global,
    program: &Program,
    rel: &Relations,
    callers: &[Items<u64>],
    rows: &mut [Row],
    exits: &mut [Option<Items<Value>>],
    waiting: &mut Waiting,
    pred: u64,
) -> Result<(), NoMemory>
    requires grammar { rel.now ≡ program.now.grammar }
    requires range { IsProgram program.now }
    requires callers { AreCallers program.now callers.now }
    requires under_way { IsUnderWay program.now rows.old exits.old waiting.old }
    requires pred { pred < length program.now.preds }
    requires reached { IsTrue (facts_of (map row_seen rows.old) pred).reached }
    ensures steps { OnOk result (Steps program.now rows.old waiting.old rows.new exits.new waiting.new) }
    ensures settled { OnOk result (IsSettled program.now (map row_seen rows.new) waiting.new pred) }
{
    relied_law(); // for the proof
    let count = program.preds.as_slice()[pred as usize].clauses.len() as u64;
    for clause in 0..count {
        run_one(
            alloc, program, rel, callers, rows, exits, waiting, pred, clause,
        )?;
    }
    Ok(())
}

// A predicate is looked at: its clauses are run if it is reached.
fn turn(
    alloc: Global,
    program: &Program,
    rel: &Relations,
    callers: &[Items<u64>],
    rows: &mut [Row],
    exits: &mut [Option<Items<Value>>],
    waiting: &mut Waiting,
    pred: u64,
) -> Result<(), NoMemory>
    requires grammar { rel.now ≡ program.now.grammar }
    requires range { IsProgram program.now }
    requires callers { AreCallers program.now callers.now }
    requires under_way { IsUnderWay program.now rows.old exits.old waiting.old }
    requires pred { pred < length program.now.preds }
    ensures steps { OnOk result (Steps program.now rows.old waiting.old rows.new exits.new waiting.new) }
    ensures settled { OnOk result (IsSettled program.now (map row_seen rows.new) waiting.new pred) }
{
    relied_law(); // for the proof
    let reached = rows[pred as usize].reached;
    if !reached {
        return Ok(());
    }
    run_all(alloc, program, rel, callers, rows, exits, waiting, pred)?;
    Ok(())
}

// Predicates are looked at until none waits.
fn run_waiting(
    alloc: Global,
    program: &Program,
    rel: &Relations,
    callers: &[Items<u64>],
    rows: &mut [Row],
    exits: &mut [Option<Items<Value>>],
    waiting: &mut Waiting,
) -> Result<(), NoMemory>
    requires grammar { rel.now ≡ program.now.grammar }
    requires range { IsProgram program.now }
    requires callers { AreCallers program.now callers.now }
    requires under_way { IsUnderWay program.now rows.old exits.old waiting.old }
    requires settled { (p : ℕ) → IsSettled program.now (map row_seen rows.old) waiting.old p }
    ensures under_way { OnOk result (IsUnderWay program.now rows.new exits.new waiting.new) }
    ensures grown { OnOk result (TableLeq (map row_seen rows.old) (map row_seen rows.new)) }
    ensures done { OnOk result ((p : ℕ) → IsTrue (facts_of (map row_seen rows.new) p).reached → IsDone program.now (map row_seen rows.new) p) }
{
    relied_law(); // for the proof
    while let Some(pred) = waiting.take() {
        turn(alloc, program, rel, callers, rows, exits, waiting, pred)?;
    }
    Ok(())
}

// The call of an entry is joined into the table, if a query can meet it.
fn enter(
    alloc: Global,
    program: &Program,
    rel: &Relations,
    callers: &[Items<u64>],
    rows: &mut [Row],
    exits: &mut [Option<Items<Value>>],
    waiting: &mut Waiting,
    entry: &Entry,
) -> Result<(), NoMemory>
    requires grammar { rel.now ≡ program.now.grammar }
    requires range { IsProgram program.now }
    requires callers { AreCallers program.now callers.now }
    requires under_way { IsUnderWay program.now rows.old exits.old waiting.old }
    requires entry { Contains program.now.entries entry.now }
    ensures steps { OnOk result (Steps program.now rows.old waiting.old rows.new exits.new waiting.new) }
    ensures entered { OnOk result (IsEntered program.now (map row_seen rows.new) entry.now) }
{
    relied_law(); // for the proof
    let pred = entry.pred;
    let arity = program.preds.as_slice()[pred as usize].arity;
    let args = types_of(alloc, rel, arity, entry.pre.as_slice())?;
    if !all_set(args.as_slice()) {
        return Ok(());
    }
    let call = Reached { pred, args };
    take_call(alloc, program, rel, callers, rows, exits, waiting, &call)?;
    Ok(())
}

// The calls of the entries are joined into the table.
fn enter_all(
    alloc: Global,
    program: &Program,
    rel: &Relations,
    callers: &[Items<u64>],
    rows: &mut [Row],
    exits: &mut [Option<Items<Value>>],
    waiting: &mut Waiting,
) -> Result<(), NoMemory>
    requires grammar { rel.now ≡ program.now.grammar }
    requires range { IsProgram program.now }
    requires callers { AreCallers program.now callers.now }
    requires under_way { IsUnderWay program.now rows.old exits.old waiting.old }
    ensures steps { OnOk result (Steps program.now rows.old waiting.old rows.new exits.new waiting.new) }
    ensures entered { OnOk result ((e : EntryValue) → Contains program.now.entries e → IsEntered program.now (map row_seen rows.new) e) }
{
    relied_law(); // for the proof
    for entry in program.entries.as_slice() {
        enter(alloc, program, rel, callers, rows, exits, waiting, entry)?;
    }
    Ok(())
}

// From the table in which nothing is reached to the least closed one.
fn ascend(
    alloc: Global,
    program: &Program,
    rel: &Relations,
    callers: &[Items<u64>],
    rows: &mut [Row],
    exits: &mut [Option<Items<Value>>],
    waiting: &mut Waiting,
) -> Result<(), NoMemory>
    requires grammar { rel.now ≡ program.now.grammar }
    requires range { IsProgram program.now }
    requires callers { AreCallers program.now callers.now }
    requires under_way { IsUnderWay program.now rows.old exits.old waiting.old }
    requires bottom { map row_seen rows.old ≡ bottom program.now }
    ensures { OnOk result (Least program.now (map row_seen rows.new)) }
{
    relied_law(); // for the proof
    enter_all(alloc, program, rel, callers, rows, exits, waiting)?;
    run_waiting(alloc, program, rel, callers, rows, exits, waiting)?;
    Ok(())
}

/// The least closed table of a program: what is known of the calls and exits of each predicate in every run of a query that
/// meets an entry.
///
/// # Errors
///
/// Only for want of memory.
pub fn analyse(alloc: Global, program: &Program) -> Result<Table, NoMemory>
    requires { IsProgram program.now }
    ensures { IfOk result (λ table. Least program.now (table_seen table)) }
{
    relied_law(); // for the proof
    let rel = Relations::make(alloc, &program.grammar)?;
    let callers = callers_of(alloc, program)?;
    let mut rows = bottom(alloc, program)?;
    let mut exits = no_exits(alloc, program)?;
    let mut waiting = Waiting::none(alloc, rows.len())?;
    ascend(
        alloc,
        program,
        &rel,
        callers.as_slice(),
        &mut rows,
        &mut exits,
        &mut waiting,
    )?;
    Ok(Table {
        rows: Items::from_vec(rows),
    })
}
