// The rows of a table that grows.
ghost use Rattle.std.specs.Prelude.{◌≡◌, ◌<◌, ◌↔◌, length, map, IfOk, IfSome, IsTrue, MatchBool};
ghost use Rattle.prog_data.specs.Values.{seen};
ghost use Rattle.type_domain.specs.Laws.{LeqEach};
ghost use Rattle.goal_transfer.specs.Conditions.{join_each};
ghost use Rattle.goal_transfer.specs.Tables.{row_seen, facts_of, IsReached, HasExit};
ghost use Rattle.goal_transfer.specs.States.{list_seen};
ghost use Rattle.fixpoint_analyser.specs.Ascent.{nones, unreached, bottom, called_row, exited_row, with_call, with_exit};

use prog_data::{Program, Row, Value};
use sqlite_items::Items;
use std::alloc::Global;
use term_core::NoMemory;
use type_domain::{join, leq};

// None for each of so many arguments.
fn nones(alloc: Global, arity: u64) -> Result<Items<Value>, NoMemory>
    ensures { IfOk result (λ vs. map seen vs ≡ nones arity) }
{
    let mut values = Items::new(alloc);
    for _argument in 0..arity {
        values.push(Value { names: None })?;
    }
    Ok(values)
}

// The row of a predicate that is not reached.
fn unreached(alloc: Global, arity: u64) -> Result<Row, NoMemory>
    ensures { IfOk result (λ r. row_seen r ≡ unreached arity) }
{
    Ok(Row {
        reached: false,
        entry: nones(alloc, arity)?,
        exits: false,
        exit: nones(alloc, arity)?,
    })
}

/// The rows of the table in which nothing is reached.
///
/// # Errors
///
/// Only for want of memory.
pub(crate) fn bottom(alloc: Global, program: &Program) -> Result<Vec<Row>, NoMemory>
    ensures { IfOk result (λ rows. map row_seen rows.items ≡ bottom program.now) }
{
    let mut rows = Vec::new(alloc);
    for pred in program.preds.as_slice() {
        rows.push(unreached(alloc, pred.arity)?)?;
    }
    Ok(rows)
}

// Whether each value says at least as much as the one in its place.
fn leq_each(left: &[Value], right: &[Value]) -> bool
    requires { length left.now ≡ length right.now }
    ensures { IsTrue result ↔ LeqEach (map seen left.now) (map seen right.now) }
{
    for (index, value) in left.iter().enumerate() {
        if !leq(value, &right[index]) {
            return false;
        }
    }
    true
}

// Whether a flag is set and each value says at least as much as the one in its place.
fn is_known(flag: bool, values: &[Value], had: &[Value]) -> bool
    requires { length values.now ≡ length had.now }
    ensures { IsTrue result ↔ (IsTrue flag × LeqEach (map seen values.now) (map seen had.now)) }
{
    if !flag {
        return false;
    }
    leq_each(values, had)
}

// Joins each value with the one in its place.
fn join_each(values: &mut Items<Value>, others: &[Value])
    requires { length others.now ≡ length values.old }
    ensures { map seen values.new ≡ join_each (map seen values.old) (map seen others.now) }
{
    for (index, other) in others.iter().enumerate() {
        let joined = join(&values.as_slice()[index], other);
        values.set(index, joined);
    }
}

// Joins a call into its row; whether the row did not have it.
fn call_row(row: &mut Row, args: &[Value]) -> bool
    requires { length args.now ≡ length row.old.entry }
    ensures row { row_seen row.new ≡ called_row (map seen args.now) (row_seen row.old) }
    ensures changed { MatchBool result (IsTrue row.old.reached × LeqEach (map seen args.now) (map seen row.old.entry) → ⊥) ((IsTrue row.old.reached × LeqEach (map seen args.now) (map seen row.old.entry)) × (row.new ≡ row.old)) }
{
    if is_known(row.reached, args, row.entry.as_slice()) {
        return false;
    }
    row.reached = true;
    join_each(&mut row.entry, args);
    true
}

// Joins an exit into its row; whether the row did not have it.
fn exit_row(row: &mut Row, values: &[Value]) -> bool
    requires { length values.now ≡ length row.old.exit }
    ensures row { row_seen row.new ≡ exited_row (map seen values.now) (row_seen row.old) }
    ensures changed { MatchBool result (IsTrue row.old.exits × LeqEach (map seen values.now) (map seen row.old.exit) → ⊥) ((IsTrue row.old.exits × LeqEach (map seen values.now) (map seen row.old.exit)) × (row.new ≡ row.old)) }
{
    if is_known(row.exits, values, row.exit.as_slice()) {
        return false;
    }
    row.exits = true;
    join_each(&mut row.exit, values);
    true
}

/// Joins a call into its predicate's row; whether the row did not have it. Where it had, no row is changed.
pub(crate) fn join_call(rows: &mut [Row], pred: u64, args: &[Value]) -> bool
    requires pred { pred < length rows.old }
    requires count { length args.now ≡ length (facts_of (map row_seen rows.old) pred).entry }
    ensures rows { map row_seen rows.new ≡ with_call (map row_seen rows.old) (pred, map seen args.now) }
    ensures changed { MatchBool result (IsReached (map row_seen rows.old) (pred, map seen args.now) → ⊥) (IsReached (map row_seen rows.old) (pred, map seen args.now) × (rows.new ≡ rows.old)) }
{
    call_row(&mut rows[pred as usize], args)
}

// Joins the values of an exit into a row; whether the row did not have them.
fn join_values(rows: &mut [Row], pred: u64, values: &[Value]) -> bool
    requires pred { pred < length rows.old }
    requires count { length values.now ≡ length (facts_of (map row_seen rows.old) pred).exit }
    ensures rows { map row_seen rows.new ≡ with_exit (map row_seen rows.old) pred (Some (map seen values.now)) }
    ensures changed { MatchBool result (HasExit (facts_of (map row_seen rows.old) pred) (Some (map seen values.now)) → ⊥) (HasExit (facts_of (map row_seen rows.old) pred) (Some (map seen values.now)) × (rows.new ≡ rows.old)) }
{
    exit_row(&mut rows[pred as usize], values)
}

/// Joins an exit, if there is one, into its predicate's row; whether the row did not have it. Where it had, no row is changed.
pub(crate) fn join_exit(rows: &mut [Row], pred: u64, exit: &Option<Items<Value>>) -> bool
    requires pred { pred < length rows.old }
    requires count { IfSome exit.now (λ vs. length vs ≡ length (facts_of (map row_seen rows.old) pred).exit) }
    ensures rows { map row_seen rows.new ≡ with_exit (map row_seen rows.old) pred (list_seen exit.now) }
    ensures changed { MatchBool result (HasExit (facts_of (map row_seen rows.old) pred) (list_seen exit.now) → ⊥) (HasExit (facts_of (map row_seen rows.old) pred) (list_seen exit.now) × (rows.new ≡ rows.old)) }
{
    match exit {
        None => false,
        Some(values) => join_values(rows, pred, values.as_slice()),
    }
}
