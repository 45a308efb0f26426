// The narrowed exits of a table that grows.
ghost use Rattle.std.specs.Prelude.{◌≡◌, ℕ, ◌<◌, length, map, IfOk, OnOk};
ghost use Rattle.prog_data.specs.Programs.{IsProgram};
ghost use Rattle.prog_data.specs.Values.{seen};
ghost use Rattle.name_order.specs.Relations.{Order, order};
ghost use Rattle.goal_transfer.specs.Conditions.{narrowed_exit};
ghost use Rattle.goal_transfer.specs.Tables.{row_seen, exit_where, exits_of};
ghost use Rattle.goal_transfer.specs.States.{list_seen, exits_seen};
ghost use Rattle.fixpoint_analyser.specs.Ascent.{bottom};

use goal_transfer::narrowed_exit;
use name_order::Relations;
use prog_data::{Program, Row, Value};
use sqlite_items::Items;
use std::alloc::Global;
use term_core::NoMemory;

/// No exit for each predicate, as in the table in which nothing is reached.
///
/// # Errors
///
/// Only for want of memory.
pub(crate) fn no_exits(
    alloc: Global,
    program: &Program,
) -> Result<Vec<Option<Items<Value>>>, NoMemory>
    ensures count { IfOk result (λ es. length es.items ≡ length program.now.preds) }
    ensures exits { (o : Order) → IfOk result (λ es. exits_seen es.items ≡ exits_of program.now o (bottom program.now)) }
{
    let mut exits = Vec::new(alloc);
    for _pred in program.preds.as_slice() {
        exits.push(None)?;
    }
    Ok(exits)
}

// The narrowed exit of a predicate, by its row, if it exits.
fn row_exit(
    alloc: Global,
    program: &Program,
    rel: &Relations,
    pred: u64,
    row: &Row,
) -> Result<Option<Items<Value>>, NoMemory>
    requires grammar { rel.now ≡ program.now.grammar }
    requires range { IsProgram program.now }
    ensures { IfOk result (λ e. list_seen e ≡ exit_where row.now.exits (narrowed_exit program.now (order rel.now) pred (map seen row.now.entry) (map seen row.now.exit))) }
{
    if !row.exits {
        return Ok(None);
    }
    let entry = row.entry.as_slice();
    let narrowed = narrowed_exit(alloc, program, rel, pred, entry, row.exit.as_slice())?;
    Ok(Some(narrowed))
}

/// Stores the narrowed exit of a predicate anew, by its row.
///
/// # Errors
///
/// Only for want of memory; then no exit is changed.
pub(crate) fn store_exit(
    alloc: Global,
    program: &Program,
    rel: &Relations,
    rows: &[Row],
    exits: &mut [Option<Items<Value>>],
    pred: u64,
) -> Result<(), NoMemory>
    requires grammar { rel.now ≡ program.now.grammar }
    requires range { IsProgram program.now }
    requires row { pred < length rows.now }
    requires place { pred < length exits.old }
    ensures stored { OnOk result (exits_seen exits.new pred ≡ exits_of program.now (order rel.now) (map row_seen rows.now) pred) }
    ensures others { (p : ℕ) → (p ≡ pred → ⊥) → exits_seen exits.new p ≡ exits_seen exits.old p }
{
    let exit = row_exit(alloc, program, rel, pred, &rows[pred as usize])?;
    exits[pred as usize] = exit;
    Ok(())
}
