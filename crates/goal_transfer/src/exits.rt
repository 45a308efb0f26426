// The narrowed exits of a table.
ghost use Rattle.std.specs.Prelude.{◌≡◌, map, IfOk};
ghost use Rattle.prog_data.specs.Programs.{IsProgram};
ghost use Rattle.prog_data.specs.Values.{seen};
ghost use Rattle.name_order.specs.Relations.{order};
ghost use Rattle.goal_transfer.specs.Conditions.{narrowed_exit};
ghost use Rattle.goal_transfer.specs.Tables.{table_seen, facts_of, exit_where, exits_of};
ghost use Rattle.goal_transfer.specs.States.{list_seen, exits_seen};

use crate::narrowing::narrowed_exit;
use name_order::Relations;
use prog_data::{Program, Row, Table, Value};
use sqlite_items::Items;
use std::alloc::Global;
use term_core::NoMemory;

// The narrowed exit of a predicate, by its row, if it exits.
fn row_exit(
    alloc: Global,
    program: &Program,
    rel: &Relations,
    pred: u64,
    row: &Row,
) -> Result<Option<Items<Value>>, NoMemory>
    requires grammar { rel.now ≡ program.now.grammar }
    requires range { IsProgram program.now }
    ensures { IfOk result (λ e. list_seen e ≡ exit_where row.now.exits (narrowed_exit program.now (order rel.now) pred (map seen row.now.entry) (map seen row.now.exit))) }
{
    if !row.exits {
        return Ok(None);
    }
    let entry = row.entry.as_slice();
    let narrowed = narrowed_exit(alloc, program, rel, pred, entry, row.exit.as_slice())?;
    Ok(Some(narrowed))
}

/// The narrowed exit of each predicate, by a table; none where it does not exit.
///
/// # Errors
///
/// Only for want of memory.
pub fn narrowed_exits(
    alloc: Global,
    program: &Program,
    rel: &Relations,
    table: &Table,
) -> Result<Items<Option<Items<Value>>>, NoMemory>
    requires grammar { rel.now ≡ program.now.grammar }
    requires range { IsProgram program.now }
    ensures { IfOk result (λ es. exits_seen es ≡ exits_of program.now (order rel.now) (table_seen table.now)) }
{
    let mut made = Items::new(alloc);
    for (pred, row) in table.rows.as_slice().iter().enumerate() {
        made.push(row_exit(alloc, program, rel, pred as u64, row)?)?;
    }
    Ok(made)
}

/// The values of a predicate's calls, by a table.
pub(crate) fn entry_of(table: &Table, pred: u64) -> &[Value]
    ensures { map seen result.now ≡ (facts_of (table_seen table.now) pred).entry }
{
    match table.rows.get(pred as usize) {
        Some(row) => row.entry.as_slice(),
        None => &[],
    }
}
