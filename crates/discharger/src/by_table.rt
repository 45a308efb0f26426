// The statuses of a program's conditions by a table.
ghost use Rattle.std.specs.Prelude.{◌≡◌, true, length, IfOk};
ghost use Rattle.prog_data.specs.Goals.{pred_of};
ghost use Rattle.prog_data.specs.Programs.{IsProgram};
ghost use Rattle.prog_data.specs.Ranges.{is_kind_of};
ghost use Rattle.machine_model.specs.Points.{Sound, Described};
ghost use Rattle.goal_transfer.specs.Statuses.{status_of, statuses_of};
ghost use Rattle.goal_transfer.specs.Tables.{table_seen, Closed};

use crate::by_row::kind_status;
use crate::laws::{described_law, sound_law};
use name_order::Relations;
use prog_data::{Cond, Program, Status, Table};
use sqlite_items::Items;
use std::alloc::Global;
use term_core::NoMemory;

// How many arguments a predicate has; none where it is not there.
fn arity_of(program: &Program, pred: u64) -> u64
    ensures { result ≡ (pred_of program.now pred).arity }
{
    match program.preds.get(pred as usize) {
        Some(found) => found.arity,
        None => 0,
    }
}

// The status of a condition. A predicate without a row is not reached.
fn status_of(
    alloc: Global,
    program: &Program,
    rel: &Relations,
    table: &Table,
    cond: &Cond,
) -> Result<Status, NoMemory>
    requires grammar { rel.now ≡ program.now.grammar }
    requires kind { is_kind_of (pred_of program.now cond.now.pred).arity (length program.now.grammar.rules) cond.now.kind ≡ true }
    ensures { IfOk result (λ s. s ≡ status_of program.now (table_seen table.now) cond.now) }
{
    match table.rows.get(cond.pred as usize) {
        Some(row) => {
            let arity = arity_of(program, cond.pred);
            kind_status(alloc, rel, arity, row, &cond.kind)
        }
        None => Ok(Status::Checked),
    }
}

// The status of each condition, in order.
fn each_status(alloc: Global, program: &Program, table: &Table) -> Result<Items<Status>, NoMemory>
    requires { IsProgram program.now }
    ensures { IfOk result (λ ss. ss ≡ statuses_of program.now (table_seen table.now)) }
{
    let rel = Relations::make(alloc, &program.grammar)?;
    let mut made = Items::new(alloc);
    for cond in program.conds.as_slice() {
        made.push(status_of(alloc, program, &rel, table, cond)?)?;
    }
    Ok(made)
}

/// The status of each condition of a program, in order of number, by a table that is closed for it. In every run of a query
/// that meets an entry, a condition that is checked holds wherever it is due, and one that is false nowhere; and the table
/// describes each call and each exit.
///
/// # Errors
///
/// Only for want of memory.
pub fn statuses(alloc: Global, program: &Program, table: &Table) -> Result<Items<Status>, NoMemory>
    requires range { IsProgram program.now }
    requires closed { Closed program.now (table_seen table.now) }
    ensures value { IfOk result (λ ss. ss ≡ statuses_of program.now (table_seen table.now)) }
    ensures sound { IfOk result (λ ss. Sound program.now ss) }
    ensures described { Described program.now table.now }
{
    sound_law(); // for the proof
    described_law(); // for the proof
    each_status(alloc, program, table)
}
