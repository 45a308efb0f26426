// The calls of transfer: two terms, a goal, a clause.
ghost use Rattle.std.specs.Prelude.{◌≡◌, ◌≤◌, ◌<◌, true, ◌++◌, length, map, slice_get, Some, IfSome, IfOk, OnOk, OnErr};
ghost use Rattle.term_core.specs.Terms.{above};
ghost use Rattle.prog_data.specs.declared.programs.Clause.{Clause};
ghost use Rattle.prog_data.specs.Goals.{pred_of};
ghost use Rattle.prog_data.specs.Ranges.{is_body_of};
ghost use Rattle.prog_data.specs.Programs.{IsProgram};
ghost use Rattle.name_order.specs.Relations.{Order, order};
ghost use Rattle.goal_transfer.specs.Transfer.{known_where, then_known, unify_values, from_known, run_goal};
ghost use Rattle.goal_transfer.specs.Tables.{table_seen, exits_of, clause_effect};
ghost use Rattle.goal_transfer.specs.States.{values_seen, state_seen, call_seen, effect_seen};

use crate::bodies::run;
use crate::clauses::run_clause_by;
use crate::exits::{entry_of, narrowed_exits};
use crate::lists::copied;
use crate::states::{Effect, Reached, State};
use crate::unifying::unify;
use name_order::Relations;
use prog_data::{Goal, Program, Table, Value};
use std::alloc::Global;
use term_core::{NoMemory, Term};

// The values, or none.
fn state_of(values: Vec<Value>, kept: bool) -> State
    ensures { (o : Order) → state_seen o result ≡ known_where kept (values_seen o values.items) }
{
    if kept {
        State {
            values: Some(values),
        }
    } else {
        State { values: None }
    }
}

/// Two terms are unified: the state is what is known after it.
///
/// # Errors
///
/// Only for want of memory. Then the state is as before.
pub fn unify_values(
    alloc: Global,
    program: &Program,
    rel: &Relations,
    state: &mut State,
    left: &Term,
    right: &Term,
) -> Result<(), NoMemory>
    requires grammar { rel.now ≡ program.now.grammar }
    requires left { IfSome state.old.values (λ vs. above left.now ≤ length vs.items) }
    requires right { IfSome state.old.values (λ vs. above right.now ≤ length vs.items) }
    ensures known { OnOk result (state_seen (order rel.now) state.new ≡ then_known (state_seen (order rel.now) state.old) (unify_values (order rel.now) left.now right.now)) }
    ensures same { OnErr result (state.new ≡ state.old) }
{
    match &state.values {
        None => Ok(()),
        Some(values) => {
            let mut changed = copied(alloc, values)?;
            let kept = unify(alloc, &program.grammar, rel, left, right, &mut changed)?;
            *state = state_of(changed, kept);
            Ok(())
        }
    }
}

/// A goal is run: the state is what is known after it, and the calls that it reaches come behind those before. `table` says
/// what is known of exits.
///
/// # Errors
///
/// Only for want of memory. Then the state and the calls are as before.
pub fn run_goal(
    alloc: Global,
    program: &Program,
    rel: &Relations,
    table: &Table,
    state: &mut State,
    goal: &Goal,
    calls: &mut Vec<Reached>,
) -> Result<(), NoMemory>
    requires grammar { rel.now ≡ program.now.grammar }
    requires range { IsProgram program.now }
    requires goal { IfSome state.old.values (λ vs. is_body_of program.now (length vs.items) goal.now ≡ true) }
    ensures known { OnOk result (state_seen (order rel.now) state.new ≡ (from_known (state_seen (order rel.now) state.old) (run_goal (order rel.now) (exits_of program.now (order rel.now) (table_seen table.now)) goal.now)).known) }
    ensures calls { OnOk result (map call_seen calls.new.items ≡ map call_seen calls.old.items ++ (from_known (state_seen (order rel.now) state.old) (run_goal (order rel.now) (exits_of program.now (order rel.now) (table_seen table.now)) goal.now)).calls) }
    ensures same_state { OnErr result (state.new ≡ state.old) }
    ensures same_calls { OnErr result (calls.new.items ≡ calls.old.items) }
{
    match &state.values {
        None => Ok(()),
        Some(values) => {
            let stored = narrowed_exits(alloc, program, rel, table)?;
            let exits = stored.as_slice();
            let mut changed = copied(alloc, values)?;
            let mut made = Vec::new(alloc);
            let kept = run(alloc, program, rel, exits, goal, &mut changed, &mut made)?;
            calls.append(&mut made)?;
            *state = state_of(changed, kept);
            Ok(())
        }
    }
}

/// What a clause of a predicate gives by a table: the values of its exit, if its state is not none, and the calls that it
/// reaches.
///
/// # Errors
///
/// Only for want of memory.
pub fn run_clause(
    alloc: Global,
    program: &Program,
    rel: &Relations,
    table: &Table,
    pred: u64,
    clause: u64,
) -> Result<Effect, NoMemory>
    requires grammar { rel.now ≡ program.now.grammar }
    requires range { IsProgram program.now }
    requires pred { pred < length program.now.preds }
    requires clause { clause < length (pred_of program.now pred).clauses }
    ensures { (c : Clause) → slice_get (pred_of program.now pred).clauses clause ≡ Some c → IfOk result (λ e. effect_seen e ≡ clause_effect program.now (order rel.now) (table_seen table.now) pred c) }
{
    let exits = narrowed_exits(alloc, program, rel, table)?;
    let entry = entry_of(table, pred);
    run_clause_by(alloc, program, rel, exits.as_slice(), entry, pred, clause)
}
