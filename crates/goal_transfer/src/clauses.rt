// What comes of clauses.
ghost use Rattle.std.specs.Prelude.{◌≡◌, ◌<◌, nat_le, true, length, map, slice_get, Some, IfOk};
ghost use Rattle.std.specs.List.{list_all};
ghost use Rattle.term_core.specs.Terms.{above};
ghost use Rattle.prog_data.specs.Goals.{pred_of};
ghost use Rattle.prog_data.specs.Ranges.{is_body_of, is_clause_of};
ghost use Rattle.prog_data.specs.Programs.{IsProgram};
ghost use Rattle.prog_data.specs.Values.{seen};
ghost use Rattle.name_order.specs.Relations.{order};
ghost use Rattle.goal_transfer.specs.Transfer.{from_known, push_each, run_goal};
ghost use Rattle.goal_transfer.specs.Conditions.{narrowed_entry};
ghost use Rattle.goal_transfer.specs.Tables.{unknown, behind_head, effect_of};
ghost use Rattle.goal_transfer.specs.States.{values_seen, exits_seen, effect_seen};

use crate::bodies::run;
use crate::goals::{push_each, values_of};
use crate::narrowing::narrowed_entry;
use crate::states::Effect;
use name_order::Relations;
use prog_data::{Clause, Program, TERM_TYPE, Value, program_ranges_law};
use sqlite_items::Items;
use std::alloc::Global;
use term_core::NoMemory;
use type_domain::of_name;

// A value for each variable, of which nothing is known.
fn nothing_known(alloc: Global, rel: &Relations, vars: u64) -> Result<Vec<Value>, NoMemory>
    ensures size { IfOk result (λ vs. length vs.items ≡ vars) }
    ensures values { IfOk result (λ vs. values_seen (order rel.now) vs.items ≡ unknown (order rel.now)) }
{
    rel.range();
    let all = of_name(rel, TERM_TYPE);
    let mut made = Vec::new(alloc);
    while (made.len() as u64) < vars {
        made.push(all)?;
    }
    Ok(made)
}

// A clause, from the values of a call's arguments on.
fn run_from(
    alloc: Global,
    program: &Program,
    rel: &Relations,
    exits: &[Option<Items<Value>>],
    entry: &[Value],
    clause: &Clause,
) -> Result<Effect, NoMemory>
    requires grammar { rel.now ≡ program.now.grammar }
    requires head { list_all (λ t. nat_le (above t) clause.now.vars) clause.now.head ≡ true }
    requires body { is_body_of program.now clause.now.vars clause.now.body ≡ true }
    ensures { IfOk result (λ e. effect_seen e ≡ effect_of (order rel.now) clause.now (from_known (push_each (order rel.now) clause.now.head (map seen entry.now) (unknown (order rel.now))) (run_goal (order rel.now) (exits_seen exits.now) clause.now.body))) }
{
    let grammar = &program.grammar;
    let head = clause.head.as_slice();
    let mut values = nothing_known(alloc, rel, clause.vars)?;
    let mut calls = Vec::new(alloc);
    if !push_each(grammar, rel, head, entry, &mut values) {
        return Ok(Effect { exit: None, calls });
    }
    if !run(
        alloc,
        program,
        rel,
        exits,
        &clause.body,
        &mut values,
        &mut calls,
    )? {
        return Ok(Effect { exit: None, calls });
    }
    let exit = values_of(alloc, grammar, rel, &values, head)?;
    Ok(Effect {
        exit: Some(exit),
        calls,
    })
}

// A clause of a predicate.
fn clause_at(program: &Program, pred: u64, clause: u64) -> &Clause
    requires range { IsProgram program.now }
    requires pred { pred < length program.now.preds }
    requires clause { clause < length (pred_of program.now pred).clauses }
    ensures found { slice_get (pred_of program.now pred).clauses clause ≡ Some result.now }
    ensures range { is_clause_of program.now (pred_of program.now pred).arity result.now ≡ true }
{
    program_ranges_law(); // for the proof
    let found = &program.preds.as_slice()[pred as usize];
    &found.clauses.as_slice()[clause as usize]
}

/// What a clause of a predicate gives, from the values of the predicate's calls on: those of its exit, if its state is not none,
/// and the calls that it reaches. `exits` has the narrowed exit of each predicate.
///
/// # Errors
///
/// Only for want of memory.
pub fn run_clause_by(
    alloc: Global,
    program: &Program,
    rel: &Relations,
    exits: &[Option<Items<Value>>],
    entry: &[Value],
    pred: u64,
    clause: u64,
) -> Result<Effect, NoMemory>
    requires grammar { rel.now ≡ program.now.grammar }
    requires range { IsProgram program.now }
    requires pred { pred < length program.now.preds }
    requires clause { clause < length (pred_of program.now pred).clauses }
    ensures { (c : Clause) → slice_get (pred_of program.now pred).clauses clause ≡ Some c → IfOk result (λ e. effect_seen e ≡ effect_of (order rel.now) c (from_known (behind_head (order rel.now) (narrowed_entry program.now (order rel.now) pred (map seen entry.now)) c) (run_goal (order rel.now) (exits_seen exits.now) c.body))) }
{
    let found = clause_at(program, pred, clause);
    match narrowed_entry(alloc, program, rel, pred, entry)? {
        None => Ok(Effect {
            exit: None,
            calls: Vec::new(alloc),
        }),
        Some(narrowed) => run_from(alloc, program, rel, exits, narrowed.as_slice(), found),
    }
}
