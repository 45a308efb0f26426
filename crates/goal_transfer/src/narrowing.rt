// How conditions narrow entries and exits.
ghost use Rattle.std.specs.Prelude.{◌≡◌, ◌<◌, true, false, length, map, Some, IfOk, MatchOption};
ghost use Rattle.std.specs.List.{list_all};
ghost use Rattle.prog_data.specs.declared.conditions.CondKind.TheVariants as kinds;
ghost use Rattle.prog_data.specs.Conditions.{kind_of, is_calls};
ghost use Rattle.prog_data.specs.Programs.{IsProgram};
ghost use Rattle.prog_data.specs.Values.{seen};
ghost use Rattle.name_order.specs.Relations.{order};
ghost use Rattle.goal_transfer.specs.Conditions.{all_set, types_of, all_implied, values_where, join_values, met_with, narrowed_by, entry_by, narrowed_entry, meet_where_true, exit_at, exit_by, narrowed_exit};
ghost use Rattle.goal_transfer.specs.Range.{is_named};
ghost use Rattle.goal_transfer.specs.States.{list_seen};

use crate::lists::{joined_each, met_each};
use crate::properties::{all_implied, types_of};
use name_order::Relations;
use prog_data::{CondKind, Program, Prop, Value};
use sqlite_items::Items;
use std::alloc::Global;
use term_core::NoMemory;
use type_domain::all_set;

// The values, if none of them is none.
fn if_set(values: Items<Value>) -> Option<Items<Value>>
    ensures { list_seen result ≡ values_where (all_set (map seen values)) (map seen values) }
{
    if all_set(values.as_slice()) {
        Some(values)
    } else {
        None
    }
}

// An entry met with a disjunct's types, if no value is none then.
fn met_with(
    alloc: Global,
    rel: &Relations,
    arity: u64,
    entry: &[Value],
    disjunct: &[Prop],
) -> Result<Option<Items<Value>>, NoMemory>
    requires { list_all (is_named (length rel.now.rules)) disjunct.now ≡ true }
    ensures { IfOk result (λ vs. list_seen vs ≡ met_with (order rel.now) arity (map seen entry.now) disjunct.now) }
{
    let types = types_of(alloc, rel, arity, disjunct)?;
    Ok(if_set(met_each(alloc, rel, entry, types.as_slice())?))
}

// Two lists of values joined, if they are there.
fn join_values(
    alloc: Global,
    left: Option<Items<Value>>,
    right: Option<Items<Value>>,
) -> Result<Option<Items<Value>>, NoMemory>
    ensures { IfOk result (λ vs. list_seen vs ≡ join_values (list_seen left) (list_seen right)) }
{
    match left {
        None => Ok(right),
        Some(first) => match right {
            None => Ok(Some(first)),
            Some(second) => {
                let made = joined_each(alloc, first.as_slice(), second.as_slice())?;
                Ok(Some(made))
            }
        },
    }
}

// The join over the disjuncts of the entry met with each.
fn narrowed_by(
    alloc: Global,
    rel: &Relations,
    arity: u64,
    entry: &[Value],
    disjuncts: &[Items<Prop>],
) -> Result<Option<Items<Value>>, NoMemory>
    requires { list_all (list_all (is_named (length rel.now.rules))) disjuncts.now ≡ true }
    ensures { IfOk result (λ vs. list_seen vs ≡ narrowed_by (order rel.now) arity (map seen entry.now) disjuncts.now) }
{
    let mut narrowed = None;
    let mut left = disjuncts.len();
    while left > 0 {
        left -= 1;
        let met = met_with(alloc, rel, arity, entry, disjuncts[left].as_slice())?;
        narrowed = join_values(alloc, met, narrowed)?;
    }
    Ok(narrowed)
}

// The disjuncts of a condition, if it is one on calls.
fn disjuncts_of(program: &Program, condition: u64) -> Option<&[Items<Prop>]>
    ensures { MatchOption result (is_calls (kind_of program.now condition) ≡ false) (λ ds. kind_of program.now condition ≡ Some (kinds.Calls ds.now)) }
{
    match program.conds.get(condition as usize) {
        Some(found) => match &found.kind {
            CondKind::Calls(disjuncts) => Some(disjuncts.as_slice()),
            CondKind::Success(_, _) => None,
            CondKind::Comp(_, _) => None,
        },
        None => None,
    }
}

// An entry narrowed by the first condition on calls among these.
fn entry_by(
    alloc: Global,
    program: &Program,
    rel: &Relations,
    arity: u64,
    entry: &[Value],
    conditions: &[u64],
) -> Result<Option<Items<Value>>, NoMemory>
    requires grammar { rel.now ≡ program.now.grammar }
    requires range { IsProgram program.now }
    ensures { IfOk result (λ vs. list_seen vs ≡ entry_by program.now (order rel.now) arity (map seen entry.now) conditions.now) }
{
    for condition in conditions {
        match disjuncts_of(program, *condition) {
            Some(disjuncts) => return narrowed_by(alloc, rel, arity, entry, disjuncts),
            None => {}
        }
    }
    Ok(Some(Items::from_slice(alloc, entry)?))
}

/// An entry narrowed by the predicate's condition on calls; none where no clause is run.
///
/// # Errors
///
/// Only for want of memory.
pub fn narrowed_entry(
    alloc: Global,
    program: &Program,
    rel: &Relations,
    pred: u64,
    entry: &[Value],
) -> Result<Option<Items<Value>>, NoMemory>
    requires grammar { rel.now ≡ program.now.grammar }
    requires range { IsProgram program.now }
    ensures { IfOk result (λ vs. list_seen vs ≡ narrowed_entry program.now (order rel.now) pred (map seen entry.now)) }
{
    match program.preds.get(pred as usize) {
        Some(found) => {
            let conditions = found.conds.as_slice();
            entry_by(alloc, program, rel, found.arity, entry, conditions)
        }
        None => Ok(Some(Items::from_slice(alloc, entry)?)),
    }
}

// An exit met with a postcondition's types where the entry implies the precondition.
fn met_if_implied(
    alloc: Global,
    rel: &Relations,
    arity: u64,
    entry: &[Value],
    pre: &[Prop],
    post: &[Prop],
    exit: Items<Value>,
) -> Result<Items<Value>, NoMemory>
    requires pre { list_all (is_named (length rel.now.rules)) pre.now ≡ true }
    requires post { list_all (is_named (length rel.now.rules)) post.now ≡ true }
    ensures { IfOk result (λ vs. map seen vs ≡ meet_where_true (order rel.now) (all_implied (order rel.now) (map seen entry.now) pre.now) (map seen exit) (types_of (order rel.now) arity post.now)) }
{
    if !all_implied(rel, entry, pre) {
        return Ok(exit);
    }
    let types = types_of(alloc, rel, arity, post)?;
    let met = met_each(alloc, rel, exit.as_slice(), types.as_slice())?;
    Ok(met)
}

// An exit narrowed by a condition.
fn exit_at(
    alloc: Global,
    program: &Program,
    rel: &Relations,
    arity: u64,
    entry: &[Value],
    condition: u64,
    exit: Items<Value>,
) -> Result<Items<Value>, NoMemory>
    requires grammar { rel.now ≡ program.now.grammar }
    requires range { IsProgram program.now }
    ensures { IfOk result (λ vs. map seen vs ≡ exit_at (order rel.now) arity (map seen entry.now) (kind_of program.now condition) (map seen exit)) }
{
    match program.conds.get(condition as usize) {
        Some(found) => match &found.kind {
            CondKind::Success(pre, post) => {
                let pre = pre.as_slice();
                let post = post.as_slice();
                met_if_implied(alloc, rel, arity, entry, pre, post, exit)
            }
            CondKind::Calls(_) => Ok(exit),
            CondKind::Comp(_, _) => Ok(exit),
        },
        None => Ok(exit),
    }
}

// An exit narrowed by each of these conditions.
fn exit_by(
    alloc: Global,
    program: &Program,
    rel: &Relations,
    arity: u64,
    entry: &[Value],
    conditions: &[u64],
    exit: &[Value],
) -> Result<Items<Value>, NoMemory>
    requires grammar { rel.now ≡ program.now.grammar }
    requires range { IsProgram program.now }
    ensures { IfOk result (λ vs. map seen vs ≡ exit_by program.now (order rel.now) arity (map seen entry.now) conditions.now (map seen exit.now)) }
{
    let mut narrowed = Items::from_slice(alloc, exit)?;
    for condition in conditions {
        narrowed = exit_at(alloc, program, rel, arity, entry, *condition, narrowed)?;
    }
    Ok(narrowed)
}

/// An exit narrowed by the predicate's conditions on success.
///
/// # Errors
///
/// Only for want of memory.
pub fn narrowed_exit(
    alloc: Global,
    program: &Program,
    rel: &Relations,
    pred: u64,
    entry: &[Value],
    exit: &[Value],
) -> Result<Items<Value>, NoMemory>
    requires grammar { rel.now ≡ program.now.grammar }
    requires range { IsProgram program.now }
    ensures { IfOk result (λ vs. map seen vs ≡ narrowed_exit program.now (order rel.now) pred (map seen entry.now) (map seen exit.now)) }
{
    match program.preds.get(pred as usize) {
        Some(found) => {
            let conditions = found.conds.as_slice();
            exit_by(alloc, program, rel, found.arity, entry, conditions, exit)
        }
        None => Ok(Items::from_slice(alloc, exit)?),
    }
}
