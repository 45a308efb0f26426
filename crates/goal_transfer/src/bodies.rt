// What comes of goals, by what comes of their parts.
ghost use Rattle.std.specs.Prelude.{◌≡◌, true, ◌++◌, length, map, IfOk, OnOk};
ghost use Rattle.prog_data.specs.Ranges.{is_body_of};
ghost use Rattle.name_order.specs.Relations.{order};
ghost use Rattle.goal_transfer.specs.Transfer.{known_where, then_outcome, either_outcome, run_goal};
ghost use Rattle.goal_transfer.specs.States.{values_seen, exits_seen, call_seen};

use crate::goals::{run_builtin, run_call};
use crate::lists::{copied, either};
use crate::states::Reached;
use name_order::Relations;
use prog_data::{Goal, Program, Value};
use sqlite_items::Items;
use std::alloc::Global;
use term_core::NoMemory;

// A goal, and from what is known then another.
#[cycle(bodies)]
fn run_both(
    alloc: Global,
    program: &Program,
    rel: &Relations,
    exits: &[Option<Items<Value>>],
    first: &Goal,
    second: &Goal,
    values: &mut [Value],
    calls: &mut Vec<Reached>,
) -> Result<bool, NoMemory>
    requires grammar { rel.now ≡ program.now.grammar }
    requires first { is_body_of program.now (length values.old) first.now ≡ true }
    requires second { is_body_of program.now (length values.old) second.now ≡ true }
    ensures known { IfOk result (λ kept. known_where kept (values_seen (order rel.now) values.new) ≡ (then_outcome (run_goal (order rel.now) (exits_seen exits.now) first.now (values_seen (order rel.now) values.old)) (run_goal (order rel.now) (exits_seen exits.now) second.now)).known) }
    ensures calls { OnOk result (map call_seen calls.new.items ≡ map call_seen calls.old.items ++ (then_outcome (run_goal (order rel.now) (exits_seen exits.now) first.now (values_seen (order rel.now) values.old)) (run_goal (order rel.now) (exits_seen exits.now) second.now)).calls) }
{
    if !run(alloc, program, rel, exits, first, values, calls)? {
        return Ok(false);
    }
    run(alloc, program, rel, exits, second, values, calls)
}

// One goal or another.
#[cycle(bodies)]
fn run_either(
    alloc: Global,
    program: &Program,
    rel: &Relations,
    exits: &[Option<Items<Value>>],
    first: &Goal,
    second: &Goal,
    values: &mut [Value],
    calls: &mut Vec<Reached>,
) -> Result<bool, NoMemory>
    requires grammar { rel.now ≡ program.now.grammar }
    requires first { is_body_of program.now (length values.old) first.now ≡ true }
    requires second { is_body_of program.now (length values.old) second.now ≡ true }
    ensures known { IfOk result (λ kept. known_where kept (values_seen (order rel.now) values.new) ≡ (either_outcome (run_goal (order rel.now) (exits_seen exits.now) first.now (values_seen (order rel.now) values.old)) (run_goal (order rel.now) (exits_seen exits.now) second.now (values_seen (order rel.now) values.old))).known) }
    ensures calls { OnOk result (map call_seen calls.new.items ≡ map call_seen calls.old.items ++ (either_outcome (run_goal (order rel.now) (exits_seen exits.now) first.now (values_seen (order rel.now) values.old)) (run_goal (order rel.now) (exits_seen exits.now) second.now (values_seen (order rel.now) values.old))).calls) }
{
    let mut others = copied(alloc, values)?;
    let others_kept = run(alloc, program, rel, exits, first, &mut others, calls)?;
    let kept = run(alloc, program, rel, exits, second, values, calls)?;
    either(alloc, &others, others_kept, values, kept)
}

// A goal with another behind it, or a third.
#[cycle(bodies)]
fn run_branches(
    alloc: Global,
    program: &Program,
    rel: &Relations,
    exits: &[Option<Items<Value>>],
    condition: &Goal,
    first: &Goal,
    second: &Goal,
    values: &mut [Value],
    calls: &mut Vec<Reached>,
) -> Result<bool, NoMemory>
    requires grammar { rel.now ≡ program.now.grammar }
    requires condition { is_body_of program.now (length values.old) condition.now ≡ true }
    requires first { is_body_of program.now (length values.old) first.now ≡ true }
    requires second { is_body_of program.now (length values.old) second.now ≡ true }
    ensures known { IfOk result (λ kept. known_where kept (values_seen (order rel.now) values.new) ≡ (either_outcome (then_outcome (run_goal (order rel.now) (exits_seen exits.now) condition.now (values_seen (order rel.now) values.old)) (run_goal (order rel.now) (exits_seen exits.now) first.now)) (run_goal (order rel.now) (exits_seen exits.now) second.now (values_seen (order rel.now) values.old))).known) }
    ensures calls { OnOk result (map call_seen calls.new.items ≡ map call_seen calls.old.items ++ (either_outcome (then_outcome (run_goal (order rel.now) (exits_seen exits.now) condition.now (values_seen (order rel.now) values.old)) (run_goal (order rel.now) (exits_seen exits.now) first.now)) (run_goal (order rel.now) (exits_seen exits.now) second.now (values_seen (order rel.now) values.old))).calls) }
{
    let mut others = copied(alloc, values)?;
    let others_kept = run_both(
        alloc,
        program,
        rel,
        exits,
        condition,
        first,
        &mut others,
        calls,
    )?;
    let kept = run(alloc, program, rel, exits, second, values, calls)?;
    either(alloc, &others, others_kept, values, kept)
}

// A goal that is run for the calls that it reaches.
#[cycle(bodies)]
fn run_apart(
    alloc: Global,
    program: &Program,
    rel: &Relations,
    exits: &[Option<Items<Value>>],
    goal: &Goal,
    values: &[Value],
    calls: &mut Vec<Reached>,
) -> Result<(), NoMemory>
    requires grammar { rel.now ≡ program.now.grammar }
    requires range { is_body_of program.now (length values.now) goal.now ≡ true }
    ensures { OnOk result (map call_seen calls.new.items ≡ map call_seen calls.old.items ++ (run_goal (order rel.now) (exits_seen exits.now) goal.now (values_seen (order rel.now) values.now)).calls) }
{
    let mut others = copied(alloc, values)?;
    run(alloc, program, rel, exits, goal, &mut others, calls)?;
    Ok(())
}

/// A goal or a body: whether the values are still not none, and the calls that it reaches behind those before.
#[cycle(bodies)]
pub(crate) fn run(
    alloc: Global,
    program: &Program,
    rel: &Relations,
    exits: &[Option<Items<Value>>],
    goal: &Goal,
    values: &mut [Value],
    calls: &mut Vec<Reached>,
) -> Result<bool, NoMemory>
    requires grammar { rel.now ≡ program.now.grammar }
    requires range { is_body_of program.now (length values.old) goal.now ≡ true }
    ensures known { IfOk result (λ kept. known_where kept (values_seen (order rel.now) values.new) ≡ (run_goal (order rel.now) (exits_seen exits.now) goal.now (values_seen (order rel.now) values.old)).known) }
    ensures calls { OnOk result (map call_seen calls.new.items ≡ map call_seen calls.old.items ++ (run_goal (order rel.now) (exits_seen exits.now) goal.now (values_seen (order rel.now) values.old)).calls) }
{
    let grammar = &program.grammar;
    match goal {
        Goal::True => Ok(true),
        Goal::Fail => Ok(false),
        Goal::Cut => Ok(true),
        Goal::Exit => Ok(true),
        Goal::Call(pred, terms) => {
            let terms = terms.as_slice();
            run_call(alloc, grammar, rel, exits, *pred, terms, values, calls)
        }
        Goal::Builtin(builtin, terms) => {
            run_builtin(alloc, grammar, rel, *builtin, terms.as_slice(), values)
        }
        Goal::Conj(first, second) => {
            let first = first.get();
            let second = second.get();
            run_both(alloc, program, rel, exits, first, second, values, calls)
        }
        Goal::Disj(first, second) => {
            let first = first.get();
            let second = second.get();
            run_either(alloc, program, rel, exits, first, second, values, calls)
        }
        Goal::IfElse(condition, first, second) => run_branches(
            alloc,
            program,
            rel,
            exits,
            condition.get(),
            first.get(),
            second.get(),
            values,
            calls,
        ),
        Goal::Not(inner) => {
            run_apart(alloc, program, rel, exits, inner.get(), values, calls)?;
            Ok(true)
        }
    }
}
