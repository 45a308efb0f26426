// The goal that a body is. It is made from the left, and the grammar gets the lists that its goals need. A conjunction is taken apart by a loop, since functional notation makes them longer than source is deep.
ghost use Rattle.std.specs.Prelude.{◌≡◌, map, length};
ghost use Rattle.prog_data.specs.Control.{meaning_of};
ghost use Rattle.prog_data.specs.declared.goals.Goal as Goal;
ghost use Rattle.body_code.specs.Making.{Makes};
ghost use Rattle.body_code.specs.Bodies.{in_turn, chosen, either, pair_goal, control_goal, named_goal, body_of};
ghost use Rattle.body_code.specs.Ranges.{Grows};

use crate::goals::{
    call, choice, conjoined, conjunction, copied_all, disjunction, list_test, lone_goal, negation,
};
use crate::problems::element_type;
use crate::{BodyFault, Scope};
use prog_data::{Control, Goal, Grammar, Meaning, meaning_of};
use regtype_grammar::meanings_law;
use sqlite_items::Items;
use std::alloc::Global;
use term_core::{ARROW, COMMA, Term};

// Two goals, the first of which is made first.
#[cycle(bodies)]
fn in_turn(
    alloc: Global,
    scope: &Scope,
    grammar: &mut Grammar,
    first: &Term,
    second: &Term,
) -> Result<(Goal, Goal), BodyFault>
    ensures made { Makes result grammar.new (in_turn (body_of scope.now first.now).makes (body_of scope.now second.now).makes grammar.old) }
    ensures grows { Grows scope.now grammar.old grammar.new }
{
    let left = goal_of(alloc, scope, grammar, first)?;
    let right = goal_of(alloc, scope, grammar, second)?;
    Ok((left, right))
}

// `C -> A ; B`.
#[cycle(bodies)]
fn chosen(
    alloc: Global,
    scope: &Scope,
    grammar: &mut Grammar,
    condition: &Term,
    first: &Term,
    second: &Term,
) -> Result<Goal, BodyFault>
    ensures made { Makes result grammar.new (chosen (body_of scope.now condition.now).makes (body_of scope.now first.now).makes (body_of scope.now second.now).makes grammar.old) }
    ensures grows { Grows scope.now grammar.old grammar.new }
{
    let (tested, holds) = in_turn(alloc, scope, grammar, condition, first)?;
    let fails = goal_of(alloc, scope, grammar, second)?;
    Ok(choice(alloc, tested, holds, fails)?)
}

// `A ; B`, where A may be `C -> A`.
#[cycle(bodies)]
fn either(
    alloc: Global,
    scope: &Scope,
    grammar: &mut Grammar,
    first: &Term,
    second: &Term,
) -> Result<Goal, BodyFault>
    ensures made { Makes result grammar.new (either (body_of scope.now first.now).branches (body_of scope.now first.now).makes (body_of scope.now second.now).makes grammar.old) }
    ensures grows { Grows scope.now grammar.old grammar.new }
{
    match first.operands(ARROW) {
        Some((condition, holds)) => chosen(alloc, scope, grammar, condition, holds, second),
        None => {
            let (left, right) = in_turn(alloc, scope, grammar, first, second)?;
            Ok(disjunction(alloc, left, right)?)
        }
    }
}

// Control of two parts.
#[cycle(bodies)]
fn pair_goal(
    alloc: Global,
    scope: &Scope,
    grammar: &mut Grammar,
    control: Control,
    first: &Term,
    second: &Term,
) -> Result<Goal, BodyFault>
    ensures made { Makes result grammar.new (pair_goal control (body_of scope.now first.now) (body_of scope.now second.now) grammar.old) }
    ensures grows { Grows scope.now grammar.old grammar.new }
{
    match control {
        Control::Conjunction => {
            let (left, right) = in_turn(alloc, scope, grammar, first, second)?;
            Ok(conjunction(alloc, left, right)?)
        }
        Control::Disjunction => either(alloc, scope, grammar, first, second),
        Control::IfThen | Control::Negation | Control::Cut | Control::True | Control::Fail => {
            let (tested, holds) = in_turn(alloc, scope, grammar, first, second)?;
            Ok(choice(alloc, tested, holds, Goal::Fail)?)
        }
    }
}

// Control by its parts.
#[cycle(bodies)]
fn control_goal(
    alloc: Global,
    scope: &Scope,
    grammar: &mut Grammar,
    control: Control,
    parts: &[Term],
) -> Result<Goal, BodyFault>
    ensures made { Makes result grammar.new (control_goal control (map (body_of scope.now) parts.now) grammar.old) }
    ensures grows { Grows scope.now grammar.old grammar.new }
{
    match parts {
        [] => Ok(lone_goal(control)),
        [part] => {
            let inner = goal_of(alloc, scope, grammar, part)?;
            Ok(negation(alloc, inner)?)
        }
        [first, second] => pair_goal(alloc, scope, grammar, control, first, second),
        [_first, _second, _third, ..] => Ok(Goal::Fail),
    }
}

// A name with arguments.
#[cycle(bodies)]
fn named_goal(
    alloc: Global,
    scope: &Scope,
    grammar: &mut Grammar,
    name: u64,
    arguments: &[Term],
) -> Result<Goal, BodyFault>
    ensures made { Makes result grammar.new (named_goal scope.now (meaning_of name (length arguments.now)) name arguments.now (map (body_of scope.now) arguments.now) grammar.old) }
    ensures grows { Grows scope.now grammar.old grammar.new }
{
    let arity = arguments.len() as u64;
    match meaning_of(name, arity) {
        None => Ok(call(alloc, scope.callee(name, arity), arguments)?),
        Some(meaning) => match meaning {
            Meaning::Control(control) => control_goal(alloc, scope, grammar, control, arguments),
            Meaning::Builtin(builtin) => Ok(Goal::Builtin(builtin, copied_all(alloc, arguments)?)),
            Meaning::ListTest => {
                meanings_law();
                list_test(alloc, grammar, element_type(scope, arguments), arguments)
            }
        },
    }
}

// A term by its outermost.
#[cycle(bodies)]
fn term_goal(
    alloc: Global,
    scope: &Scope,
    grammar: &mut Grammar,
    term: &Term,
) -> Result<Goal, BodyFault>
    ensures made { Makes result grammar.new ((body_of scope.now term.now).makes grammar.old) }
    ensures grows { Grows scope.now grammar.old grammar.new }
{
    match term {
        Term::Var(_) | Term::Int(_) => Ok(Goal::Fail),
        Term::Atom(name) => named_goal(alloc, scope, grammar, *name, &[]),
        Term::Node(name, parts) => named_goal(alloc, scope, grammar, *name, parts.as_slice()),
    }
}

/// The goal that a body is.
#[cycle(bodies)]
pub(crate) fn goal_of(
    alloc: Global,
    scope: &Scope,
    grammar: &mut Grammar,
    body: &Term,
) -> Result<Goal, BodyFault>
    ensures made { Makes result grammar.new ((body_of scope.now body.now).makes grammar.old) }
    ensures grows { Grows scope.now grammar.old grammar.new }
{
    let mut goals = Items::new(alloc);
    let mut left = body;
    while let Some((part, rest)) = left.operands(COMMA) {
        let goal = goal_of(alloc, scope, grammar, part)?;
        goals.push(goal)?;
        left = rest;
    }
    let last = term_goal(alloc, scope, grammar, left)?;
    Ok(conjoined(alloc, goals, last)?)
}
