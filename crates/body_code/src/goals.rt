// Goals, made of their parts.
ghost use Rattle.std.specs.Prelude.{◌≡◌, ◌<◌, IfOk};
ghost use Rattle.prog_data.specs.declared.goals.Goal as Goal;
ghost use Rattle.regtype_grammar.specs.TypeNames.{IsMeaningBelow};
ghost use Rattle.body_code.specs.Making.{Makes};
ghost use Rattle.body_code.specs.Bodies.{call, list_name, list_test, lone_goal};
ghost use Rattle.body_code.specs.Conjunctions.{conjoined};
ghost use Rattle.body_code.specs.Ranges.{GrowsFor};

use crate::{BodyFault, Callee};
use prog_data::{Builtin, Control, Goal, Grammar};
use regtype_grammar::{Meaning as TypeMeaning, TypeFault, list_of};
use sqlite_items::{Boxed, Items};
use std::alloc::Global;
use term_core::{NoMemory, Term, copy};

/// Equal terms.
pub(crate) fn copied_all(alloc: Global, terms: &[Term]) -> Result<Items<Term>, NoMemory>
    ensures { IfOk result (λ copies. copies ≡ terms.now) }
{
    let mut copies = Items::new(alloc);
    for term in terms {
        copies.push(copy(alloc, term)?)?;
    }
    Ok(copies)
}

/// `\+` of a goal.
pub(crate) fn negation(alloc: Global, inner: Goal) -> Result<Goal, NoMemory>
    ensures { IfOk result (λ goal. goal ≡ Goal.Not inner) }
{
    Ok(Goal::Not(Boxed::new(alloc, inner)?))
}

/// One goal, and then another.
pub(crate) fn conjunction(alloc: Global, left: Goal, right: Goal) -> Result<Goal, NoMemory>
    ensures { IfOk result (λ goal. goal ≡ Goal.Conj left right) }
{
    let left = Boxed::new(alloc, left)?;
    let right = Boxed::new(alloc, right)?;
    Ok(Goal::Conj(left, right))
}

/// One goal or another.
pub(crate) fn disjunction(alloc: Global, left: Goal, right: Goal) -> Result<Goal, NoMemory>
    ensures { IfOk result (λ goal. goal ≡ Goal.Disj left right) }
{
    let left = Boxed::new(alloc, left)?;
    let right = Boxed::new(alloc, right)?;
    Ok(Goal::Disj(left, right))
}

/// Where a condition holds one goal, else another.
pub(crate) fn choice(
    alloc: Global,
    condition: Goal,
    first: Goal,
    second: Goal,
) -> Result<Goal, NoMemory>
    ensures { IfOk result (λ goal. goal ≡ Goal.IfElse condition first second) }
{
    let condition = Boxed::new(alloc, condition)?;
    let first = Boxed::new(alloc, first)?;
    let second = Boxed::new(alloc, second)?;
    Ok(Goal::IfElse(condition, first, second))
}

/// Goals, from the left, before the last one.
pub(crate) fn conjoined(alloc: Global, mut goals: Items<Goal>, last: Goal) -> Result<Goal, NoMemory>
    ensures { IfOk result (λ goal. goal ≡ conjoined goals last) }
{
    let mut whole = last;
    while let Some(goal) = goals.pop() {
        whole = conjunction(alloc, goal, whole)?;
    }
    Ok(whole)
}

/// A call of the predicate that is meant.
pub(crate) fn call(alloc: Global, callee: Callee, arguments: &[Term]) -> Result<Goal, NoMemory>
    ensures { IfOk result (λ goal. goal ≡ call callee arguments.now) }
{
    match callee {
        Callee::One(pred) => Ok(Goal::Call(pred, copied_all(alloc, arguments)?)),
        Callee::Unknown | Callee::Several => Ok(Goal::Fail),
    }
}

// The name of the lists of a type, which is found or added.
fn list_name(alloc: Global, grammar: &mut Grammar, element: u64) -> Result<u64, BodyFault>
    ensures made { Makes result grammar.new (list_name element grammar.old) }
    ensures grows { GrowsFor (λ size. element < size) grammar.old grammar.new }
{
    match list_of(alloc, grammar, element) {
        Ok(name) => Ok(name),
        Err(fault) => match fault {
            TypeFault::TooManyNames => Err(BodyFault::TooManyNames),
            // No other fault comes of a list.
            TypeFault::BadRegtype(_, _)
            | TypeFault::UnknownProperty(_, _)
            | TypeFault::Ambiguous(_, _)
            | TypeFault::NoMemory => Err(BodyFault::NoMemory),
        },
    }
}

/// The test by the lists of the type that is meant.
pub(crate) fn list_test(
    alloc: Global,
    grammar: &mut Grammar,
    meaning: TypeMeaning,
    arguments: &[Term],
) -> Result<Goal, BodyFault>
    ensures made { Makes result grammar.new (list_test meaning arguments.now grammar.old) }
    ensures grows { GrowsFor (λ size. IsMeaningBelow size meaning) grammar.old grammar.new }
{
    match meaning {
        TypeMeaning::One(element) => {
            let copies = copied_all(alloc, arguments)?;
            let name = list_name(alloc, grammar, element)?;
            Ok(Goal::Builtin(Builtin::Belongs(name), copies))
        }
        TypeMeaning::Unknown | TypeMeaning::Several => Ok(Goal::Fail),
    }
}

/// `!`, `true` or `fail`.
pub(crate) fn lone_goal(control: Control) -> Goal
    ensures { result ≡ lone_goal control }
{
    match control {
        Control::Cut => Goal::Cut,
        Control::True => Goal::True,
        Control::Conjunction
        | Control::Disjunction
        | Control::IfThen
        | Control::Negation
        | Control::Fail => Goal::Fail,
    }
}
