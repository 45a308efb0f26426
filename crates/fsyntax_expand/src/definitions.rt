// Definitions: their clauses, and which results have clauses of their own.
ghost use Rattle.std.specs.Prelude.{◌≡◌, ◌==◌, ◌||◌, map, option_copied};
ghost use Rattle.term_core.specs.declared.fixed.TheConstants.{BAR, QUESTION};
ghost use Rattle.term_core.specs.declared.terms.Term.{out-Term};
ghost use Rattle.dcg_expand.specs.Making.{Makes};
ghost use Rattle.fsyntax_expand.specs.Flattening.{Flattens};
ghost use Rattle.fsyntax_expand.specs.Expansion.{uses, with_body, plain_clause, head_with_value, argument_clause, variable_clause, is_chosen, definition_clause, compound_has_conditional};

use crate::bodies::{expand_body, expand_result};
use crate::clauses::{add_goal, clause, clause_ending, discard_all};
use crate::flattening::{flatten, with_one_more};
use dcg_expand::{ExpandFault, new_variable};
use sqlite_items::Items;
use std::alloc::Global;
use term_core::{BAR, QUESTION, Term};

// Goals, and then a body where there is one.
fn with_body(
    alloc: Global,
    body: Option<&Term>,
    goals: Items<Term>,
    next: &mut u64,
) -> Result<Items<Term>, ExpandFault>
    ensures { Makes result next.new (with_body (option_copied body.entry) goals next.old) }
{
    match body {
        None => Ok(goals),
        Some(body) => {
            let mut goals = goals;
            let goal = expand_body(alloc, body, next)?;
            add_goal(&mut goals, goal)?;
            Ok(goals)
        }
    }
}

/// A clause that defines nothing.
pub(crate) fn plain_clause(
    alloc: Global,
    head: &Term,
    body: Option<&Term>,
    next: &mut u64,
) -> Result<Term, ExpandFault>
    ensures { Makes result next.new (plain_clause head.now (option_copied body.entry) next.old) }
{
    let mut calls = Items::new(alloc);
    let flat = flatten(alloc, head, &mut calls, next)?;
    let goals = with_body(alloc, body, calls, next)?;
    Ok(clause(alloc, flat, goals)?)
}

// A head with a flattened result as its last argument; the goals of the result come behind those before.
fn head_with_value(
    alloc: Global,
    head: &Term,
    value: &Term,
    goals: &mut Items<Term>,
    next: &mut u64,
) -> Result<Term, ExpandFault>
    ensures { Flattens result goals.new next.new (head_with_value head.now value.now goals.old next.old) }
{
    let last = flatten(alloc, value, goals, next)?;
    with_one_more(alloc, head, last, *next)
}

// The result stands in the head.
fn argument_clause(
    alloc: Global,
    head: &Term,
    body: Option<&Term>,
    value: &Term,
    next: &mut u64,
) -> Result<Term, ExpandFault>
    ensures { Makes result next.new (argument_clause head.now (option_copied body.entry) value.now next.old) }
{
    let mut calls = Items::new(alloc);
    let flat = flatten(alloc, head, &mut calls, next)?;
    let mut goals = with_body(alloc, body, calls, next)?;
    match head_with_value(alloc, &flat, value, &mut goals, next) {
        Ok(new_head) => Ok(clause(alloc, new_head, goals)?),
        Err(fault) => {
            discard_all(goals);
            Err(fault)
        }
    }
}

// A variable stands in the head, and the body ends with what it is.
fn variable_clause(
    alloc: Global,
    head: &Term,
    body: Option<&Term>,
    value: &Term,
    next: &mut u64,
) -> Result<Term, ExpandFault>
    ensures { Makes result next.new (variable_clause head.now (option_copied body.entry) value.now next.old) }
{
    let variable = new_variable(next)?;
    let mut calls = Items::new(alloc);
    let flat = flatten(alloc, head, &mut calls, next)?;
    let new_head = with_one_more(alloc, &flat, Term::Var(variable), *next)?;
    let goals = with_body(alloc, body, calls, next)?;
    match expand_result(alloc, value, variable, next) {
        Ok(last) => Ok(clause_ending(alloc, new_head, goals, last)?),
        Err(fault) => {
            discard_all(goals);
            Err(fault)
        }
    }
}

fn is_choice_name(name: u64) -> bool
    ensures { result ≡ (name == BAR || name == QUESTION) }
{
    name == BAR || name == QUESTION
}

// Whether it is a result that a variable has to have.
fn is_chosen(value: &Term) -> bool
    ensures { result ≡ is_chosen (out-Term value.now) }
{
    match value {
        Term::Var(_) | Term::Int(_) | Term::Atom(_) => false,
        Term::Node(name, parts) => parts.len() == 2 && is_choice_name(*name),
    }
}

/// The clause of a definition whose result has one clause.
pub(crate) fn definition_clause(
    alloc: Global,
    head: &Term,
    body: Option<&Term>,
    value: &Term,
    next: &mut u64,
) -> Result<Term, ExpandFault>
    ensures { Makes result next.new (definition_clause head.now (option_copied body.entry) value.now next.old) }
{
    if is_chosen(value) {
        variable_clause(alloc, head, body, value, next)
    } else {
        argument_clause(alloc, head, body, value, next)
    }
}

/// Whether a result is `C ? A`.
pub(crate) fn is_conditional(value: &Term) -> bool
    ensures { result ≡ (uses value.now).is_conditional }
{
    match value {
        Term::Var(_) | Term::Int(_) | Term::Atom(_) => false,
        Term::Node(name, parts) => *name == QUESTION && parts.len() == 2,
    }
}

#[cycle(conditions)]
fn compound_has_conditional(name: u64, parts: &[Term]) -> bool
    ensures { result ≡ compound_has_conditional name (map uses parts.now) }
{
    match parts {
        [left, right] => {
            if name == BAR {
                if is_conditional(left) {
                    true
                } else {
                    has_conditional(right)
                }
            } else {
                name == QUESTION
            }
        }
        _ => false,
    }
}

/// Whether one of the results that bars join is `C ? A`.
#[cycle(conditions)]
pub(crate) fn has_conditional(value: &Term) -> bool
    ensures { result ≡ (uses value.now).has_conditional }
{
    match value {
        Term::Var(_) | Term::Int(_) | Term::Atom(_) => false,
        Term::Node(name, parts) => compound_has_conditional(*name, parts.as_slice()),
    }
}
