// Bodies, and results that a variable has.
ghost use Rattle.std.specs.Prelude.{◌≡◌, ◌∷◌, [], map};
ghost use Rattle.term_core.specs.declared.terms.Term as Term;
ghost use Rattle.dcg_expand.specs.Making.{Makes};
ghost use Rattle.fsyntax_expand.specs.Expansion.{uses, is_connective, goal_body, equal_to, compound_body, compound_result};

use crate::clauses::{before, negated};
use crate::flattening::{flatten, flatten_compound};
use dcg_expand::{ExpandFault, pair};
use sqlite_items::Items;
use std::alloc::Global;
use term_core::{ARROW, BAR, COMMA, EQUALS, NEGATION, QUESTION, SEMICOLON, Term, discard};

fn is_connective(name: u64) -> bool
    ensures { result ≡ is_connective name }
{
    name == COMMA || name == SEMICOLON || name == BAR || name == ARROW
}

// A goal behind the goals of its calls.
fn goal_body(alloc: Global, goal: &Term, next: &mut u64) -> Result<Term, ExpandFault>
    ensures { Makes result next.new (goal_body goal.now next.old) }
{
    let mut goals = Items::new(alloc);
    let flat = flatten(alloc, goal, &mut goals, next)?;
    Ok(before(alloc, goals, flat)?)
}

// The same for a compound.
fn compound_goal_body(
    alloc: Global,
    name: u64,
    parts: &[Term],
    next: &mut u64,
) -> Result<Term, ExpandFault>
    ensures { Makes result next.new (goal_body (Term.Node name parts.now) next.old) }
{
    let mut goals = Items::new(alloc);
    let flat = flatten_compound(alloc, name, parts, &mut goals, next)?;
    Ok(before(alloc, goals, flat)?)
}

// The variable is the term, behind the goals of its calls.
fn equal_to(alloc: Global, value: &Term, variable: u64, next: &mut u64) -> Result<Term, ExpandFault>
    ensures { Makes result next.new (equal_to value.now variable next.old) }
{
    let mut goals = Items::new(alloc);
    let flat = flatten(alloc, value, &mut goals, next)?;
    let last = pair(alloc, EQUALS, Term::Var(variable), flat)?;
    Ok(before(alloc, goals, last)?)
}

// The same for a compound.
fn equal_to_compound(
    alloc: Global,
    name: u64,
    parts: &[Term],
    variable: u64,
    next: &mut u64,
) -> Result<Term, ExpandFault>
    ensures { Makes result next.new (equal_to (Term.Node name parts.now) variable next.old) }
{
    let mut goals = Items::new(alloc);
    let flat = flatten_compound(alloc, name, parts, &mut goals, next)?;
    let last = pair(alloc, EQUALS, Term::Var(variable), flat)?;
    Ok(before(alloc, goals, last)?)
}

#[cycle(bodies)]
fn expand_compound(
    alloc: Global,
    name: u64,
    parts: &[Term],
    next: &mut u64,
) -> Result<Term, ExpandFault>
    ensures { Makes result next.new (compound_body name (map uses parts.now) next.old) }
{
    match parts {
        [part] => {
            if name == NEGATION {
                let goal = expand_body(alloc, part, next)?;
                Ok(negated(alloc, goal)?)
            } else {
                compound_goal_body(alloc, name, parts, next)
            }
        }
        [left, right] => {
            if is_connective(name) {
                let first = expand_body(alloc, left, next)?;
                match expand_body(alloc, right, next) {
                    Ok(second) => Ok(pair(alloc, name, first, second)?),
                    Err(fault) => {
                        discard(first);
                        Err(fault)
                    }
                }
            } else {
                compound_goal_body(alloc, name, parts, next)
            }
        }
        _ => compound_goal_body(alloc, name, parts, next),
    }
}

/// The body that a body becomes.
#[cycle(bodies)]
pub(crate) fn expand_body(alloc: Global, body: &Term, next: &mut u64) -> Result<Term, ExpandFault>
    ensures { Makes result next.new ((uses body.now).body next.old) }
{
    match body {
        Term::Var(_) | Term::Int(_) | Term::Atom(_) => goal_body(alloc, body, next),
        Term::Node(name, parts) => expand_compound(alloc, *name, parts.as_slice(), next),
    }
}

#[cycle(results)]
fn expand_choice(
    alloc: Global,
    name: u64,
    parts: &[Term],
    variable: u64,
    next: &mut u64,
) -> Result<Term, ExpandFault>
    ensures { Makes result next.new (compound_result name (map uses parts.now) variable next.old) }
{
    match parts {
        [left, right] => {
            if name == BAR {
                let first = expand_result(alloc, left, variable, next)?;
                match expand_result(alloc, right, variable, next) {
                    Ok(second) => Ok(pair(alloc, SEMICOLON, first, second)?),
                    Err(fault) => {
                        discard(first);
                        Err(fault)
                    }
                }
            } else if name == QUESTION {
                let test = expand_body(alloc, left, next)?;
                match expand_result(alloc, right, variable, next) {
                    Ok(value) => Ok(pair(alloc, ARROW, test, value)?),
                    Err(fault) => {
                        discard(test);
                        Err(fault)
                    }
                }
            } else {
                equal_to_compound(alloc, name, parts, variable, next)
            }
        }
        _ => equal_to_compound(alloc, name, parts, variable, next),
    }
}

/// The goal by which a variable has a result.
#[cycle(results)]
pub(crate) fn expand_result(
    alloc: Global,
    value: &Term,
    variable: u64,
    next: &mut u64,
) -> Result<Term, ExpandFault>
    ensures { Makes result next.new ((uses value.now).result variable next.old) }
{
    match value {
        Term::Var(_) | Term::Int(_) | Term::Atom(_) => equal_to(alloc, value, variable, next),
        Term::Node(name, parts) => { expand_choice(alloc, *name, parts.as_slice(), variable, next) }
    }
}
