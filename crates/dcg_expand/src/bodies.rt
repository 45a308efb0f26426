// Bodies of rules.
ghost use Rattle.std.specs.Prelude.{◌≡◌, IfOk, [], ◌∷◌, map};
ghost use Rattle.term_core.specs.declared.fixed.TheConstants.{NEGATION};
ghost use Rattle.term_core.specs.declared.terms.Term as Term;
ghost use Rattle.dcg_expand.specs.Making.{Makes};
ghost use Rattle.dcg_expand.specs.Expansion.{with_two_variables, reading_nothing, list_goal, grammar_body, translated, atom_between, compound_between, compound_with_tail, is_sequence, is_choice};

use crate::ExpandFault;
use crate::making::{copied_all, new_variable, pair};
use std::alloc::Global;
use term_core::{
    ARROW, BAR, BRACES, CELL, COMMA, CUT, EQUALS, NEGATION, NIL, NoMemory, SEMICOLON, Term, copy,
    one,
};

/// A name with these arguments and both variables, where they are not too many.
pub(crate) fn with_two_variables(
    alloc: Global,
    name: u64,
    arguments: &[Term],
    from: u64,
    to: u64,
    next: u64,
) -> Result<Term, ExpandFault>
    ensures { Makes result next (with_two_variables name arguments.now from to next) }
{
    if 253 < arguments.len() {
        return Err(ExpandFault::BadExpansion);
    }
    let mut all = copied_all(alloc, arguments)?;
    all.push(Term::Var(from))?;
    all.push(Term::Var(to))?;
    Ok(Term::Node(name, all))
}

// A goal, and `From = To`.
fn reading_nothing(alloc: Global, goal: Term, from: u64, to: u64) -> Result<Term, NoMemory>
    ensures { IfOk result (λ t. t ≡ reading_nothing goal from to) }
{
    let same = pair(alloc, EQUALS, Term::Var(from), Term::Var(to))?;
    pair(alloc, COMMA, goal, same)
}

// A list with a variable in place of its end; None where it has no end.
#[cycle(lists)]
fn with_tail(alloc: Global, term: &Term, tail: u64) -> Result<Option<Term>, NoMemory>
    ensures { IfOk result (λ t. t ≡ (grammar_body term.now).with_tail (Term.Var tail)) }
{
    match term {
        Term::Var(_) | Term::Int(_) => Ok(None),
        Term::Atom(name) => {
            if *name == NIL {
                Ok(Some(Term::Var(tail)))
            } else {
                Ok(None)
            }
        }
        Term::Node(name, parts) => compound_with_tail(alloc, *name, parts.as_slice(), tail),
    }
}

#[cycle(lists)]
fn compound_with_tail(
    alloc: Global,
    name: u64,
    parts: &[Term],
    tail: u64,
) -> Result<Option<Term>, NoMemory>
    ensures { IfOk result (λ t. t ≡ compound_with_tail name (map grammar_body parts.now) (Term.Var tail)) }
{
    match parts {
        [head, rest] => {
            if name == CELL {
                match with_tail(alloc, rest, tail)? {
                    None => Ok(None),
                    Some(items) => {
                        let head = copy(alloc, head)?;
                        Ok(Some(pair(alloc, CELL, head, items)?))
                    }
                }
            } else {
                Ok(None)
            }
        }
        _ => Ok(None),
    }
}

// `From = List`, where there is a list.
fn list_goal(alloc: Global, list: Option<Term>, from: u64, next: u64) -> Result<Term, ExpandFault>
    ensures { Makes result next (list_goal list from next) }
{
    match list {
        None => Err(ExpandFault::BadExpansion),
        Some(items) => Ok(pair(alloc, EQUALS, Term::Var(from), items)?),
    }
}

fn atom_goal(alloc: Global, name: u64, from: u64, to: u64, next: u64) -> Result<Term, ExpandFault>
    ensures { Makes result next (atom_between name from to next) }
{
    if name == NIL {
        list_goal(alloc, Some(Term::Var(to)), from, next)
    } else if name == CUT {
        Ok(reading_nothing(alloc, Term::Atom(CUT), from, to)?)
    } else {
        with_two_variables(alloc, name, &[], from, to, next)
    }
}

// Whether the parts of a compound of this name stand one behind the other.
fn is_sequence(name: u64) -> bool
    ensures { result ≡ is_sequence name }
{
    name == COMMA || name == ARROW
}

// Whether one or the other part of a compound of this name is there.
fn is_choice(name: u64) -> bool
    ensures { result ≡ is_choice name }
{
    name == SEMICOLON || name == BAR
}

// What is not there, and reads nothing.
fn not_there(alloc: Global, goal: Term, from: u64, to: u64) -> Result<Term, NoMemory>
    ensures { IfOk result (λ t. t ≡ reading_nothing (Term.Node NEGATION (goal ∷ [])) from to) }
{
    let parts = one(alloc, goal)?;
    reading_nothing(alloc, Term::Node(NEGATION, parts), from, to)
}

#[cycle(bodies)]
fn translate_compound(
    alloc: Global,
    name: u64,
    parts: &[Term],
    from: u64,
    to: u64,
    next: &mut u64,
) -> Result<Term, ExpandFault>
    ensures { Makes result next.new (compound_between name (map grammar_body parts.now) from to next.old) }
{
    match parts {
        [part] => {
            if name == NEGATION {
                let other = new_variable(next)?;
                let goal = translate(alloc, part, from, other, next)?;
                Ok(not_there(alloc, goal, from, to)?)
            } else if name == BRACES {
                let goal = copy(alloc, part)?;
                Ok(reading_nothing(alloc, goal, from, to)?)
            } else {
                with_two_variables(alloc, name, parts, from, to, *next)
            }
        }
        [left, right] => {
            if is_sequence(name) {
                let middle = new_variable(next)?;
                let first = translate(alloc, left, from, middle, next)?;
                let second = translate(alloc, right, middle, to, next)?;
                Ok(pair(alloc, name, first, second)?)
            } else if is_choice(name) {
                let first = translate(alloc, left, from, to, next)?;
                let second = translate(alloc, right, from, to, next)?;
                Ok(pair(alloc, SEMICOLON, first, second)?)
            } else if name == CELL {
                let list = compound_with_tail(alloc, name, parts, to)?;
                list_goal(alloc, list, from, *next)
            } else {
                with_two_variables(alloc, name, parts, from, to, *next)
            }
        }
        _ => with_two_variables(alloc, name, parts, from, to, *next),
    }
}

/// The goal that a body becomes between two variables. Further ones are numbered from `next` on.
#[cycle(bodies)]
pub(crate) fn translate(
    alloc: Global,
    term: &Term,
    from: u64,
    to: u64,
    next: &mut u64,
) -> Result<Term, ExpandFault>
    ensures { Makes result next.new (translated term.now from to next.old) }
{
    match term {
        Term::Var(_) | Term::Int(_) => Err(ExpandFault::BadExpansion),
        Term::Atom(name) => atom_goal(alloc, *name, from, to, *next),
        Term::Node(name, parts) => {
            translate_compound(alloc, *name, parts.as_slice(), from, to, next)
        }
    }
}
