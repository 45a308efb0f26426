// The rules of a term.
ghost use Rattle.std.specs.Prelude.{◌≡◌, ℕ, ◌≤◌, ◌<◌, ◌+◌, ◌-◌, ◌++◌, ◌∷◌, [], map, drop, length, MatchOption, IfOk, OnOk};
ghost use Rattle.regtype_grammar.specs.Grammars.{type_of};
ghost use Rattle.regtype_grammar.specs.TermRules.{total, names_needed, Part, part_of, part_rules, all_called, all_rules};

use crate::numbering::{Bound, type_of};
use prog_data::Rule;
use sqlite_items::Items;
use std::alloc::Global;
use term_core::{NoMemory, Term, one};

/// How much room is left behind the names that the term needs, none where there is too little.
#[cycle(room)]
pub(crate) fn room_behind(term: &Term, room: u64) -> Option<u64>
    ensures { MatchOption result (room < names_needed term.now) (λ left. left + names_needed term.now ≡ room) }
{
    match term {
        Term::Var(_) => Some(room),
        Term::Int(_) | Term::Atom(_) => { if room == 0 { None } else { Some(room - 1) } }
        Term::Node(_, parts) => {
            if room == 0 {
                return None;
            }
            room_behind_all(parts.as_slice(), room - 1)
        }
    }
}

// The same of several terms.
#[cycle(room)]
fn room_behind_all(terms: &[Term], room: u64) -> Option<u64>
    ensures { MatchOption result (room < total (map names_needed terms.now)) (λ left. left + total (map names_needed terms.now) ≡ room) }
{
    let mut left = room;
    for term in terms {
        match room_behind(term, left) {
            None => return None,
            Some(less) => left = less,
        }
    }
    Some(left)
}

// How many names a term needs, which are at most 512.
fn names_needed(term: &Term) -> u64
    requires { names_needed term.now ≤ 512 }
    ensures count { result ≡ names_needed term.now }
    ensures needs { (f : ℕ → ℕ) → (part_of f term.now).needs ≡ result }
{
    match room_behind(term, 512) {
        None => 512,
        Some(left) => 512 - left,
    }
}

// What a part is called where its own name is `next`.
fn called(types: &[Bound], part: &Term, next: u64) -> u64
    ensures { result ≡ (part_of (type_of types.now) part.now).called next }
{
    match part {
        Term::Var(variable) => type_of(types, *variable),
        Term::Int(_) | Term::Atom(_) | Term::Node(_, _) => next,
    }
}

// What parts are called, whose names begin at `next`.
fn all_called(
    alloc: Global,
    types: &[Bound],
    parts: &[Term],
    next: u64,
) -> Result<Items<u64>, NoMemory>
    requires { total (map names_needed parts.now) + next ≤ 512 }
    ensures { IfOk result (λ names. names ≡ all_called next (map (part_of (type_of types.now)) parts.now)) }
{
    let mut names = Items::new(alloc);
    let mut at = next;
    for part in parts {
        names.push(called(types, part, at))?;
        at += names_needed(part);
    }
    Ok(names)
}

/// The rule of a term where the names of its parts begin at `next`.
pub(crate) fn rule_of(
    alloc: Global,
    types: &[Bound],
    term: &Term,
    next: u64,
) -> Result<Rule, NoMemory>
    requires { names_needed term.now + next ≤ 513 }
    ensures { IfOk result (λ rule. rule ≡ (part_of (type_of types.now) term.now).rule next) }
{
    match term {
        Term::Var(variable) => Ok(Rule::Unit(type_of(types, *variable))),
        Term::Int(number) => Ok(Rule::Int(*number)),
        Term::Atom(name) => Ok(Rule::Atom(*name)),
        Term::Node(name, parts) => Ok(Rule::Node(
            *name,
            all_called(alloc, types, parts.as_slice(), next)?,
        )),
    }
}

// Adds the rules of a part whose names begin at `next`.
#[cycle(rules)]
fn push_part(
    alloc: Global,
    types: &[Bound],
    part: &Term,
    next: u64,
    further: &mut Items<Items<Rule>>,
) -> Result<(), NoMemory>
    requires { names_needed part.now + next ≤ 512 }
    ensures { OnOk result (further.new ≡ further.old ++ map (λ rule. rule ∷ []) (part_rules (part_of (type_of types.now) part.now).needs next (part_of (type_of types.now) part.now))) }
{
    match part {
        Term::Var(_) => Ok(()),
        Term::Int(_) | Term::Atom(_) | Term::Node(_, _) => {
            let rule = rule_of(alloc, types, part, next + 1)?;
            further.push(one(alloc, rule)?)?;
            push_inner(alloc, types, part, next + 1, further)
        }
    }
}

/// Adds the rules of the parts of a term, whose names begin at `next`.
#[cycle(rules)]
pub(crate) fn push_inner(
    alloc: Global,
    types: &[Bound],
    term: &Term,
    next: u64,
    further: &mut Items<Items<Rule>>,
) -> Result<(), NoMemory>
    requires { names_needed term.now + next ≤ 513 }
    ensures { OnOk result (further.new ≡ further.old ++ map (λ rule. rule ∷ []) ((part_of (type_of types.now) term.now).inner next)) }
{
    match term {
        Term::Var(_) | Term::Int(_) | Term::Atom(_) => Ok(()),
        Term::Node(_, parts) => {
            let mut at = next;
            for part in parts.as_slice() {
                push_part(alloc, types, part, at, further)?;
                at += names_needed(part);
            }
            Ok(())
        }
    }
}
