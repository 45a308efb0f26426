// The types of the variables of a clause, and the lists that they need.
ghost use Rattle.std.specs.Prelude.{◌≡◌, ◌≤◌, ◌<◌, ◌+◌, ◌++◌, ◌∷◌, [], length, MatchOption, IfOk};
ghost use Rattle.regtype_grammar.specs.TypeNames.{meaning};
ghost use Rattle.regtype_grammar.specs.Grammars.{number, type_of, list_among, bound, with_list, with_literal, with_literals};

use crate::lists::list_rules;
use crate::literals::Literal;
use crate::meanings::{Meaning, type_meant};
use prog_data::{Rule, Seen, TERM_TYPE};
use sqlite_items::Items;
use std::alloc::Global;
use term_core::NoMemory;

/// The grammar name of the lists of an element.
#[derive(Clone, Copy, Drop)]
pub(crate) struct KnownList {
    pub(crate) element: u64,
    pub(crate) name: u64,
}

/// The grammar name of a variable's type.
#[derive(Clone, Copy, Drop)]
pub(crate) struct Bound {
    pub(crate) variable: u64,
    pub(crate) name: u64,
}

/// Lists that are known, the rules of those that a clause adds, and the types of its variables.
#[derive(Drop)]
pub(crate) struct Listing {
    pub(crate) known: Items<KnownList>,
    pub(crate) added: Items<Items<Rule>>,
    pub(crate) types: Items<Bound>,
}

fn number(meaning: Meaning) -> u64
    ensures { result ≡ number meaning }
{
    match meaning {
        Meaning::One(name) => name,
        Meaning::Unknown | Meaning::Several => TERM_TYPE,
    }
}

/// The type of a variable, `term` where no literal says one.
pub(crate) fn type_of(types: &[Bound], variable: u64) -> u64
    ensures { result ≡ type_of types.now variable }
{
    for bound in types {
        if bound.variable == variable {
            return bound.name;
        }
    }
    TERM_TYPE
}

fn list_among(known: &[KnownList], element: u64) -> Option<u64>
    ensures { result ≡ list_among known.now element }
{
    for list in known {
        if list.element == element {
            return Some(list.name);
        }
    }
    None
}

// Adds the lists of an element with the next name, as the type of a variable.
fn add_list(
    alloc: Global,
    next: u64,
    mut listing: Listing,
    variable: u64,
    element: u64,
) -> Result<Listing, NoMemory>
    requires { length listing.added + next ≤ 512 }
    ensures { IfOk result (λ l. l ≡ with_list next listing variable element None) }
{
    let name = listing.added.len() as u64 + next;
    let rules = list_rules(alloc, element, name)?;
    listing.known.push(KnownList { element, name })?;
    listing.added.push(rules)?;
    listing.types.push(Bound { variable, name })?;
    Ok(listing)
}

// A variable with a type that is known.
fn with_type(mut listing: Listing, variable: u64, name: u64) -> Result<Listing, NoMemory>
    ensures { IfOk result (λ l. l ≡ record { known = listing.known; added = listing.added; types = listing.types ++ bound variable name ∷ [] }) }
{
    listing.types.push(Bound { variable, name })?;
    Ok(listing)
}

// A variable with the lists of an element, none where there is no room for another name.
fn with_list(
    alloc: Global,
    next: u64,
    listing: Listing,
    variable: u64,
    element: u64,
) -> Result<Option<Listing>, NoMemory>
    requires { length listing.added + next ≤ 512 }
    ensures { IfOk result (λ o. MatchOption o (512 < length (with_list next listing variable element (list_among listing.known element)).added + next) (λ l. (l ≡ with_list next listing variable element (list_among listing.known element)) × (length l.added + next ≤ 512))) }
{
    match list_among(listing.known.as_slice(), element) {
        Some(name) => Ok(Some(with_type(listing, variable, name)?)),
        None => {
            if listing.added.len() as u64 + next >= 512 {
                return Ok(None);
            }
            Ok(Some(add_list(alloc, next, listing, variable, element)?))
        }
    }
}

// The variable of a literal with its type.
fn with_literal(
    alloc: Global,
    next: u64,
    seen: &[Seen],
    listing: Listing,
    literal: Literal,
) -> Result<Option<Listing>, NoMemory>
    requires { length listing.added + next ≤ 512 }
    ensures { IfOk result (λ o. MatchOption o (512 < length (with_literal next (meaning seen.now) listing literal).added + next) (λ l. (l ≡ with_literal next (meaning seen.now) listing literal) × (length l.added + next ≤ 512))) }
{
    let kind = number(type_meant(seen, literal.name));
    if literal.in_list {
        with_list(alloc, next, listing, literal.variable, kind)
    } else {
        Ok(Some(with_type(listing, literal.variable, kind)?))
    }
}

/// The variables of literals with their types, and the lists that they need, whose names begin at `next`; none where there is no room for another name.
pub(crate) fn with_literals(
    alloc: Global,
    next: u64,
    seen: &[Seen],
    start: Listing,
    literals: &[Literal],
) -> Result<Option<Listing>, NoMemory>
    requires { length start.added + next ≤ 512 }
    ensures { IfOk result (λ o. MatchOption o (512 < length (with_literals next (meaning seen.now) start literals.now).added + next) (λ l. (l ≡ with_literals next (meaning seen.now) start literals.now) × (length l.added + next ≤ 512))) }
{
    let mut listing = start;
    for literal in literals {
        match with_literal(alloc, next, seen, listing, *literal)? {
            None => return Ok(None),
            Some(more) => listing = more,
        }
    }
    Ok(Some(listing))
}
