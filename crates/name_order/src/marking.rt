// Tables are filled by passes over the pairs that are not done, until a pass marks nothing.
ghost use Rattle.std.specs.Prelude.{◌≡◌, ◌<◌, ◌≤◌, ◌==◌, ◌&&◌, nat_lt, length, IfOk};
ghost use Rattle.name_order.specs.Fixpoints.{ClosedTest};
ghost use Rattle.name_order.specs.Relations.{are_names, same_pair};
ghost use Rattle.name_order.specs.Tables.{has, due, marking, name_after, all_users, Grown, Looked, DoneAreMarked, IsLeast};

use crate::below::are_below;
use crate::leaves::{rules_at, some_leaf_has, some_unit_leads};
use crate::meets::some_meet;
use crate::pairs::Pairs;
use crate::users::{all_users, reopen};
use prog_data::Rule;
use sqlite_items::Items;
use std::alloc::Global;
use term_core::NoMemory;

/// What a table says of two names.
#[derive(Clone, Copy, Drop)]
pub(crate) enum Kind {
    /// Unit rules lead from the first to the second.
    Leads,
    /// They are one name, and it has a member.
    Members,
    /// The first is not below the second.
    Outside,
    /// They meet.
    Meets,
}

// Whether the pair is due, by what is marked so far.
fn is_due(kind: Kind, lists: &[Items<Rule>], marked: &Pairs, first: usize, second: usize) -> bool
    requires { marked.now.size ≡ length lists.now }
    ensures { result ≡ due kind lists.now (has marked.now) (first, second) }
{
    let rules = rules_at(lists, first);
    match kind {
        Kind::Leads => first == second || some_unit_leads(marked, rules, second as u64),
        Kind::Members => first == second && some_leaf_has(marked, rules),
        Kind::Outside => !are_below(marked, rules, rules_at(lists, second)),
        Kind::Meets => some_meet(marked, rules, rules_at(lists, second)),
    }
}

// Looks at the pair unless it is done, and marks it if it is due; whether it is new.
fn look(
    kind: Kind,
    lists: &[Items<Rule>],
    users: &[Items<u64>],
    marked: &mut Pairs,
    done: &mut Pairs,
    first: usize,
    second: usize,
) -> bool
    requires size { marked.old.size ≡ length lists.now }
    requires done { done.old.size ≡ length lists.now }
    requires users { users.now ≡ all_users lists.now }
    requires first { first < length lists.now }
    requires second { second < length lists.now }
    ensures { Looked (marking kind lists.now) (λ p. same_pair p (first, second)) marked.old done.old marked.new done.new result }
{
    if done.has(first as u64, second as u64) {
        return false;
    }
    done.add(first as u64, second as u64);
    if marked.has(first as u64, second as u64) {
        return false;
    }
    if !is_due(kind, lists, marked, first, second) {
        return false;
    }
    marked.add(first as u64, second as u64);
    reopen(kind, users, done, first, second);
    true
}

// Looks at the pairs with this first name; whether one is new.
fn look_row(
    kind: Kind,
    lists: &[Items<Rule>],
    users: &[Items<u64>],
    marked: &mut Pairs,
    done: &mut Pairs,
    first: usize,
) -> bool
    requires size { marked.old.size ≡ length lists.now }
    requires done { done.old.size ≡ length lists.now }
    requires users { users.now ≡ all_users lists.now }
    requires first { first < length lists.now }
    ensures { Looked (marking kind lists.now) (λ p. (p.0 == first) && nat_lt p.1 (length lists.now)) marked.old done.old marked.new done.new result }
{
    let mut any = false;
    for second in 0..lists.len() {
        any |= look(kind, lists, users, marked, done, first, second);
    }
    any
}

// The name that is looked at after so many, from the first on or from the last on.
fn name_after(forward: bool, size: usize, step: usize) -> usize
    requires { step < size }
    ensures { result ≡ name_after forward size step }
{
    if forward { step } else { size - 1 - step }
}

// Looks at all pairs; whether one is new.
fn look_all(
    kind: Kind,
    lists: &[Items<Rule>],
    users: &[Items<u64>],
    marked: &mut Pairs,
    done: &mut Pairs,
    forward: bool,
) -> bool
    requires size { marked.old.size ≡ length lists.now }
    requires done { done.old.size ≡ length lists.now }
    requires users { users.now ≡ all_users lists.now }
    ensures { Looked (marking kind lists.now) (are_names (length lists.now)) marked.old done.old marked.new done.new result }
{
    let mut any = false;
    for step in 0..lists.len() {
        let first = name_after(forward, lists.len(), step);
        any |= look_row(kind, lists, users, marked, done, first);
    }
    any
}

// Passes in turn from the last name and from the first: names are made of later ones, or of earlier ones.
fn fill(
    kind: Kind,
    lists: &[Items<Rule>],
    users: &[Items<u64>],
    marked: &mut Pairs,
    done: &mut Pairs,
)
    requires size { marked.old.size ≡ length lists.now }
    requires done { done.old.size ≡ length lists.now }
    requires users { users.now ≡ all_users lists.now }
    requires done_marked { DoneAreMarked (marking kind lists.now) marked.old done.old }
    ensures grown { Grown (marking kind lists.now) marked.old marked.new }
    ensures closed { ClosedTest (marking kind lists.now) (has marked.new) }
{
    let mut forward = false;
    while look_all(kind, lists, users, marked, done, forward) {
        forward = !forward;
    }
}

/// The table that has just what its rule gives.
pub(crate) fn table(alloc: Global, kind: Kind, lists: &[Items<Rule>]) -> Result<Pairs, NoMemory>
    requires { length lists.now ≤ 512 }
    ensures { IfOk result (λ t. IsLeast (marking kind lists.now) (length lists.now) t) }
{
    let users = all_users(alloc, lists)?;
    let mut marked = Pairs::none(alloc, lists.len())?;
    let mut done = Pairs::none(alloc, lists.len())?;
    fill(kind, lists, users.as_slice(), &mut marked, &mut done);
    Ok(marked)
}
