// Which names use a name, and what is to be looked at again where a pair was marked.
ghost use Rattle.std.specs.Prelude.{◌≡◌, ◌&&◌, ◌==◌, ◌++◌, [], not, slice_index_or, IfOk, OnOk};
ghost use Rattle.std.specs.List.{list_any};
ghost use Rattle.name_order.specs.Relations.{Pair};
ghost use Rattle.name_order.specs.Tables.{has, listed, speaks_of, user_if, users, all_users, touched};

use crate::leaves::rules_at;
use crate::marking::Kind;
use crate::pairs::Pairs;
use prog_data::{GND_TYPE, Rule};
use sqlite_items::Items;
use std::alloc::Global;
use term_core::NoMemory;

// Whether a name stands in a list.
fn is_listed(names: &[u64], name: u64) -> bool
    ensures { result ≡ listed names.now name }
{
    for other in names {
        if name == *other {
            return true;
        }
    }
    false
}

// Whether a rule has the name as a part, or leads to it.
fn speaks_of(name: u64, rule: &Rule) -> bool
    ensures { result ≡ speaks_of name rule.now }
{
    match rule {
        Rule::Node(_, names) => is_listed(names.as_slice(), name),
        Rule::Unit(other) => name == *other,
        Rule::Basic(_) | Rule::Int(_) | Rule::Atom(_) => false,
    }
}

// Whether one of the rules speaks of the name.
fn some_speaks_of(name: u64, rules: &[Rule]) -> bool
    ensures { result ≡ list_any (speaks_of name) rules.now }
{
    for rule in rules {
        if speaks_of(name, rule) {
            return true;
        }
    }
    false
}

// Adds the name, if it uses the used one.
fn push_user(
    lists: &[Items<Rule>],
    used: u64,
    name: usize,
    found: &mut Items<u64>,
) -> Result<(), NoMemory>
    ensures { OnOk result (found.new ≡ found.old ++ user_if lists.now used name) }
{
    if used == GND_TYPE || some_speaks_of(used, rules_at(lists, name)) {
        found.push(name as u64)?;
    }
    Ok(())
}

// The names that use the name.
fn users(alloc: Global, lists: &[Items<Rule>], used: u64) -> Result<Items<u64>, NoMemory>
    ensures { IfOk result (λ found. found ≡ users lists.now used) }
{
    let mut found = Items::new(alloc);
    for name in 0..lists.len() {
        push_user(lists, used, name, &mut found)?;
    }
    Ok(found)
}

/// The names that use each name.
pub(crate) fn all_users(alloc: Global, lists: &[Items<Rule>]) -> Result<Items<Items<u64>>, NoMemory>
    ensures { IfOk result (λ all. all ≡ all_users lists.now) }
{
    let mut all = Items::new(alloc);
    for used in 0..lists.len() {
        all.push(users(alloc, lists, used as u64)?)?;
    }
    Ok(all)
}

// The names that use a name, none where it is not there.
fn users_at(users: &[Items<u64>], name: usize) -> &[u64]
    ensures { result.now ≡ slice_index_or users.now name [] }
{
    match sqlite_items::at(users, name) {
        Some(names) => names.as_slice(),
        None => &[],
    }
}

// Takes out the pairs of the first name with the others.
fn remove_row(done: &mut Pairs, first: u64, seconds: &[u64])
    ensures size { done.new.size ≡ done.old.size }
    ensures has { (p : Pair) → has done.new p ≡ (not ((p.0 == first) && listed seconds.now p.1) && has done.old p) }
{
    for second in seconds {
        done.remove(first, *second);
    }
}

// Takes out the pairs of names of two lists.
fn remove_all(done: &mut Pairs, firsts: &[u64], seconds: &[u64])
    ensures size { done.new.size ≡ done.old.size }
    ensures has { (p : Pair) → has done.new p ≡ (not (listed firsts.now p.0 && listed seconds.now p.1) && has done.old p) }
{
    for first in firsts {
        remove_row(done, *first, seconds);
    }
}

/// Takes out what is to be looked at again where the pair was marked.
pub(crate) fn reopen(
    kind: Kind,
    users: &[Items<u64>],
    done: &mut Pairs,
    first: usize,
    second: usize,
)
    ensures size { done.new.size ≡ done.old.size }
    ensures has { (p : Pair) → has done.new p ≡ (not (touched kind users.now (first, second) p) && has done.old p) }
{
    let firsts = users_at(users, first);
    let seconds = users_at(users, second);
    match kind {
        Kind::Leads => remove_all(done, firsts, &[second as u64]),
        Kind::Members | Kind::Outside => remove_all(done, firsts, seconds),
        Kind::Meets => {
            remove_all(done, firsts, seconds);
            remove_all(done, seconds, firsts);
        }
    }
}
