// The leaves of names, copied.
ghost use Rattle.std.specs.Prelude.{◌≡◌, ◌++◌, [], List, filter, map, length, slice_index_or, IfOk, OnOk};
ghost use Rattle.std.specs.List.{list_any, list_all};
ghost use Rattle.prog_data.specs.Membership.{is_leaf};
ghost use Rattle.name_order.specs.Relations.{leaf_has, names_below};
ghost use Rattle.name_order.specs.Tables.{has, unit_leads, led_leaves, leaves_led, all_leaves_led, kept_leaves};

use crate::pairs::Pairs;
use prog_data::{Grammar, Rule};
use sqlite_items::Items;
use std::alloc::Global;
use term_core::NoMemory;

/// The rules of a name, none where it is not there.
pub(crate) fn rules_at(lists: &[Items<Rule>], name: usize) -> &[Rule]
    ensures { result.now ≡ slice_index_or lists.now name [] }
{
    match sqlite_items::at(lists, name) {
        Some(rules) => rules.as_slice(),
        None => &[],
    }
}

// A copy of a rule.
fn copied(alloc: Global, rule: &Rule) -> Result<Rule, NoMemory>
    ensures { IfOk result (λ r. r ≡ rule.now) }
{
    match rule {
        Rule::Basic(basic) => Ok(Rule::Basic(*basic)),
        Rule::Int(number) => Ok(Rule::Int(*number)),
        Rule::Atom(name) => Ok(Rule::Atom(*name)),
        Rule::Node(name, names) => {
            let names = Items::from_slice(alloc, names.as_slice())?;
            Ok(Rule::Node(*name, names))
        }
        Rule::Unit(name) => Ok(Rule::Unit(*name)),
    }
}

// A copy of a list of rules.
fn copied_rules(alloc: Global, rules: &[Rule]) -> Result<Items<Rule>, NoMemory>
    ensures { IfOk result (λ rs. rs ≡ rules.now) }
{
    let mut copies = Items::new(alloc);
    for rule in rules {
        copies.push(copied(alloc, rule)?)?;
    }
    Ok(copies)
}

/// A copy of a grammar.
pub(crate) fn copied_grammar(alloc: Global, grammar: &Grammar) -> Result<Grammar, NoMemory>
    ensures { IfOk result (λ g. g ≡ grammar.now) }
{
    let mut rules = Items::new(alloc);
    for list in grammar.rules.as_slice() {
        rules.push(copied_rules(alloc, list.as_slice())?)?;
    }
    Ok(Grammar { rules })
}

/// Whether a unit rule leads to a name that leads to the name.
pub(crate) fn some_unit_leads(leads: &Pairs, rules: &[Rule], name: u64) -> bool
    ensures { result ≡ list_any (unit_leads (has leads.now) name) rules.now }
{
    for rule in rules {
        if unit_leads(leads, rule, name) {
            return true;
        }
    }
    false
}

// Whether it is a unit rule to a name that leads to the name.
fn unit_leads(leads: &Pairs, rule: &Rule, name: u64) -> bool
    ensures { result ≡ unit_leads (has leads.now) name rule.now }
{
    match rule {
        Rule::Unit(next) => leads.has(*next, name),
        Rule::Basic(_) | Rule::Int(_) | Rule::Atom(_) | Rule::Node(_, _) => false,
    }
}

// Whether each name has a member.
fn all_have_members(members: &Pairs, names: &[u64]) -> bool
    ensures { result ≡ list_all (λ n. has members.now (n, n)) names.now }
{
    for name in names {
        if !members.has(*name, *name) {
            return false;
        }
    }
    true
}

// Whether a leaf has a member: a compound where its parts have.
fn leaf_has(members: &Pairs, leaf: &Rule) -> bool
    ensures { result ≡ leaf_has (λ n. has members.now (n, n)) leaf.now }
{
    match leaf {
        Rule::Node(_, names) => all_have_members(members, names.as_slice()),
        Rule::Basic(_) | Rule::Int(_) | Rule::Atom(_) | Rule::Unit(_) => true,
    }
}

/// Whether one of the leaves has a member.
pub(crate) fn some_leaf_has(members: &Pairs, leaves: &[Rule]) -> bool
    ensures { result ≡ list_any (leaf_has (λ n. has members.now (n, n))) leaves.now }
{
    for leaf in leaves {
        if leaf_has(members, leaf) {
            return true;
        }
    }
    false
}

// Whether a rule is no unit.
fn is_leaf(rule: &Rule) -> bool
    ensures { result ≡ is_leaf rule.now }
{
    match rule {
        Rule::Unit(_) => false,
        Rule::Basic(_) | Rule::Int(_) | Rule::Atom(_) | Rule::Node(_, _) => true,
    }
}

// Adds copies of the rules that are no unit.
fn push_leaves(alloc: Global, rules: &[Rule], leaves: &mut Items<Rule>) -> Result<(), NoMemory>
    ensures { OnOk result (leaves.new ≡ leaves.old ++ filter is_leaf rules.now) }
{
    for rule in rules {
        if is_leaf(rule) {
            leaves.push(copied(alloc, rule)?)?;
        }
    }
    Ok(())
}

// Adds the leaves of a name if the name leads to it.
fn push_led(
    alloc: Global,
    lists: &[Items<Rule>],
    leads: &Pairs,
    name: u64,
    led: usize,
    leaves: &mut Items<Rule>,
) -> Result<(), NoMemory>
    ensures { OnOk result (leaves.new ≡ leaves.old ++ led_leaves lists.now (has leads.now) name led) }
{
    if leads.has(name, led as u64) {
        return push_leaves(alloc, rules_at(lists, led), leaves);
    }
    Ok(())
}

// The leaves of a name, by the names that it leads to.
fn leaves_led(
    alloc: Global,
    lists: &[Items<Rule>],
    leads: &Pairs,
    name: u64,
) -> Result<Items<Rule>, NoMemory>
    ensures { IfOk result (λ leaves. leaves ≡ leaves_led lists.now (has leads.now) name) }
{
    let mut leaves = Items::new(alloc);
    for led in 0..lists.len() {
        push_led(alloc, lists, leads, name, led, &mut leaves)?;
    }
    Ok(leaves)
}

/// The leaves of each name, by the names that unit rules lead to.
pub(crate) fn all_leaves_led(
    alloc: Global,
    lists: &[Items<Rule>],
    leads: &Pairs,
) -> Result<Items<Items<Rule>>, NoMemory>
    ensures { IfOk result (λ all. all ≡ all_leaves_led lists.now (has leads.now)) }
{
    let mut all = Items::new(alloc);
    for name in 0..lists.len() {
        all.push(leaves_led(alloc, lists, leads, name as u64)?)?;
    }
    Ok(all)
}

// The leaves that have members.
fn kept_leaves(alloc: Global, members: &Pairs, leaves: &[Rule]) -> Result<Items<Rule>, NoMemory>
    ensures { IfOk result (λ kept. kept ≡ kept_leaves (has members.now) leaves.now) }
{
    let mut kept = Items::new(alloc);
    for leaf in leaves {
        if leaf_has(members, leaf) {
            kept.push(copied(alloc, leaf)?)?;
        }
    }
    Ok(kept)
}

/// Of the leaves of each name those that have members.
pub(crate) fn all_kept_leaves(
    alloc: Global,
    members: &Pairs,
    lists: &[Items<Rule>],
) -> Result<Items<Items<Rule>>, NoMemory>
    ensures { IfOk result (λ all. all ≡ map (kept_leaves (has members.now)) lists.now) }
{
    let mut all = Items::new(alloc);
    for leaves in lists {
        all.push(kept_leaves(alloc, members, leaves.as_slice())?)?;
    }
    Ok(all)
}
