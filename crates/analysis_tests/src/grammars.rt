// Grammars: the basic names, and some behind them.
ghost use Rattle.std.specs.Prelude.{◌≡◌, nat_lt};
ghost use Rattle.std.specs.List.{list_all};
ghost use Rattle.prog_data.specs.GrammarRange.{is_rule_of};

use name_order::Relations;
use prog_data::{Rule, basic_grammar};
use sqlite_items::Items;
use std::alloc::Global;
use term_core::NoMemory;

fn names_within(size: u64, names: &[u64]) -> bool
    ensures { result ≡ list_all (λ n. nat_lt n size) names.now }
{
    for name in names {
        if *name >= size {
            return false;
        }
    }
    true
}

fn rule_within(size: u64, rule: &Rule) -> bool
    ensures { result ≡ is_rule_of size rule.now }
{
    match rule {
        Rule::Node(_, names) => names_within(size, names.as_slice()),
        Rule::Unit(name) => names_within(size, &[*name]),
        Rule::Basic(_) | Rule::Int(_) | Rule::Atom(_) => true,
    }
}

fn rules_within(size: u64, rules: &[Rule]) -> bool
    ensures { result ≡ list_all (is_rule_of size) rules.now }
{
    for rule in rules {
        if !rule_within(size, rule) {
            return false;
        }
    }
    true
}

// Whether each name in the rules is one of so many.
pub(crate) fn all_within(size: u64, lists: &[Items<Rule>]) -> bool
    ensures { result ≡ list_all (list_all (is_rule_of size)) lists.now }
{
    for rules in lists {
        if !rules_within(size, rules.as_slice()) {
            return false;
        }
    }
    true
}

// A compound.
pub(crate) fn node(alloc: Global, name: u64, parts: &[u64]) -> Result<Rule, NoMemory> {
    Ok(Rule::Node(name, Items::from_slice(alloc, parts)?))
}

pub(crate) fn one(alloc: Global, rule: Rule) -> Result<Items<Rule>, NoMemory> {
    let mut rules = Items::new(alloc);
    rules.push(rule)?;
    Ok(rules)
}

pub(crate) fn two(alloc: Global, first: Rule, second: Rule) -> Result<Items<Rule>, NoMemory> {
    let mut rules = one(alloc, first)?;
    rules.push(second)?;
    Ok(rules)
}

// The name 10: the atom 80, or a compound 81 of a tree, an integer and a tree.
pub(crate) fn tree_names(alloc: Global) -> Result<Items<Items<Rule>>, NoMemory> {
    let mut names = Items::new(alloc);
    let inner = node(alloc, 81, &[10, 1, 10])?;
    names.push(two(alloc, Rule::Atom(80), inner)?)?;
    Ok(names)
}

// The relations of the basic names with these behind them; none where these are no grammar.
pub(crate) fn relations(
    alloc: Global,
    more: Items<Items<Rule>>,
) -> Result<Option<Relations>, NoMemory> {
    let mut grammar = basic_grammar(alloc)?;
    grammar.rules.append(more)?;
    let size = grammar.rules.len() as u64;
    if size > 512 {
        return Ok(None);
    }
    if !all_within(size, grammar.rules.as_slice()) {
        return Ok(None);
    }
    Ok(Some(Relations::make(alloc, &grammar)?))
}
