// The lists of an element.
ghost use Rattle.std.specs.Prelude.{◌≡◌, ◌<◌, ◌≤◌, ◌^◌, ◌∷◌, [], length, Some, None, IfOk, IfErr, OnErr};
ghost use Rattle.regtype_grammar.specs.Lists.{list_rules, are_both, is_nil, is_cell, are_list_rules, list_from, found_list, Listed, list_of, ListsStayInRange, IsListFault};
ghost use Rattle.term_core.specs.Lists.{IsPrefix};
ghost use Rattle.regtype_grammar.specs.ListTerms.{ListsAreLists, OldNamesKeepTerms};
ghost use Rattle.regtype_grammar.specs.RuleNames.{RulesStayNamed};

use crate::TypeFault;
use prog_data::{Grammar, Rule};
use sqlite_items::Items;
use std::alloc::Global;
use term_core::{CELL, NIL, NoMemory, one, with_last};

fn cell_rule(alloc: Global, element: u64, name: u64) -> Result<Rule, NoMemory>
    ensures { IfOk result (λ rule. rule ≡ Rule.Node CELL (element ∷ name ∷ [])) }
{
    Ok(Rule::Node(CELL, Items::from_slice(alloc, &[element, name])?))
}

/// The rules of the lists of an element, by their own name.
pub(crate) fn list_rules(alloc: Global, element: u64, name: u64) -> Result<Items<Rule>, NoMemory>
    ensures { IfOk result (λ rules. rules ≡ list_rules element name) }
{
    with_last(
        one(alloc, Rule::Atom(NIL))?,
        cell_rule(alloc, element, name)?,
    )
}

fn are_both(first: u64, second: u64, names: &[u64]) -> bool
    ensures { result ≡ are_both first second names.now }
{
    match names {
        [left, right] => *left == first && *right == second,
        _ => false,
    }
}

fn is_nil(rule: &Rule) -> bool
    ensures { result ≡ is_nil rule.now }
{
    match rule {
        Rule::Atom(name) => *name == NIL,
        Rule::Basic(_) | Rule::Int(_) | Rule::Node(_, _) | Rule::Unit(_) => false,
    }
}

fn is_cell(element: u64, name: u64, rule: &Rule) -> bool
    ensures { result ≡ is_cell element name rule.now }
{
    match rule {
        Rule::Node(found, names) => *found == CELL && are_both(element, name, names.as_slice()),
        Rule::Basic(_) | Rule::Int(_) | Rule::Atom(_) | Rule::Unit(_) => false,
    }
}

// Whether rules are exactly those of the lists of an element.
fn are_list_rules(element: u64, name: u64, rules: &[Rule]) -> bool
    ensures { result ≡ are_list_rules element name rules.now }
{
    match rules {
        [first, second] => is_nil(first) && is_cell(element, name, second),
        _ => false,
    }
}

// The least name that is the lists of an element.
fn found_list(rules: &[Items<Rule>], element: u64) -> Option<u64>
    ensures { result ≡ list_from element 0 rules.now }
{
    for (name, own) in rules.iter().enumerate() {
        if are_list_rules(element, name as u64, own.as_slice()) {
            return Some(name as u64);
        }
    }
    None
}

// Finds or adds the lists of an element.
fn find_or_add(alloc: Global, grammar: &mut Grammar, element: u64) -> Result<u64, TypeFault>
    ensures ok { IfOk result (λ name. list_of grammar.old element ≡ Some (record { grammar = grammar.new; name = name })) }
    ensures err { IfErr result (IsListFault grammar.old element) }
    ensures kept { OnErr result (grammar.new ≡ grammar.old) }
{
    match found_list(grammar.rules.as_slice(), element) {
        Some(name) => Ok(name),
        None => {
            let name = grammar.rules.len() as u64;
            if name >= 512 {
                return Err(TypeFault::TooManyNames);
            }
            let rules = list_rules(alloc, element, name)?;
            grammar.rules.push(rules)?;
            Ok(name)
        }
    }
}

/// The name of the lists of an element, which is found or added; the rules of the other names stay as they are.
///
/// # Errors
/// That a 513th name is needed; want of memory.
pub fn list_of(alloc: Global, grammar: &mut Grammar, element: u64) -> Result<u64, TypeFault>
    ensures ok { IfOk result (λ name. list_of grammar.old element ≡ Some (record { grammar = grammar.new; name = name })) }
    ensures range { IfOk result (λ name. ListsStayInRange grammar.old element grammar.new name) }
    ensures named { IfOk result (λ name. RulesStayNamed grammar.old grammar.new) }
    ensures front { IfOk result (λ name. IsPrefix grammar.old.rules grammar.new.rules) }
    ensures err { IfErr result (IsListFault grammar.old element) }
    ensures kept { OnErr result (grammar.new ≡ grammar.old) }
{
    find_or_add(alloc, grammar, element)
}

/// What belongs to the lists of an element is exactly the proper lists of what belongs to the element.
pub fn lists_law()
    ensures { ListsAreLists }
{}

/// What belongs to a name stays the same where further names come behind.
pub fn old_names_law()
    ensures { OldNamesKeepTerms }
{}
