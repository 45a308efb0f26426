// The names that rules speak of.
ghost use Rattle.std.specs.Prelude.{◌≡◌, ◌<◌, ◌&&◌, ◌||◌, ℕ, [], nat_lt, true, option_copied};
ghost use Rattle.std.specs.List.{list_any};
ghost use Rattle.prog_data.specs.Values.{bit_at};
ghost use Rattle.prop_check.specs.Sets.{part_picked, ground_name, last_picked, picked, is_picked, finds, finds_in, IsFrom, IsClosed};
ghost use Rattle.prop_check.specs.Chains.{sets_behind};
ghost use Rattle.prop_check.specs.OneOf.{AreLed};

use crate::chains::{Known, all_ground, last_name};
use crate::membership::rules_of;
use crate::sets::{has, has_more, put};
use prog_data::{Basic, GND_TYPE, Grammar, Rule};

/// What is looked for in rules: the names of unit rules, those in a place of the compounds of a name, or those of the last
/// parts of such compounds whose other parts are known.
#[derive(Clone, Copy)]
pub(crate) enum Look {
    Units,
    Part(u64, usize),
    Last(u64),
}

// The name that a look finds in a rule.
fn picked(look: Look, behind: Option<&Known>, rule: &Rule) -> Option<u64>
    ensures { result ≡ picked (sets_behind (option_copied behind.entry)) look rule.now }
{
    match look {
        Look::Units => match rule {
            Rule::Unit(name) => Some(*name),
            Rule::Basic(_) | Rule::Int(_) | Rule::Atom(_) | Rule::Node(_, _) => None,
        },
        Look::Part(wanted, place) => part_picked(wanted, place, rule),
        Look::Last(wanted) => last_picked(wanted, behind, rule),
    }
}

// The name in a place of a rule for the compounds of a name, and gnd where the rule is gnd.
fn part_picked(wanted: u64, place: usize, rule: &Rule) -> Option<u64>
    ensures { result ≡ part_picked wanted place rule.now }
{
    match rule {
        Rule::Node(name, names) => {
            if wanted != *name {
                return None;
            }
            match names.get(place) {
                Some(found) => Some(*found),
                None => None,
            }
        }
        Rule::Basic(basic) => match basic {
            Basic::Gnd => Some(GND_TYPE),
            Basic::Term | Basic::Int | Basic::Nnegint | Basic::Atm | Basic::Struct => None,
        },
        Rule::Int(_) | Rule::Atom(_) | Rule::Unit(_) => None,
    }
}

// The name gnd, where each part has it.
fn ground_name(behind: Option<&Known>) -> Option<u64>
    ensures { result ≡ ground_name (sets_behind (option_copied behind.entry)) }
{
    if all_ground(behind) {
        return Some(GND_TYPE);
    }
    None
}

// The name that a rule for the compounds of a name asks of the last part, where it holds of the other parts.
fn last_picked(wanted: u64, behind: Option<&Known>, rule: &Rule) -> Option<u64>
    ensures { result ≡ last_picked (sets_behind (option_copied behind.entry)) wanted rule.now }
{
    match rule {
        Rule::Node(name, names) => {
            if wanted != *name {
                return None;
            }
            last_name(behind, names.as_slice())
        }
        Rule::Basic(basic) => match basic {
            Basic::Gnd => ground_name(behind),
            Basic::Term | Basic::Int | Basic::Nnegint | Basic::Atm | Basic::Struct => None,
        },
        Rule::Int(_) | Rule::Atom(_) | Rule::Unit(_) => None,
    }
}

// Adds the name that a look finds in a rule.
fn add_picked(names: &mut [u64; 8], look: Look, behind: Option<&Known>, rule: &Rule)
    ensures { (m : ℕ) → bit_at names.new m ≡ (bit_at names.old m || (nat_lt m 512 && is_picked (sets_behind (option_copied behind.entry)) look m rule.now)) }
{
    match picked(look, behind, rule) {
        Some(name) => put(names, name),
        None => {}
    }
}

// Adds the names that a look finds in some rules.
fn add_all(names: &mut [u64; 8], look: Look, behind: Option<&Known>, rules: &[Rule])
    ensures { (m : ℕ) → bit_at names.new m ≡ (bit_at names.old m || (nat_lt m 512 && list_any (is_picked (sets_behind (option_copied behind.entry)) look m) rules.now)) }
{
    for rule in rules {
        add_picked(names, look, behind, rule);
    }
}

// Adds the names that a look finds in the rules of a name, where the name is in a set.
fn add_from(
    names: &mut [u64; 8],
    grammar: &Grammar,
    from: &[u64; 8],
    look: Look,
    behind: Option<&Known>,
    name: u64,
)
    ensures { (m : ℕ) → bit_at names.new m ≡ (bit_at names.old m || (bit_at from.now name && (nat_lt m 512 && finds_in grammar.now (sets_behind (option_copied behind.entry)) look name m))) }
{
    if has(from, name) {
        add_all(names, look, behind, rules_of(grammar, name));
    }
}

/// Adds the names that a look finds in the rules of the names of a set. It is called between two calls of a recursion,
/// whose frames its own variables are not to be part of.
#[inline(never)]
pub(crate) fn gather(
    grammar: &Grammar,
    from: &[u64; 8],
    look: Look,
    behind: Option<&Known>,
    names: &mut [u64; 8],
)
    ensures kept { (n : ℕ) → bit_at names.old n ≡ true → bit_at names.new n ≡ true }
    ensures found { (n m : ℕ) → bit_at from.now n ≡ true → finds_in grammar.now (sets_behind (option_copied behind.entry)) look n m ≡ true → m < 512 → bit_at names.new m ≡ true }
    ensures only { (m : ℕ) → bit_at names.new m ≡ true → IsFrom grammar.now (sets_behind (option_copied behind.entry)) look (bit_at from.now) (bit_at names.old) m }
{
    for name in 0..grammar.rules.len() as u64 {
        add_from(names, grammar, from, look, behind, name);
    }
}

/// Adds the names that a look finds in the rules of the names of a set, where no part is known.
pub(crate) fn gather_first(grammar: &Grammar, from: &[u64; 8], look: Look, names: &mut [u64; 8])
    ensures kept { (n : ℕ) → bit_at names.old n ≡ true → bit_at names.new n ≡ true }
    ensures found { (n m : ℕ) → bit_at from.now n ≡ true → finds grammar.now look n m ≡ true → m < 512 → bit_at names.new m ≡ true }
    ensures only { (m : ℕ) → bit_at names.new m ≡ true → IsFrom grammar.now [] look (bit_at from.now) (bit_at names.old) m }
{
    gather(grammar, from, look, None, names);
}

/// The names of a set, and those to which unit rules lead from them. Each round but the last adds a name.
#[inline(never)]
pub(crate) fn reach(grammar: &Grammar, asked: &[u64; 8]) -> [u64; 8]
    ensures asked { (n : ℕ) → bit_at asked.now n ≡ true → bit_at result n ≡ true }
    ensures closed { IsClosed grammar.now (bit_at result) }
    ensures led { AreLed grammar.now (bit_at asked.now) (bit_at result) }
{
    let mut names = *asked;
    'rounds: loop {
        let mut next = names;
        gather_first(grammar, &names, Look::Units, &mut next);
        if !has_more(&next, &names) {
            return names;
        }
        names = next;
    }
}
