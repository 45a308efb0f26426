// The names to which a term belongs, by its outermost and the names to which its parts belong.
ghost use Rattle.std.specs.Prelude.{◌≡◌, ◌≤◌, ◌&&◌, ℕ, [], true, length, option_copied};
ghost use Rattle.std.specs.List.{list_any};
ghost use Rattle.prog_data.specs.Values.{bit_at};
ghost use Rattle.prog_data.specs.Membership.{rules_of, leaves};
ghost use Rattle.prog_data.specs.declared.grammars.Rule.TheVariants as rules;
ghost use Rattle.prop_check.specs.Sets.{head_holds, passes_in, IsClosed};
ghost use Rattle.prop_check.specs.Chains.{sets_behind};
ghost use Rattle.prop_check.specs.OneOf.{SomeRule, is_whole};

use crate::chains::{Known, all_ground, all_have, link};
use crate::heads::Head;
use crate::membership::rules_of;
use crate::sets::{has, is_same, put_where};
use prog_data::{Basic, Grammar, Rule};

// Whether a term is one of a basic set, by the names to which its parts belong.
fn is_basic(basic: Basic, head: &Head, behind: Option<&Known>) -> bool
    ensures { result ≡ head_holds (sets_behind (option_copied behind.entry)) head.now (rules.Basic basic) }
{
    match head {
        Head::Var => match basic {
            Basic::Term => true,
            Basic::Int | Basic::Nnegint | Basic::Atm | Basic::Gnd | Basic::Struct => false,
        },
        Head::Int(number) => match basic {
            Basic::Term | Basic::Int | Basic::Gnd => true,
            Basic::Nnegint => *number >= 0,
            Basic::Atm | Basic::Struct => false,
        },
        Head::Atom(_) => match basic {
            Basic::Term | Basic::Atm | Basic::Gnd => true,
            Basic::Int | Basic::Nnegint | Basic::Struct => false,
        },
        Head::Node(_) => match basic {
            Basic::Term | Basic::Struct => true,
            Basic::Gnd => all_ground(behind),
            Basic::Int | Basic::Nnegint | Basic::Atm => false,
        },
    }
}

// Whether a rule that is no unit holds of a term, by the names to which its parts belong.
fn head_holds(head: &Head, behind: Option<&Known>, rule: &Rule) -> bool
    ensures { result ≡ head_holds (sets_behind (option_copied behind.entry)) head.now rule.now }
{
    match rule {
        Rule::Basic(basic) => is_basic(*basic, head, behind),
        Rule::Int(wanted) => match head {
            Head::Int(number) => *number == *wanted,
            Head::Var | Head::Atom(_) | Head::Node(_) => false,
        },
        Rule::Atom(wanted) => match head {
            Head::Atom(name) => *name == *wanted,
            Head::Var | Head::Int(_) | Head::Node(_) => false,
        },
        Rule::Node(wanted, names) => match head {
            Head::Node(name) => *name == *wanted && all_have(behind, names.as_slice()),
            Head::Var | Head::Int(_) | Head::Atom(_) => false,
        },
        Rule::Unit(_) => false,
    }
}

// Whether a rule holds of a term, a unit rule by the names that are found so far.
fn rule_passes(head: &Head, behind: Option<&Known>, found: &[u64; 8], rule: &Rule) -> bool
    ensures { result ≡ passes_in (head_holds (sets_behind (option_copied behind.entry)) head.now) (bit_at found.now) rule.now }
{
    match rule {
        Rule::Unit(name) => has(found, *name),
        Rule::Basic(_) | Rule::Int(_) | Rule::Atom(_) | Rule::Node(_, _) => {
            head_holds(head, behind, rule)
        }
    }
}

// Whether one of the rules holds of a term.
fn some_passes(head: &Head, behind: Option<&Known>, found: &[u64; 8], rules: &[Rule]) -> bool
    ensures { result ≡ list_any (passes_in (head_holds (sets_behind (option_copied behind.entry)) head.now) (bit_at found.now)) rules.now }
{
    for rule in rules {
        if rule_passes(head, behind, found, rule) {
            return true;
        }
    }
    false
}

// Whether a name is in the set and one of its rules holds of a term.
fn name_passes(
    grammar: &Grammar,
    reach: &[u64; 8],
    head: &Head,
    behind: Option<&Known>,
    found: &[u64; 8],
    name: u64,
) -> bool
    ensures { result ≡ (bit_at reach.now name && list_any (passes_in (head_holds (sets_behind (option_copied behind.entry)) head.now) (bit_at found.now)) (rules_of grammar.now name)) }
{
    has(reach, name) && some_passes(head, behind, found, rules_of(grammar, name))
}

// Whether a rule of the names of the set, no unit rule, holds of a term.
fn some_holds(grammar: &Grammar, names: &[u64; 8], head: &Head, behind: Option<&Known>) -> bool
    ensures some { result ≡ true → SomeRule grammar.now (bit_at names.now) (head_holds (sets_behind (option_copied behind.entry)) head.now) }
    ensures none { SomeRule grammar.now (bit_at names.now) (head_holds (sets_behind (option_copied behind.entry)) head.now) → result ≡ true }
{
    for name in 0..grammar.rules.len() as u64 {
        if name_passes(grammar, names, head, behind, &[0; 8], name) {
            return true;
        }
    }
    false
}

/// Whether a rule of the names of the set, no unit rule, holds of a term without parts.
#[inline(never)]
pub(crate) fn holds_alone(grammar: &Grammar, names: &[u64; 8], head: &Head) -> bool
    ensures some { result ≡ true → SomeRule grammar.now (bit_at names.now) (head_holds [] head.now) }
    ensures none { SomeRule grammar.now (bit_at names.now) (head_holds [] head.now) → result ≡ true }
{
    some_holds(grammar, names, head, None)
}

/// Whether a rule of the names of the set holds of each compound: it does where a part belongs to no name.
#[inline(never)]
pub(crate) fn holds_of_each(grammar: &Grammar, names: &[u64; 8], name: u64) -> bool
    ensures some { result ≡ true → SomeRule grammar.now (bit_at names.now) is_whole }
    ensures none { SomeRule grammar.now (bit_at names.now) is_whole → result ≡ true }
{
    let part = link(&[0; 8], None);
    some_holds(grammar, names, &Head::Node(name), Some(&part))
}

// The names of the set of which a rule holds of a term, unit rules by the names that are found so far.
fn round(
    grammar: &Grammar,
    reach: &[u64; 8],
    head: &Head,
    behind: Option<&Known>,
    found: &[u64; 8],
) -> [u64; 8]
    requires { length grammar.now.rules ≤ 512 }
    ensures { (n : ℕ) → bit_at result n ≡ (bit_at reach.now n && list_any (passes_in (head_holds (sets_behind (option_copied behind.entry)) head.now) (bit_at found.now)) (rules_of grammar.now n)) }
{
    let mut names = [0; 8];
    for name in 0..grammar.rules.len() as u64 {
        let passes = name_passes(grammar, reach, head, behind, found, name);
        put_where(&mut names, name, passes);
    }
    names
}

/// Makes a set that of the names of a closed one to which a term belongs, by the names to which its parts belong: rounds
/// over the names, each of which follows one more unit rule, until a round finds nothing new.
#[inline(never)]
pub(crate) fn settle(
    grammar: &Grammar,
    reach: &[u64; 8],
    head: &Head,
    behind: Option<&Known>,
    names: &mut [u64; 8],
)
    requires few { length grammar.now.rules ≤ 512 }
    requires closed { IsClosed grammar.now (bit_at reach.now) }
    ensures { (n : ℕ) → bit_at names.new n ≡ (bit_at reach.now n && list_any (head_holds (sets_behind (option_copied behind.entry)) head.now) (leaves grammar.now n)) }
{
    let mut found = round(grammar, reach, head, behind, &[0; 8]);
    for _step in 0..grammar.rules.len() {
        let next = round(grammar, reach, head, behind, &found);
        if is_same(&next, &found) {
            *names = found;
            return;
        }
        found = next;
    }
    *names = found;
}
