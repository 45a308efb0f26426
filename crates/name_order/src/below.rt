// Whether the leaves of a name are below those of a name, by the pairs of names that are known not to be below.
ghost use Rattle.std.specs.Prelude.{◌≡◌};
ghost use Rattle.std.specs.List.{list_any, list_all};
ghost use Rattle.prog_data.specs.declared.basic_names.TheConstants.{GND_TYPE};
ghost use Rattle.name_order.specs.Relations.{each_pair, below_of_node, leaf_below};
ghost use Rattle.name_order.specs.Tables.{lacks};

use crate::basics::{admits_atom, admits_int, basic_below};
use crate::pairs::Pairs;
use prog_data::{Basic, GND_TYPE, Rule};

// Whether each name is below the name gnd.
fn all_below_gnd(outside: &Pairs, names: &[u64]) -> bool
    ensures { result ≡ list_all (λ n. lacks outside.now (n, GND_TYPE)) names.now }
{
    for name in names {
        if !outside.lacks(*name, GND_TYPE) {
            return false;
        }
    }
    true
}

// Whether each name is below the one in its place, and there are as many.
fn each_below(outside: &Pairs, lows: &[u64], highs: &[u64]) -> bool
    ensures { result ≡ each_pair (lacks outside.now) lows.now highs.now }
{
    if lows.len() != highs.len() {
        return false;
    }
    for index in 0..lows.len() {
        if !outside.lacks(lows[index], highs[index]) {
            return false;
        }
    }
    true
}

// Whether a compound is below a leaf.
fn node_below(outside: &Pairs, name: u64, parts: &[u64], leaf: &Rule) -> bool
    ensures { result ≡ below_of_node (lacks outside.now) name parts.now leaf.now }
{
    match leaf {
        Rule::Basic(basic) => match basic {
            Basic::Term | Basic::Struct => true,
            Basic::Gnd => all_below_gnd(outside, parts),
            Basic::Int | Basic::Nnegint | Basic::Atm => false,
        },
        Rule::Node(other, highs) => name == *other && each_below(outside, parts, highs.as_slice()),
        Rule::Int(_) | Rule::Atom(_) | Rule::Unit(_) => false,
    }
}

// Whether a leaf is below a leaf.
fn leaf_below(outside: &Pairs, low: &Rule, high: &Rule) -> bool
    ensures { result ≡ leaf_below (lacks outside.now) low.now high.now }
{
    match low {
        Rule::Basic(basic) => match high {
            Rule::Basic(other) => basic_below(*basic, *other),
            Rule::Int(_) | Rule::Atom(_) | Rule::Node(_, _) | Rule::Unit(_) => false,
        },
        Rule::Int(number) => admits_int(*number, high),
        Rule::Atom(name) => admits_atom(*name, high),
        Rule::Node(name, parts) => node_below(outside, *name, parts.as_slice(), high),
        Rule::Unit(_) => false,
    }
}

// Whether a leaf is below one of the leaves.
fn is_below_one(outside: &Pairs, low: &Rule, highs: &[Rule]) -> bool
    ensures { result ≡ list_any (leaf_below (lacks outside.now) low.now) highs.now }
{
    for high in highs {
        if leaf_below(outside, low, high) {
            return true;
        }
    }
    false
}

/// Whether each of the leaves is below one of the others.
pub(crate) fn are_below(outside: &Pairs, lows: &[Rule], highs: &[Rule]) -> bool
    ensures { result ≡ list_all (λ a. list_any (leaf_below (lacks outside.now) a) highs.now) lows.now }
{
    for low in lows {
        if !is_below_one(outside, low, highs) {
            return false;
        }
    }
    true
}
