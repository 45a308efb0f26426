// Whether a leaf of a name meets one of a name, by the pairs of names that are known to meet.
ghost use Rattle.std.specs.Prelude.{◌≡◌};
ghost use Rattle.std.specs.List.{list_any, list_all};
ghost use Rattle.prog_data.specs.declared.grammars.Rule.TheVariants as rules;
ghost use Rattle.prog_data.specs.declared.basic_names.TheConstants.{GND_TYPE};
ghost use Rattle.name_order.specs.Relations.{each_pair, node_meets_basic, meets_of_basic, meets_of_node, leaf_meets};
ghost use Rattle.name_order.specs.Tables.{has};

use crate::basics::{admits_atom, admits_int, basic_meets};
use crate::pairs::Pairs;
use prog_data::{Basic, GND_TYPE, Rule};

// Whether each name meets the name gnd.
fn all_meet_gnd(meeting: &Pairs, names: &[u64]) -> bool
    ensures { result ≡ list_all (λ n. has meeting.now (n, GND_TYPE)) names.now }
{
    for name in names {
        if !meeting.has(*name, GND_TYPE) {
            return false;
        }
    }
    true
}

// Whether each name meets the one in its place, and there are as many.
fn each_meets(meeting: &Pairs, lefts: &[u64], rights: &[u64]) -> bool
    ensures { result ≡ each_pair (has meeting.now) lefts.now rights.now }
{
    if lefts.len() != rights.len() {
        return false;
    }
    for index in 0..lefts.len() {
        if !meeting.has(lefts[index], rights[index]) {
            return false;
        }
    }
    true
}

// Whether a compound meets a basic leaf.
fn node_meets_basic(meeting: &Pairs, parts: &[u64], basic: Basic) -> bool
    ensures { result ≡ node_meets_basic (has meeting.now) parts.now basic }
{
    match basic {
        Basic::Term | Basic::Struct => true,
        Basic::Gnd => all_meet_gnd(meeting, parts),
        Basic::Int | Basic::Nnegint | Basic::Atm => false,
    }
}

// Whether a basic leaf meets a leaf.
fn basic_meets_leaf(meeting: &Pairs, basic: Basic, leaf: &Rule) -> bool
    ensures { result ≡ meets_of_basic (has meeting.now) basic leaf.now }
{
    match leaf {
        Rule::Basic(other) => basic_meets(basic, *other),
        Rule::Int(number) => admits_int(*number, &Rule::Basic(basic)),
        Rule::Atom(name) => admits_atom(*name, &Rule::Basic(basic)),
        Rule::Node(_, parts) => node_meets_basic(meeting, parts.as_slice(), basic),
        Rule::Unit(_) => false,
    }
}

// Whether a compound meets a leaf.
fn node_meets(meeting: &Pairs, name: u64, parts: &[u64], leaf: &Rule) -> bool
    ensures { result ≡ meets_of_node (has meeting.now) name parts.now leaf.now }
{
    match leaf {
        Rule::Basic(basic) => node_meets_basic(meeting, parts, *basic),
        Rule::Node(other, rights) => {
            name == *other && each_meets(meeting, parts, rights.as_slice())
        }
        Rule::Int(_) | Rule::Atom(_) | Rule::Unit(_) => false,
    }
}

// Whether a leaf meets a leaf.
fn leaf_meets(meeting: &Pairs, left: &Rule, right: &Rule) -> bool
    ensures { result ≡ leaf_meets (has meeting.now) left.now right.now }
{
    match left {
        Rule::Basic(basic) => basic_meets_leaf(meeting, *basic, right),
        Rule::Int(number) => admits_int(*number, right),
        Rule::Atom(name) => admits_atom(*name, right),
        Rule::Node(name, parts) => node_meets(meeting, *name, parts.as_slice(), right),
        Rule::Unit(_) => false,
    }
}

// Whether a leaf meets one of the leaves.
fn meets_one(meeting: &Pairs, left: &Rule, rights: &[Rule]) -> bool
    ensures { result ≡ list_any (leaf_meets (has meeting.now) left.now) rights.now }
{
    for right in rights {
        if leaf_meets(meeting, left, right) {
            return true;
        }
    }
    false
}

/// Whether one of the leaves meets one of the others.
pub(crate) fn some_meet(meeting: &Pairs, lefts: &[Rule], rights: &[Rule]) -> bool
    ensures { result ≡ list_any (λ a. list_any (leaf_meets (has meeting.now) a) rights.now) lefts.now }
{
    for left in lefts {
        if meets_one(meeting, left, rights) {
            return true;
        }
    }
    false
}
