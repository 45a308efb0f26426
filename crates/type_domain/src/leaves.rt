// What leaves take: constants, and compounds by the values of their parts.
ghost use Rattle.std.specs.Prelude.{◌≡◌, ◌<◌, nat_lt, length, map, true};
ghost use Rattle.std.specs.List.{list_any, list_all};
ghost use Rattle.prog_data.specs.GrammarRange.{is_rule_of};
ghost use Rattle.prog_data.specs.Values.{bit_at, seen};
ghost use Rattle.prog_data.specs.declared.basic_names.TheConstants.{GND_TYPE};
ghost use Rattle.name_order.specs.Relations.{order};
ghost use Rattle.type_domain.specs.Values.{has_name, each_has, leaf_builds};
ghost use Rattle.type_domain.specs.Wanted.{has_wanted};

use crate::bits::has;
use crate::lookups::leaves;
use name_order::{Relations, admits_atom, admits_int, put_where};
use prog_data::{Basic, GND_TYPE, Grammar, Rule, Value};

/// What a leaf is asked for: a constant, or the compounds of a name whose parts are in given values.
#[derive(Clone, Copy, Drop)]
pub(crate) enum Wanted {
    Int(i64),
    Atom(u64),
    Compound(u64),
}

/// Whether a value is not none and has the name.
pub fn has_name(value: &Value, name: u64) -> bool
    requires { name < 512 }
    ensures { result ≡ has_name (seen value.now) name }
{
    match &value.names {
        None => false,
        Some(words) => has(words, name),
    }
}

// Whether each value has the name gnd.
fn all_ground(parts: &[Value]) -> bool
    ensures { result ≡ list_all (λ v. has_name v GND_TYPE) (map seen parts.now) }
{
    for part in parts {
        if !has_name(part, GND_TYPE) {
            return false;
        }
    }
    true
}

// Whether each name is in the value in its place, and there are as many.
fn each_has(parts: &[Value], names: &[u64]) -> bool
    requires { list_all (λ n. nat_lt n 512) names.now ≡ true }
    ensures { result ≡ each_has (map seen parts.now) names.now }
{
    if parts.len() != names.len() {
        return false;
    }
    for index in 0..parts.len() {
        if !has_name(&parts[index], names[index]) {
            return false;
        }
    }
    true
}

// Whether a leaf takes the compounds of a name whose parts are in these values.
fn leaf_builds(name: u64, parts: &[Value], leaf: &Rule) -> bool
    requires { is_rule_of 512 leaf.now ≡ true }
    ensures { result ≡ leaf_builds name (map seen parts.now) leaf.now }
{
    match leaf {
        Rule::Basic(basic) => match basic {
            Basic::Term | Basic::Struct => true,
            Basic::Gnd => all_ground(parts),
            Basic::Int | Basic::Nnegint | Basic::Atm => false,
        },
        Rule::Node(other, names) => name == *other && each_has(parts, names.as_slice()),
        Rule::Int(_) | Rule::Atom(_) | Rule::Unit(_) => false,
    }
}

// Whether a leaf takes what is wanted.
fn has_wanted(wanted: Wanted, parts: &[Value], leaf: &Rule) -> bool
    requires { is_rule_of 512 leaf.now ≡ true }
    ensures { result ≡ has_wanted wanted (map seen parts.now) leaf.now }
{
    match wanted {
        Wanted::Int(number) => admits_int(number, leaf),
        Wanted::Atom(name) => admits_atom(name, leaf),
        Wanted::Compound(name) => leaf_builds(name, parts, leaf),
    }
}

// Whether one of the leaves takes what is wanted.
fn some_has(wanted: Wanted, parts: &[Value], leaves: &[Rule]) -> bool
    requires { list_all (is_rule_of 512) leaves.now ≡ true }
    ensures { result ≡ list_any (has_wanted wanted (map seen parts.now)) leaves.now }
{
    for leaf in leaves {
        if has_wanted(wanted, parts, leaf) {
            return true;
        }
    }
    false
}

// Whether a leaf of the name takes what is wanted.
fn name_has(rel: &Relations, wanted: Wanted, parts: &[Value], name: u64) -> bool
    requires { name < length rel.now.rules }
    ensures { result ≡ list_any (has_wanted wanted (map seen parts.now)) ((order rel.now).leaves name) }
{
    some_has(wanted, parts, leaves(rel, name))
}

/// The names with a leaf that takes what is wanted.
pub(crate) fn names_with(
    grammar: &Grammar,
    rel: &Relations,
    wanted: Wanted,
    parts: &[Value],
) -> [u64; 8]
    requires { rel.now ≡ grammar.now }
    ensures { bit_at result ≡ (λ n. list_any (has_wanted wanted (map seen parts.now)) ((order rel.now).leaves n)) }
{
    rel.range();
    let mut names = [0; 8];
    for name in 0..grammar.rules.len() as u64 {
        put_where(&mut names, name, name_has(rel, wanted, parts, name));
    }
    names
}
