// The values of compounds by those of their parts, and of parts by those of compounds.
ghost use Rattle.std.specs.Prelude.{◌≡◌, ◌<◌, length, map, true};
ghost use Rattle.std.specs.List.{list_all, AllByRecursion};
ghost use Rattle.prog_data.specs.GrammarRange.{is_rule_of};
ghost use Rattle.prog_data.specs.Values.{bit_at, seen};
ghost use Rattle.name_order.specs.Relations.{order};
ghost use Rattle.type_domain.specs.Values.{IsValue, names_of, is_set, build, leaf_part, join_all, name_part, meet_parts, project};
ghost use Rattle.type_domain.specs.Meeting.{united_where, said_parts};

use crate::bits::has;
use crate::laws::{given_law, relied_law};
use crate::leaves::{Wanted, names_with};
use crate::lookups::leaves;
use crate::values::{fitting, join, of_name, united};
use name_order::Relations;
use prog_data::{Basic, GND_TYPE, Grammar, Rule, TERM_TYPE, Value};

/// Whether no value is none.
pub fn all_set(parts: &[Value]) -> bool
    ensures { result ≡ list_all is_set (map seen parts.now) }
{
    for part in parts {
        if part.names.is_none() {
            return false;
        }
    }
    true
}

/// The names with a leaf that takes the compounds of the name whose parts are in these values; none where a part is none.
pub fn build(grammar: &Grammar, rel: &Relations, name: u64, parts: &[Value]) -> Value
    requires { rel.now ≡ grammar.now }
    ensures value { seen result ≡ build (order rel.now) name (map seen parts.now) }
    ensures held { AllByRecursion (IsValue (order rel.now)) (map seen parts.now) → IsValue (order rel.now) (seen result) }
{
    rel.range();
    given_law(); // for the proof
    if !all_set(parts) {
        return Value { names: None };
    }
    Value {
        names: Some(names_with(grammar, rel, Wanted::Compound(name), parts)),
    }
}

// A place of the compounds of a name and a number of parts.
#[derive(Clone, Copy, Drop)]
struct Place {
    name: u64,
    arity: u64,
    part: u64,
}

// What a leaf says of a part of its compounds; none where it has none of the place.
fn leaf_part(rel: &Relations, leaf: &Rule, place: Place) -> Value
    requires range { is_rule_of (length rel.now.rules) leaf.now ≡ true }
    requires part { place.part < place.arity }
    ensures { seen result ≡ leaf_part (order rel.now) place.name place.arity place.part leaf.now }
{
    rel.range();
    match leaf {
        Rule::Basic(basic) => match basic {
            Basic::Term | Basic::Struct => of_name(rel, TERM_TYPE),
            Basic::Gnd => of_name(rel, GND_TYPE),
            Basic::Int | Basic::Nnegint | Basic::Atm => Value { names: None },
        },
        Rule::Node(other, names) => {
            if place.name == *other {
                if names.len() as u64 == place.arity {
                    return of_name(rel, names.as_slice()[place.part as usize]);
                }
            }
            Value { names: None }
        }
        Rule::Int(_) | Rule::Atom(_) | Rule::Unit(_) => Value { names: None },
    }
}

// What the leaves say of a part of a compound, joined.
fn joined_parts(rel: &Relations, leaves: &[Rule], place: Place) -> Value
    requires range { list_all (is_rule_of (length rel.now.rules)) leaves.now ≡ true }
    requires part { place.part < place.arity }
    ensures { seen result ≡ join_all (map (leaf_part (order rel.now) place.name place.arity place.part) leaves.now) }
{
    let mut joined = Value { names: None };
    let mut left = leaves.len();
    while left > 0 {
        left -= 1;
        joined = join(&leaf_part(rel, &leaves[left], place), &joined);
    }
    joined
}

// What the leaves of a name say of a part of its compounds, joined.
fn name_part(rel: &Relations, says: u64, place: Place) -> Value
    requires name { says < length rel.now.rules }
    requires part { place.part < place.arity }
    ensures { seen result ≡ name_part (order rel.now) place.name place.arity place.part says }
{
    joined_parts(rel, leaves(rel, says), place)
}

// A value united with what a name says of a part, where the name is in the set.
fn united_part(rel: &Relations, words: &[u64; 8], says: u64, place: Place, said: &Value) -> Value
    requires name { says < length rel.now.rules }
    requires part { place.part < place.arity }
    ensures { seen result ≡ united_where (bit_at words.now says) (name_part (order rel.now) place.name place.arity place.part says) (seen said.now) }
{
    rel.range();
    if has(words, says) {
        united(&name_part(rel, says, place), said)
    } else {
        *said
    }
}

// What the names of a set say of a part of a compound, united.
fn said_parts(rel: &Relations, words: &[u64; 8], place: Place, size: u64) -> Value
    requires size { size ≡ length rel.now.rules }
    requires part { place.part < place.arity }
    ensures { seen result ≡ said_parts (order rel.now) (bit_at words.now) (name_part (order rel.now) place.name place.arity place.part) (names_of (order rel.now)) }
{
    rel.range();
    let mut said = of_name(rel, TERM_TYPE);
    let mut left = size;
    while left > 0 {
        left -= 1;
        said = united_part(rel, words, left, place, &said);
    }
    said
}

// What the names of a set say of a part of a compound, met.
fn met_parts(rel: &Relations, words: &[u64; 8], place: Place, size: u64) -> Value
    requires size { size ≡ length rel.now.rules }
    requires part { place.part < place.arity }
    ensures { seen result ≡ meet_parts (order rel.now) (bit_at words.now) (name_part (order rel.now) place.name place.arity place.part) (names_of (order rel.now)) }
{
    rel.range();
    relied_law(); // for the proof
    fitting(rel, &said_parts(rel, words, place, size))
}

/// What is known of a part of the compounds of this name and arity in the value; none where the value is none, a name of it
/// has no fitting leaf, or what two names say does not meet.
pub fn project(
    grammar: &Grammar,
    rel: &Relations,
    value: &Value,
    name: u64,
    arity: u64,
    part: u64,
) -> Value
    requires grammar { rel.now ≡ grammar.now }
    requires part { part < arity }
    ensures value { seen result ≡ project (order rel.now) (seen value.now) name arity part }
    ensures held { IsValue (order rel.now) (seen result) }
{
    rel.range();
    given_law(); // for the proof
    match &value.names {
        None => Value { names: None },
        Some(words) => {
            let place = Place { name, arity, part };
            met_parts(rel, words, place, grammar.rules.len() as u64)
        }
    }
}
