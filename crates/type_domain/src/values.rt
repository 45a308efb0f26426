// The values of names and constants, and the order of values.
ghost use Rattle.std.specs.Prelude.{◌≡◌, ◌<◌, ◌↔◌, length, IsTrue};
ghost use Rattle.prog_data.specs.Values.{bit_at, seen};
ghost use Rattle.name_order.specs.Relations.{Order, order};
ghost use Rattle.type_domain.specs.Meeting.{fitting, united};
ghost use Rattle.type_domain.specs.Values.{IsValue, Leq, all_fit, unless_apart, join, meet, of_name, of_int, of_atom};

use crate::bits::{holds_all, in_both, in_either};
use crate::laws::given_law;
use crate::leaves::{Wanted, names_with};
use crate::sets::{above, all_fit};
use name_order::Relations;
use prog_data::{Grammar, Value};

/// A name and the names that it is below.
pub fn of_name(rel: &Relations, name: u64) -> Value
    requires { name < length rel.now.rules }
    ensures value { seen result ≡ of_name (order rel.now) name }
    ensures held { IsValue (order rel.now) (seen result) }
{
    rel.range();
    given_law(); // for the proof
    Value {
        names: Some(above(rel, name)),
    }
}

/// The names that an integer belongs to: those with a leaf that admits it.
pub fn of_int(grammar: &Grammar, rel: &Relations, n: i64) -> Value
    requires { rel.now ≡ grammar.now }
    ensures value { seen result ≡ of_int (order rel.now) n }
    ensures held { IsValue (order rel.now) (seen result) }
{
    rel.range();
    given_law(); // for the proof
    Value {
        names: Some(names_with(grammar, rel, Wanted::Int(n), &[])),
    }
}

/// The names that an atom belongs to: those with a leaf that admits it.
pub fn of_atom(grammar: &Grammar, rel: &Relations, atom: u64) -> Value
    requires { rel.now ≡ grammar.now }
    ensures value { seen result ≡ of_atom (order rel.now) atom }
    ensures held { IsValue (order rel.now) (seen result) }
{
    rel.range();
    given_law(); // for the proof
    Value {
        names: Some(names_with(grammar, rel, Wanted::Atom(atom), &[])),
    }
}

/// The names that are in both values, and the other value where one is none.
pub fn join(a: &Value, b: &Value) -> Value
    ensures value { seen result ≡ join (seen a.now) (seen b.now) }
    ensures held { (o : Order) → IsValue o (seen a.now) → IsValue o (seen b.now) → IsValue o (seen result) }
{
    match &a.names {
        None => *b,
        Some(left) => match &b.names {
            None => *a,
            Some(right) => Value {
                names: Some(in_both(left, right)),
            },
        },
    }
}

// The set as a value, none where a name has no member or two names do not meet.
fn unless_apart(rel: &Relations, names: [u64; 8]) -> Value
    ensures { seen result ≡ unless_apart (all_fit (order rel.now) (bit_at names)) (bit_at names) }
{
    if all_fit(rel, &names) {
        Value { names: Some(names) }
    } else {
        Value { names: None }
    }
}

/// The value, none where a name of it has no member or two do not meet.
pub(crate) fn fitting(rel: &Relations, value: &Value) -> Value
    ensures { seen result ≡ fitting (order rel.now) (seen value.now) }
{
    match &value.names {
        None => Value { names: None },
        Some(names) => unless_apart(rel, *names),
    }
}

/// The names that are in one of the values, none where one value is.
pub(crate) fn united(a: &Value, b: &Value) -> Value
    ensures { seen result ≡ united (seen a.now) (seen b.now) }
{
    match &a.names {
        None => Value { names: None },
        Some(left) => match &b.names {
            None => Value { names: None },
            Some(right) => Value {
                names: Some(in_either(left, right)),
            },
        },
    }
}

/// The names that are in one of the values; none where one value is, where one of these names has no member, or where two
/// do not meet.
pub fn meet(rel: &Relations, a: &Value, b: &Value) -> Value
    ensures value { seen result ≡ meet (order rel.now) (seen a.now) (seen b.now) }
    ensures held { IsValue (order rel.now) (seen a.now) → IsValue (order rel.now) (seen b.now) → IsValue (order rel.now) (seen result) }
{
    match &a.names {
        None => Value { names: None },
        Some(left) => match &b.names {
            None => Value { names: None },
            Some(right) => unless_apart(rel, in_either(left, right)),
        },
    }
}

/// Whether the first value says at least as much as the second: it is none, or has each name of it.
pub fn leq(a: &Value, b: &Value) -> bool
    ensures { IsTrue result ↔ Leq (seen a.now) (seen b.now) }
{
    match &a.names {
        None => true,
        Some(left) => match &b.names {
            None => false,
            Some(right) => holds_all(left, right),
        },
    }
}
