// What properties say of values, and what values say of properties.
ghost use Rattle.std.specs.Prelude.{◌≡◌, ◌<◌, ◌&&◌, not, true, length, map, IfOk};
ghost use Rattle.std.specs.List.{list_any, list_all};
ghost use Rattle.prog_data.specs.Values.{seen};
ghost use Rattle.name_order.specs.Relations.{order};
ghost use Rattle.type_domain.specs.Values.{term_name, has_name, of_name};
ghost use Rattle.goal_transfer.specs.Conditions.{meet_name, typed_by, type_of, types_of, is_term, says_nonvar, is_apart, value_at, implied, excluded, all_implied, some_excluded};
ghost use Rattle.goal_transfer.specs.Range.{is_named};

use name_order::{Relations, order_law};
use prog_data::{Basic, GND_TYPE, Prop, Rule, TERM_TYPE, Value};
use sqlite_items::Items;
use std::alloc::Global;
use term_core::NoMemory;
use type_domain::{do_meet, has_name, meet, of_name};

// A value met with that of a name where it is asked for.
fn meet_name(rel: &Relations, asked: bool, name: u64, value: &Value) -> Value
    requires { name < length rel.now.rules }
    ensures { seen result ≡ meet_name (order rel.now) asked name (seen value.now) }
{
    if asked {
        meet(rel, value, &of_name(rel, name))
    } else {
        *value
    }
}

// An argument's value met with what a property says of it.
fn typed_by(rel: &Relations, argument: u64, value: &Value, prop: &Prop) -> Value
    requires { is_named (length rel.now.rules) prop.now ≡ true }
    ensures { seen result ≡ typed_by (order rel.now) argument (seen value.now) prop.now }
{
    rel.range();
    match prop {
        Prop::Belongs(place, name) => meet_name(rel, argument == *place, *name, value),
        Prop::IsGround(place) => meet_name(rel, argument == *place, GND_TYPE, value),
        Prop::IsVar(_) => *value,
        Prop::IsNonvar(_) => *value,
    }
}

// What a conjunction says of an argument.
fn type_of(rel: &Relations, argument: u64, props: &[Prop]) -> Value
    requires { list_all (is_named (length rel.now.rules)) props.now ≡ true }
    ensures { seen result ≡ type_of (order rel.now) argument (of_name (order rel.now) term_name) props.now }
{
    rel.range();
    let mut value = of_name(rel, TERM_TYPE);
    for prop in props {
        value = typed_by(rel, argument, &value, prop);
    }
    value
}

/// The types of a conjunction: what it says of each argument.
///
/// # Errors
///
/// Only for want of memory.
pub fn types_of(
    alloc: Global,
    rel: &Relations,
    arity: u64,
    props: &[Prop],
) -> Result<Items<Value>, NoMemory>
    requires { list_all (is_named (length rel.now.rules)) props.now ≡ true }
    ensures { IfOk result (λ vs. map seen vs ≡ types_of (order rel.now) arity props.now) }
{
    let mut made = Items::new(alloc);
    for argument in 0..arity {
        made.push(type_of(rel, argument, props))?;
    }
    Ok(made)
}

// Whether a leaf is term.
fn is_term(leaf: &Rule) -> bool
    ensures { result ≡ is_term leaf.now }
{
    match leaf {
        Rule::Basic(basic) => match basic {
            Basic::Term => true,
            Basic::Int | Basic::Nnegint | Basic::Atm | Basic::Gnd | Basic::Struct => false,
        },
        Rule::Int(_) | Rule::Atom(_) | Rule::Node(_, _) | Rule::Unit(_) => false,
    }
}

// Whether one of the leaves is term.
fn some_term(leaves: &[Rule]) -> bool
    ensures { result ≡ list_any is_term leaves.now }
{
    for leaf in leaves {
        if is_term(leaf) {
            return true;
        }
    }
    false
}

// Whether a leaf of the name is term.
fn has_term_leaf(rel: &Relations, name: u64) -> bool
    requires { name < length rel.now.rules }
    ensures { result ≡ list_any is_term ((order rel.now).leaves name) }
{
    order_law(); // for the proof
    some_term(rel.leaves(name))
}

// Whether the value has the name, and no leaf of it is term.
fn has_nonvar(rel: &Relations, value: &Value, name: u64) -> bool
    requires { name < length rel.now.rules }
    ensures { result ≡ (has_name (seen value.now) name && not (list_any is_term ((order rel.now).leaves name))) }
{
    rel.range();
    if !has_name(value, name) {
        return false;
    }
    !has_term_leaf(rel, name)
}

// Whether no variable is in the value.
fn says_nonvar(rel: &Relations, value: &Value) -> bool
    ensures { result ≡ says_nonvar (order rel.now) (seen value.now) }
{
    for name in 0..rel.len() {
        if has_nonvar(rel, value, name) {
            return true;
        }
    }
    false
}

// Whether the value has the name, and that does not meet another.
fn has_apart(rel: &Relations, value: &Value, name: u64, other: u64) -> bool
    requires name { name < length rel.now.rules }
    requires other { other < length rel.now.rules }
    ensures { result ≡ (has_name (seen value.now) name && not ((order rel.now).meets name other)) }
{
    rel.range();
    if !has_name(value, name) {
        return false;
    }
    !do_meet(rel, name, other)
}

// Whether no term of the value belongs to the name.
fn is_apart(rel: &Relations, value: &Value, name: u64) -> bool
    requires { name < length rel.now.rules }
    ensures { result ≡ is_apart (order rel.now) (seen value.now) name }
{
    for other in 0..rel.len() {
        if has_apart(rel, value, other, name) {
            return true;
        }
    }
    false
}

// The value of an argument; none where it is not there.
fn argument_value(values: &[Value], argument: u64) -> Value
    ensures { seen result ≡ value_at (map seen values.now) argument }
{
    match values.get(argument as usize) {
        Some(value) => *value,
        None => Value { names: None },
    }
}

// Whether a property holds of all terms of the values.
fn is_implied(rel: &Relations, values: &[Value], prop: &Prop) -> bool
    requires { is_named (length rel.now.rules) prop.now ≡ true }
    ensures { result ≡ implied (order rel.now) (map seen values.now) prop.now }
{
    rel.range();
    match prop {
        Prop::Belongs(argument, name) => has_name(&argument_value(values, *argument), *name),
        Prop::IsGround(argument) => has_name(&argument_value(values, *argument), GND_TYPE),
        Prop::IsNonvar(argument) => says_nonvar(rel, &argument_value(values, *argument)),
        Prop::IsVar(_) => false,
    }
}

// Whether a property holds of no terms of the values.
fn is_excluded(rel: &Relations, values: &[Value], prop: &Prop) -> bool
    requires { is_named (length rel.now.rules) prop.now ≡ true }
    ensures { result ≡ excluded (order rel.now) (map seen values.now) prop.now }
{
    rel.range();
    match prop {
        Prop::Belongs(argument, name) => is_apart(rel, &argument_value(values, *argument), *name),
        Prop::IsGround(argument) => is_apart(rel, &argument_value(values, *argument), GND_TYPE),
        Prop::IsVar(argument) => says_nonvar(rel, &argument_value(values, *argument)),
        Prop::IsNonvar(_) => false,
    }
}

/// Whether each property of a conjunction holds of all terms of the values.
pub fn all_implied(rel: &Relations, values: &[Value], props: &[Prop]) -> bool
    requires { list_all (is_named (length rel.now.rules)) props.now ≡ true }
    ensures { result ≡ all_implied (order rel.now) (map seen values.now) props.now }
{
    for prop in props {
        if !is_implied(rel, values, prop) {
            return false;
        }
    }
    true
}

/// Whether one property of a conjunction holds of no terms of the values.
pub fn some_excluded(rel: &Relations, values: &[Value], props: &[Prop]) -> bool
    requires { list_all (is_named (length rel.now.rules)) props.now ≡ true }
    ensures { result ≡ some_excluded (order rel.now) (map seen values.now) props.now }
{
    for prop in props {
        if is_excluded(rel, values, prop) {
            return true;
        }
    }
    false
}
