// The values of variables and of terms.
ghost use Rattle.std.specs.Prelude.{◌≡◌, ◌<◌, length, IfOk};
ghost use Rattle.prog_data.specs.Values.{seen};
ghost use Rattle.name_order.specs.Relations.{order};
ghost use Rattle.goal_transfer.specs.Transfer.{known_where, set_value, term_value};
ghost use Rattle.goal_transfer.specs.States.{values_seen};

use name_order::Relations;
use prog_data::{Grammar, TERM_TYPE, Value};
use sqlite_items::Items;
use std::alloc::Global;
use term_core::{NoMemory, Term};
use type_domain::{build, of_atom, of_int, of_name};

/// A variable's value.
pub(crate) fn value_at(rel: &Relations, values: &[Value], variable: u64) -> Value
    ensures { seen result ≡ values_seen (order rel.now) values.now variable }
{
    rel.range();
    match values.get(variable as usize) {
        Some(value) => *value,
        None => of_name(rel, TERM_TYPE),
    }
}

/// A variable gets a value, if it is not none.
pub(crate) fn set(rel: &Relations, values: &mut [Value], variable: u64, value: Value) -> bool
    requires { variable < length values.old }
    ensures { known_where result (values_seen (order rel.now) values.new) ≡ set_value (values_seen (order rel.now) values.old) variable (seen value) }
{
    match value.names {
        None => false,
        Some(_) => {
            values[variable as usize] = value;
            true
        }
    }
}

/// The value of a term.
pub(crate) fn value_of(
    alloc: Global,
    grammar: &Grammar,
    rel: &Relations,
    values: &[Value],
    term: &Term,
) -> Result<Value, NoMemory>
    requires { rel.now ≡ grammar.now }
    ensures { IfOk result (λ v. seen v ≡ term_value (order rel.now) (values_seen (order rel.now) values.now) term.now) }
{
    match term {
        Term::Var(variable) => Ok(value_at(rel, values, *variable)),
        Term::Int(number) => Ok(of_int(grammar, rel, *number)),
        Term::Atom(atom) => Ok(of_atom(grammar, rel, *atom)),
        Term::Node(name, parts) => {
            let mut made = Items::new(alloc);
            for part in parts.as_slice() {
                made.push(value_of(alloc, grammar, rel, values, part)?)?;
            }
            Ok(build(grammar, rel, *name, made.as_slice()))
        }
    }
}
