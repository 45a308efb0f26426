// What comes of goals.
ghost use Rattle.std.specs.Prelude.{◌≡◌, true, nat_le, List, [], ◌∷◌, ◌++◌, length, map, slice_index_or, IfOk, OnOk};
ghost use Rattle.std.specs.List.{list_all};
ghost use Rattle.term_core.specs.Terms.{above};
ghost use Rattle.name_order.specs.Relations.{order};
ghost use Rattle.prog_data.specs.Values.{seen};
ghost use Rattle.goal_transfer.specs.Transfer.{known_where, term_value, push_each, behind_call, builtin_effect};
ghost use Rattle.prog_data.specs.Ranges.{is_builtin_of};
ghost use Rattle.term_core.specs.declared.terms.Term as atoms;
ghost use Rattle.goal_transfer.specs.States.{values_seen, exits_seen, call_seen};

use crate::builtins::builtin_effect;
use crate::pushing::push;
use crate::states::Reached;
use crate::values::value_of;
use name_order::Relations;
use prog_data::{Builtin, Grammar, Value};
use sqlite_items::Items;
use std::alloc::Global;
use term_core::{NoMemory, Term};

/// The values of terms.
pub(crate) fn values_of(
    alloc: Global,
    grammar: &Grammar,
    rel: &Relations,
    values: &[Value],
    terms: &[Term],
) -> Result<Items<Value>, NoMemory>
    requires { rel.now ≡ grammar.now }
    ensures { IfOk result (λ vs. map seen vs ≡ map (term_value (order rel.now) (values_seen (order rel.now) values.now)) terms.now) }
{
    let mut made = Items::new(alloc);
    for term in terms {
        made.push(value_of(alloc, grammar, rel, values, term)?)?;
    }
    Ok(made)
}

/// A value into each term, as far as both lists go.
pub(crate) fn push_each(
    grammar: &Grammar,
    rel: &Relations,
    terms: &[Term],
    exit: &[Value],
    values: &mut [Value],
) -> bool
    requires grammar { rel.now ≡ grammar.now }
    requires range { list_all (λ t. nat_le (above t) (length values.old)) terms.now ≡ true }
    ensures { known_where result (values_seen (order rel.now) values.new) ≡ push_each (order rel.now) terms.now (map seen exit.now) (values_seen (order rel.now) values.old) }
{
    for (index, term) in terms.iter().enumerate() {
        match exit.get(index) {
            Some(value) => {
                if !push(grammar, rel, term, value, values) {
                    return false;
                }
            }
            None => return true,
        }
    }
    true
}

// The term in a place, or another one where it is not there.
fn argument<'a>(terms: &'a [Term], index: u64, other: &'a Term) -> &'a Term
    ensures { result.now ≡ slice_index_or terms.now index other.now }
{
    match terms.get(index as usize) {
        Some(term) => term,
        None => other,
    }
}

/// A call: its predicate is reached with the values of its arguments, and what its exit says is pushed into them.
pub(crate) fn run_call(
    alloc: Global,
    grammar: &Grammar,
    rel: &Relations,
    exits: &[Option<Items<Value>>],
    pred: u64,
    terms: &[Term],
    values: &mut [Value],
    calls: &mut Vec<Reached>,
) -> Result<bool, NoMemory>
    requires grammar { rel.now ≡ grammar.now }
    requires range { list_all (λ t. nat_le (above t) (length values.old)) terms.now ≡ true }
    ensures known { IfOk result (λ kept. known_where kept (values_seen (order rel.now) values.new) ≡ behind_call (order rel.now) (exits_seen exits.now) (exits_seen exits.now pred) terms.now (values_seen (order rel.now) values.old)) }
    ensures calls { OnOk result (map call_seen calls.new.items ≡ map call_seen calls.old.items ++ (pred, map (term_value (order rel.now) (values_seen (order rel.now) values.old)) terms.now) ∷ []) }
{
    let args = values_of(alloc, grammar, rel, values, terms)?;
    calls.push(Reached { pred, args })?;
    match exits.get(pred as usize) {
        None => Ok(false),
        Some(row) => match row {
            None => Ok(false),
            Some(exit) => Ok(push_each(grammar, rel, terms, exit.as_slice(), values)),
        },
    }
}

/// A built-in, by its first two arguments.
pub(crate) fn run_builtin(
    alloc: Global,
    grammar: &Grammar,
    rel: &Relations,
    builtin: Builtin,
    terms: &[Term],
    values: &mut [Value],
) -> Result<bool, NoMemory>
    requires grammar { rel.now ≡ grammar.now }
    requires range { list_all (λ t. nat_le (above t) (length values.old)) terms.now ≡ true }
    requires name { is_builtin_of (length rel.now.rules) builtin terms.now ≡ true }
    ensures { IfOk result (λ kept. known_where kept (values_seen (order rel.now) values.new) ≡ builtin_effect (order rel.now) builtin (slice_index_or terms.now 0 (atoms.Atom 0)) (slice_index_or terms.now 1 (atoms.Atom 0)) (values_seen (order rel.now) values.old)) }
{
    rel.range();
    let other = Term::Atom(0);
    let left = argument(terms, 0, &other);
    let right = argument(terms, 1, &other);
    builtin_effect(alloc, grammar, rel, builtin, left, right, values)
}
