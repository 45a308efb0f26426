// When properties hold of arguments in a row of places.
ghost use Rattle.std.specs.Prelude.{◌≡◌, ◌<◌, ◌≤◌, ◌+◌, ◌^◌, MatchOption, slice_get, None};
ghost use Rattle.prog_data.specs.GrammarRange.{IsGrammar};
ghost use Rattle.prog_data.specs.Conditions.{holds, all_hold};
ghost use Rattle.term_heap.specs.Changes.{size_of, value_of};
ghost use Rattle.prop_check.specs.Places.{row_at, HasArgument};

use crate::grounds::is_ground_at;
use crate::looks::is_variable_at;
use crate::membership_at::belongs_at;
use prog_data::{Grammar, Prop};
use term_heap::Heap;

// The place of an argument, by its number.
fn argument_at(heap: &Heap, first: u64, count: u64, argument: u64) -> Option<u64>
    requires { first + count ≤ size_of heap.now.changes }
    ensures { MatchOption result (slice_get (row_at heap.now.changes first count) argument ≡ None) (λ place. HasArgument heap.now.changes first count argument place) }
{
    let _size = heap.len();
    if argument >= count {
        return None;
    }
    Some(first + argument)
}

/// Whether the property holds of the arguments in so many places, from the first on. No variable is bound.
pub fn holds_at(grammar: &Grammar, heap: &Heap, property: &Prop, first: u64, count: u64) -> bool
    requires grammar { IsGrammar grammar.now }
    requires row { first + count ≤ size_of heap.now.changes }
    ensures { result ≡ holds grammar.now (row_at heap.now.changes first count) property.now }
{
    match property {
        Prop::Belongs(argument, name) => match argument_at(heap, first, count, *argument) {
            Some(place) => belongs_at(grammar, heap, *name, place),
            None => false,
        },
        Prop::IsVar(argument) => match argument_at(heap, first, count, *argument) {
            Some(place) => is_variable_at(heap, place),
            None => false,
        },
        Prop::IsNonvar(argument) => match argument_at(heap, first, count, *argument) {
            Some(place) => !is_variable_at(heap, place),
            None => false,
        },
        Prop::IsGround(argument) => match argument_at(heap, first, count, *argument) {
            Some(place) => is_ground_at(heap, place),
            None => false,
        },
    }
}

/// Whether each of the properties holds of the arguments in so many places, from the first on.
pub fn all_hold_at(
    grammar: &Grammar,
    heap: &Heap,
    properties: &[Prop],
    first: u64,
    count: u64,
) -> bool
    requires grammar { IsGrammar grammar.now }
    requires row { first + count ≤ size_of heap.now.changes }
    ensures { result ≡ all_hold grammar.now (row_at heap.now.changes first count) properties.now }
{
    for property in properties {
        if !holds_at(grammar, heap, property, first, count) {
            return false;
        }
    }
    true
}
