// When the conditions of a program hold at a call and at an exit whose arguments are in a row of places.
ghost use Rattle.std.specs.Prelude.{◌≡◌, ◌≤◌, ◌+◌};
ghost use Rattle.std.specs.List.{list_any};
ghost use Rattle.prog_data.specs.GrammarRange.{IsGrammar};
ghost use Rattle.prog_data.specs.Conditions.{all_hold, kind_of, calls_hold, pre_holds, post_holds};
ghost use Rattle.term_heap.specs.Changes.{size_of};
ghost use Rattle.prop_check.specs.Places.{row_at};

use crate::properties_at::all_hold_at;
use prog_data::{CondKind, Grammar, Program, Prop};
use sqlite_items::Items;
use term_heap::Heap;

// Whether one of the disjuncts holds of the arguments.
fn any_holds_at(
    grammar: &Grammar,
    heap: &Heap,
    disjuncts: &[Items<Prop>],
    first: u64,
    count: u64,
) -> bool
    requires grammar { IsGrammar grammar.now }
    requires row { first + count ≤ size_of heap.now.changes }
    ensures { result ≡ list_any (all_hold grammar.now (row_at heap.now.changes first count)) disjuncts.now }
{
    for disjunct in disjuncts {
        if all_hold_at(grammar, heap, disjunct.as_slice(), first, count) {
            return true;
        }
    }
    false
}

/// Whether one of the disjuncts of the condition holds at a call, where it is a calls condition.
pub fn calls_hold_at(program: &Program, heap: &Heap, condition: u64, first: u64, count: u64) -> bool
    requires grammar { IsGrammar program.now.grammar }
    requires row { first + count ≤ size_of heap.now.changes }
    ensures { result ≡ calls_hold program.now.grammar (row_at heap.now.changes first count) (kind_of program.now condition) }
{
    match program.conds.get(condition as usize) {
        Some(found) => match &found.kind {
            CondKind::Calls(disjuncts) => {
                any_holds_at(&program.grammar, heap, disjuncts.as_slice(), first, count)
            }
            CondKind::Success(_, _) | CondKind::Comp(_, _) => true,
        },
        None => true,
    }
}

/// Whether the condition has a precondition, and that holds at a call.
pub fn pre_holds_at(program: &Program, heap: &Heap, condition: u64, first: u64, count: u64) -> bool
    requires grammar { IsGrammar program.now.grammar }
    requires row { first + count ≤ size_of heap.now.changes }
    ensures { result ≡ pre_holds program.now.grammar (row_at heap.now.changes first count) (kind_of program.now condition) }
{
    match program.conds.get(condition as usize) {
        Some(found) => match &found.kind {
            CondKind::Success(pre, _) => {
                all_hold_at(&program.grammar, heap, pre.as_slice(), first, count)
            }
            CondKind::Comp(pre, _) => {
                all_hold_at(&program.grammar, heap, pre.as_slice(), first, count)
            }
            CondKind::Calls(_) => false,
        },
        None => false,
    }
}

/// Whether the postcondition of the condition holds at an exit, where it has one.
pub fn post_holds_at(program: &Program, heap: &Heap, condition: u64, first: u64, count: u64) -> bool
    requires grammar { IsGrammar program.now.grammar }
    requires row { first + count ≤ size_of heap.now.changes }
    ensures { result ≡ post_holds program.now.grammar (row_at heap.now.changes first count) (kind_of program.now condition) }
{
    match program.conds.get(condition as usize) {
        Some(found) => match &found.kind {
            CondKind::Success(_, post) => {
                all_hold_at(&program.grammar, heap, post.as_slice(), first, count)
            }
            CondKind::Calls(_) | CondKind::Comp(_, _) => true,
        },
        None => true,
    }
}
