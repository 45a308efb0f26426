// Heads of clauses against calls, each of three variables and two arguments.
ghost use Rattle.std.specs.Prelude.{◌≡◌, ◌≤◌, ◌+◌, length, IfOk};
ghost use Rattle.std.specs.List.{AllByRecursion};
ghost use Rattle.term_heap.specs.Changes.{size_of};
ghost use Rattle.term_heap.specs.Loads.{IsPlaced};

use crate::unification::{NONE, Side, parts_of_first, side_term};
use sqlite_items::Items;
use std::alloc::Global;
use std::test::Fail;
use term_core::{NoMemory, Term};
use term_heap::Heap;
use unify_core::{Unified, match_head, new_law};

// How a head of three variables and a row of places end.
fn head_ends(alloc: Global, heap: &mut Heap, head: &[Term], first: u64) -> Result<u64, NoMemory>
    requires head { AllByRecursion (IsPlaced 3 0) head.now }
    requires block { first + length head.now ≤ size_of heap.old.changes }
{
    new_law();
    let _size = heap.len();
    let base = heap.fresh(3)?;
    match match_head(alloc, heap, head, base, first)? {
        Unified::Same => Ok(0),
        Unified::Clash => Ok(1),
        Unified::Cyclic => Ok(2),
    }
}

fn one_term(alloc: Global, side: Side) -> Result<Items<Term>, NoMemory>
    ensures placed { IfOk result (AllByRecursion (IsPlaced 3 0)) }
    ensures one { IfOk result (λ ts. length ts ≡ 1) }
{
    let term = side_term(alloc, side)?;
    let mut terms = Items::new(alloc);
    terms.push(term)?;
    Ok(terms)
}

fn two_terms(alloc: Global, sides: (Side, Side)) -> Result<Items<Term>, NoMemory>
    ensures placed { IfOk result (AllByRecursion (IsPlaced 3 0)) }
    ensures two { IfOk result (λ ts. length ts ≡ 2) }
{
    let mut terms = one_term(alloc, sides.0)?;
    let term = side_term(alloc, sides.1)?;
    terms.push(term)?;
    Ok(terms)
}

// How a call and a head end on a heap that was empty.
fn call_ends(
    alloc: Global,
    heap: &mut Heap,
    call: (Side, Side),
    head: (Side, Side),
) -> Result<u64, NoMemory> {
    let call = two_terms(alloc, call)?;
    let head = two_terms(alloc, head)?;
    heap.fresh(3)?;
    if heap.len() < 3 {
        return Ok(NONE);
    }
    let first = heap.load_all(alloc, call.as_slice(), 0)?;
    head_ends(alloc, heap, head.as_slice(), first)
}

// p(X,a) and p(X,a); p(f(X,Y),a) and p(f(X,X),Y); p(f(a,b),a) and p(f(X,X),Y); p(f(X,g(X)),a) and p(f(Y,Y),Z); p(X,Y) and p(f(X,Y),Z);
// p(X,X) and p(f(X),X); p(X,b) and p(Y,Y); p(g(X),a) and p(f(X),Y); p(a,b) and p(X,X); p(f(X),1) and p(f(X),1); p(X,X) and p(f(X),g(X)).
const CALLS: [((Side, Side), (Side, Side), u64); 11] = [
    (((0, NONE), (3, NONE)), ((0, NONE), (3, NONE)), 0),
    (((0, 1), (3, NONE)), ((0, 0), (1, NONE)), 0),
    (((3, 4), (3, NONE)), ((0, 0), (1, NONE)), 1),
    (((0, 5), (3, NONE)), ((1, 1), (2, NONE)), 2),
    (((0, NONE), (1, NONE)), ((0, 1), (2, NONE)), 0),
    (((0, NONE), (0, NONE)), ((6, NONE), (0, NONE)), 2),
    (((0, NONE), (4, NONE)), ((1, NONE), (1, NONE)), 0),
    (((5, NONE), (3, NONE)), ((6, NONE), (1, NONE)), 1),
    (((3, NONE), (4, NONE)), ((0, NONE), (0, NONE)), 1),
    (((6, NONE), (7, NONE)), ((6, NONE), (7, NONE)), 0),
    (((0, NONE), (0, NONE)), ((6, NONE), (5, NONE)), 1),
];

// The first call that ends otherwise, counted from 1.
fn wrongly_called(
    alloc: Global,
    rows: &[((Side, Side), (Side, Side), u64)],
) -> Result<Option<u64>, NoMemory> {
    let mut place = 0u64;
    for row in rows {
        place = place.saturating_add(1);
        let mut heap = Heap::new(alloc);
        if call_ends(alloc, &mut heap, row.0, row.1)? != row.2 {
            return Ok(Some(place));
        }
    }
    Ok(None)
}

#[test]
fn heads_are_matched(rt: HostRuntime) -> Result<(), Fail> {
    assert_eq!(rt; wrongly_called(rt.alloc(), &CALLS)?, None);
    Ok(())
}

// p(X,f(2,3)) and p(f(X,Y),f(Y,X)): the call's variable has f(3,2).
#[test]
fn a_head_is_seen_in_its_call(rt: HostRuntime) -> Result<(), Fail> {
    let alloc = rt.alloc();
    let mut heap = Heap::new(alloc);
    let end = call_ends(alloc, &mut heap, ((0, NONE), (8, 9)), ((0, 1), (1, 0)))?;
    assert_eq!(rt; (end, parts_of_first(alloc, &heap)?), (0, 302));
    Ok(())
}

// A call with f(X,X), where X is the variable at a place, of a head that is one variable; how it ends.
fn doubled(alloc: Global, heap: &mut Heap, place: u64) -> Result<u64, NoMemory> {
    let call = one_term(alloc, (0, 0))?;
    let head = one_term(alloc, (0, NONE))?;
    let size = heap.len();
    if size < 3 || place > size - 3 {
        return Ok(NONE);
    }
    let first = heap.load_all(alloc, call.as_slice(), place)?;
    head_ends(alloc, heap, head.as_slice(), first)
}

// p(X) :- p(f(X,X)), called so often; the last call's end.
fn doubled_often(alloc: Global, count: u64) -> Result<u64, NoMemory> {
    let mut heap = Heap::new(alloc);
    heap.fresh(3)?;
    let mut end = NONE;
    let mut left = count;
    while left > 0 {
        left -= 1;
        let place = heap.len().saturating_sub(3);
        end = doubled(alloc, &mut heap, place)?;
    }
    Ok(end)
}

// The last variable's term has 2^200 parts: this ends since no variable is searched for where it is met first.
#[test]
fn first_occurrences_are_not_searched(rt: HostRuntime) -> Result<(), Fail> {
    assert_eq!(rt; doubled_often(rt.alloc(), 200)?, 0);
    Ok(())
}
