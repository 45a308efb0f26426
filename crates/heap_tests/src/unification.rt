// Unification on heaps of three variables: how it ends, and a second answer after undoing.
ghost use Rattle.std.specs.Prelude.{IfOk};
ghost use Rattle.term_heap.specs.Loads.{IsPlaced};

use sqlite_items::Items;
use std::alloc::Global;
use std::test::Fail;
use term_core::{NoMemory, Term};
use term_heap::Heap;
use unify_core::{Unified, unify};

// A side of an equation: f(A,B), or A alone where B is NONE.
pub(crate) type Side = (u64, u64);

pub(crate) const NONE: u64 = 99;

// The term f(T) of a name, or g(T).
fn around(alloc: Global, name: u64, part: Term) -> Result<Term, NoMemory>
    requires { IsPlaced 3 0 part }
    ensures { IfOk result (IsPlaced 3 0) }
{
    let mut parts = Items::new(alloc);
    parts.push(part)?;
    Ok(Term::Node(name, parts))
}

// X, Y, Z, a, b, g(X), f(X), 1, 2 and 3 by their numbers.
fn leaf(alloc: Global, code: u64) -> Result<Term, NoMemory>
    ensures { IfOk result (IsPlaced 3 0) }
{
    match code {
        0 => Ok(Term::Var(0)),
        1 => Ok(Term::Var(1)),
        2 => Ok(Term::Var(2)),
        3 => Ok(Term::Atom(3)),
        4 => Ok(Term::Atom(4)),
        5 => around(alloc, 81, Term::Var(0)),
        6 => around(alloc, 80, Term::Var(0)),
        7 => Ok(Term::Int(1)),
        8 => Ok(Term::Int(2)),
        _ => Ok(Term::Int(3)),
    }
}

pub(crate) fn side_term(alloc: Global, side: Side) -> Result<Term, NoMemory>
    ensures { IfOk result (IsPlaced 3 0) }
{
    let first = leaf(alloc, side.0)?;
    if side.1 == NONE {
        return Ok(first);
    }
    let second = leaf(alloc, side.1)?;
    let mut parts = Items::new(alloc);
    parts.push(first)?;
    parts.push(second)?;
    Ok(Term::Node(80, parts))
}

// A side in cells.
fn load_side(alloc: Global, heap: &mut Heap, side: Side) -> Result<u64, NoMemory> {
    let term = side_term(alloc, side)?;
    if heap.len() < 3 {
        return Ok(NONE);
    }
    heap.load(alloc, &term, 0)
}

// How the unification of two places ends.
fn ended(alloc: Global, heap: &mut Heap, left: u64, right: u64) -> Result<u64, NoMemory> {
    if left >= heap.len() || right >= heap.len() {
        return Ok(NONE);
    }
    match unify(alloc, heap, left, right)? {
        Unified::Same => Ok(0),
        Unified::Clash => Ok(1),
        Unified::Cyclic => Ok(2),
    }
}

// X = f(X); f(X,a) = f(g(X),b); f(a,X) = f(b,g(X)); and equations that are solved or clash.
const EQUATIONS: [(Side, Side, u64); 7] = [
    ((0, NONE), (6, NONE), 2),
    ((0, 3), (5, 4), 2),
    ((3, 0), (4, 5), 1),
    ((0, 3), (4, 1), 0),
    ((0, 0), (3, 4), 1),
    ((0, 1), (1, 0), 0),
    ((5, NONE), (6, NONE), 1),
];

// How an equation ends on a new heap.
fn equation_ends(alloc: Global, left: Side, right: Side) -> Result<u64, NoMemory> {
    let mut heap = Heap::new(alloc);
    heap.fresh(3)?;
    let first = load_side(alloc, &mut heap, left)?;
    let second = load_side(alloc, &mut heap, right)?;
    ended(alloc, &mut heap, first, second)
}

// The first equation that ends otherwise, counted from 1.
fn wrongly_ended(alloc: Global, rows: &[(Side, Side, u64)]) -> Result<Option<u64>, NoMemory> {
    let mut place = 0u64;
    for row in rows {
        place = place.saturating_add(1);
        if equation_ends(alloc, row.0, row.1)? != row.2 {
            return Ok(Some(place));
        }
    }
    Ok(None)
}

#[test]
fn equations_end(rt: HostRuntime) -> Result<(), Fail> {
    assert_eq!(rt; wrongly_ended(rt.alloc(), &EQUATIONS)?, None);
    Ok(())
}

// A place and a side are made the same.
fn equal(alloc: Global, heap: &mut Heap, at: u64, side: Side) -> Result<u64, NoMemory> {
    let place = load_side(alloc, heap, side)?;
    ended(alloc, heap, at, place)
}

// A variable's number from 10 on, or a small number.
fn leaf_code(term: &Term) -> u64 {
    match term {
        Term::Var(v) => v.saturating_add(10),
        Term::Int(n) => match *n {
            1 => 1,
            2 => 2,
            3 => 3,
            _ => NONE,
        },
        Term::Atom(_) | Term::Node(_, _) => NONE,
    }
}

// The two parts of the term of X as one number.
pub(crate) fn parts_of_first(alloc: Global, heap: &Heap) -> Result<u64, NoMemory> {
    if heap.len() == 0 {
        return Ok(NONE);
    }
    let term = heap.decode(alloc, 0)?;
    match term.parts() {
        [left, right] => Ok(
            leaf_code(left)
                .saturating_mul(100)
                .saturating_add(leaf_code(right)),
        ),
        _ => Ok(NONE),
    }
}

// X = f(Y,Z), then Y = 1 and Z = 2; and, this undone, Z = 3.
#[test]
fn second_answer(rt: HostRuntime) -> Result<(), Fail> {
    let alloc = rt.alloc();
    let mut heap = Heap::new(alloc);
    heap.fresh(3)?;
    equal(alloc, &mut heap, 0, (1, 2))?;
    let mark = heap.mark();
    equal(alloc, &mut heap, 1, (7, NONE))?;
    equal(alloc, &mut heap, 2, (8, NONE))?;
    assert_eq!(rt; parts_of_first(alloc, &heap)?, 102);
    if mark.length <= heap.changes() {
        heap.undo_to(mark);
    }
    equal(alloc, &mut heap, 2, (9, NONE))?;
    assert_eq!(rt; parts_of_first(alloc, &heap)?, 1103);
    Ok(())
}
