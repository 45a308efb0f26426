// A clause's head against places of a heap.
ghost use Rattle.std.specs.Prelude.{◌≡◌, ◌≤◌, ◌<◌, ◌+◌, ◌-◌, ◌^◌, ◌∷◌, [], length, min, max, IfOk};
ghost use Rattle.std.specs.List.{AllByRecursion};
ghost use Rattle.term_core.specs.declared.terms.Term.{Var};
ghost use Rattle.term_core.specs.Terms.{above};
ghost use Rattle.term_heap.specs.Changes.{size_of};
ghost use Rattle.term_heap.specs.Loads.{IsPlaced};
ghost use Rattle.term_heap.specs.PastStays.{GoesOn};
ghost use Rattle.unify_core.specs.Heads.{HasMatched, AreNew};
ghost use Rattle.unify_core.specs.Unmet.{MayMatch, AreMet, Seen, IsSeen};

use crate::pairs::{agree, block, is_free};
use crate::unifying::{Unified, unify};
use std::alloc::Global;
use term_core::{NoMemory, Term, sequence_law};
use term_heap::{Cell, Heap};

// Raises a number above each variable of a term.
fn pass(next: &mut u64, term: &Term)
    ensures { next.new ≡ max next.old (min (above term.now) (2 ^ 64 - 1)) }
{
    match term {
        Term::Var(v) => {
            let after = (*v).saturating_add(1);
            if after > *next {
                *next = after;
            }
        }
        Term::Int(_) | Term::Atom(_) => {}
        Term::Node(_, parts) => {
            for part in parts.as_slice() {
                pass(next, part);
            }
        }
    }
}

// What a place has beside a term of a head.
#[derive(Clone, Copy, Drop)]
pub(crate) enum Sight {
    /// The term is this variable.
    Variable(u64),
    /// The place has a variable, and the term is none.
    Unbound,
    /// The place has the same constant, or a compound of the same name with as many arguments, from this place on.
    Alike(u64),
    /// They clash.
    Other,
}

// What a cell is beside that of a term.
fn compare_with(cell: Cell, like: Cell) -> Sight
    ensures { IsSeen cell like result }
{
    if is_free(cell) {
        return Sight::Unbound;
    }
    if !agree(cell, like) {
        return Sight::Other;
    }
    let (first, _) = block(cell);
    Sight::Alike(first)
}

// What a place has beside a term of a head.
fn see(heap: &Heap, at: u64, term: &Term) -> Sight
    requires { at < size_of heap.now.changes }
    ensures { Seen heap.now.changes at term.now result }
{
    let _size = heap.len();
    let root = heap.root(at);
    let cell = heap.cell(root);
    match term {
        Term::Var(v) => Sight::Variable(*v),
        Term::Int(n) => compare_with(cell, Cell::Int(*n)),
        Term::Atom(a) => compare_with(cell, Cell::Atom(*a)),
        Term::Node(f, parts) => compare_with(cell, Cell::Node(*f, parts.len() as u64, 0)),
    }
}

// A variable that was met is unified; one that was not stands in no other term, so it is bound without a search for it.
// It is bound to where references end: else arguments that calls hand on would make a chain that grows with each call.
fn match_variable(
    alloc: Global,
    heap: &mut Heap,
    variable: u64,
    base: u64,
    at: u64,
    next: &mut u64,
) -> Result<Unified, NoMemory>
    requires { MayMatch heap.old.changes base next.old at (Var variable ∷ []) }
    ensures matched { IfOk result (λ u. HasMatched heap.old.changes base at (Var variable ∷ []) u heap.new.changes) }
    ensures met { IfOk result (λ u. AreMet u next.old (Var variable ∷ []) next.new) }
    ensures later { GoesOn heap.old heap.new }
{
    let _size = heap.len();
    let place = variable + base;
    if variable < *next {
        return unify(alloc, heap, at, place);
    }
    *next = variable + 1;
    let root = heap.root(place);
    let end = heap.root(at);
    heap.bind(root, end)?;
    Ok(Unified::Same)
}

// A term that is put into cells before it is unified.
fn match_loaded(
    alloc: Global,
    heap: &mut Heap,
    term: &Term,
    base: u64,
    at: u64,
    next: &mut u64,
) -> Result<Unified, NoMemory>
    requires { MayMatch heap.old.changes base next.old at (term.now ∷ []) }
    ensures matched { IfOk result (λ u. HasMatched heap.old.changes base at (term.now ∷ []) u heap.new.changes) }
    ensures met { IfOk result (λ u. AreMet u next.old (term.now ∷ []) next.new) }
    ensures later { GoesOn heap.old heap.new }
{
    let _size = heap.len();
    pass(next, term);
    let place = heap.load(alloc, term, base)?;
    unify(alloc, heap, at, place)
}

// A term of a head: one that its place has already is not put into cells.
#[cycle(matching)]
fn match_term(
    alloc: Global,
    heap: &mut Heap,
    term: &Term,
    base: u64,
    at: u64,
    next: &mut u64,
) -> Result<Unified, NoMemory>
    requires { MayMatch heap.old.changes base next.old at (term.now ∷ []) }
    ensures matched { IfOk result (λ u. HasMatched heap.old.changes base at (term.now ∷ []) u heap.new.changes) }
    ensures met { IfOk result (λ u. AreMet u next.old (term.now ∷ []) next.new) }
    ensures later { GoesOn heap.old heap.new }
{
    match see(heap, at, term) {
        Sight::Variable(v) => match_variable(alloc, heap, v, base, at, next),
        Sight::Unbound => match_loaded(alloc, heap, term, base, at, next),
        Sight::Alike(first) => match_row(alloc, heap, term.parts(), base, first, next),
        Sight::Other => Ok(Unified::Clash),
    }
}

// Terms of a head against places in a row, from the left.
#[cycle(matching)]
fn match_row(
    alloc: Global,
    heap: &mut Heap,
    terms: &[Term],
    base: u64,
    first: u64,
    next: &mut u64,
) -> Result<Unified, NoMemory>
    requires { MayMatch heap.old.changes base next.old first terms.now }
    ensures matched { IfOk result (λ u. HasMatched heap.old.changes base first terms.now u heap.new.changes) }
    ensures met { IfOk result (λ u. AreMet u next.old terms.now next.new) }
    ensures later { GoesOn heap.old heap.new }
{
    sequence_law();
    let _size = heap.len();
    let mut at = first;
    for term in terms {
        match match_term(alloc, heap, term, base, at, next)? {
            Unified::Same => {}
            Unified::Clash => return Ok(Unified::Clash),
            Unified::Cyclic => return Ok(Unified::Cyclic),
        }
        at += 1;
    }
    Ok(Unified::Same)
}

/// Makes the terms of places in a row the same as those of a clause's head, if they can be. The head's variables are new places from a base on.
///
/// What the places have already is not put into cells. The variables are best numbered by first appearance: then each is bound without a search for it where it is met first.
///
/// # Errors
///
/// Only for want of memory. Changes may have been made then.
pub fn match_head(
    alloc: Global,
    heap: &mut Heap,
    terms: &[Term],
    base: u64,
    first: u64,
) -> Result<Unified, NoMemory>
    requires base { base ≤ size_of heap.old.changes }
    requires block { first + length terms.now ≤ base }
    requires terms { AllByRecursion (IsPlaced (size_of heap.old.changes) base) terms.now }
    requires new { AreNew heap.old.changes base }
    ensures matched { IfOk result (λ u. HasMatched heap.old.changes base first terms.now u heap.new.changes) }
    ensures later { GoesOn heap.old heap.new }
{
    let mut next = 0u64;
    match_row(alloc, heap, terms, base, first, &mut next)
}
