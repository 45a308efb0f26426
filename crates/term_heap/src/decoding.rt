// Terms built from cells.
ghost use Rattle.std.specs.Prelude.{◌≡◌, ◌<◌, ◌+◌, ◌^◌, ◌++◌, ◌∷◌, [], map, take, drop, reverse, IfOk, OnOk};
ghost use Rattle.term_core.specs.declared.terms.Term.{Node};
ghost use Rattle.term_heap.specs.declared.decoding.Step.TheVariants.{Open, Close};
ghost use Rattle.term_heap.specs.Changes.{size_of, value_of, places, NamesBelow};
ghost use Rattle.term_heap.specs.Decodes.{IsOpenable, HasStepped};

use crate::cells::Cell;
use crate::heap::Heap;
use sqlite_items::Items;
use std::alloc::Global;
use term_core::{NoMemory, Term, discard};

/// What is left to do where a term is built.
#[derive(Clone, Copy, Drop)]
pub(crate) enum Step {
    /// The term of this place.
    Open(u64),
    /// A compound of this name of so many terms, the newest of which is its first.
    Close(u64, u64),
}

// Adds a compound behind its arguments, of which the last one comes first.
fn push_parts(left: &mut Vec<Step>, name: u64, count: u64, first: u64) -> Result<(), NoMemory>
    requires { first + count < 2 ^ 64 }
    ensures { OnOk result (left.new.items ≡ left.old.items ++ Close name count ∷ map Open (places first count)) }
{
    left.push(Step::Close(name, count))?;
    let end = first + count;
    let mut at = first;
    while at < end {
        left.push(Step::Open(at))?;
        at += 1;
    }
    Ok(())
}

// The term of a place, or its arguments and then the compound.
fn open(heap: &Heap, at: u64, left: &mut Vec<Step>, done: &mut Items<Term>) -> Result<(), NoMemory>
    requires { at < size_of heap.now.changes }
    ensures { OnOk result (HasStepped heap.now.changes (Open at) left.old.items done.old left.new.items done.new) }
{
    let _size = heap.len();
    let root = heap.root(at);
    match heap.cell(root) {
        Cell::Free => done.push(Term::Var(root))?,
        Cell::Ref(_) => {}
        Cell::Int(n) => done.push(Term::Int(n))?,
        Cell::Atom(a) => done.push(Term::Atom(a))?,
        Cell::Node(name, count, first) => push_parts(left, name, count, first)?,
    }
    Ok(())
}

// So many of the newest terms, the newest first.
fn take_parts(alloc: Global, count: u64, done: &mut Items<Term>) -> Result<Items<Term>, NoMemory>
    ensures parts { IfOk result (λ parts. parts ≡ take count (reverse done.old)) }
    ensures rest { OnOk result (reverse done.new ≡ drop count (reverse done.old)) }
{
    // What was taken finds room, so that a deep term is never let go here.
    let mut parts = Vec::with_capacity(alloc, count as usize)?;
    let mut left = count;
    while left > 0 {
        left -= 1;
        match done.pop() {
            None => {}
            Some(part) => parts.push(part)?,
        }
    }
    Ok(Items::from_vec(parts))
}

// A compound of the newest terms.
fn close(alloc: Global, name: u64, count: u64, done: &mut Items<Term>) -> Result<(), NoMemory>
    ensures { OnOk result (reverse done.new ≡ Node name (take count (reverse done.old)) ∷ drop count (reverse done.old)) }
{
    let parts = take_parts(alloc, count, done)?;
    done.push(Term::Node(name, parts))?;
    Ok(())
}

fn take_step(
    alloc: Global,
    heap: &Heap,
    step: Step,
    left: &mut Vec<Step>,
    done: &mut Items<Term>,
) -> Result<(), NoMemory>
    requires { IsOpenable (size_of heap.now.changes) step }
    ensures { OnOk result (HasStepped heap.now.changes step left.old.items done.old left.new.items done.new) }
{
    match step {
        Step::Open(at) => open(heap, at, left, done),
        Step::Close(name, count) => close(alloc, name, count, done),
    }
}

// The term of a place, as the one that is done.
fn build(alloc: Global, heap: &Heap, at: u64, done: &mut Items<Term>) -> Result<(), NoMemory>
    requires place { at < size_of heap.now.changes }
    requires none { done.old ≡ [] }
    ensures { OnOk result (done.new ≡ value_of heap.now.changes at ∷ []) }
{
    let mut left = Vec::new(alloc);
    left.push(Step::Open(at))?;
    while let Some(step) = left.pop() {
        take_step(alloc, heap, step, &mut left, done)?;
    }
    Ok(())
}

impl Heap {
    /// The term of a place.
    ///
    /// # Errors
    ///
    /// Only for want of memory.
    pub fn decode(&self, alloc: Global, at: u64) -> Result<Term, NoMemory>
        requires { at < size_of self.now.changes }
        ensures { IfOk result (λ term. term ≡ value_of self.now.changes at) }
    {
        let mut done = Items::new(alloc);
        match build(alloc, self, at, &mut done) {
            Ok(()) => Ok(done.remove(0)),
            Err(NoMemory) => {
                discard(Term::Node(0, done));
                Err(NoMemory)
            }
        }
    }
}
