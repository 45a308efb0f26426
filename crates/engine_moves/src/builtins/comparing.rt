// Whether the terms of two places are the same.
ghost use Rattle.std.specs.Prelude.{◌≡◌, ◌≤◌, ◌<◌, ◌+◌, ◌-◌, ◌^◌, ◌++◌, not, reverse, IfOk, OnOk};
ghost use Rattle.term_core.specs.Terms.{same};
ghost use Rattle.term_heap.specs.Changes.{size_of, value_of, NamesBelow};
ghost use Rattle.unify_core.specs.Meets.{agrees, first_of, count_of};
ghost use Rattle.machine_model.specs.Step.{truth};
ghost use Rattle.engine_moves.specs.SamePairs.{paired, Compared, HasMet};
ghost use Rattle.engine_moves.specs.BuiltinEffects.{HasEffect};

use super::effects::{Effect, tested};
use std::alloc::Global;
use term_core::NoMemory;
use term_heap::{Cell, Heap};

/// Two places.
#[derive(Clone, Copy, Drop)]
pub(crate) struct Pair {
    pub left: u64,
    pub right: u64,
}

// Adds so many pairs from these places on, the first one last.
fn push_pairs(work: &mut Vec<Pair>, left: u64, right: u64, count: u64) -> Result<(), NoMemory>
    requires left { left + count < 2 ^ 64 }
    requires right { right + count < 2 ^ 64 }
    ensures { OnOk result (work.new.items ≡ work.old.items ++ reverse (paired left right count)) }
{
    let mut count = count;
    while count > 0 {
        count -= 1;
        work.push(Pair {
            left: left + count,
            right: right + count,
        })?;
    }
    Ok(())
}

// Whether two cells are one constant, or compounds of one name and number of arguments.
fn agree(left: Cell, right: Cell) -> bool
    ensures { result ≡ agrees left right }
{
    match left {
        Cell::Int(m) => match right {
            Cell::Int(n) => m == n,
            Cell::Free | Cell::Ref(_) | Cell::Atom(_) | Cell::Node(_, _, _) => false,
        },
        Cell::Atom(a) => match right {
            Cell::Atom(b) => a == b,
            Cell::Free | Cell::Ref(_) | Cell::Int(_) | Cell::Node(_, _, _) => false,
        },
        Cell::Node(f, m, _) => match right {
            Cell::Node(g, n, _) => f == g && m == n,
            Cell::Free | Cell::Ref(_) | Cell::Int(_) | Cell::Atom(_) => false,
        },
        Cell::Free | Cell::Ref(_) => false,
    }
}

// The place of a cell's first argument, and how many there are.
fn block(cell: Cell) -> (u64, u64)
    ensures first { result.0 ≡ first_of cell }
    ensures count { result.1 ≡ count_of cell }
{
    match cell {
        Cell::Node(_, count, first) => (first, count),
        Cell::Free | Cell::Ref(_) | Cell::Int(_) | Cell::Atom(_) => (0, 0),
    }
}

// Whether two cells agree; the pairs of their arguments are then added.
fn compare(left: Cell, right: Cell, work: &mut Vec<Pair>) -> Result<bool, NoMemory>
    requires left { NamesBelow (2 ^ 64 - 1) left }
    requires right { NamesBelow (2 ^ 64 - 1) right }
    ensures { IfOk result (λ met. Compared left right work.old.items met work.new.items) }
{
    if !agree(left, right) {
        return Ok(false);
    }
    let (first, count) = block(left);
    let (other, _) = block(right);
    push_pairs(work, first, other, count)?;
    Ok(true)
}

// Whether the terms of two places may be the same; the pairs whose terms are to be the same then are added.
fn meet(heap: &Heap, left: u64, right: u64, work: &mut Vec<Pair>) -> Result<bool, NoMemory>
    requires left { left < size_of heap.now.changes }
    requires right { right < size_of heap.now.changes }
    ensures { IfOk result (λ met. HasMet heap.now.changes left right work.old.items met work.new.items) }
{
    let _size = heap.len();
    let first = heap.root(left);
    let second = heap.root(right);
    if first == second {
        return Ok(true);
    }
    let one = heap.cell(first);
    let other = heap.cell(second);
    let met = compare(one, other, work)?;
    Ok(met)
}

/// Whether the terms of two places are the same.
///
/// # Errors
///
/// Only for want of memory.
pub(crate) fn same_at(alloc: Global, heap: &Heap, left: u64, right: u64) -> Result<bool, NoMemory>
    requires left { left < size_of heap.now.changes }
    requires right { right < size_of heap.now.changes }
    ensures { IfOk result (λ b. b ≡ same (value_of heap.now.changes left) (value_of heap.now.changes right)) }
{
    let _size = heap.len();
    let mut work = Vec::new(alloc);
    work.push(Pair { left, right })?;
    while let Some(pair) = work.pop() {
        let met = meet(heap, pair.left, pair.right, &mut work)?;
        if !met {
            return Ok(false);
        }
    }
    Ok(true)
}

/// What `==` does with the terms of two places.
pub(crate) fn same_effect(alloc: Global, heap: &Heap, first: u64) -> Result<Effect, NoMemory>
    requires { first + 2 ≤ size_of heap.now.changes }
    ensures { IfOk result (HasEffect heap.now.changes (truth (same (value_of heap.now.changes first) (value_of heap.now.changes (first + 1))))) }
{
    let _size = heap.len();
    let is_same = same_at(alloc, heap, first, first + 1)?;
    Ok(tested(is_same))
}

/// What `\==` does with them.
pub(crate) fn differs_effect(alloc: Global, heap: &Heap, first: u64) -> Result<Effect, NoMemory>
    requires { first + 2 ≤ size_of heap.now.changes }
    ensures { IfOk result (HasEffect heap.now.changes (truth (not (same (value_of heap.now.changes first) (value_of heap.now.changes (first + 1)))))) }
{
    let _size = heap.len();
    let is_same = same_at(alloc, heap, first, first + 1)?;
    Ok(tested(!is_same))
}
