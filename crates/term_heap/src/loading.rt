// Terms put into cells.
ghost use Rattle.std.specs.Prelude.{◌≡◌, length, IfOk, OnErr};
ghost use Rattle.std.specs.List.{AllByRecursion};
ghost use Rattle.term_core.specs.Lists.{IsPrefix};
ghost use Rattle.term_heap.specs.Loads.{IsPlaced, IsLoaded, AreLoaded, IsBlock};

use crate::cells::Cell;
use std::alloc::Global;
use term_core::{NoMemory, Term};

// The cells of terms, after the blocks of their compounds.
#[cycle(loading)]
fn row_of(
    alloc: Global,
    cells: &mut Vec<Cell>,
    terms: &[Term],
    base: u64,
) -> Result<Vec<Cell>, NoMemory>
    requires { AllByRecursion (IsPlaced (length cells.old.items) base) terms.now }
    ensures ok { IfOk result (λ row. AreLoaded cells.old.items base terms.now cells.new.items row.items) }
    ensures err { OnErr result (IsPrefix cells.old.items cells.new.items) }
{
    let mut row = Vec::new(alloc);
    for term in terms {
        row.push(cell_of(alloc, cells, term, base)?)?;
    }
    Ok(row)
}

// The cell of a term, after the blocks of its compounds.
#[cycle(loading)]
fn cell_of(alloc: Global, cells: &mut Vec<Cell>, term: &Term, base: u64) -> Result<Cell, NoMemory>
    requires { IsPlaced (length cells.old.items) base term.now }
    ensures ok { IfOk result (λ c. IsLoaded cells.old.items base term.now cells.new.items c) }
    ensures err { OnErr result (IsPrefix cells.old.items cells.new.items) }
{
    match term {
        Term::Var(v) => Ok(Cell::Ref(*v + base)),
        Term::Int(n) => Ok(Cell::Int(*n)),
        Term::Atom(a) => Ok(Cell::Atom(*a)),
        Term::Node(f, parts) => {
            let first = block_of(alloc, cells, parts.as_slice(), base)?;
            Ok(Cell::Node(*f, parts.len() as u64, first))
        }
    }
}

// Adds the cells of terms, their own in a block at the end; the place of the block.
#[cycle(loading)]
fn block_of(
    alloc: Global,
    cells: &mut Vec<Cell>,
    terms: &[Term],
    base: u64,
) -> Result<u64, NoMemory>
    requires { AllByRecursion (IsPlaced (length cells.old.items) base) terms.now }
    ensures ok { IfOk result (λ first. IsBlock cells.old.items base terms.now cells.new.items first) }
    ensures err { OnErr result (IsPrefix cells.old.items cells.new.items) }
{
    let row = row_of(alloc, cells, terms, base)?;
    let first = cells.len() as u64;
    cells.extend_from_slice(row.as_slice())?;
    Ok(first)
}

/// Adds the cells of terms, their own in a block at the end, and none where memory is refused; the place of the block.
pub(crate) fn add_block(
    alloc: Global,
    cells: &mut Vec<Cell>,
    terms: &[Term],
    base: u64,
) -> Result<u64, NoMemory>
    requires { AllByRecursion (IsPlaced (length cells.old.items) base) terms.now }
    ensures ok { IfOk result (λ first. IsBlock cells.old.items base terms.now cells.new.items first) }
    ensures err { OnErr result (cells.new.items ≡ cells.old.items) }
{
    let size = cells.len();
    match block_of(alloc, cells, terms, base) {
        Ok(first) => Ok(first),
        Err(NoMemory) => {
            cells.truncate(size);
            Err(NoMemory)
        }
    }
}
