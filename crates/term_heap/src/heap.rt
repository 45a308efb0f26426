// Heaps.
ghost use Rattle.std.specs.Prelude.{◌≡◌, ◌<◌, ◌≤◌, ◌^◌, ◌∷◌, [], length, replicate, IfOk, OnOk, OnErr, slice_index_or};
ghost use Rattle.term_heap.specs.declared.cells.Cell.TheVariants.{Free};
ghost use Rattle.term_heap.specs.Changes.{cells_of, size_of, cell_at, MayBind, Grows, Binds, next_serial, undone, serials, value_of, IsEnd, IsMade, AreUpTo};
ghost use Rattle.std.specs.List.{AllByRecursion};
ghost use Rattle.term_heap.specs.Loads.{IsPlaced, HasLoaded};

use crate::cells::Cell;
use crate::loading::add_block;
use crate::trails::Entry;
use std::alloc::Global;
use std::marker::Model;
use std::slice::from_ref;
use term_core::{NoMemory, Term};

/// Cells, with the trail by which changes are taken back.
#[derive(Drop)]
pub struct Heap {
    cells: Vec<Cell>,
    trail: Vec<Entry>,
    last: u64,
}

impl Model for Heap {
    ghost use Rattle.std.specs.Prelude.{reverse};
    ghost use Rattle.term_heap.specs.Changes.{History};
    ghost use Rattle.term_heap.specs.Histories.{changes_of, IsKept};

    ghost Value = { History };

    ghost view = { λ h. record { changes = changes_of h.cells.items (reverse h.trail.items); last = h.last } };

    ghost invariant = { λ h. IsKept h.cells.items h.trail.items h.last };
}

/// A length of a trail.
#[derive(Clone, Copy, Drop, Debug)]
pub struct HeapMark {
    pub length: u64,
}

impl Heap {
    /// No cells.
    pub fn new(alloc: Global) -> Heap
        ensures { result ≡ record { changes = []; last = 0 } }
    {
        Heap {
            cells: Vec::new(alloc),
            trail: Vec::new(alloc),
            last: 0,
        }
    }

    /// How many cells there are.
    pub fn len(&self) -> u64
        ensures len { result ≡ size_of self.now.changes }
        ensures made { IsMade self.now.changes }
        ensures given { AreUpTo self.now.last self.now.changes }
        ensures last { self.now.last < 2 ^ 64 }
    {
        self.cells.len() as u64
    }

    /// The cell at a place.
    pub fn cell(&self, at: u64) -> Cell
        requires { at < size_of self.now.changes }
        ensures { result ≡ cell_at (cells_of self.now.changes) at }
    {
        self.cells[at as usize]
    }

    /// The length of the trail.
    pub fn changes(&self) -> u64
        ensures { result ≡ length self.now.changes }
    {
        self.trail.len() as u64
    }

    /// The last serial that was given, 0 before the first.
    pub fn last_serial(&self) -> u64
        ensures { result ≡ self.now.last }
    {
        self.last
    }

    /// The trail's length now.
    pub fn mark(&self) -> HeapMark
        ensures { result.length ≡ length self.now.changes }
    {
        HeapMark {
            length: self.trail.len() as u64,
        }
    }

    /// Binds a free cell to a place.
    pub fn bind(&mut self, at: u64, to: u64) -> Result<(), NoMemory>
        requires { MayBind self.old.changes at to }
        ensures ok { OnOk result (self.new ≡ record { changes = Binds at to (next_serial self.old.last) ∷ self.old.changes; last = next_serial self.old.last }) }
        ensures err { OnErr result (self.new ≡ self.old) }
    {
        let serial = self.last.saturating_add(1);
        self.trail.push(Entry::Bound(at, serial))?;
        self.cells[at as usize] = Cell::Ref(to);
        self.last = serial;
        Ok(())
    }

    /// Takes back the changes after the mark.
    pub fn undo_to(&mut self, mark: HeapMark)
        requires { mark.length ≤ length self.old.changes }
        ensures { self.new ≡ record { changes = undone mark.length self.old.changes; last = self.old.last } }
    {
        while self.trail.len() as u64 > mark.length {
            match self.trail.pop() {
                None => {}
                Some(Entry::Grew(from, _)) => self.cells.truncate(from as usize),
                Some(Entry::Bound(at, _)) => self.cells[at as usize] = Cell::Free,
            }
        }
    }

    /// New free cells; the place of the first.
    pub fn fresh(&mut self, count: u64) -> Result<u64, NoMemory>
        ensures place { IfOk result (λ at. at ≡ size_of self.old.changes) }
        ensures ok { OnOk result (self.new ≡ record { changes = Grows (replicate count Free) (next_serial self.old.last) ∷ self.old.changes; last = next_serial self.old.last }) }
        ensures err { OnErr result (self.new ≡ self.old) }
    {
        let from = self.cells.len();
        let size = match (from as u64).checked_add(count) {
            Some(size) => size,
            None => return Err(NoMemory),
        };
        self.trail.reserve(1)?;
        self.cells.resize(size as usize, Cell::Free)?;
        let serial = self.last.saturating_add(1);
        self.trail.push(Entry::Grew(from as u64, serial))?;
        self.last = serial;
        Ok(from as u64)
    }

    /// The place to which the references of a place lead.
    pub fn root(&self, at: u64) -> u64
        requires { at < size_of self.now.changes }
        ensures place { result < size_of self.now.changes }
        ensures end { IsEnd (cell_at (cells_of self.now.changes) result) }
        ensures value { value_of self.now.changes result ≡ value_of self.now.changes at }
    {
        let _size = self.len();
        let mut here = at;
        while let Cell::Ref(next) = self.cell(here) {
            here = next;
        }
        here
    }

    /// The serial of a change, by its number from the oldest.
    pub fn serial(&self, at: u64) -> u64
        requires { at < length self.now.changes }
        ensures { result ≡ slice_index_or (serials self.now.changes) at 0 }
    {
        self.trail[at as usize].serial()
    }

    /// Puts terms into new cells, their own in a row; the place of the first. Their variables are places from a base on.
    pub fn load_all(&mut self, alloc: Global, terms: &[Term], base: u64) -> Result<u64, NoMemory>
        requires { AllByRecursion (IsPlaced (size_of self.old.changes) base) terms.now }
        ensures ok { IfOk result (λ first. HasLoaded self.old base terms.now first self.new) }
        ensures err { OnErr result (self.new ≡ self.old) }
    {
        let from = self.cells.len() as u64;
        self.trail.reserve(1)?;
        let first = add_block(alloc, &mut self.cells, terms, base)?;
        let serial = self.last.saturating_add(1);
        self.trail.push(Entry::Grew(from, serial))?;
        self.last = serial;
        Ok(first)
    }

    /// Puts a term into new cells; its place.
    pub fn load(&mut self, alloc: Global, term: &Term, base: u64) -> Result<u64, NoMemory>
        requires { IsPlaced (size_of self.old.changes) base term.now }
        ensures ok { IfOk result (λ at. HasLoaded self.old base (term.now ∷ []) at self.new) }
        ensures err { OnErr result (self.new ≡ self.old) }
    {
        self.load_all(alloc, from_ref(term), base)
    }
}
