// What the cell at the end of a place's references says of the place's term.
ghost use Rattle.std.specs.Prelude.{◌≡◌, ◌<◌, MatchOption};
ghost use Rattle.term_core.specs.declared.terms.Term.{out-Term};
ghost use Rattle.term_core.specs.Terms.{is_variable};
ghost use Rattle.term_heap.specs.Changes.{size_of, value_of};
ghost use Rattle.prop_check.specs.Heads.{cell_head};
ghost use Rattle.prop_check.specs.Places.{Says, HasLast, HasNoLast};

use crate::heads::Head;
use term_heap::{Cell, Heap};

/// A compound with parts: its name, the place of the first part, and how many there are before the last.
#[derive(Clone, Copy)]
pub(crate) struct Parts {
    pub(crate) name: u64,
    pub(crate) first: u64,
    pub(crate) others: u64,
}

/// The cell to which the references of a place lead.
pub(crate) fn look(heap: &Heap, place: u64) -> Cell
    requires { place < size_of heap.now.changes }
    ensures { Says heap.now.changes (value_of heap.now.changes place) result }
{
    let _size = heap.len();
    let root = heap.root(place);
    heap.cell(root)
}

/// The outermost of what a cell says.
pub(crate) fn cell_head(cell: &Cell) -> Head
    ensures { result ≡ cell_head cell.now }
{
    match cell {
        Cell::Free | Cell::Ref(_) => Head::Var,
        Cell::Int(number) => Head::Int(*number),
        Cell::Atom(name) => Head::Atom(*name),
        Cell::Node(name, _, _) => Head::Node(*name),
    }
}

/// The parts of a compound that has some.
pub(crate) fn parts_of(cell: &Cell) -> Option<Parts>
    ensures { MatchOption result (HasNoLast cell.now) (λ parts. HasLast cell.now parts) }
{
    match cell {
        Cell::Node(name, count, first) => {
            if *count == 0 {
                return None;
            }
            Some(Parts {
                name: *name,
                first: *first,
                others: *count - 1,
            })
        }
        Cell::Free | Cell::Ref(_) | Cell::Int(_) | Cell::Atom(_) => None,
    }
}

/// Whether the term of a place is a variable.
pub(crate) fn is_variable_at(heap: &Heap, place: u64) -> bool
    requires { place < size_of heap.now.changes }
    ensures { result ≡ is_variable (out-Term (value_of heap.now.changes place)) }
{
    match look(heap, place) {
        Cell::Free => true,
        Cell::Ref(_) => false,
        Cell::Int(_) => false,
        Cell::Atom(_) => false,
        Cell::Node(_, _, _) => false,
    }
}
