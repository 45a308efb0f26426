// The key by which the clauses of a call are chosen.
ghost use Rattle.std.specs.Prelude.{◌≡◌, ◌≤◌, ◌+◌};
ghost use Rattle.term_heap.specs.Changes.{size_of};
ghost use Rattle.prop_check.specs.Places.{row_at};
ghost use Rattle.clause_index.specs.Keys.{first_key};
ghost use Rattle.engine_moves.specs.Choosing.{cell_key};

use crate::builtins::end_cell;
use clause_index::Key;
use engine_state::Row;
use term_heap::{Cell, Heap};

// The key of the term of a cell that is no reference.
fn cell_key(cell: Cell) -> Key
    ensures { result ≡ cell_key cell }
{
    match cell {
        Cell::Free | Cell::Ref(_) => Key::Free,
        Cell::Int(number) => Key::Int(number),
        Cell::Atom(name) => Key::Atom(name),
        Cell::Node(name, count, _) => Key::Node(name, count),
    }
}

/// The key of the first of some arguments, which is free where there is none.
pub(crate) fn first_key(heap: &Heap, args: Row) -> Key
    requires { args.first + args.count ≤ size_of heap.now.changes }
    ensures { result ≡ first_key (row_at heap.now.changes args.first args.count) }
{
    if args.count == 0 {
        return Key::Free;
    }
    let cell = end_cell(heap, args.first);
    cell_key(cell)
}
