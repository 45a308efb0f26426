// Whether the terms of places have variables.
ghost use Rattle.std.specs.Prelude.{◌≡◌, ◌<◌, ◌≤◌, ◌+◌};
ghost use Rattle.std.specs.List.{list_all};
ghost use Rattle.term_core.specs.Terms.{is_ground};
ghost use Rattle.term_heap.specs.Changes.{size_of, value_of, places};

use term_heap::{Cell, Heap};

/// Whether the terms of so many places, from the first on, have no variable.
#[cycle(grounds)]
pub fn are_ground_at(heap: &Heap, first: u64, count: u64) -> bool
    requires { first + count ≤ size_of heap.now.changes }
    ensures { result ≡ list_all (λ p. is_ground (value_of heap.now.changes p)) (places first count) }
{
    let _size = heap.len();
    let end = first + count;
    for at in first..end {
        if !is_ground_at(heap, at) {
            return false;
        }
    }
    true
}

/// Whether the term of a place has no variable. Along last arguments it needs no stack.
#[cycle(grounds)]
pub fn is_ground_at(heap: &Heap, place: u64) -> bool
    requires { place < size_of heap.now.changes }
    ensures { result ≡ is_ground (value_of heap.now.changes place) }
{
    let _size = heap.len();
    let mut here = place;
    'places: loop {
        let root = heap.root(here);
        match heap.cell(root) {
            Cell::Free => return false,
            Cell::Ref(_) => return false,
            Cell::Int(_) => return true,
            Cell::Atom(_) => return true,
            Cell::Node(_, count, first) => {
                if count == 0 {
                    return true;
                }
                if !are_ground_at(heap, first, count - 1) {
                    return false;
                }
                here = first + (count - 1);
            }
        }
    }
}
