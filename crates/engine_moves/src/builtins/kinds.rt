// Kinds of terms, by the cells of their places.
ghost use Rattle.std.specs.Prelude.{◌≡◌, ◌<◌, not};
ghost use Rattle.term_core.specs.declared.terms.Term.{out-Term};
ghost use Rattle.term_core.specs.Terms.{is_ground, is_variable};
ghost use Rattle.term_core.specs.Shapes.{is_atom};
ghost use Rattle.term_heap.specs.Changes.{size_of, value_of};
ghost use Rattle.unify_core.specs.Meets.{is_free};
ghost use Rattle.prog_data.specs.GrammarRange.{IsGrammar};
ghost use Rattle.prog_data.specs.Membership.{belongs};
ghost use Rattle.machine_model.specs.Step.{is_integer, truth};
ghost use Rattle.engine_moves.specs.BuiltinEffects.{HasEffect, IsCellOf, is_integer_cell, is_atom_cell};

use super::effects::{Effect, tested};
use prog_data::Grammar;
use prop_check::{belongs_at, is_ground_at};
use term_heap::{Cell, Heap};

/// The cell to which the references of a place lead.
pub(crate) fn end_cell(heap: &Heap, place: u64) -> Cell
    requires { place < size_of heap.now.changes }
    ensures { IsCellOf heap.now.changes place result }
{
    let _size = heap.len();
    let root = heap.root(place);
    heap.cell(root)
}

// Whether a cell has an integer.
fn is_integer_cell(cell: Cell) -> bool
    ensures { result ≡ is_integer_cell cell }
{
    match cell {
        Cell::Int(_) => true,
        Cell::Free | Cell::Ref(_) | Cell::Atom(_) | Cell::Node(_, _, _) => false,
    }
}

// Whether it has an atom.
fn is_atom_cell(cell: Cell) -> bool
    ensures { result ≡ is_atom_cell cell }
{
    match cell {
        Cell::Atom(_) => true,
        Cell::Free | Cell::Ref(_) | Cell::Int(_) | Cell::Node(_, _, _) => false,
    }
}

// Whether it is free.
fn is_free_cell(cell: Cell) -> bool
    ensures { result ≡ is_free cell }
{
    match cell {
        Cell::Free => true,
        Cell::Ref(_) | Cell::Int(_) | Cell::Atom(_) | Cell::Node(_, _, _) => false,
    }
}

// Whether the term of a place is an integer.
fn is_integer_at(heap: &Heap, place: u64) -> bool
    requires { place < size_of heap.now.changes }
    ensures { result ≡ is_integer (out-Term (value_of heap.now.changes place)) }
{
    let cell = end_cell(heap, place);
    is_integer_cell(cell)
}

// Whether it is an atom.
fn is_atom_at(heap: &Heap, place: u64) -> bool
    requires { place < size_of heap.now.changes }
    ensures { result ≡ is_atom (out-Term (value_of heap.now.changes place)) }
{
    let cell = end_cell(heap, place);
    is_atom_cell(cell)
}

// Whether it is a variable.
fn is_variable_at(heap: &Heap, place: u64) -> bool
    requires { place < size_of heap.now.changes }
    ensures { result ≡ is_variable (out-Term (value_of heap.now.changes place)) }
{
    let cell = end_cell(heap, place);
    is_free_cell(cell)
}

/// What `integer` does with the term of a place.
pub(crate) fn integer_effect(heap: &Heap, place: u64) -> Effect
    requires { place < size_of heap.now.changes }
    ensures { HasEffect heap.now.changes (truth (is_integer (out-Term (value_of heap.now.changes place)))) result }
{
    let holds = is_integer_at(heap, place);
    tested(holds)
}

/// What `atom` does with it.
pub(crate) fn atom_effect(heap: &Heap, place: u64) -> Effect
    requires { place < size_of heap.now.changes }
    ensures { HasEffect heap.now.changes (truth (is_atom (out-Term (value_of heap.now.changes place)))) result }
{
    let holds = is_atom_at(heap, place);
    tested(holds)
}

/// What `var` does with it.
pub(crate) fn variable_effect(heap: &Heap, place: u64) -> Effect
    requires { place < size_of heap.now.changes }
    ensures { HasEffect heap.now.changes (truth (is_variable (out-Term (value_of heap.now.changes place)))) result }
{
    let holds = is_variable_at(heap, place);
    tested(holds)
}

/// What `nonvar` does with it.
pub(crate) fn bound_effect(heap: &Heap, place: u64) -> Effect
    requires { place < size_of heap.now.changes }
    ensures { HasEffect heap.now.changes (truth (not (is_variable (out-Term (value_of heap.now.changes place))))) result }
{
    let is_free = is_variable_at(heap, place);
    tested(!is_free)
}

/// What `ground` does with it.
pub(crate) fn ground_effect(heap: &Heap, place: u64) -> Effect
    requires { place < size_of heap.now.changes }
    ensures { HasEffect heap.now.changes (truth (is_ground (value_of heap.now.changes place))) result }
{
    let holds = is_ground_at(heap, place);
    tested(holds)
}

/// What a type does with it.
pub(crate) fn type_effect(grammar: &Grammar, heap: &Heap, name: u64, place: u64) -> Effect
    requires grammar { IsGrammar grammar.now }
    requires place { place < size_of heap.now.changes }
    ensures { HasEffect heap.now.changes (truth (belongs grammar.now (value_of heap.now.changes place) name)) result }
{
    let holds = belongs_at(grammar, heap, name, place);
    tested(holds)
}
