// To which names of a set the term of a place belongs, and whether it belongs to one of them at least, which goes along last
// parts by a loop. Of one name both are the same, and so are they where several names are asked for one after the other:
// that is done once on the way down, since at each level it would take a time that doubles with each.
ghost use Rattle.std.specs.Prelude.{◌≡◌, ◌<◌, ◌≤◌, ◌+◌, ◌&&◌, ℕ, true, option_copied};
ghost use Rattle.prog_data.specs.Values.{bit_at};
ghost use Rattle.prog_data.specs.Membership.{belongs};
ghost use Rattle.term_heap.specs.Changes.{size_of, value_of};
ghost use Rattle.prop_check.specs.Sets.{Fits, IsTold};
ghost use Rattle.prop_check.specs.Chains.{sets_behind};
ghost use Rattle.prop_check.specs.OneOf.{SomeBelongs, AsksLast};
ghost use Rattle.prop_check.specs.Places.{row_at, compound_at};

use crate::chains::{Known, link};
use crate::gathering::{Look, gather, gather_first, reach};
use crate::heads::Head;
use crate::looks::{cell_head, look, parts_of};
use crate::sets::{has, is_same, is_single, put, put_where};
use crate::settling::{holds_alone, holds_of_each, settle};
use prog_data::Grammar;
use term_heap::{Cell, Heap};

// Makes a set that of the names of a closed one to which a compound belongs, where some of its first parts are left to be
// looked at, and the names of those behind them are known.
#[cycle(narrowing_at)]
fn narrowed_at(
    grammar: &Grammar,
    heap: &Heap,
    reach: &[u64; 8],
    name: u64,
    first: u64,
    count: u64,
    left: u64,
    behind: Option<&Known>,
    names: &mut [u64; 8],
)
    requires told { IsTold grammar.now (bit_at reach.now) (compound_at heap.now.changes name first count) name (row_at heap.now.changes first count) left (sets_behind (option_copied behind)) }
    requires within { first + count ≤ size_of heap.now.changes }
    ensures { (n : ℕ) → bit_at names.new n ≡ (bit_at reach.now n && belongs grammar.now (compound_at heap.now.changes name first count) n) }
{
    if left == 0 {
        settle(grammar, reach, &Head::Node(name), behind, names);
        return;
    }
    let _size = heap.len();
    let place = left - 1;
    let mut asked = [0; 8];
    gather_first(grammar, reach, Look::Part(name, place as usize), &mut asked);
    narrow_at(grammar, heap, &mut asked, first + place, false);
    let known = link(&asked, behind);
    narrowed_at(
        grammar,
        heap,
        reach,
        name,
        first,
        count,
        place,
        Some(&known),
        names,
    );
}

// Makes a set that of the names which the last part of a compound is asked for, where some of the parts before it are left to
// be looked at, and the names of those behind them are known.
#[cycle(narrowing_at)]
fn ask_last(
    grammar: &Grammar,
    heap: &Heap,
    reach: &[u64; 8],
    name: u64,
    first: u64,
    count: u64,
    left: u64,
    behind: Option<&Known>,
    apart: bool,
    names: &mut [u64; 8],
)
    requires told { IsTold grammar.now (bit_at reach.now) (compound_at heap.now.changes name first count) name (row_at heap.now.changes first count) left (sets_behind (option_copied behind)) }
    requires within { first + count ≤ size_of heap.now.changes }
    ensures { AsksLast grammar.now (bit_at reach.now) name (row_at heap.now.changes first count) (bit_at names.new) }
{
    if left == 0 {
        *names = [0; 8];
        gather(grammar, reach, Look::Last(name), behind, names);
        return;
    }
    let _size = heap.len();
    let place = left - 1;
    let mut asked = [0; 8];
    gather_first(grammar, reach, Look::Part(name, place as usize), &mut asked);
    narrow_at(grammar, heap, &mut asked, first + place, apart);
    let known = link(&asked, behind);
    ask_last(
        grammar,
        heap,
        reach,
        name,
        first,
        count,
        place,
        Some(&known),
        apart,
        names,
    );
}

/// Whether the term of a place belongs to one name of a set at least. The flag says whether several names may be asked for
/// one after the other.
#[cycle(narrowing_at)]
pub(crate) fn one_belongs(
    grammar: &Grammar,
    heap: &Heap,
    names: &[u64; 8],
    place: u64,
    apart: bool,
) -> bool
    requires fits { Fits grammar.now }
    requires within { place < size_of heap.now.changes }
    ensures some { result ≡ true → SomeBelongs grammar.now (bit_at names.now) (value_of heap.now.changes place) }
    ensures none { SomeBelongs grammar.now (bit_at names.now) (value_of heap.now.changes place) → result ≡ true }
{
    let _size = heap.len();
    let mut asked = *names;
    let mut here = place;
    'places: loop {
        if is_same(&asked, &[0; 8]) {
            return false;
        }
        let closed = reach(grammar, &asked);
        let cell = look(heap, here);
        match parts_of(&cell) {
            None => return holds_alone(grammar, &closed, &cell_head(&cell)),
            Some(parts) => {
                if holds_of_each(grammar, &closed, parts.name) {
                    return true;
                }
                ask_last(
                    grammar,
                    heap,
                    &closed,
                    parts.name,
                    parts.first,
                    parts.others,
                    parts.others,
                    None,
                    apart,
                    &mut asked,
                );
                here = parts.first + parts.others;
            }
        }
    }
}

// Leaves in a set of one name that name where the term of a place belongs to it.
#[cycle(narrowing_at)]
fn narrow_one(grammar: &Grammar, heap: &Heap, names: &mut [u64; 8], place: u64, apart: bool)
    requires fits { Fits grammar.now }
    requires within { place < size_of heap.now.changes }
    requires single { (n m : ℕ) → bit_at names.old n ≡ true → bit_at names.old m ≡ true → n ≡ m }
    ensures { (n : ℕ) → bit_at names.old n ≡ true → bit_at names.new n ≡ belongs grammar.now (value_of heap.now.changes place) n }
{
    if !one_belongs(grammar, heap, names, place, apart) {
        *names = [0; 8];
    }
}

// Whether a name is in a set, and the term of a place belongs to it.
#[cycle(narrowing_at)]
fn is_kept(grammar: &Grammar, heap: &Heap, names: &[u64; 8], name: u64, place: u64) -> bool
    requires fits { Fits grammar.now }
    requires within { place < size_of heap.now.changes }
    ensures { result ≡ (bit_at names.now name && belongs grammar.now (value_of heap.now.changes place) name) }
{
    if !has(names, name) {
        return false;
    }
    let mut single = [0; 8];
    put(&mut single, name);
    one_belongs(grammar, heap, &single, place, false)
}

// Leaves in a set the names to which the term of a place belongs, by one name after the other.
#[cycle(narrowing_at)]
fn narrow_each(grammar: &Grammar, heap: &Heap, names: &mut [u64; 8], place: u64)
    requires fits { Fits grammar.now }
    requires within { place < size_of heap.now.changes }
    ensures { (n : ℕ) → bit_at names.old n ≡ true → bit_at names.new n ≡ belongs grammar.now (value_of heap.now.changes place) n }
{
    let mut kept = [0; 8];
    for name in 0..512u64 {
        let wanted = is_kept(grammar, heap, names, name, place);
        put_where(&mut kept, name, wanted);
    }
    *names = kept;
}

// Leaves in a set the names to which the term of a place belongs, and perhaps others that were not in it.
#[cycle(narrowing_at)]
fn narrow_at(grammar: &Grammar, heap: &Heap, names: &mut [u64; 8], place: u64, apart: bool)
    requires fits { Fits grammar.now }
    requires within { place < size_of heap.now.changes }
    ensures { (n : ℕ) → bit_at names.old n ≡ true → bit_at names.new n ≡ belongs grammar.now (value_of heap.now.changes place) n }
{
    if is_same(names, &[0; 8]) {
        return;
    }
    if is_single(names) {
        narrow_one(grammar, heap, names, place, apart);
        return;
    }
    if apart {
        narrow_each(grammar, heap, names, place);
        return;
    }
    narrow_all(grammar, heap, names, place);
}

// Leaves in a set the names to which the term of a place belongs, and perhaps others that were not in it, by all its parts.
#[cycle(narrowing_at)]
fn narrow_all(grammar: &Grammar, heap: &Heap, names: &mut [u64; 8], place: u64)
    requires fits { Fits grammar.now }
    requires within { place < size_of heap.now.changes }
    ensures { (n : ℕ) → bit_at names.old n ≡ true → bit_at names.new n ≡ belongs grammar.now (value_of heap.now.changes place) n }
{
    let closed = reach(grammar, names);
    let cell = look(heap, place);
    match cell {
        Cell::Node(name, count, first) => {
            narrowed_at(
                grammar, heap, &closed, name, first, count, count, None, names,
            );
        }
        Cell::Free | Cell::Ref(_) | Cell::Int(_) | Cell::Atom(_) => {
            settle(grammar, &closed, &cell_head(&cell), None, names);
        }
    }
}
