// Histories of one heap: its cells at each length, its serials, and the terms of its places.
use sqlite_items::Items;
use std::alloc::Global;
use std::test::Fail;
use term_core::{NoMemory, Term};
use term_heap::{Cell, Heap, HeapMark};

// Puts f(V,N) into cells, where V is counted from a base on and is there.
fn load_pair(
    alloc: Global,
    heap: &mut Heap,
    variable: u64,
    number: i64,
    base: u64,
) -> Result<u64, NoMemory> {
    if variable.saturating_add(base) >= heap.len() {
        return Ok(0);
    }
    let mut parts = Items::new(alloc);
    parts.push(Term::Var(variable))?;
    parts.push(Term::Int(number))?;
    let term = Term::Node(7, parts);
    heap.load(alloc, &term, base)
}

// Binds a free cell to a number's place.
fn bind_to_number(heap: &mut Heap, at: u64, to: u64) -> Result<bool, NoMemory> {
    if at >= heap.len() || to >= heap.len() {
        return Ok(false);
    }
    match heap.cell(at) {
        Cell::Free => match heap.cell(to) {
            Cell::Int(_) => {
                heap.bind(at, to)?;
                Ok(true)
            }
            Cell::Free | Cell::Ref(_) | Cell::Atom(_) | Cell::Node(_, _, _) => Ok(false),
        },
        Cell::Ref(_) | Cell::Int(_) | Cell::Atom(_) | Cell::Node(_, _, _) => Ok(false),
    }
}

// X and Y, then f(Y,5), X bound to 5, no cell, one cell, and Y bound to 5.
fn made(alloc: Global) -> Result<Heap, NoMemory> {
    let mut heap = Heap::new(alloc);
    heap.fresh(2)?;
    load_pair(alloc, &mut heap, 0, 5, 1)?;
    bind_to_number(&mut heap, 0, 3)?;
    heap.fresh(0)?;
    heap.fresh(1)?;
    bind_to_number(&mut heap, 1, 3)?;
    Ok(heap)
}

// A cell as one number, and 0 where there is none.
fn code_at(heap: &Heap, at: u64) -> u64 {
    if at >= heap.len() {
        return 0;
    }
    match heap.cell(at) {
        Cell::Free => 1,
        Cell::Ref(to) => to.saturating_add(10),
        Cell::Int(_) => 20,
        Cell::Atom(_) => 30,
        Cell::Node(_, count, first) => first.saturating_add(100).saturating_add(count),
    }
}

// Whether these are the heap's cells once it is undone to a length.
fn held_at(heap: &mut Heap, length: u64, codes: &[u64]) -> bool {
    if length > heap.changes() {
        return false;
    }
    heap.undo_to(HeapMark { length });
    let mut at = 0u64;
    for code in codes {
        if code_at(heap, at) != *code {
            return false;
        }
        at = at.saturating_add(1);
    }
    true
}

// The cells at each length.
const HELD: [(u64, [u64; 7]); 7] = [
    (6, [13, 13, 11, 20, 104, 1, 0]),
    (5, [13, 1, 11, 20, 104, 1, 0]),
    (4, [13, 1, 11, 20, 104, 0, 0]),
    (3, [13, 1, 11, 20, 104, 0, 0]),
    (2, [1, 1, 11, 20, 104, 0, 0]),
    (1, [1, 1, 0, 0, 0, 0, 0]),
    (0, [0, 0, 0, 0, 0, 0, 0]),
];

// The first length at which the heap holds something else.
fn wrongly_held(heap: &mut Heap, rows: &[(u64, [u64; 7])]) -> Option<u64> {
    for row in rows {
        if !held_at(heap, row.0, &row.1) {
            return Some(row.0);
        }
    }
    None
}

#[test]
fn undone_to_each_length(rt: HostRuntime) -> Result<(), Fail> {
    let mut heap = made(rt.alloc())?;
    assert_eq!(rt; wrongly_held(&mut heap, &HELD), None);
    Ok(())
}

fn serial_at(heap: &Heap, at: u64) -> u64 {
    if at < heap.changes() {
        heap.serial(at)
    } else {
        0
    }
}

// The serials of two changes that stayed, and of one that came after six.
const SERIALS: [(u64, u64); 4] = [(0, 1), (1, 2), (2, 7), (3, 0)];

// The first change with another serial.
fn wrong_serial(heap: &Heap, rows: &[(u64, u64)]) -> Option<u64> {
    for row in rows {
        if serial_at(heap, row.0) != row.1 {
            return Some(row.0);
        }
    }
    None
}

#[test]
fn serials_after_undoing(rt: HostRuntime) -> Result<(), Fail> {
    let mut heap = made(rt.alloc())?;
    assert!(rt; held_at(&mut heap, 2, &[1]));
    assert_eq!(rt; heap.last_serial(), 6);
    heap.fresh(0)?;
    assert_eq!(rt; wrong_serial(&heap, &SERIALS), None);
    Ok(())
}

// A variable, the number 5, or something else.
fn leaf_code(term: &Term) -> u64 {
    match term {
        Term::Var(v) => v.saturating_add(10),
        Term::Int(n) => { if *n == 5 { 5 } else { 0 } }
        Term::Atom(_) | Term::Node(_, _) => 0,
    }
}

fn parts_are(term: &Term, first: u64, second: u64) -> bool {
    match term.parts() {
        [left, right] => leaf_code(left) == first && leaf_code(right) == second,
        _ => false,
    }
}

// The parts of f(Y,5) at some lengths.
const DECODED: [(u64, u64, u64); 3] = [(6, 5, 5), (5, 11, 5), (2, 11, 5)];

// The first length at which the term of the compound's place is another.
fn wrongly_decoded(
    alloc: Global,
    heap: &mut Heap,
    rows: &[(u64, u64, u64)],
) -> Result<Option<u64>, NoMemory> {
    for row in rows {
        if !held_at(heap, row.0, &[]) || heap.len() < 5 {
            return Ok(Some(row.0));
        }
        let term = heap.decode(alloc, 4)?;
        if !parts_are(&term, row.1, row.2) {
            return Ok(Some(row.0));
        }
    }
    Ok(None)
}

#[test]
fn terms_of_places(rt: HostRuntime) -> Result<(), Fail> {
    let mut heap = made(rt.alloc())?;
    assert_eq!(rt; wrongly_decoded(rt.alloc(), &mut heap, &DECODED)?, None);
    Ok(())
}
