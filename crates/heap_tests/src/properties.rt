// Which terms of places belong to grammar names, and which properties hold of them.
ghost use Rattle.std.specs.Prelude.{◌≡◌, ◌∷◌, [], IfOk};
ghost use Rattle.prog_data.specs.GrammarRange.{IsGrammar};

use prog_data::{Grammar, Prop, Rule, basic_grammar};
use prop_check::{belongs_at, holds_at, is_ground_at};
use sqlite_items::Items;
use std::alloc::Global;
use std::test::Fail;
use term_core::{CELL, NIL, NoMemory, Term};
use term_heap::Heap;
use unify_core::unify;

// Two rules of a name.
fn two(alloc: Global, first: Rule, second: Rule) -> Result<Items<Rule>, NoMemory>
    ensures { IfOk result (λ rules. rules ≡ first ∷ second ∷ []) }
{
    let mut rules = Items::new(alloc);
    rules.push(first)?;
    rules.push(second)?;
    Ok(rules)
}

// A rule for the compounds of a name with two parts.
fn pair_rule(alloc: Global, name: u64, left: u64, right: u64) -> Result<Rule, NoMemory>
    ensures { IfOk result (λ rule. rule ≡ Rule.Node name (left ∷ right ∷ [])) }
{
    let names = Items::from_slice(alloc, &[left, right])?;
    Ok(Rule::Node(name, names))
}

// The basic names; lists of integers (10) and of atoms (11); f of one of these before an integer or an atom (12), and behind
// it (13).
fn lists(alloc: Global) -> Result<Grammar, NoMemory>
    ensures { IfOk result (λ grammar. IsGrammar grammar) }
{
    let mut made = basic_grammar(alloc)?;
    let integers = two(alloc, Rule::Atom(NIL), pair_rule(alloc, CELL, 1, 10)?)?;
    let atoms = two(alloc, Rule::Atom(NIL), pair_rule(alloc, CELL, 4, 11)?)?;
    let before = two(
        alloc,
        pair_rule(alloc, 60, 10, 1)?,
        pair_rule(alloc, 60, 11, 4)?,
    )?;
    let behind = two(
        alloc,
        pair_rule(alloc, 60, 1, 10)?,
        pair_rule(alloc, 60, 4, 11)?,
    )?;
    made.rules.push(integers)?;
    made.rules.push(atoms)?;
    made.rules.push(before)?;
    made.rules.push(behind)?;
    Ok(made)
}

// A compound whose parts are the terms of two places.
fn pair(alloc: Global, heap: &mut Heap, name: u64, left: u64, right: u64) -> Result<u64, NoMemory> {
    if left >= heap.len() || right >= heap.len() {
        return Ok(0);
    }
    let mut parts = Items::new(alloc);
    parts.push(Term::Var(left))?;
    parts.push(Term::Var(right))?;
    let term = Term::Node(name, parts);
    heap.load(alloc, &term, 0)
}

// Makes the terms of two places one.
fn bound(alloc: Global, heap: &mut Heap, left: u64, right: u64) -> Result<(), NoMemory> {
    if left < heap.len() && right < heap.len() {
        unify(alloc, heap, left, right)?;
    }
    Ok(())
}

// A variable, and two that are bound in a row, the last one to 7; 7, -7, a, [] and a compound without parts.
fn constants(alloc: Global, heap: &mut Heap) -> Result<[u64; 8], NoMemory> {
    let free = heap.fresh(1)?;
    let first = heap.fresh(1)?;
    let second = heap.fresh(1)?;
    let seven = heap.load(alloc, &Term::Int(7), 0)?;
    let negative = heap.load(alloc, &Term::Int(-7), 0)?;
    let atom = heap.load(alloc, &Term::Atom(50), 0)?;
    let nil = heap.load(alloc, &Term::Atom(NIL), 0)?;
    let empty = heap.load(alloc, &Term::Node(60, Items::new(alloc)), 0)?;
    bound(alloc, heap, first, second)?;
    bound(alloc, heap, second, seven)?;
    Ok([free, first, second, seven, negative, atom, nil, empty])
}

// The constants, then [7|T], where T is bound to [7] (8); [7|X] (9); [a] (10); f([7],-7) (11), f([a],-7) (12), f([a],a) (13),
// f(7,[7]) (14) and f(7,[a]) (15).
fn places(alloc: Global, heap: &mut Heap) -> Result<[u64; 16], NoMemory> {
    let made = constants(alloc, heap)?;
    let (free, second, seven) = (made[0], made[2], made[3]);
    let (negative, atom, nil) = (made[4], made[5], made[6]);
    let tail = heap.fresh(1)?;
    let long = pair(alloc, heap, CELL, second, tail)?;
    let short = pair(alloc, heap, CELL, seven, nil)?;
    bound(alloc, heap, tail, short)?;
    let open = pair(alloc, heap, CELL, seven, free)?;
    let atoms = pair(alloc, heap, CELL, atom, nil)?;
    let a = pair(alloc, heap, 60, short, negative)?;
    let b = pair(alloc, heap, 60, atoms, negative)?;
    let c = pair(alloc, heap, 60, atoms, atom)?;
    let d = pair(alloc, heap, 60, seven, short)?;
    let e = pair(alloc, heap, 60, seven, atoms)?;
    Ok([
        free, made[1], second, seven, negative, atom, nil, made[7], long, open, atoms, a, b, c, d,
        e,
    ])
}

// Sixteen cells in a row that refer to these places; the first of them.
fn row(alloc: Global, heap: &mut Heap, places: &[u64; 16]) -> Result<u64, NoMemory> {
    let first = heap.fresh(16)?;
    let mut at = first;
    for place in places {
        bound(alloc, heap, at, *place)?;
        at = at.saturating_add(1);
    }
    Ok(first)
}

// A row for each of the names of the grammar, and for var, nonvar and ground: 1 where it holds of the argument in this place;
// there is no seventeenth argument.
const ROWS: [&str; 17] = [
    "11111111111111110",
    "01111000000000000",
    "01110000000000000",
    "01111000000000000",
    "00000110000000000",
    "01111111101111110",
    "01111110000000000",
    "00000001111111110",
    "00000111111111110",
    "00000010101000000",
    "00000010100000000",
    "00000010001000000",
    "00000000000101000",
    "00000000000000100",
    "10000000000000000",
    "01111111111111110",
    "01111111101111110",
];

// The property of a row, asked of the argument in this place.
fn property(row: u64, argument: u64) -> Prop {
    match row {
        14 => Prop::IsVar(argument),
        15 => Prop::IsNonvar(argument),
        16 => Prop::IsGround(argument),
        name => Prop::Belongs(argument, name),
    }
}

// Whether the property of the row holds of exactly the arguments that it tells.
fn is_told(grammar: &Grammar, heap: &Heap, first: u64, row: u64, told: &[u8]) -> bool
    requires { IsGrammar grammar.now }
{
    let size = heap.len();
    if size < 16 || first > size - 16 {
        return false;
    }
    let mut argument = 0u64;
    for byte in told {
        if holds_at(grammar, heap, &property(row, argument), first, 16) != (*byte == b'1') {
            return false;
        }
        argument = argument.saturating_add(1);
    }
    true
}

// The first row that tells something else.
fn first_other(grammar: &Grammar, heap: &Heap, first: u64, rows: &[&str]) -> Option<u64>
    requires { IsGrammar grammar.now }
{
    let mut row = 0u64;
    for told in rows {
        if !is_told(grammar, heap, first, row, told.as_bytes()) {
            return Some(row);
        }
        row = row.saturating_add(1);
    }
    None
}

#[test]
fn properties_hold_of_places(rt: HostRuntime) -> Result<(), Fail> {
    let alloc = rt.alloc();
    let grammar = lists(alloc)?;
    let mut heap = Heap::new(alloc);
    let places = places(alloc, &mut heap)?;
    let first = row(alloc, &mut heap, &places)?;
    assert_eq!(rt; first_other(&grammar, &heap, first, &ROWS), None);
    Ok(())
}

// A list of so many times the term of a place, before that of another.
fn long(alloc: Global, heap: &mut Heap, count: u64, item: u64, tail: u64) -> Result<u64, NoMemory> {
    let mut list = tail;
    for _ in 0..count {
        list = pair(alloc, heap, CELL, item, list)?;
    }
    Ok(list)
}

// Whether the term of a place belongs to a name, and whether it has no variable.
fn answers(grammar: &Grammar, heap: &Heap, name: u64, place: u64) -> (bool, bool)
    requires { IsGrammar grammar.now }
{
    if place >= heap.len() {
        return (false, false);
    }
    (
        belongs_at(grammar, heap, name, place),
        is_ground_at(heap, place),
    )
}

// Lists of 200,000 items, of which the second one ends with a variable; and f of such a list, which is asked for two names.
#[test]
fn long_lists_need_no_stack(rt: HostRuntime) -> Result<(), Fail> {
    let alloc = rt.alloc();
    let grammar = lists(alloc)?;
    let mut heap = Heap::new(alloc);
    let free = heap.fresh(1)?;
    let item = heap.load(alloc, &Term::Int(1), 0)?;
    let nil = heap.load(alloc, &Term::Atom(NIL), 0)?;
    let whole = long(alloc, &mut heap, 200_000, item, nil)?;
    let open = long(alloc, &mut heap, 200_000, item, free)?;
    let behind = pair(alloc, &mut heap, 60, item, whole)?;
    assert_eq!(rt; answers(&grammar, &heap, 10, whole), (true, true));
    assert_eq!(rt; answers(&grammar, &heap, 10, open), (false, false));
    assert_eq!(rt; answers(&grammar, &heap, 11, whole), (false, true));
    assert_eq!(rt; answers(&grammar, &heap, 13, behind), (true, true));
    Ok(())
}
