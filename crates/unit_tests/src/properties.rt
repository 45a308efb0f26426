// Which properties hold of which arguments.
use crate::texts::term_of;
use prog_data::{Grammar, Prop, Rule, basic_grammar};
use prop_check::holds;
use sqlite_items::Items;
use std::alloc::Global;
use std::test::Fail;
use term_core::{CELL, NIL, Names, NoMemory, Term};

// A row for each of the names of the grammar, and for var, nonvar and ground: 1 where it holds of the argument in this place.
const ROWS: [&str; 16] = [
    "11111111110",
    "01100000000",
    "01000000000",
    "01100000000",
    "00010010000",
    "01110111010",
    "01110010000",
    "00001101110",
    "00011111110",
    "00000011010",
    "00000011000",
    "00000000000",
    "01000011000",
    "10000000000",
    "01111111110",
    "01110111010",
];

fn rules(alloc: Global, first: Rule, second: Rule) -> Result<Items<Rule>, NoMemory> {
    let mut rules = Items::new(alloc);
    rules.push(first)?;
    rules.push(second)?;
    Ok(rules)
}

// The basic names, then lists of integers (10), a name that leads to itself alone (11), and 7 with the name 10 (12).
fn grammar(alloc: Global) -> Result<Grammar, NoMemory> {
    let mut grammar = basic_grammar(alloc)?;
    let cell = Rule::Node(CELL, Items::from_slice(alloc, &[1, 10])?);
    grammar.rules.push(rules(alloc, Rule::Atom(NIL), cell)?)?;
    grammar
        .rules
        .push(rules(alloc, Rule::Unit(11), Rule::Unit(11))?)?;
    grammar
        .rules
        .push(rules(alloc, Rule::Unit(10), Rule::Int(7))?)?;
    Ok(grammar)
}

const ARGUMENTS: [&str; 10] = [
    "X", "7", "-7", "a", "f(X)", "f(a)", "[]", "[7]", "[7|X]", "[a]",
];

// The terms that texts are.
fn terms_of(alloc: Global, texts: &[&str]) -> Result<Items<Term>, NoMemory> {
    let mut names = Names::new(alloc)?;
    let mut terms = Items::new(alloc);
    for text in texts {
        match term_of(alloc, &mut names, text)? {
            None => {}
            Some(term) => terms.push(term)?,
        }
    }
    Ok(terms)
}

// The property of a row, asked of the argument in this place.
fn property(row: u64, argument: u64) -> Prop {
    match row {
        13 => Prop::IsVar(argument),
        14 => Prop::IsNonvar(argument),
        15 => Prop::IsGround(argument),
        name => Prop::Belongs(argument, name),
    }
}

// Whether the property of the row holds of exactly the arguments that it tells.
fn is_told(grammar: &Grammar, args: &[Term], row: u64, told: &[u8]) -> bool {
    let mut argument = 0u64;
    for byte in told {
        if holds(grammar, &property(row, argument), args) != (*byte == b'1') {
            return false;
        }
        argument = argument.saturating_add(1);
    }
    true
}

// The first row that tells something else.
fn first_other(grammar: &Grammar, args: &[Term], rows: &[&str]) -> Option<u64> {
    let mut row = 0u64;
    for told in rows {
        if !is_told(grammar, args, row, told.as_bytes()) {
            return Some(row);
        }
        row = row.saturating_add(1);
    }
    None
}

#[test]
fn properties_hold_of_arguments(rt: HostRuntime) -> Result<(), Fail> {
    let alloc = rt.alloc();
    let grammar = grammar(alloc)?;
    let args = terms_of(alloc, &ARGUMENTS)?;
    assert_eq!(rt; first_other(&grammar, args.as_slice(), &ROWS), None);
    Ok(())
}
