// A long list and a grammar of as many names as a program may have, whose unit rules lead back.
use prog_data::{Basic, Grammar, Rule, basic_grammar};
use prop_check::belongs;
use sqlite_items::Items;
use std::alloc::Global;
use std::test::Fail;
use term_core::{CELL, NIL, NoMemory, Term, discard};

// Adds a name with two rules.
fn add(alloc: Global, grammar: &mut Grammar, first: Rule, second: Rule) -> Result<(), NoMemory> {
    let mut rules = Items::new(alloc);
    rules.push(first)?;
    rules.push(second)?;
    grammar.rules.push(rules)?;
    Ok(())
}

fn node(alloc: Global, name: u64, names: &[u64]) -> Result<Rule, NoMemory> {
    Ok(Rule::Node(name, Items::from_slice(alloc, names)?))
}

// The names 17 to 511: each leads to the next one and back to 17, and the last one to 10.
fn add_chain(alloc: Global, grammar: &mut Grammar) -> Result<(), NoMemory> {
    for name in 18..512u64 {
        add(alloc, grammar, Rule::Unit(17), Rule::Unit(name))?;
    }
    add(alloc, grammar, Rule::Unit(17), Rule::Unit(10))
}

// The basic names; lists of integers (10); two names that lead to each other (11, 12); f of an integer and an atom in
// any order (13); g around g around a, in two ways (14, 15); f of 10 and 14, and all without variables (16); a chain.
fn grammar(alloc: Global) -> Result<Grammar, NoMemory> {
    let (a, f, g) = (80u64, 81u64, 82u64);
    let mut made = basic_grammar(alloc)?;
    add(
        alloc,
        &mut made,
        Rule::Atom(NIL),
        node(alloc, CELL, &[1, 10])?,
    )?;
    add(alloc, &mut made, Rule::Unit(12), Rule::Atom(a))?;
    add(alloc, &mut made, Rule::Unit(11), Rule::Int(7))?;
    add(
        alloc,
        &mut made,
        node(alloc, f, &[1, 4])?,
        node(alloc, f, &[4, 1])?,
    )?;
    add(
        alloc,
        &mut made,
        node(alloc, g, &[14])?,
        node(alloc, g, &[15])?,
    )?;
    add(alloc, &mut made, Rule::Atom(a), node(alloc, g, &[15])?)?;
    add(
        alloc,
        &mut made,
        node(alloc, f, &[10, 14])?,
        Rule::Basic(Basic::Gnd),
    )?;
    add_chain(alloc, &mut made)?;
    Ok(made)
}

// A compound of a term, and of a number before it where that is asked for.
fn around(alloc: Global, name: u64, numbered: bool, inner: Term) -> Result<Term, NoMemory> {
    let mut parts = Items::new(alloc);
    if numbered {
        parts.push(Term::Int(1))?;
    }
    parts.push(inner)?;
    Ok(Term::Node(name, parts))
}

// So many compounds around a term.
fn nested(
    alloc: Global,
    name: u64,
    numbered: bool,
    count: u64,
    innermost: Term,
) -> Result<Term, NoMemory> {
    let mut term = innermost;
    for _ in 0..count {
        term = around(alloc, name, numbered, term)?;
    }
    Ok(term)
}

#[test]
fn long_list(rt: HostRuntime) -> Result<(), Fail> {
    let alloc = rt.alloc();
    let grammar = grammar(alloc)?;
    let list = nested(alloc, CELL, true, 10_000, Term::Atom(NIL))?;
    assert!(rt; belongs(&grammar, 17, &list));
    discard(list);
    Ok(())
}
