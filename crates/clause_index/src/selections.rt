// What is selected of a small program.
use crate::{Index, Key};
use prog_data::{Clause, Goal, Place, Pred, Program, basic_grammar};
use sqlite_items::Items;
use std::alloc::Global;
use std::test::Fail;
use term_core::{GROUND, NIL, Names, NoMemory, OpTable, Term};

const A: u64 = GROUND + 1;

const B: u64 = GROUND + 2;

// The first arguments of p/1, by their keys.
const HEADS: [Key; 8] = [
    Key::Atom(A),
    Key::Free,
    Key::Int(60),
    Key::Node(A, 1),
    Key::Atom(A),
    Key::Node(A, 2),
    Key::Free,
    Key::Atom(B),
];

// A predicate, a key, and the places of the clauses that can match: p/1, then q/0 with two clauses, then none.
const ROWS: [(u64, Key, &[u64]); 12] = [
    (0, Key::Free, &[0, 1, 2, 3, 4, 5, 6, 7]),
    (0, Key::Atom(A), &[0, 1, 4, 6]),
    (0, Key::Atom(B), &[1, 6, 7]),
    (0, Key::Atom(NIL), &[1, 6]),
    (0, Key::Int(60), &[1, 2, 6]),
    (0, Key::Int(-60), &[1, 6]),
    (0, Key::Node(A, 1), &[1, 3, 6]),
    (0, Key::Node(A, 2), &[1, 5, 6]),
    (0, Key::Node(B, 1), &[1, 6]),
    (1, Key::Free, &[0, 1]),
    (1, Key::Atom(A), &[0, 1]),
    (2, Key::Free, &[]),
];

// A term with this key.
fn term(alloc: Global, key: Key) -> Result<Term, NoMemory> {
    match key {
        Key::Free => Ok(Term::Var(0)),
        Key::Int(number) => Ok(Term::Int(number)),
        Key::Atom(name) => Ok(Term::Atom(name)),
        Key::Node(name, count) => {
            let mut parts = Items::new(alloc);
            for part in 0..count {
                parts.push(Term::Var(part))?;
            }
            Ok(Term::Node(name, parts))
        }
    }
}

fn fact(head: Items<Term>) -> Clause {
    Clause {
        head,
        body: Goal::True,
        vars: 2,
        place: Place { file: A, line: 1 },
    }
}

// A predicate of so many arguments, with these clauses.
fn pred(alloc: Global, arity: u64, clauses: Items<Clause>) -> Pred {
    Pred {
        module: A,
        name: A,
        arity,
        clauses,
        conds: Items::new(alloc),
        call_checks: Items::new(alloc),
    }
}

fn preds(alloc: Global) -> Result<Items<Pred>, NoMemory> {
    let mut facts = Items::new(alloc);
    for key in &HEADS {
        let mut head = Items::new(alloc);
        head.push(term(alloc, *key)?)?;
        facts.push(fact(head))?;
    }
    let mut bare = Items::new(alloc);
    bare.push(fact(Items::new(alloc)))?;
    bare.push(fact(Items::new(alloc)))?;
    let mut preds = Items::new(alloc);
    preds.push(pred(alloc, 1, facts))?;
    preds.push(pred(alloc, 0, bare))?;
    Ok(preds)
}

fn program(alloc: Global) -> Result<Program, NoMemory> {
    Ok(Program {
        names: Names::new(alloc)?,
        ops: OpTable::standard(alloc)?,
        files: Items::new(alloc),
        preds: preds(alloc)?,
        conds: Items::new(alloc),
        claims: Items::new(alloc),
        grammar: basic_grammar(alloc)?,
        exports: Items::new(alloc),
        entries: Items::new(alloc),
    })
}

// The first row for which other places are selected.
fn first_other(index: &Index, rows: &[(u64, Key, &[u64])]) -> Option<u64> {
    let mut row = 0u64;
    for (number, key, places) in rows {
        if index.select(*number, *key) != *places {
            return Some(row);
        }
        row = row.saturating_add(1);
    }
    None
}

#[test]
fn clauses_are_selected(rt: HostRuntime) -> Result<(), Fail> {
    let alloc = rt.alloc();
    let program = program(alloc)?;
    let index = Index::make(alloc, &program)?;
    assert_eq!(rt; first_other(&index, &ROWS), None);
    Ok(())
}
