// The terms that commas join, however they are grouped.
use sqlite_items::Items;
use std::alloc::Global;
use std::test::Fail;
use term_core::{BAR, COMMA, NoMemory, Term, conjuncts};

fn pair(alloc: Global, name: u64, left: Term, right: Term) -> Result<Term, NoMemory> {
    let mut parts = Items::new(alloc);
    parts.push(left)?;
    parts.push(right)?;
    Ok(Term::Node(name, parts))
}

// (1, 2), (3, (4 | 5))
fn grouped(alloc: Global) -> Result<Term, NoMemory> {
    let left = pair(alloc, COMMA, Term::Int(1), Term::Int(2))?;
    let bar = pair(alloc, BAR, Term::Int(4), Term::Int(5))?;
    let right = pair(alloc, COMMA, Term::Int(3), bar)?;
    pair(alloc, COMMA, left, right)
}

// The numbers among terms, and 0 for another term.
fn numbers(alloc: Global, terms: &[&Term]) -> Result<Items<i64>, NoMemory> {
    let mut numbers = Items::new(alloc);
    for term in terms {
        match term {
            Term::Int(number) => numbers.push(*number)?,
            Term::Var(_) | Term::Atom(_) | Term::Node(_, _) => numbers.push(0)?,
        }
    }
    Ok(numbers)
}

#[test]
fn commas_join_terms(rt: HostRuntime) -> Result<(), Fail> {
    let alloc = rt.alloc();
    let term = grouped(alloc)?;
    let terms = conjuncts(alloc, &term)?;
    assert_eq!(rt;
        numbers(alloc, terms.as_slice())?.as_slice(),
        [1, 2, 3, 0].as_slice()
    );
    Ok(())
}
