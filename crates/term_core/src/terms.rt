// Terms.
ghost use Rattle.std.specs.Prelude.{◌≡◌, IfOk, OnOk, min, ◌^◌, ◌-◌};
ghost use Rattle.term_core.specs.Terms.{depth_of, occurrences, vars, with_new, with_all_new};

use crate::NoMemory;
use sqlite_items::Items;
use std::alloc::Global;

/// A term. Variables, names and the parts of a compound are numbered from 0.
#[derive(Drop, Debug)]
pub enum Term {
    Var(u64),
    Int(i64),
    Atom(u64),
    /// A compound: its name and its 1 to 255 arguments.
    Node(u64, Items<Term>),
}

/// An equal term.
pub fn copy(alloc: Global, term: &Term) -> Result<Term, NoMemory>
    ensures { IfOk result (λ t. t ≡ term.now) }
{
    match term {
        Term::Var(v) => Ok(Term::Var(*v)),
        Term::Int(n) => Ok(Term::Int(*n)),
        Term::Atom(a) => Ok(Term::Atom(*a)),
        Term::Node(f, parts) => {
            let mut copies = Items::new(alloc);
            for part in parts.as_slice() {
                copies.push(copy(alloc, part)?)?;
            }
            Ok(Term::Node(*f, copies))
        }
    }
}

/// The depth of a term, or 2^64 - 1 where it is greater.
pub fn depth(term: &Term) -> u64
    ensures { result ≡ min (depth_of term.now) (2 ^ 64 - 1) }
{
    match term {
        Term::Var(_) | Term::Int(_) | Term::Atom(_) => 1,
        Term::Node(_, parts) => {
            let mut deepest = 0u64;
            for part in parts.as_slice() {
                let here = depth(part);
                if here > deepest {
                    deepest = here;
                }
            }
            deepest.saturating_add(1)
        }
    }
}

fn add_variable(seen: &mut Vec<u64>, variable: u64) -> Result<(), NoMemory>
    ensures { OnOk result (seen.new.items ≡ with_new seen.old.items variable) }
{
    if !seen.contains(&variable) {
        seen.push(variable)?;
    }
    Ok(())
}

// Adds the variables of a term that are new.
#[tactic(auto, using(crate::proofs::VarLemmas::with_all_new_append))]
fn add_variables(seen: &mut Vec<u64>, term: &Term) -> Result<(), NoMemory>
    ensures { OnOk result (seen.new.items ≡ with_all_new seen.old.items (occurrences term.now)) }
{
    match term {
        Term::Var(v) => add_variable(seen, *v),
        Term::Int(_) | Term::Atom(_) => Ok(()),
        Term::Node(_, parts) => {
            for part in parts.as_slice() {
                add_variables(seen, part)?;
            }
            Ok(())
        }
    }
}

/// The distinct variables of a term, by first appearance.
pub fn vars(alloc: Global, term: &Term) -> Result<Vec<u64>, NoMemory>
    ensures { IfOk result (λ vs. vs.items ≡ vars term.now) }
{
    let mut seen = Vec::new(alloc);
    add_variables(&mut seen, term)?;
    Ok(seen)
}
