// Terms of any depth let go.
ghost use Rattle.std.specs.Prelude.{◌<◌, ◌+◌, ◌≤◌, MatchOption, ◌≡◌};
ghost use Rattle.term_core.specs.Sizes.{size, size_all};

use crate::Term;
use sqlite_items::Items;
use std::mem;

/// Lets a term go, however deep it is: without recursion, and without memory.
pub fn discard(term: Term) {
    match term {
        Term::Var(_) | Term::Int(_) | Term::Atom(_) => {}
        Term::Node(_, parts) => discard_all(parts),
    }
}

fn discard_all(terms: Items<Term>) {
    let mut left = terms;
    while let Some(first) = take_first(&mut left) {
        discard_leaf(first, &mut left);
    }
}

fn take_first(terms: &mut Items<Term>) -> Option<Term>
    ensures { MatchOption result (terms.new ≡ terms.old) (λ first. size first + size_all terms.new ≡ size_all terms.old) }
{
    if terms.is_empty() {
        None
    } else {
        Some(terms.remove(0))
    }
}

// Lets the first leaf of a term go, and keeps the rest before what is left.
fn discard_leaf(term: Term, left: &mut Items<Term>)
    ensures { size_all left.new < size term + size_all left.old }
{
    let mut here = term;
    while let Some(first) = first_part(here, left) {
        here = first;
    }
}

// The first part of a term, where the others are put before what is left; none of a leaf, which is let go.
fn first_part(term: Term, left: &mut Items<Term>) -> Option<Term>
    ensures { MatchOption result (size_all left.new < size term + size_all left.old) (λ first. (size first < size term) × (size first + size_all left.new ≤ size term + size_all left.old)) }
{
    match term {
        Term::Var(_) | Term::Int(_) | Term::Atom(_) => None,
        Term::Node(_, mut parts) => {
            let first = take_first(&mut parts)?;
            put_before(left, parts);
            Some(first)
        }
    }
}

// What is left goes into a compound behind these terms, in the place of the part that was taken from them: so the list
// of what is left takes no memory.
fn put_before(left: &mut Items<Term>, parts: Items<Term>)
    ensures { size_all left.new ≤ size_all parts + size_all left.old + 1 }
{
    let behind = mem::replace(left, parts);
    if !behind.is_empty() {
        put_last(left, Term::Node(0, behind));
    }
}

#[tactic(auto, using(crate::proofs::SizeLaws::size_all_push))]
fn put_last(terms: &mut Items<Term>, term: Term)
    ensures { size_all terms.new ≤ size_all terms.old + size term }
{
    match terms.push(term) {
        Ok(()) => {}
        Err(_) => {}
    }
}
