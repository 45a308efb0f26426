// Copies of clauses behind expansions. On its right side such a clause is as deep as it has calls: so it is copied by a loop there.
ghost use Rattle.std.specs.Prelude.{◌≡◌, ◌<◌, ◌∷◌, ◌++◌, [], IfOk, IfSome, OnOk};
ghost use Rattle.term_core.specs.declared.fixed.TheConstants.{NIL};
ghost use Rattle.term_core.specs.declared.terms.Term.{size-Term};
ghost use Rattle.term_core.specs.declared.terms.Term as Term;
ghost use Rattle.unit_scopes.specs.Copies.{closed, closed_all};

use ciao_reader::Sentence;
use dcg_expand::copied_all;
use sqlite_items::Items;
use std::alloc::Global;
use term_core::{NIL, NoMemory, Term, copy, discard};

/// A compound without its last argument, in whose place a leaf stands.
#[derive(Drop)]
pub struct Open {
    pub name: u64,
    pub parts: Items<Term>,
}

// The name of a compound, its other arguments and its last one.
fn last_part(term: &Term) -> Option<(u64, &[Term], &Term)>
    ensures whole { IfSome result (λ r. term.now ≡ Term.Node r.0 (r.1.now ++ r.2.now ∷ [])) }
    ensures less { IfSome result (λ r. size-Term r.2.now < size-Term term.now) }
{
    match term {
        Term::Var(_) | Term::Int(_) | Term::Atom(_) => None,
        Term::Node(name, parts) => match parts.as_slice().split_last() {
            None => None,
            Some((last, front)) => Some((*name, front, last)),
        },
    }
}

// A compound whose last argument is still to come.
fn opened(alloc: Global, name: u64, front: &[Term]) -> Result<Open, NoMemory>
    ensures { IfOk result (λ outer. outer ≡ record { name = name; parts = front.now ++ Term.Atom NIL ∷ [] }) }
{
    let mut parts = copied_all(alloc, front)?;
    parts.push(Term::Atom(NIL))?;
    Ok(Open { name, parts })
}

// A compound with its last argument.
fn closed(outer: Open, last: Term) -> Term
    ensures { result ≡ closed outer last }
{
    let Open { name, mut parts } = outer;
    if parts.is_empty() {
        discard(last);
    } else {
        let place = parts.len() - 1;
        parts.set(place, last);
    }
    Term::Node(name, parts)
}

// Compounds in one another, around a term.
fn closed_all(compounds: Items<Open>, term: Term) -> Term
    ensures { result ≡ closed_all compounds term }
{
    let mut left = compounds;
    let mut made = term;
    while let Some(outer) = left.pop() {
        made = closed(outer, made);
    }
    made
}

// An equal term, copied by a loop down the last arguments.
fn copied_term(alloc: Global, term: &Term) -> Result<Term, NoMemory>
    ensures { IfOk result (λ t. t ≡ term.now) }
{
    let mut compounds = Items::new(alloc);
    let mut here = term;
    while let Some((name, front, last)) = last_part(here) {
        let outer = opened(alloc, name, front)?;
        compounds.push(outer)?;
        here = last;
    }
    let leaf = copy(alloc, here)?;
    Ok(closed_all(compounds, leaf))
}

// An equal sentence.
fn copied_sentence(alloc: Global, sentence: &Sentence) -> Result<Sentence, NoMemory>
    ensures { IfOk result (λ s. s ≡ sentence.now) }
{
    let term = copied_term(alloc, &sentence.term)?;
    Ok(Sentence {
        term,
        line: sentence.line,
        vars: sentence.vars,
    })
}

/// Adds an equal sentence at the end. There is room for it before it is made, so that a deep one is never let go by recursion.
#[tactic(auto, using(crate::proofs::CopyLaws::set_last))]
pub(crate) fn add_copy(
    alloc: Global,
    sentences: &mut Items<Sentence>,
    sentence: &Sentence,
) -> Result<(), NoMemory>
    ensures { OnOk result (sentences.new ≡ sentences.old ++ sentence.now ∷ []) }
{
    let place = sentences.len();
    sentences.push(Sentence {
        term: Term::Atom(NIL),
        line: 0,
        vars: 0,
    })?;
    let made = copied_sentence(alloc, sentence)?;
    sentences.set(place, made);
    Ok(())
}
