// Goals and clauses. What is joined here may be as deep as a clause has calls: it is built and let go without recursion.
ghost use Rattle.std.specs.Prelude.{◌≡◌, ◌∷◌, ◌++◌, [], IfOk, OnOk};
ghost use Rattle.term_core.specs.declared.fixed.TheConstants.{NECK, NEGATION};
ghost use Rattle.term_core.specs.declared.terms.Term as Term;
ghost use Rattle.dcg_expand.specs.Expansion.{pair};
ghost use Rattle.fsyntax_expand.specs.Expansion.{before, clause};

use dcg_expand::pair;
use sqlite_items::Items;
use std::alloc::Global;
use term_core::{COMMA, NECK, NEGATION, NIL, NoMemory, Term, discard, one};

/// Lets terms go.
pub(crate) fn discard_all(terms: Items<Term>) {
    let mut left = terms;
    while let Some(term) = left.pop() {
        discard(term);
    }
}

/// Adds a goal at the end.
#[tactic(auto, using(crate::proofs::Joining::set_last))]
pub(crate) fn add_goal(goals: &mut Items<Term>, goal: Term) -> Result<(), NoMemory>
    ensures { OnOk result (goals.new ≡ goals.old ++ goal ∷ []) }
{
    let place = goals.len();
    match goals.push(Term::Atom(NIL)) {
        Err(_) => {
            discard(goal);
            Err(NoMemory)
        }
        Ok(()) => {
            goals.set(place, goal);
            Ok(())
        }
    }
}

/// That a goal is not there.
pub(crate) fn negated(alloc: Global, goal: Term) -> Result<Term, NoMemory>
    ensures { IfOk result (λ t. t ≡ Term.Node NEGATION (goal ∷ [])) }
{
    match one(alloc, Term::Atom(NIL)) {
        Err(refused) => {
            discard(goal);
            Err(refused)
        }
        Ok(mut parts) => {
            parts.set(0, goal);
            Ok(Term::Node(NEGATION, parts))
        }
    }
}

/// Goals before a last one, joined by commas.
#[tactic(auto, using(crate::proofs::Joining::before_append))]
pub(crate) fn before(alloc: Global, goals: Items<Term>, last: Term) -> Result<Term, NoMemory>
    ensures { IfOk result (λ t. t ≡ before goals last) }
{
    let mut goals = goals;
    let mut joined = last;
    while let Some(goal) = goals.pop() {
        match pair(alloc, COMMA, goal, joined) {
            Ok(more) => joined = more,
            Err(refused) => {
                discard_all(goals);
                return Err(refused);
            }
        }
    }
    Ok(joined)
}

/// A clause whose body is some goals and a last one.
pub(crate) fn clause_ending(
    alloc: Global,
    head: Term,
    goals: Items<Term>,
    last: Term,
) -> Result<Term, NoMemory>
    ensures { IfOk result (λ t. t ≡ pair NECK head (before goals last)) }
{
    let body = before(alloc, goals, last)?;
    pair(alloc, NECK, head, body)
}

/// A clause; a body without goals is left away.
#[tactic(auto, using(crate::proofs::Joining::clause_append))]
pub(crate) fn clause(alloc: Global, head: Term, goals: Items<Term>) -> Result<Term, NoMemory>
    ensures { IfOk result (λ t. t ≡ clause head goals) }
{
    let mut goals = goals;
    match goals.pop() {
        None => Ok(head),
        Some(last) => clause_ending(alloc, head, goals, last),
    }
}
