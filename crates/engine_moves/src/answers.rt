// The answer of a run.
ghost use Rattle.std.specs.Prelude.{◌≡◌, ◌+◌, [], ◌∷◌, ℕ, ⊤, IfOk, nat_eq};
ghost use Rattle.std.specs.List.{position_or_len};
ghost use Rattle.term_core.specs.declared.terms.Term as terms;
ghost use Rattle.term_core.specs.Terms.{instance, numbered};
ghost use Rattle.prog_data.specs.declared.events.Event.TheVariants as event;
ghost use Rattle.engine_state.specs.declared.stages.Stage.TheVariants as stage;
ghost use Rattle.engine_state.specs.Stages.{doing, IsAt};
ghost use Rattle.engine_moves.specs.declared.readings.Reading.{Reading};
ghost use Rattle.engine_moves.specs.Turned.{HasTurned};
ghost use Rattle.engine_moves.specs.Answers.{by_place};

use crate::relied::relied_law;
use engine_state::Engine;
use sqlite_items::Items;
use std::alloc::Global;
use term_core::{NoMemory, Term, discard, vars};

// The place of the first that is the variable, or how many there are.
fn place(variables: &[u64], variable: u64) -> usize
    ensures { result ≡ position_or_len (nat_eq variable) variables.now }
{
    let mut at = 0;
    for other in variables {
        if variable == *other {
            return at;
        }
        at += 1;
    }
    at
}

// The variable that is numbered by its place among these, from 1.
fn number_of(variables: &[u64], variable: u64) -> Result<Term, NoMemory>
    ensures { IfOk result (λ t. t ≡ by_place variables.now variable) }
{
    match (place(variables, variable) as u64).checked_add(1) {
        Some(number) => Ok(Term::Var(number)),
        None => Err(NoMemory),
    }
}

// The term with its variables numbered by their places among these.
fn placed(alloc: Global, variables: &[u64], term: &Term) -> Result<Term, NoMemory>
    ensures { IfOk result (λ t. t ≡ instance (by_place variables.now) term.now) }
{
    match term {
        Term::Var(v) => number_of(variables, *v),
        Term::Int(n) => Ok(Term::Int(*n)),
        Term::Atom(a) => Ok(Term::Atom(*a)),
        Term::Node(f, parts) => {
            let mut made = Items::new(alloc);
            for part in parts.as_slice() {
                made.push(placed(alloc, variables, part)?)?;
            }
            Ok(Term::Node(*f, made))
        }
    }
}

/// The term with its variables numbered 1, 2 and so on by first appearance.
///
/// # Errors
///
/// Only for want of memory.
pub(crate) fn numbered(alloc: Global, term: &Term) -> Result<Term, NoMemory>
    ensures { IfOk result (λ t. t ≡ numbered term.now) }
{
    let variables = vars(alloc, term)?;
    placed(alloc, &variables, term)
}

/// The answer of a run in which nothing is left to be done; it goes on as one that has failed.
///
/// # Errors
///
/// Only for want of memory.
pub fn answer(engine: &Engine<'_>, alloc: Global) -> Result<Term, NoMemory>
    requires { IsAt engine.now (doing engine.now []) ⊤ }
    ensures { (reading : Reading) (bound : ℕ) → IfOk result (λ term. HasTurned reading bound engine.now (doing engine.now []) (event.Answer term ∷ []) 0 engine.now stage.Failed) }
{
    relied_law();
    let query = engine.heap.decode(alloc, engine.query)?;
    let answer = numbered(alloc, &query)?;
    discard(query);
    Ok(answer)
}
