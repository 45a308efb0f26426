// Texts of terms.
ghost use Rattle.std.specs.Prelude.{◌≡◌, ◌<◌, ◌+◌, [], ◌∷◌, List, nat_eq, IfOk};
ghost use Rattle.std.specs.List.{position_or_len};
ghost use Rattle.std.specs.Str.{byte};
ghost use Rattle.term_core.specs.declared.terms.Term.{Var};
ghost use Rattle.term_core.specs.Printing.{Printed};
ghost use Rattle.term_core.specs.Terms.{instance, numbered};
ghost use Rattle.term_heap.specs.Changes.{Change, size_of, value_of};
ghost use Rattle.machine_model.specs.Step.{Writes};
ghost use Rattle.engine_moves.specs.BuiltinEffects.{HasEffect};

use super::effects::Effect;
use prog_data::{Program, Text};
use sqlite_items::Items;
use std::alloc::Global;
use term_core::{NoMemory, Term, discard, print_term, vars};
use term_heap::Heap;

// The place of the first that is the variable, or how many there are.
fn place_of(variables: &[u64], variable: u64) -> usize
    ensures { result ≡ position_or_len (nat_eq variable) variables.now }
{
    let mut at = 0;
    for other in variables {
        if variable == *other {
            return at;
        }
        at += 1;
    }
    at
}

// The term with each variable numbered by its place among these, from 1.
fn renumbered(alloc: Global, variables: &[u64], term: &Term) -> Result<Term, NoMemory>
    ensures { IfOk result (λ t. t ≡ instance (λ v. Var (position_or_len (nat_eq v) variables.now + 1)) term.now) }
{
    match term {
        Term::Var(v) => match (place_of(variables, *v) as u64).checked_add(1) {
            Some(number) => Ok(Term::Var(number)),
            None => Err(NoMemory),
        },
        Term::Int(n) => Ok(Term::Int(*n)),
        Term::Atom(a) => Ok(Term::Atom(*a)),
        Term::Node(f, parts) => {
            let mut made = Items::new(alloc);
            for part in parts.as_slice() {
                made.push(renumbered(alloc, variables, part)?)?;
            }
            Ok(Term::Node(*f, made))
        }
    }
}

// The text of a term, its variables numbered.
fn text_of(alloc: Global, program: &Program, term: &Term, quoted: bool) -> Result<Text, NoMemory>
    ensures { IfOk result (λ text. text ≡ Printed program.now.names program.now.ops quoted (numbered term.now)) }
{
    let variables = vars(alloc, term)?;
    let shown = renumbered(alloc, variables.as_slice(), term)?;
    let mut text = String::new(alloc);
    print_term(&program.names, &program.ops, &shown, quoted, &mut text)?;
    Ok(Text::new(text))
}

/// What `write` and `writeq` do with the term of a place. It follows the term by recursion, and so takes stack for its depth.
pub(crate) fn written(
    alloc: Global,
    program: &Program,
    heap: &Heap,
    place: u64,
    quoted: bool,
) -> Result<Effect, NoMemory>
    requires { place < size_of heap.now.changes }
    ensures { IfOk result (HasEffect heap.now.changes (Writes (Printed program.now.names program.now.ops quoted (numbered (value_of heap.now.changes place))))) }
{
    let term = heap.decode(alloc, place)?;
    let text = text_of(alloc, program, &term, quoted);
    discard(term);
    Ok(Effect::Writes(text?))
}

/// What `nl` does.
pub(crate) fn newline(alloc: Global) -> Result<Effect, NoMemory>
    ensures { (h : List Change) → IfOk result (HasEffect h (Writes (byte "\n" ∷ []))) }
{
    let mut text = String::new(alloc);
    text.push_str("\n")?;
    Ok(Effect::Writes(Text::new(text)))
}
