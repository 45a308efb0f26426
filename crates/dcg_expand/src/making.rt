// What expansions make terms of.
ghost use Rattle.std.specs.Prelude.{◌≡◌, ◌≤◌, ◌+◌, ◌^◌, IfOk, OnErr, [], ◌∷◌};
ghost use Rattle.term_core.specs.declared.fixed.TheConstants.{NIL};
ghost use Rattle.term_core.specs.declared.terms.Term as Term;
ghost use Rattle.dcg_expand.specs.Making.{Makes, new_variable};
ghost use Rattle.dcg_expand.specs.Expansion.{pair};

use crate::ExpandFault;
use sqlite_items::Items;
use std::alloc::Global;
use term_core::{NIL, NoMemory, Term, copy, discard, one};

/// The next new variable.
///
/// # Errors
/// Want of memory, where no number is left behind it. Then `next` is as before.
pub fn new_variable(next: &mut u64) -> Result<u64, ExpandFault>
    ensures made { Makes result next.new (new_variable next.old) }
    ensures last { OnErr result (2 ^ 64 ≤ next.old + 1) }
    ensures kept { OnErr result (next.new ≡ next.old) }
{
    let variable = *next;
    match next.checked_add(1) {
        None => Err(ExpandFault::NoMemory),
        Some(following) => {
            *next = following;
            Ok(variable)
        }
    }
}

// Room for two terms.
fn two_places(alloc: Global) -> Result<Items<Term>, NoMemory>
    ensures { IfOk result (λ terms. terms ≡ Term.Atom NIL ∷ Term.Atom NIL ∷ []) }
{
    let mut terms = one(alloc, Term::Atom(NIL))?;
    terms.push(Term::Atom(NIL))?;
    Ok(terms)
}

/// A compound of two arguments. These may be of any depth: where memory is refused, they are let go without recursion.
///
/// # Errors
/// Where memory is refused.
pub fn pair(alloc: Global, name: u64, left: Term, right: Term) -> Result<Term, NoMemory>
    ensures { IfOk result (λ t. t ≡ pair name left right) }
{
    match two_places(alloc) {
        Err(refused) => {
            discard(left);
            discard(right);
            Err(refused)
        }
        Ok(mut parts) => {
            parts.set(0, left);
            parts.set(1, right);
            Ok(Term::Node(name, parts))
        }
    }
}

/// Equal terms.
///
/// # Errors
/// Where memory is refused.
pub fn copied_all(alloc: Global, terms: &[Term]) -> Result<Items<Term>, NoMemory>
    ensures { IfOk result (λ ts. ts ≡ terms.now) }
{
    let mut made = Items::new(alloc);
    for term in terms {
        made.push(copy(alloc, term)?)?;
    }
    Ok(made)
}
