// The terms that commas join.
ghost use Rattle.std.specs.Prelude.{◌≡◌, map, IfOk};
ghost use Rattle.term_core.specs.Operands.{conjuncts};

use crate::{COMMA, NoMemory, Term};
use sqlite_items::Items;
use std::alloc::Global;

/// The terms that commas join in a term, from the left, however they are grouped.
pub fn conjuncts<'a>(alloc: Global, term: &'a Term) -> Result<Items<&'a Term>, NoMemory>
    ensures { IfOk result (λ terms. map (λ t. t.now) terms ≡ conjuncts term.now) }
{
    let mut terms = Items::new(alloc);
    let mut pending = Items::new(alloc);
    pending.push(term)?;
    while let Some(next) = pending.pop() {
        match next.operands(COMMA) {
            None => terms.push(next)?,
            Some((left, right)) => {
                pending.push(right)?;
                pending.push(left)?;
            }
        }
    }
    Ok(terms)
}
