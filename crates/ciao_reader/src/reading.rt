// The reading of a sentence's words.
ghost use Rattle.std.specs.Prelude.{◌≡◌, IfOk, IfSome, IfNone};
ghost use Rattle.term_core.specs.Operators.{greatest_priority};
ghost use Rattle.ciao_reader.specs.Derivations.{Tree, Derives};
ghost use Rattle.ciao_reader.specs.Parts.{IsPartOf};

use crate::frames::Mode;
use crate::parts::Part;
use crate::steps::{WHOLE, after_have, after_need};
use crate::words::Word;
use sqlite_items::Items;
use std::alloc::Global;
use term_core::{NoMemory, OpTable};

/// What the words are read as, or none where they have no derivation.
///
/// # Errors
/// Where memory is refused.
pub(crate) fn read_words(
    alloc: Global,
    ops: &OpTable,
    words: &[Word],
) -> Result<Option<Part>, NoMemory>
    ensures some { IfOk result (λ answer. IfSome answer (IsPartOf ops.now words.now)) }
    ensures none { IfOk result (λ answer. IfNone answer ((t : Tree) → Derives ops.now words.now greatest_priority t → ⊥)) }
{
    ops.made();
    let mut stack = Items::new(alloc);
    let mut mode = Mode::Need(WHOLE);
    let mut left = words;
    loop {
        match mode {
            Mode::Done(part) => return Ok(Some(part)),
            Mode::Stuck => return Ok(None),
            Mode::Need(most) => {
                let stepped = after_need(alloc, ops, &mut stack, most, left)?;
                mode = stepped.mode;
                left = stepped.left;
            }
            Mode::Have(most, priority, part) => {
                let stepped = after_have(alloc, ops, &mut stack, most, priority, part, left)?;
                mode = stepped.mode;
                left = stepped.left;
            }
        }
    }
}
