// The line of a refusal.
ghost use Rattle.std.specs.Prelude.{◌≡◌, IfOk, string_bytes};
ghost use Rattle.run_report.specs.Refusals.{refusal_text};

use crate::lines::push_place;
use prog_data::{Refusal, kind_word};
use std::alloc::Global;
use term_core::{Names, NoMemory};

/// The line of a refusal: its file and line, and the word of its kind.
///
/// # Errors
///
/// Only for want of memory.
pub fn refusal_text(alloc: Global, names: &Names, refusal: &Refusal) -> Result<String, NoMemory>
    ensures { IfOk result (λ text. string_bytes text ≡ refusal_text names.now refusal.now) }
{
    let mut text = String::from_str(alloc, "fault: ")?;
    push_place(names, refusal.place, &mut text)?;
    text.push_str(" ")?;
    text.push_str(kind_word(refusal.kind))?;
    text.push_str("\n")?;
    Ok(text)
}
