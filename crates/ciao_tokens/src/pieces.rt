// The first piece of a text.
ghost use Rattle.std.specs.Prelude.{◌≡◌, ℕ, List, ◌∷◌, IfOk};
ghost use Rattle.ciao_tokens.specs.Scanning.{Gives};

use crate::classes::{Class, class_of};
use crate::layout::{blank, line_comment};
use crate::numbers::number;
use crate::parts::Found;
use crate::quoted::{quoted_name, quoted_text};
use crate::symbols::{mark, solo, symbols};
use crate::words::{name, variable};
use std::alloc::Global;
use term_core::NoMemory;

/// The first piece of a text that begins with this byte, or none where nothing can stand there.
pub(crate) fn first_piece(
    alloc: Global,
    first: u8,
    text: &str,
) -> Result<Option<Found<'_>>, NoMemory>
    requires { (behind : List ℕ) × (text.now ≡ first ∷ behind) }
    ensures { IfOk result (Gives text.now) }
{
    match class_of(first) {
        Class::Lower => Ok(Some(name(text))),
        Class::Upper => Ok(Some(variable(text))),
        Class::Digit => Ok(number(text)),
        Class::Symbol => Ok(symbols(text)),
        Class::Blank => Ok(Some(blank(text))),
        Class::Sign => Ok(Some(mark(first, text))),
        Class::Solo => Ok(Some(solo(text))),
        Class::Percent => Ok(Some(line_comment(text))),
        Class::Quote => quoted_name(alloc, text),
        Class::DoubleQuote => quoted_text(alloc, text),
        Class::Other => Ok(None),
    }
}
