// Numbers.
ghost use Rattle.std.specs.Prelude.{◌≡◌, ◌==◌, ◌&&◌, ◌||◌, not, ◌∷◌, MatchOption};
ghost use Rattle.std.specs.Char.{is_ascii_digit, is_ascii_alphabetic};
ghost use Rattle.ciao_tokens.specs.Forms.{starts, starts_fraction};
ghost use Rattle.ciao_tokens.specs.Scanning.{Begins, Gives};
ghost use Rattle.ciao_tokens.specs.NumbersRead.{IsWritten, NoDigits, NoChar, OnlyDecimal};
ghost use Rattle.ciao_tokens.specs.declared.classes.Class.TheVariants as Class;

use crate::digits::{split_decimal, split_hexadecimal, value_of};
use crate::parts::{Found, Part};
use crate::quotes::{behind_first, first_part, starts_with};

// A number: its value where it is within the limit, and what stands behind it.
#[derive(Clone, Copy, Drop)]
struct Written<'a> {
    value: Option<u64>,
    is_decimal: bool,
    behind: &'a str,
}

// From behind `0x`.
fn hexadecimal(text: &str) -> Option<Written<'_>>
    ensures { MatchOption result (NoDigits text.now) (IsWritten (48 ∷ 120 ∷ text.now)) }
{
    let (digits, behind) = split_hexadecimal(text);
    if digits.is_empty() {
        return None;
    }
    Some(Written {
        value: value_of(16, digits),
        is_decimal: false,
        behind,
    })
}

// From behind `0'`.
fn character(text: &str) -> Option<Written<'_>>
    ensures { MatchOption result (NoChar text.now) (IsWritten (48 ∷ 39 ∷ text.now)) }
{
    match first_part(b'\'', text) {
        None => None,
        Some(part) => match part.meant {
            None => None,
            Some(meant) => Some(Written {
                value: Some(meant as u64),
                is_decimal: false,
                behind: part.behind,
            }),
        },
    }
}

fn decimal(text: &str) -> Written<'_>
    requires begins { Begins Class.Digit text.now }
    requires only { OnlyDecimal text.now }
    ensures { IsWritten text.now result }
{
    let (digits, behind) = split_decimal(text);
    Written {
        value: value_of(10, digits),
        is_decimal: true,
        behind,
    }
}

// What follows a zero.
fn behind_zero(text: &str) -> Option<Written<'_>>
    ensures { MatchOption result (OnlyDecimal (48 ∷ text.now)) (IsWritten (48 ∷ text.now)) }
{
    if starts_with(b'x', text) {
        hexadecimal(behind_first(text))
    } else if starts_with(b'\'', text) {
        character(behind_first(text))
    } else {
        None
    }
}

fn not_decimal(text: &str) -> Option<Written<'_>>
    ensures { MatchOption result (OnlyDecimal text.now) (IsWritten text.now) }
{
    if starts_with(b'0', text) {
        behind_zero(behind_first(text))
    } else {
        None
    }
}

fn longest(text: &str) -> Written<'_>
    requires { Begins Class.Digit text.now }
    ensures { IsWritten text.now result }
{
    match not_decimal(text) {
        None => decimal(text),
        Some(written) => written,
    }
}

fn starts_with_letter(text: &str) -> bool
    ensures { result ≡ starts (λ c. is_ascii_alphabetic c || c == 95) text.now }
{
    match text.as_bytes().split_first() {
        None => false,
        Some((first, _)) => first.is_ascii_alphabetic() || *first == b'_',
    }
}

fn starts_with_digit(text: &[u8]) -> bool
    ensures { result ≡ starts is_ascii_digit text.now }
{
    match text.split_first() {
        None => false,
        Some((first, _)) => first.is_ascii_digit(),
    }
}

fn starts_fraction(text: &str) -> bool
    ensures { result ≡ starts_fraction text.now }
{
    match text.as_bytes().split_first() {
        None => false,
        Some((first, behind)) => *first == b'.' && starts_with_digit(behind),
    }
}

// Whether a number may stand directly before this.
fn may_precede(is_decimal: bool, behind: &str) -> bool
    ensures { result ≡ (not (starts (λ c. is_ascii_alphabetic c || c == 95) behind.now) && not (is_decimal && starts_fraction behind.now)) }
{
    !starts_with_letter(behind) && !(is_decimal && starts_fraction(behind))
}

/// The number that a digit begins, if it may stand there.
pub(crate) fn number(text: &str) -> Option<Found<'_>>
    requires { Begins Class.Digit text.now }
    ensures { Gives text.now result }
{
    let written = longest(text);
    if !may_precede(written.is_decimal, written.behind) {
        return None;
    }
    match written.value {
        None => Some(Found {
            part: Part::TooLarge,
            behind: written.behind,
        }),
        Some(value) => Some(Found {
            part: Part::Number(value),
            behind: written.behind,
        }),
    }
}
