// The parts of what stands between quotes.
ghost use Rattle.std.specs.Prelude.{◌≡◌, ◌≢◌, ◌<◌, ◌==◌, ℕ, List, true, false, [], ◌∷◌, ◌++◌, drop, encode_utf8, MatchOption};
ghost use Rattle.std.specs.List.{list_all};
ghost use Rattle.std.specs.Char.{IsScalar, is_ascii, is_ascii_hexdigit};
ghost use Rattle.ciao_tokens.specs.Quotes.{meant_by};
ghost use Rattle.ciao_tokens.specs.Forms.{starts};
ghost use Rattle.ciao_tokens.specs.PartsRead.{GivesPart, IsCode};

use crate::digits::{split_hexadecimal, value_of};
use crate::parts::split;

/// The first part: the character that it means, if it means one, and what stands behind it.
#[derive(Clone, Copy, Drop)]
pub(crate) struct QuotedPart<'a> {
    pub(crate) meant: Option<char>,
    pub(crate) behind: &'a str,
}

/// Whether this byte comes first.
pub(crate) fn starts_with(byte: u8, text: &str) -> bool
    ensures { result ≡ starts (λ c. c == byte) text.now }
{
    match text.as_bytes().split_first() {
        None => false,
        Some((first, _)) => *first == byte,
    }
}

/// What stands behind the first byte, which is ASCII.
pub(crate) fn behind_first(text: &str) -> &str
    requires { starts is_ascii text.now ≡ true }
    ensures { result.now ≡ drop 1 text.now }
{
    let (_, behind) = split(text, 1);
    behind
}

// The first character, and what stands behind it.
fn split_char(text: &str) -> Option<(char, &str)>
    ensures { MatchOption result (text.now ≡ []) (λ p. (text.now ≡ encode_utf8 p.0 ++ p.1.now) × IsScalar p.0) }
{
    let mut chars = text.chars();
    match chars.next() {
        None => None,
        Some(first) => Some((first, chars.as_str())),
    }
}

fn meant_by(letter: u8) -> Option<char>
    ensures { result ≡ meant_by letter }
{
    match letter {
        b'n' => Some('\n'),
        b't' => Some('\t'),
        b'r' => Some('\r'),
        b'\\' => Some('\\'),
        b'\'' => Some('\''),
        b'"' => Some('"'),
        _ => None,
    }
}

// The character that hexadecimal digits name, if they are few enough and name one.
fn named_char(digits: &str) -> Option<char>
    ensures { MatchOption result ((c : ℕ) → IsCode digits.now c → ⊥) (λ c. IsCode digits.now c) }
{
    if digits.is_empty() || digits.len() > 6 {
        return None;
    }
    match value_of(16, digits) {
        None => None,
        Some(value) => {
            if value > 0x10_FFFF {
                None
            } else {
                char::from_u32(value as u32)
            }
        }
    }
}

// The escape by the number of a character, from what stands behind its `x`.
fn code(quote: u8, text: &str) -> Option<QuotedPart<'_>>
    requires { quote ≢ 92 }
    ensures { GivesPart quote (92 ∷ 120 ∷ text.now) result }
{
    let (digits, behind) = split_hexadecimal(text);
    if !starts_with(b'\\', behind) {
        return None;
    }
    match named_char(digits) {
        None => None,
        Some(named) => Some(QuotedPart {
            meant: Some(named),
            behind: behind_first(behind),
        }),
    }
}

// The escape of one letter, from there.
fn letter(quote: u8, letter: u8, text: &str) -> Option<QuotedPart<'_>>
    requires quote { quote ≢ 92 }
    requires first { (behind : List ℕ) × (text.now ≡ letter ∷ behind) }
    requires no_code { letter ≢ 120 }
    requires no_feed { letter ≢ 10 }
    ensures { GivesPart quote (92 ∷ text.now) result }
{
    match meant_by(letter) {
        None => None,
        Some(meant) => Some(QuotedPart {
            meant: Some(meant),
            behind: behind_first(text),
        }),
    }
}

// An escape, from what stands behind its backslash.
fn escape(quote: u8, text: &str) -> Option<QuotedPart<'_>>
    requires { quote ≢ 92 }
    ensures { GivesPart quote (92 ∷ text.now) result }
{
    match text.as_bytes().split_first() {
        None => None,
        Some((first, _)) => {
            if *first == b'x' {
                code(quote, behind_first(text))
            } else if *first == b'\n' {
                Some(QuotedPart {
                    meant: None,
                    behind: behind_first(text),
                })
            } else {
                letter(quote, *first, text)
            }
        }
    }
}

// The quote, from what stands behind its first sign.
fn doubled(quote: u8, text: &str) -> Option<QuotedPart<'_>>
    requires quote { quote ≢ 92 }
    requires ascii { quote < 128 }
    ensures { GivesPart quote (quote ∷ text.now) result }
{
    if starts_with(quote, text) {
        Some(QuotedPart {
            meant: Some(quote as char),
            behind: behind_first(text),
        })
    } else {
        None
    }
}

fn itself(quote: u8, text: &str) -> Option<QuotedPart<'_>>
    requires quote { quote ≢ 92 }
    requires ascii { quote < 128 }
    requires no_quote { starts (λ c. c == quote) text.now ≡ false }
    requires no_escape { starts (λ c. c == 92) text.now ≡ false }
    ensures { GivesPart quote text.now result }
{
    match split_char(text) {
        None => None,
        Some((first, behind)) => Some(QuotedPart {
            meant: Some(first),
            behind,
        }),
    }
}

/// The part that comes first between such quotes, if one does.
pub(crate) fn first_part(quote: u8, text: &str) -> Option<QuotedPart<'_>>
    requires quote { quote ≢ 92 }
    requires ascii { quote < 128 }
    ensures { GivesPart quote text.now result }
{
    if starts_with(b'\\', text) {
        escape(quote, behind_first(text))
    } else if starts_with(quote, text) {
        doubled(quote, behind_first(text))
    } else {
        itself(quote, text)
    }
}
