// Names of symbol characters, tokens of one byte, and the `.` that ends a sentence.
ghost use Rattle.std.specs.Prelude.{IsUtf8, ◌≡◌, ◌≤◌, ◌==◌, ◌||◌, false, length, ℕ, List, ◌∷◌};
ghost use Rattle.std.specs.List.{prefix_len};
ghost use Rattle.term_core.specs.Characters.{is_symbol, opens_comment};
ghost use Rattle.ciao_tokens.specs.Layout.{is_blank};
ghost use Rattle.ciao_tokens.specs.Forms.{ends_or_starts};
ghost use Rattle.ciao_tokens.specs.Classes.{class_of};
ghost use Rattle.ciao_tokens.specs.Scanning.{Begins, Finds, Gives, run, behind_run};
ghost use Rattle.ciao_tokens.specs.declared.classes.Class.TheVariants as Class;

use crate::classes::is_blank;
use crate::layout::block_comment;
use crate::parts::{Found, Part, split};
use term_core::{is_point, is_symbol, opens_comment};

/// The token of one byte that is no name.
pub(crate) fn mark(byte: u8, text: &str) -> Found<'_>
    requires first { (behind : List ℕ) × (text.now ≡ byte ∷ behind) }
    requires class { class_of byte ≡ Class.Sign }
    ensures finds { Finds result.part text.now result.behind.now }
    ensures utf8 { IsUtf8 result.behind.now }
{
    let (_, behind) = split(text, 1);
    Found {
        part: Part::Mark(byte),
        behind,
    }
}

/// `!` or `;`
pub(crate) fn solo(text: &str) -> Found<'_>
    requires { Begins Class.Solo text.now }
    ensures finds { Finds result.part text.now result.behind.now }
    ensures utf8 { IsUtf8 result.behind.now }
{
    let (word, behind) = split(text, 1);
    Found {
        part: Part::Name(word),
        behind,
    }
}

fn symbol_bytes(text: &str) -> usize
    ensures count { result ≡ prefix_len is_symbol text.now }
    ensures within { result ≤ length text.now }
{
    text.as_bytes()
        .iter()
        .take_while(|byte| is_symbol(**byte))
        .count()
}

fn split_symbols(text: &str) -> (&str, &str)
    ensures front { result.0.now ≡ run is_symbol text.now }
    ensures behind { result.1.now ≡ behind_run is_symbol text.now }
    ensures utf8 { IsUtf8 result.1.now }
{
    split(text, symbol_bytes(text))
}

// Whether the text ends here, or layout comes first.
fn may_follow_end(text: &str) -> bool
    ensures { result ≡ ends_or_starts (λ c. is_blank c || c == 37) text.now }
{
    match text.as_bytes().split_first() {
        None => true,
        Some((first, _)) => is_blank(*first) || *first == b'%',
    }
}

// The name or the end that a run of symbol characters is, where no comment begins.
fn symbol_run(text: &str) -> Option<Found<'_>>
    requires begins { Begins Class.Symbol text.now }
    requires no_comment { opens_comment text.now ≡ false }
    ensures { Gives text.now result }
{
    let (word, behind) = split_symbols(text);
    if !is_point(word.as_bytes()) {
        return Some(Found {
            part: Part::Name(word),
            behind,
        });
    }
    if may_follow_end(behind) {
        Some(Found {
            part: Part::End,
            behind,
        })
    } else {
        None
    }
}

/// What a symbol character begins.
pub(crate) fn symbols(text: &str) -> Option<Found<'_>>
    requires { Begins Class.Symbol text.now }
    ensures { Gives text.now result }
{
    if opens_comment(text.as_bytes()) {
        block_comment(text)
    } else {
        symbol_run(text)
    }
}
