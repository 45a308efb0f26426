// Names of letters, and variables.
ghost use Rattle.std.specs.Prelude.{IsUtf8, ◌≡◌, ◌≤◌, length};
ghost use Rattle.std.specs.List.{prefix_len};
ghost use Rattle.term_core.specs.Characters.{is_word_part};
ghost use Rattle.ciao_tokens.specs.Scanning.{Begins, Finds, run, behind_run};
ghost use Rattle.ciao_tokens.specs.declared.classes.Class.TheVariants as Class;

use crate::parts::{Found, Part, split};
use term_core::is_word_part;

fn word_bytes(text: &str) -> usize
    ensures count { result ≡ prefix_len is_word_part text.now }
    ensures within { result ≤ length text.now }
{
    text.as_bytes()
        .iter()
        .take_while(|byte| is_word_part(**byte))
        .count()
}

fn split_word(text: &str) -> (&str, &str)
    ensures front { result.0.now ≡ run is_word_part text.now }
    ensures behind { result.1.now ≡ behind_run is_word_part text.now }
    ensures utf8 { IsUtf8 result.1.now }
{
    split(text, word_bytes(text))
}

/// The name that a lower-case letter begins.
pub(crate) fn name(text: &str) -> Found<'_>
    requires { Begins Class.Lower text.now }
    ensures finds { Finds result.part text.now result.behind.now }
    ensures utf8 { IsUtf8 result.behind.now }
{
    let (word, behind) = split_word(text);
    Found {
        part: Part::Name(word),
        behind,
    }
}

/// The variable that an upper-case letter or `_` begins.
pub(crate) fn variable(text: &str) -> Found<'_>
    requires { Begins Class.Upper text.now }
    ensures finds { Finds result.part text.now result.behind.now }
    ensures utf8 { IsUtf8 result.behind.now }
{
    let (word, behind) = split_word(text);
    Found {
        part: Part::Variable(word),
        behind,
    }
}
