// Names between quotes.
ghost use Rattle.std.specs.Prelude.{◌≡◌, ◌++◌, [], OnOk, MatchOption, string_bytes, encode_utf8, flat_map};
ghost use Rattle.std.specs.Char.{IsScalar};
ghost use Rattle.term_core.specs.Printing.{escaped, in_quotes};

use crate::NoMemory;

// The first character, and what stands behind it.
fn split_char(text: &str) -> Option<(char, &str)>
    ensures { MatchOption result (text.now ≡ []) (λ p. (text.now ≡ encode_utf8 p.0 ++ p.1.now) × IsScalar p.0) }
{
    let mut chars = text.chars();
    match chars.next() {
        None => None,
        Some(first) => Some((first, chars.as_str())),
    }
}

// A character between quotes.
fn push_escaped(char: char, out: &mut String) -> Result<(), NoMemory>
    requires { IsScalar char }
    ensures { OnOk result (string_bytes out.new ≡ string_bytes out.old ++ flat_map escaped (encode_utf8 char)) }
{
    match char {
        '\\' => out.push_str("\\\\")?,
        '\'' => out.push_str("\\'")?,
        '\n' => out.push_str("\\n")?,
        '\t' => out.push_str("\\t")?,
        '\r' => out.push_str("\\r")?,
        other => out.push(other)?,
    }
    Ok(())
}

/// Appends a text between quotes.
pub(crate) fn push_quoted(text: &str, out: &mut String) -> Result<(), NoMemory>
    ensures { OnOk result (string_bytes out.new ≡ string_bytes out.old ++ in_quotes text.now) }
{
    out.push('\'')?;
    let mut left = text;
    while let Some((first, behind)) = split_char(left) {
        push_escaped(first, out)?;
        left = behind;
    }
    out.push('\'')?;
    Ok(())
}
