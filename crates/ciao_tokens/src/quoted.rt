// Quoted names, and texts.
ghost use Rattle.std.specs.Prelude.{◌≡◌, ◌≢◌, ◌<◌, ◌++◌, encode_utf8_all, string_bytes, IfOk, OnOk};
ghost use Rattle.ciao_tokens.specs.PartsRead.{meaning, ReadsParts};
ghost use Rattle.ciao_tokens.specs.Scanning.{Begins, Gives};
ghost use Rattle.ciao_tokens.specs.declared.classes.Class.TheVariants as Class;

use crate::parts::{Found, Part};
use crate::quotes::{behind_first, first_part, starts_with};
use sqlite_items::Items;
use std::alloc::Global;
use term_core::NoMemory;

// The characters that all parts one behind the other mean, and what stands behind them.
#[derive(Drop)]
struct ReadParts<'a> {
    chars: Items<char>,
    left: &'a str,
}

fn add_meaning(chars: &mut Items<char>, meant: Option<char>) -> Result<(), NoMemory>
    ensures { OnOk result (chars.new ≡ chars.old ++ meaning meant) }
{
    match meant {
        None => Ok(()),
        Some(meant) => {
            chars.push(meant)?;
            Ok(())
        }
    }
}

fn read_parts(alloc: Global, quote: u8, text: &str) -> Result<ReadParts<'_>, NoMemory>
    requires quote { quote ≢ 92 }
    requires ascii { quote < 128 }
    ensures { IfOk result (λ read. ReadsParts quote text.now read.chars read.left.now) }
{
    let mut chars = Items::new(alloc);
    let mut left = text;
    while let Some(part) = first_part(quote, left) {
        add_meaning(&mut chars, part.meant)?;
        left = part.behind;
    }
    Ok(ReadParts { chars, left })
}

fn text_of(alloc: Global, chars: &[char]) -> Result<String, NoMemory>
    ensures { IfOk result (λ text. string_bytes text ≡ encode_utf8_all chars.now) }
{
    let mut text = String::new(alloc);
    for char in chars {
        text.push(*char)?;
    }
    Ok(text)
}

fn codes_of(alloc: Global, chars: &[char]) -> Result<Items<u32>, NoMemory>
    ensures { IfOk result (λ codes. codes ≡ chars.now) }
{
    let mut codes = Items::new(alloc);
    for char in chars {
        codes.push(*char as u32)?;
    }
    Ok(codes)
}

/// The quoted name that a quote begins, where it is closed.
pub(crate) fn quoted_name(alloc: Global, text: &str) -> Result<Option<Found<'_>>, NoMemory>
    requires { Begins Class.Quote text.now }
    ensures { IfOk result (Gives text.now) }
{
    let read = read_parts(alloc, b'\'', behind_first(text))?;
    if !starts_with(b'\'', read.left) {
        return Ok(None);
    }
    let word = text_of(alloc, read.chars.as_slice())?;
    Ok(Some(Found {
        part: Part::Quoted(word),
        behind: behind_first(read.left),
    }))
}

/// The text that a double quote begins, where it is closed.
pub(crate) fn quoted_text(alloc: Global, text: &str) -> Result<Option<Found<'_>>, NoMemory>
    requires { Begins Class.DoubleQuote text.now }
    ensures { IfOk result (Gives text.now) }
{
    let read = read_parts(alloc, b'"', behind_first(text))?;
    if !starts_with(b'"', read.left) {
        return Ok(None);
    }
    let codes = codes_of(alloc, read.chars.as_slice())?;
    Ok(Some(Found {
        part: Part::Text(codes),
        behind: behind_first(read.left),
    }))
}
