// The first piece of a text, as the scanner has it.
ghost use Rattle.std.specs.Prelude.{IsUtf8, ◌≡◌, ◌≤◌, true, length, take, drop};
ghost use Rattle.std.specs.List.{list_all};
ghost use Rattle.std.specs.Char.{is_ascii};

use sqlite_items::Items;

/// A piece of a text.
#[derive(Drop)]
pub(crate) enum Part<'a> {
    Layout,
    Name(&'a str),
    Quoted(String),
    Variable(&'a str),
    Number(u64),
    /// A number above 2^63.
    TooLarge,
    Text(Items<u32>),
    /// A token of one byte, by that byte.
    Mark(u8),
    End,
}

/// The first piece of a text, and what stands behind it.
#[derive(Drop)]
pub(crate) struct Found<'a> {
    pub(crate) part: Part<'a>,
    pub(crate) behind: &'a str,
}

/// So many bytes, which are ASCII, and what stands behind them.
pub(crate) fn split(text: &str, count: usize) -> (&str, &str)
    requires within { count ≤ length text.now }
    requires ascii { list_all is_ascii (take count text.now) ≡ true }
    ensures front { result.0.now ≡ take count text.now }
    ensures behind { result.1.now ≡ drop count text.now }
    ensures utf8 { IsUtf8 result.1.now }
{
    text.split_at(count)
}
