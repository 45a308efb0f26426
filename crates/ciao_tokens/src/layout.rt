// Layout.
ghost use Rattle.std.specs.Prelude.{IsUtf8, ◌≡◌, ◌≤◌, ◌==◌, ◌&&◌, true, Some, length, drop};
ghost use Rattle.std.specs.List.{prefix_len};
ghost use Rattle.term_core.specs.Characters.{opens_comment};
ghost use Rattle.ciao_tokens.specs.Forms.{starts};
ghost use Rattle.ciao_tokens.specs.Scanning.{Begins, Finds, Gives, in_line, behind_run, comment_size};
ghost use Rattle.ciao_tokens.specs.declared.classes.Class.TheVariants as Class;

use crate::parts::{Found, Part, split};

/// One blank.
pub(crate) fn blank(text: &str) -> Found<'_>
    requires { Begins Class.Blank text.now }
    ensures finds { Finds result.part text.now result.behind.now }
    ensures utf8 { IsUtf8 result.behind.now }
{
    let (_, behind) = split(text, 1);
    Found {
        part: Part::Layout,
        behind,
    }
}

fn bytes_of_line(text: &str) -> usize
    ensures count { result ≡ prefix_len in_line text.now }
    ensures within { result ≤ length text.now }
{
    text.as_bytes()
        .iter()
        .take_while(|byte| **byte != b'\n')
        .count()
}

fn behind_line(text: &str) -> &str
    ensures { result.now ≡ behind_run in_line text.now }
{
    let (_, behind) = text.split_at(bytes_of_line(text));
    behind
}

/// The comment that `%` begins.
pub(crate) fn line_comment(text: &str) -> Found<'_>
    requires { Begins Class.Percent text.now }
    ensures finds { Finds result.part text.now result.behind.now }
    ensures utf8 { IsUtf8 result.behind.now }
{
    Found {
        part: Part::Layout,
        behind: behind_line(text),
    }
}

// Whether a star and what stands behind it close a comment.
fn closes(first: u8, behind: &[u8]) -> bool
    ensures { result ≡ (first == 42 && starts (λ c. c == 47) behind.now) }
{
    first == b'*' && starts_with_slash(behind)
}

fn starts_with_slash(text: &[u8]) -> bool
    ensures { result ≡ starts (λ c. c == 47) text.now }
{
    match text.split_first() {
        None => false,
        Some((first, _)) => *first == b'/',
    }
}

// The number of bytes up to the first `*/`, which counts.
fn comment_size(text: &str) -> Option<usize>
    ensures { result ≡ comment_size text.now }
{
    let mut left = text.as_bytes();
    let mut size = 0;
    while let Some((first, behind)) = left.split_first() {
        if closes(*first, behind) {
            return Some(size + 2);
        }
        size += 1;
        left = behind;
    }
    None
}

// What stands behind so many bytes, of which the last is a slash.
fn behind_slash(text: &str, size: usize) -> &str
    requires { comment_size text.now ≡ Some size }
    ensures { result.now ≡ drop size text.now }
{
    let (_, behind) = text.split_at(size);
    behind
}

/// The comment that `/*` begins, where it is closed.
pub(crate) fn block_comment(text: &str) -> Option<Found<'_>>
    requires { opens_comment text.now ≡ true }
    ensures { Gives text.now result }
{
    let (_, inside) = split(text, 2);
    match comment_size(inside) {
        None => None,
        Some(size) => Some(Found {
            part: Part::Layout,
            behind: behind_slash(inside, size),
        }),
    }
}
