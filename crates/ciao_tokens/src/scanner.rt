// The tokens of a text.
ghost use Rattle.std.specs.Prelude.{◌≡◌, ◌<◌, ◌≤◌, ◌+◌, ◌-◌, ◌^◌, ℕ, List, [], ◌∷◌, length, true, false, take, drop, IfOk, OnOk, IfErr, MatchResult, IsUtf8, if◌then◌else◌};
ghost use Rattle.term_core.specs.Names.{with_texts};
ghost use Rattle.term_core.specs.Lists.{IsPrefix};
ghost use Rattle.ciao_tokens.specs.Classes.{mark_of};
ghost use Rattle.ciao_tokens.specs.Scanning.{Finds};
ghost use Rattle.ciao_tokens.specs.Tokens.{HasTokens, has_mark, without_mark, line_feeds, mark_kind, words};
ghost use Rattle.ciao_tokens.specs.Faults.{IsFaultOf};
ghost use Rattle.ciao_tokens.specs.TokensRead.{is_too_large, shape_of, piece_with, kind_with, is_name, with_token, stand, after, Reads, CannotRead};

use crate::kinds::{TextFault, Token, TokenKind};
use crate::parts::{Found, Part};
use crate::pieces::first_piece;
use sqlite_items::Items;
use std::alloc::Global;
use term_core::{Names, NoMemory};

// Where the scanner stands: what it has, the line, and what is directly before.
#[derive(Drop)]
pub(crate) struct Scan {
    tokens: Items<Token>,
    line: u64,
    is_behind_name: bool,
    is_behind_layout: bool,
}

fn line_feeds(bytes: &[u8]) -> u64
    ensures count { result ≡ line_feeds bytes.now }
    ensures within { result ≤ length bytes.now }
{
    let mut count = 0;
    for byte in bytes {
        if *byte == b'\n' {
            count += 1;
        }
    }
    count
}

fn mark_kind(byte: u8, is_behind_name: bool) -> TokenKind
    ensures { result ≡ mark_kind (mark_of byte) is_behind_name }
{
    match byte {
        b'(' => {
            if is_behind_name {
                TokenKind::OpenCall
            } else {
                TokenKind::Open
            }
        }
        b')' => TokenKind::Close,
        b'[' => TokenKind::OpenList,
        b']' => TokenKind::CloseList,
        b'{' => TokenKind::OpenCurly,
        b'}' => TokenKind::CloseCurly,
        b',' => TokenKind::Comma,
        _ => TokenKind::Bar,
    }
}

// What a token is, if the part is one; its name is added where it is new.
fn kind_of(
    names: &mut Names,
    part: Part<'_>,
    is_behind_name: bool,
) -> Result<Option<TokenKind>, NoMemory>
    ensures kind { IfOk result (λ kind. kind ≡ kind_with names.old (shape_of part.entry) is_behind_name) }
    ensures names { OnOk result (names.new ≡ with_texts names.old (words (piece_with (shape_of part.entry) 0 ∷ []))) }
    ensures kept { IsPrefix names.old names.new }
{
    match part {
        Part::Layout => Ok(None),
        Part::Name(word) => {
            let number = names.intern(word)?;
            Ok(Some(TokenKind::Name(number)))
        }
        Part::Quoted(word) => {
            let number = names.intern(word.as_str())?;
            Ok(Some(TokenKind::Quoted(number)))
        }
        Part::Variable(word) => {
            let number = names.intern(word)?;
            Ok(Some(TokenKind::Variable(number)))
        }
        Part::Number(value) => Ok(Some(TokenKind::Number(value))),
        Part::TooLarge => Ok(None),
        Part::Text(chars) => Ok(Some(TokenKind::Text(chars))),
        Part::Mark(byte) => Ok(Some(mark_kind(byte, is_behind_name))),
        Part::End => Ok(Some(TokenKind::End)),
    }
}

fn is_too_large(part: &Part<'_>) -> bool
    ensures { result ≡ is_too_large part.now }
{
    match part {
        Part::TooLarge => true,
        _ => false,
    }
}

fn is_name(kind: &TokenKind) -> bool
    ensures { result ≡ is_name kind.now }
{
    match kind {
        TokenKind::Name(_) => true,
        TokenKind::Quoted(_) => true,
        _ => false,
    }
}

impl Scan {
    fn new(alloc: Global, is_behind_layout: bool) -> Scan
        ensures { result ≡ record { tokens = []; line = 1; is_behind_name = false; is_behind_layout = is_behind_layout } }
    {
        Scan {
            tokens: Items::new(alloc),
            line: 1,
            is_behind_name: false,
            is_behind_layout,
        }
    }

    fn add_layout(&mut self, feeds: u64)
        requires { self.old.line + feeds < 2 ^ 64 }
        ensures { self.new ≡ record { tokens = self.old.tokens; line = self.old.line + feeds; is_behind_name = false; is_behind_layout = true } }
    {
        self.is_behind_name = false;
        self.is_behind_layout = true;
        self.line += feeds;
    }

    fn add_token(
        &mut self,
        kind: TokenKind,
        start: u64,
        end: u64,
        feeds: u64,
    ) -> Result<(), NoMemory>
        requires { self.old.line + feeds < 2 ^ 64 }
        ensures { OnOk result (self.new ≡ with_token self.old kind start end feeds) }
    {
        let is_name = is_name(&kind);
        self.tokens.push(Token {
            kind,
            line: self.line,
            start,
            end,
            layout_before: self.is_behind_layout,
        })?;
        self.is_behind_name = is_name;
        self.is_behind_layout = false;
        self.line += feeds;
        Ok(())
    }

    // Adds what the first so many bytes are.
    fn add(
        &mut self,
        names: &mut Names,
        part: Part<'_>,
        left: &[u8],
        size: usize,
        start: u64,
    ) -> Result<(), NoMemory>
        requires size { size ≤ length left.now }
        requires room { self.old.line + size < 2 ^ 64 }
        requires place { start + size < 2 ^ 64 }
        ensures stand { OnOk result (stand self.new (start + size) ≡ after names.old (stand self.old start) (piece_with (shape_of part.entry) size) left.now) }
        ensures names { OnOk result (names.new ≡ with_texts names.old (words (piece_with (shape_of part.entry) 0 ∷ []))) }
        ensures kept { IsPrefix names.old names.new }
        ensures line { OnOk result (self.new.line ≤ self.old.line + size) }
    {
        let feeds = line_feeds(&left[..size]);
        match kind_of(names, part, self.is_behind_name)? {
            None => {
                self.add_layout(feeds);
                Ok(())
            }
            Some(kind) => {
                self.add_token(kind, start, start + size as u64, feeds)?;
                Ok(())
            }
        }
    }

    // Adds what comes first, and gives what stands behind it.
    fn read<'a>(
        &mut self,
        names: &mut Names,
        found: Found<'a>,
        left: &str,
        start: u64,
    ) -> Result<&'a str, TextFault>
        requires found { Finds found.part left.now found.behind.now }
        requires utf8 { IsUtf8 found.behind.now }
        requires room { self.old.line + length left.now < 2 ^ 64 }
        requires place { start + length left.now < 2 ^ 64 }
        ensures ok { IfOk result (λ rest. Reads left.now rest.now names.old names.new (stand self.old start) (stand self.new (start + (length left.now - length rest.now)))) }
        ensures err { IfErr result (CannotRead left.now self.old.line) }
        ensures kept { IsPrefix names.old names.new }
        ensures line { IfOk result (λ rest. self.new.line + length rest.now ≤ self.old.line + length left.now) }
        ensures utf8 { IfOk result (λ rest. IsUtf8 rest.now) }
    {
        if is_too_large(&found.part) {
            return Err(TextFault::IntRange(self.line));
        }
        let Found { part, behind } = found;
        let size = left.len() - behind.len();
        self.add(names, part, left.as_bytes(), size, start)?;
        Ok(behind)
    }

    // Reads what this byte begins, and gives what stands behind it.
    fn step<'a>(
        &mut self,
        alloc: Global,
        names: &mut Names,
        first: u8,
        left: &'a str,
        start: u64,
    ) -> Result<&'a str, TextFault>
        requires first { (behind : List ℕ) × (left.now ≡ first ∷ behind) }
        requires room { self.old.line + length left.now < 2 ^ 64 }
        requires place { start + length left.now < 2 ^ 64 }
        ensures ok { IfOk result (λ rest. Reads left.now rest.now names.old names.new (stand self.old start) (stand self.new (start + (length left.now - length rest.now)))) }
        ensures err { IfErr result (CannotRead left.now self.old.line) }
        ensures kept { IsPrefix names.old names.new }
        ensures line { IfOk result (λ rest. self.new.line + length rest.now ≤ self.old.line + length left.now) }
        ensures utf8 { IfOk result (λ rest. IsUtf8 rest.now) }
    {
        match first_piece(alloc, first, left)? {
            None => Err(TextFault::BadToken(self.line)),
            Some(found) => self.read(names, found, left, start),
        }
    }
}

fn has_mark(bytes: &[u8]) -> bool
    ensures { result ≡ has_mark bytes.now }
{
    match bytes {
        [0xEF, 0xBB, 0xBF, ..] => true,
        _ => false,
    }
}

// The text without the mark of UTF-8 at its start.
fn without_mark(text: &str) -> &str
    ensures { result.now ≡ without_mark text.now }
{
    if has_mark(text.as_bytes()) {
        let (_, behind) = text.split_at(3);
        behind
    } else {
        text
    }
}

fn tokens_of(alloc: Global, names: &mut Names, text: &str) -> Result<Items<Token>, TextFault>
    ensures ok { IfOk result (HasTokens text.now names.old names.new) }
    ensures fault { IfErr result (IsFaultOf text.now) }
    ensures kept { IsPrefix names.old names.new }
{
    let mut left = without_mark(text);
    let mut scan = Scan::new(alloc, has_mark(text.as_bytes()));
    while let Some((first, _)) = left.as_bytes().split_first() {
        let start = (text.len() - left.len()) as u64;
        left = scan.step(alloc, names, *first, left, start)?;
    }
    Ok(scan.tokens)
}

fn line_at(bytes: &[u8], place: usize) -> u64
    requires { place < length bytes.now }
    ensures { result ≡ line_feeds (take place bytes.now) + 1 }
{
    line_feeds(&bytes[..place]) + 1
}

/// The tokens of a text. Their names and the spellings of their variables are added to the names
/// that are there.
///
/// # Errors
/// Where the bytes are no UTF-8, where no token begins, where a number is above 2^63, and where
/// memory is refused.
pub fn tokens(alloc: Global, names: &mut Names, bytes: &[u8]) -> Result<Items<Token>, TextFault>
    ensures ok { IfOk result (HasTokens bytes.now names.old names.new) }
    ensures fault { IfErr result (IsFaultOf bytes.now) }
    ensures kept { IsPrefix names.old names.new }
{
    match str::from_utf8(bytes) {
        Ok(text) => tokens_of(alloc, names, text),
        Err(fault) => Err(TextFault::NotUtf8(line_at(bytes, fault.valid_up_to()))),
    }
}
