// The scan of a sentence's tokens, which gives each its role.
ghost use Rattle.std.specs.Prelude.{◌≡◌, IfOk, OnOk, codes, bytes_eq, nat_eq};
ghost use Rattle.std.specs.List.{position_or_len};
ghost use Rattle.term_core.specs.Operators.{prefix_of};
ghost use Rattle.term_core.specs.Names.{name_text};
ghost use Rattle.ciao_reader.specs.Roles.{is_open_call, calls_next, is_number, number_next, is_above, goes_on, stands_alone, breaks_at, operand_role, name_role, is_known, variable_number, with_variable, variable_count, due_behind, role, roles};

use crate::words::Word;
use ciao_tokens::{Token, TokenKind};
use sqlite_items::Items;
use std::alloc::Global;
use term_core::{BAR, COMMA, MINUS, Names, NoMemory, Op, OpTable};

// Whether a token is a parenthesis directly behind a name.
fn is_open_call(kind: &TokenKind) -> bool
    ensures { result ≡ is_open_call kind.now }
{
    match kind {
        TokenKind::OpenCall => true,
        _ => false,
    }
}

fn calls_next(tokens: &[Token]) -> bool
    ensures { result ≡ calls_next tokens.now }
{
    match tokens.split_first() {
        None => false,
        Some((first, _)) => is_open_call(&first.kind),
    }
}

fn is_number(kind: &TokenKind) -> bool
    ensures { result ≡ is_number kind.now }
{
    match kind {
        TokenKind::Number(_) => true,
        _ => false,
    }
}

// Whether a number comes next, with no layout before it.
fn number_next(tokens: &[Token]) -> bool
    ensures { result ≡ number_next tokens.now }
{
    match tokens.split_first() {
        None => false,
        Some((first, _)) => is_number(&first.kind) && !first.layout_before,
    }
}

// Whether a name is no prefix operator, or one above this priority.
fn is_above(limit: u64, prefix: Option<Op>) -> bool
    ensures { result ≡ is_above limit prefix }
{
    match prefix {
        None => true,
        Some(op) => limit < op.priority,
    }
}

// Whether a name, before these tokens, is an infix operator that begins no term of at most this priority.
fn goes_on(ops: &OpTable, limit: u64, name: u64, behind: &[Token]) -> bool
    ensures { result ≡ goes_on ops.now limit name behind.now }
{
    match ops.infix(name) {
        None => false,
        Some(_) => !calls_next(behind) && is_above(limit, ops.prefix(name)),
    }
}

fn breaks_at(ops: &OpTable, limit: u64, kind: &TokenKind, behind: &[Token]) -> bool
    ensures { result ≡ breaks_at ops.now limit kind.now behind.now }
{
    match kind {
        TokenKind::Close
        | TokenKind::CloseList
        | TokenKind::CloseCurly
        | TokenKind::Comma
        | TokenKind::Bar
        | TokenKind::End => true,
        TokenKind::Name(name) => {
            goes_on(ops, limit, *name, behind) && !(*name == MINUS && number_next(behind))
        }
        TokenKind::Quoted(name) => {
            goes_on(ops, limit, *name, behind) && !(*name == COMMA || *name == BAR)
        }
        _ => false,
    }
}

// Whether a prefix operator, whose argument has at most this priority, is an atom before these tokens.
fn stands_alone(ops: &OpTable, limit: u64, behind: &[Token]) -> bool
    ensures { result ≡ stands_alone ops.now limit behind.now }
{
    match behind.split_first() {
        None => true,
        Some((first, rest)) => breaks_at(ops, limit, &first.kind, rest),
    }
}

fn operand_role(ops: &OpTable, name: u64, behind: &[Token]) -> Word
    ensures { result ≡ operand_role ops.now name (prefix_of ops.now name) behind.now }
{
    match ops.prefix(name) {
        None => Word::Atom(name),
        Some(op) => {
            if stands_alone(ops, op.right_limit(), behind) {
                Word::Atom(name)
            } else {
                Word::Before(name)
            }
        }
    }
}

fn name_role(ops: &OpTable, due: bool, name: u64, is_minus: bool, behind: &[Token]) -> Word
    ensures { result ≡ name_role ops.now due name is_minus behind.now }
{
    if !due {
        Word::Between(name)
    } else if calls_next(behind) {
        Word::Call(name)
    } else if is_minus && number_next(behind) {
        Word::Sign
    } else {
        operand_role(ops, name, behind)
    }
}

// Whether the text of a number is `_`.
fn is_blank(names: &Names, spelling: u64) -> bool
    ensures { result ≡ bytes_eq (name_text names.now spelling) (codes "_") }
{
    names.text_or_empty(spelling) == "_"
}

// Whether a variable has a number already.
fn is_known(names: &Names, seen: &[u64], spelling: u64) -> bool
    ensures { result ≡ is_known names.now seen.now spelling }
{
    !is_blank(names, spelling) && seen.contains(&spelling)
}

// The number of a variable: its spelling's first place, or the next one.
fn variable_number(names: &Names, seen: &[u64], spelling: u64) -> u64
    ensures { result ≡ variable_number names.now seen.now spelling }
{
    if is_known(names, seen, spelling) {
        place_among(seen, spelling)
    } else {
        seen.len() as u64
    }
}

fn place_among(seen: &[u64], spelling: u64) -> u64
    ensures { result ≡ position_or_len (nat_eq spelling) seen.now }
{
    for (at, known) in seen.iter().enumerate() {
        if *known == spelling {
            return at as u64;
        }
    }
    seen.len() as u64
}

fn add_variable(names: &Names, seen: &mut Vec<u64>, kind: &TokenKind) -> Result<(), NoMemory>
    ensures { OnOk result (seen.new.items ≡ with_variable names.now seen.old.items kind.now) }
{
    match kind {
        TokenKind::Variable(spelling) => {
            if !is_known(names, seen.as_slice(), *spelling) {
                seen.push(*spelling)?;
            }
            Ok(())
        }
        _ => Ok(()),
    }
}

// Whether an operand is due behind a word.
fn due_behind(word: &Word) -> bool
    ensures { result ≡ due_behind word.now }
{
    match word {
        Word::Number(_)
        | Word::Variable(_)
        | Word::Text(_)
        | Word::Atom(_)
        | Word::CloseParen
        | Word::CloseList
        | Word::CloseCurly => false,
        _ => true,
    }
}

fn role(
    alloc: Global,
    names: &Names,
    ops: &OpTable,
    due: bool,
    seen: &[u64],
    kind: &TokenKind,
    behind: &[Token],
) -> Result<Word, NoMemory>
    ensures { IfOk result (λ word. word ≡ role names.now ops.now due seen.now kind.now behind.now) }
{
    Ok(match kind {
        TokenKind::Name(name) => name_role(ops, due, *name, *name == MINUS, behind),
        TokenKind::Quoted(name) => name_role(ops, due, *name, false, behind),
        TokenKind::Variable(spelling) => Word::Variable(variable_number(names, seen, *spelling)),
        TokenKind::Number(number) => Word::Number(*number),
        TokenKind::Text(codes) => Word::Text(Items::from_slice(alloc, codes.as_slice())?),
        TokenKind::OpenCall | TokenKind::Open => Word::Paren,
        TokenKind::Close => Word::CloseParen,
        TokenKind::OpenList => Word::OpenList,
        TokenKind::CloseList => Word::CloseList,
        TokenKind::OpenCurly => Word::OpenCurly,
        TokenKind::CloseCurly => Word::CloseCurly,
        TokenKind::Comma => Word::Comma,
        TokenKind::Bar => Word::Bar,
        TokenKind::End => Word::Stop,
    })
}

/// The words of a sentence, and how many variables it has.
#[derive(Drop)]
pub(crate) struct Scanned {
    pub(crate) words: Items<Word>,
    pub(crate) vars: u64,
}

/// The words of a sentence's tokens without their end.
///
/// # Errors
/// Where memory is refused.
pub(crate) fn roles(
    alloc: Global,
    names: &Names,
    ops: &OpTable,
    tokens: &[Token],
) -> Result<Scanned, NoMemory>
    ensures words { IfOk result (λ scanned. scanned.words ≡ roles names.now ops.now tokens.now) }
    ensures vars { IfOk result (λ scanned. scanned.vars ≡ variable_count names.now tokens.now) }
{
    let mut words = Items::new(alloc);
    let mut seen = Vec::new(alloc);
    let mut due = true;
    let mut left = tokens;
    while let Some((token, behind)) = left.split_first() {
        let word = role(alloc, names, ops, due, seen.as_slice(), &token.kind, behind)?;
        add_variable(names, &mut seen, &token.kind)?;
        due = due_behind(&word);
        words.push(word)?;
        left = behind;
    }
    Ok(Scanned {
        words,
        vars: seen.len() as u64,
    })
}
