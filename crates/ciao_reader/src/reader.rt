// The reader: tokens cut into sentences, each read with the operators that those before it leave.
ghost use Rattle.std.specs.Prelude.{◌≡◌, ◌+◌, true, false, IfOk, IfErr, MatchOption, MatchResult, IfSome, Some, List, ◌<◌, length, take, drop};
ghost use Rattle.std.specs.List.{list_any, AllByRecursion};
ghost use Rattle.ciao_reader.specs.Sentences.{ends, is_end, line_of, is_large, is_sign, large_line, Splits, IsAlone, IsSentence, ReadsAll, IsGoal, HasSentences, HasGoal};
ghost use Rattle.ciao_reader.specs.Faults.{IsUnreadOr, IsWrongOr, FirstFaultOr, FailsAsGoalOr, as_read, IsFaultOf, IsGoalFaultOf};
ghost use Rattle.ciao_reader.specs.Ranges.{IsSentenceInRange};
ghost use Rattle.ciao_reader.specs.Changes.{table_after};
ghost use Rattle.term_core.specs.Standard.{standard};
ghost use Rattle.term_core.specs.Lists.{IsPrefix};
ghost use Rattle.term_core.specs.Printing.{Printed};
ghost use Rattle.term_core.specs.declared.terms.Term.{Term};
ghost use Rattle.ciao_reader.specs.ReadingBack.{is_readable, numbered_from_zero, IsShallow};

use crate::changes::after_sentence;
use crate::laws::in_range_law;
use crate::parts::DEPTH_LIMIT;
use crate::reading::read_words;
use crate::scan::roles;
use crate::sentences::{ReadFault, Sentence, Source};
use crate::words::Word;
use ciao_tokens::{TextFault, Token, TokenKind, tokens, written_law};
use sqlite_items::Items;
use std::alloc::Global;
use term_core::{Names, OpFault, OpTable};

// 2^63, which only a sign makes an integer.
const LARGE: u64 = 9_223_372_036_854_775_808;

fn ends(kind: &TokenKind) -> bool
    ensures { result ≡ ends kind.now }
{
    match kind {
        TokenKind::End => true,
        _ => false,
    }
}

// The line of the first token, or 1.
fn line_of(tokens: &[Token]) -> u64
    ensures { result ≡ line_of tokens.now }
{
    match tokens.split_first() {
        None => 1,
        Some((first, _)) => first.line,
    }
}

fn is_large(word: &Word) -> bool
    ensures { result ≡ is_large word.now }
{
    match word {
        Word::Number(number) => *number == LARGE,
        _ => false,
    }
}

fn is_sign(word: &Word) -> bool
    ensures { result ≡ is_sign word.now }
{
    match word {
        Word::Sign => true,
        _ => false,
    }
}

// The line of the first number beyond the integers, by the words of the tokens.
fn large_line(words: &[Word], tokens: &[Token]) -> Option<u64>
    ensures { result ≡ large_line false words.now tokens.now }
{
    let mut signed = false;
    let mut left = tokens;
    for word in words {
        match left.split_first() {
            None => return None,
            Some((token, behind)) => {
                if is_large(word) && !signed {
                    return Some(token.line);
                }
                signed = is_sign(word);
                left = behind;
            }
        }
    }
    None
}

// The tokens of one sentence, whose faults are told at this line.
fn read_sentence(
    alloc: Global,
    names: &Names,
    ops: &OpTable,
    tokens: &[Token],
    line: u64,
) -> Result<Sentence, ReadFault>
    ensures ok { IfOk result (λ sentence. IsSentence names.now ops.now tokens.now sentence) }
    ensures err { IfErr result (λ fault. IsUnreadOr names.now ops.now tokens.now line fault) }
{
    let scanned = roles(alloc, names, ops, tokens)?;
    match read_words(alloc, ops, scanned.words.as_slice())? {
        None => Err(ReadFault::Syntax(line)),
        Some(part) => {
            if part.depth > DEPTH_LIMIT {
                return Err(ReadFault::TooDeep(line));
            }
            match large_line(scanned.words.as_slice(), tokens) {
                Some(large) => Err(ReadFault::IntRange(large)),
                None => Ok(Sentence {
                    term: part.term,
                    line: line_of(tokens),
                    vars: scanned.vars,
                }),
            }
        }
    }
}

// One sentence, after which the operators are as it says.
fn read_next(
    alloc: Global,
    names: &Names,
    ops: &mut OpTable,
    tokens: &[Token],
    line: u64,
) -> Result<Sentence, ReadFault>
    ensures ok { IfOk result (λ sentence. IsSentence names.now ops.old tokens.now sentence) }
    ensures after { IfOk result (λ sentence. table_after names.now ops.old sentence.term ≡ Some ops.new) }
    ensures err { IfErr result (λ fault. IsWrongOr names.now ops.old tokens.now line fault) }
{
    let sentence = read_sentence(alloc, names, ops, tokens, line)?;
    match after_sentence(alloc, names, ops, &sentence.term) {
        Ok(()) => Ok(sentence),
        Err(fault) => match fault {
            OpFault::OpRefused => Err(ReadFault::OpRefused(line)),
            OpFault::NoMemory => Err(ReadFault::NoMemory),
        },
    }
}

// The tokens before the first end, and those behind it.
fn split_at_end(tokens: &[Token]) -> Option<(&[Token], &[Token])>
    ensures split { MatchOption result (list_any is_end tokens.now ≡ false) (λ parts. Splits tokens.now parts.0.now parts.1.now) }
    ensures shorter { IfSome result (λ parts. length parts.1.now < length tokens.now) }
{
    for (at, token) in tokens.iter().enumerate() {
        if ends(&token.kind) {
            return Some((&tokens[..at], &tokens[at + 1..]));
        }
    }
    None
}

// All sentences of the tokens.
fn read_all(alloc: Global, names: &Names, tokens: &[Token]) -> Result<Source, ReadFault>
    ensures ok { IfOk result (λ source. ReadsAll names.now standard tokens.now source.sentences source.ops) }
    ensures err { IfErr result (λ fault. FirstFaultOr names.now standard tokens.now fault) }
{
    let mut sentences = Items::new(alloc);
    let mut ops = OpTable::standard(alloc)?;
    let mut left = tokens;
    while !left.is_empty() {
        match split_at_end(left) {
            None => return Err(ReadFault::NoEnd(line_of(left))),
            Some((inner, rest)) => {
                let sentence = read_next(alloc, names, &mut ops, inner, line_of(left))?;
                sentences.push(sentence)?;
                left = rest;
            }
        }
    }
    Ok(Source { sentences, ops })
}

// The tokens of one sentence alone, or none where the first end is not last.
fn alone(tokens: &[Token]) -> Option<&[Token]>
    ensures { MatchOption result ((ts : List Token) → IsAlone tokens.now ts → ⊥) (λ inner. IsAlone tokens.now inner.now) }
{
    match split_at_end(tokens) {
        None => Some(tokens),
        Some((inner, rest)) => { if rest.is_empty() { Some(inner) } else { None } }
    }
}

// The tokens of a goal.
fn read_alone(
    alloc: Global,
    names: &Names,
    ops: &OpTable,
    tokens: &[Token],
) -> Result<Sentence, ReadFault>
    ensures ok { IfOk result (λ goal. IsGoal names.now ops.now tokens.now goal) }
    ensures err { IfErr result (λ fault. FailsAsGoalOr names.now ops.now tokens.now fault) }
{
    let line = line_of(tokens);
    match alone(tokens) {
        None => Err(ReadFault::Syntax(line)),
        Some(inner) => read_sentence(alloc, names, ops, inner, line),
    }
}

/// The sentences of a text, each read with the operators that those before it leave.
///
/// # Errors
/// Where the text has no tokens, where a sentence has no derivation or no end, is more than 4,096
/// deep, has a number beyond the integers or makes a change of the operators that is refused, and
/// where memory is refused.
pub fn read_sentences(alloc: Global, names: &mut Names, bytes: &[u8]) -> Result<Source, ReadFault>
    ensures ok { IfOk result (HasSentences bytes.now names.old names.new) }
    ensures in_range { IfOk result (λ source. AllByRecursion (IsSentenceInRange (length names.new)) source.sentences) }
    ensures fault { IfErr result (IsFaultOf bytes.now names.old) }
    ensures kept { IsPrefix names.old names.new }
{
    // Each says what holds of all: of names, of what is read.
    let _ = names.len(); // for the proof
    in_range_law(); // for the proof
    read_source(alloc, names, bytes)
}

// All sentences of a text.
fn read_source(alloc: Global, names: &mut Names, bytes: &[u8]) -> Result<Source, ReadFault>
    ensures ok { IfOk result (HasSentences bytes.now names.old names.new) }
    ensures fault { IfErr result (IsFaultOf bytes.now names.old) }
    ensures kept { IsPrefix names.old names.new }
{
    match tokens(alloc, names, bytes) {
        Ok(tokens) => read_all(alloc, names, tokens.as_slice()),
        Err(fault) => Err(of_text(fault)),
    }
}

/// The one term of a text, with its end or without it, by these operators. What is printed of a term
/// with quotes and the same operators is that term, with its variables numbered by first appearance.
///
/// # Errors
/// Where the text has no tokens, where it is not one sentence, has no derivation, is more than
/// 4,096 deep or has a number beyond the integers, and where memory is refused.
pub fn read_goal(
    alloc: Global,
    names: &mut Names,
    ops: &OpTable,
    text: &str,
) -> Result<Sentence, ReadFault>
    ensures ok { IfOk result (HasGoal ops.now text.now names.old names.new) }
    ensures in_range { IfOk result (IsSentenceInRange (length names.new)) }
    ensures fault { IfErr result (IsGoalFaultOf ops.now text.now names.old) }
    ensures kept { IsPrefix names.old names.new }
    ensures reads_back { (t : Term) → is_readable (length names.old) t ≡ true → text.now ≡ Printed names.old ops.now true t → IsShallow ops.now text.now names.old → MatchResult result (λ goal. goal.term ≡ numbered_from_zero t) (λ fault. fault ≡ ReadFault.NoMemory) }
{
    // Each says what holds of all: of names, of tables of operators, of what is written, of what is read.
    let _ = names.len(); // for the proof
    ops.made();
    written_law(); // for the proof
    in_range_law(); // for the proof
    read_text(alloc, names, ops, text)
}

// The one term of a text.
fn read_text(
    alloc: Global,
    names: &mut Names,
    ops: &OpTable,
    text: &str,
) -> Result<Sentence, ReadFault>
    ensures ok { IfOk result (HasGoal ops.now text.now names.old names.new) }
    ensures fault { IfErr result (IsGoalFaultOf ops.now text.now names.old) }
    ensures kept { IsPrefix names.old names.new }
{
    match tokens(alloc, names, text.as_bytes()) {
        Ok(tokens) => read_alone(alloc, names, ops, tokens.as_slice()),
        Err(fault) => Err(of_text(fault)),
    }
}

// A fault of the tokens as one of the sentences.
fn of_text(fault: TextFault) -> ReadFault
    ensures { result ≡ as_read fault }
{
    match fault {
        TextFault::NotUtf8(line) => ReadFault::NotUtf8(line),
        TextFault::BadToken(line) => ReadFault::BadToken(line),
        TextFault::IntRange(line) => ReadFault::IntRange(line),
        TextFault::NoMemory => ReadFault::NoMemory,
    }
}
