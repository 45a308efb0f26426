// The texts of runs.
ghost use Rattle.std.specs.Prelude.{◌≡◌, ◌++◌, ◌∷◌, Some, IfOk, codes, string_bytes, slice_get};
ghost use Rattle.run_report.specs.Lines.{line, place_text, quoted_text};
ghost use Rattle.run_report.specs.RunText.{arithmetic_words, violated_text, ending_text, event_text, query_text, ending_status};

use crate::lines::{condition_word, push_numbered, push_place, push_term};
use prog_data::{ArithKind, Cond, Ending, Event, Place, Program};
use std::alloc::Global;
use term_core::{NoMemory, Term};

// The words for a fault of arithmetic.
fn arithmetic_words(kind: ArithKind) -> &'static str
    ensures { result.now ≡ arithmetic_words kind }
{
    match kind {
        ArithKind::Overflow => "overflow",
        ArithKind::ZeroDivisor => "zero divisor",
        ArithKind::Unbound => "unbound operand",
        ArithKind::NotNumber => "not a number",
    }
}

// The line of a broken condition, behind these words.
fn condition_text(
    alloc: Global,
    program: &Program,
    words: &str,
    condition: &Cond,
) -> Result<String, NoMemory>
    ensures { IfOk result (λ text. string_bytes text ≡ violated_text program.now words.now (Some condition.now)) }
{
    let mut text = String::from_str(alloc, words)?;
    push_place(&program.names, condition.place, &mut text)?;
    text.push_str(" ")?;
    text.push_str(condition_word(&condition.kind))?;
    text.push_str(" ")?;
    push_numbered(program, condition.pred, &mut text)?;
    text.push_str("\n")?;
    Ok(text)
}

// The line of the condition with a number, behind these words; nothing where there is none.
fn violated_text(
    alloc: Global,
    program: &Program,
    words: &str,
    condition: u64,
) -> Result<String, NoMemory>
    ensures { IfOk result (λ text. string_bytes text ≡ violated_text program.now words.now (slice_get program.now.conds condition)) }
{
    match program.conds.get(condition as usize) {
        Some(condition) => condition_text(alloc, program, words, condition),
        None => Ok(String::new(alloc)),
    }
}

// The line of a cyclic term.
fn cyclic_text(alloc: Global, program: &Program, place: Place) -> Result<String, NoMemory>
    ensures { IfOk result (λ text. string_bytes text ≡ line (codes "end: cyclic term " ++ place_text program.now.names place)) }
{
    let mut text = String::from_str(alloc, "end: cyclic term ")?;
    push_place(&program.names, place, &mut text)?;
    text.push_str("\n")?;
    Ok(text)
}

// The line of a fault of arithmetic.
fn arithmetic_text(
    alloc: Global,
    program: &Program,
    kind: ArithKind,
    place: Place,
) -> Result<String, NoMemory>
    ensures { IfOk result (λ text. string_bytes text ≡ line (codes "end: arithmetic " ++ arithmetic_words kind ++ 32 ∷ place_text program.now.names place)) }
{
    let mut text = String::from_str(alloc, "end: arithmetic ")?;
    text.push_str(arithmetic_words(kind))?;
    text.push_str(" ")?;
    push_place(&program.names, place, &mut text)?;
    text.push_str("\n")?;
    Ok(text)
}

// The line of an ending.
fn ending_text(alloc: Global, program: &Program, ending: &Ending) -> Result<String, NoMemory>
    ensures { IfOk result (λ text. string_bytes text ≡ ending_text program.now ending.now) }
{
    match ending {
        Ending::NoMore => Ok(String::from_str(alloc, "end: no more answers\n")?),
        Ending::Bound => Ok(String::from_str(alloc, "end: unknown, step bound\n")?),
        Ending::Violated(condition) => violated_text(alloc, program, "end: violated ", *condition),
        Ending::Cyclic(place) => cyclic_text(alloc, program, *place),
        Ending::Arithmetic(kind, place) => arithmetic_text(alloc, program, *kind, *place),
    }
}

// The line of words and a term.
fn term_line(alloc: Global, program: &Program, words: &str, term: &Term) -> Result<String, NoMemory>
    ensures { IfOk result (λ text. string_bytes text ≡ line (words.now ++ quoted_text program.now term.now)) }
{
    let mut text = String::from_str(alloc, words)?;
    push_term(program, term, &mut text)?;
    text.push_str("\n")?;
    Ok(text)
}

/// The text of an event: output as it is, and a line for an answer, an ending, or a broken condition behind which the
/// run goes on.
///
/// # Errors
///
/// Only for want of memory.
pub fn event_text(alloc: Global, program: &Program, event: &Event) -> Result<String, NoMemory>
    ensures { IfOk result (λ text. string_bytes text ≡ event_text program.now event.now) }
{
    match event {
        Event::Out(text) => Ok(String::from_str(alloc, text.as_str())?),
        Event::Answer(query) => term_line(alloc, program, "answer: ", query),
        Event::End(ending) => ending_text(alloc, program, ending),
        Event::Broken(condition) => violated_text(alloc, program, "violated ", *condition),
    }
}

/// The line of a query before its run, where several are run. Its variables have their own numbers.
///
/// # Errors
///
/// Only for want of memory.
pub fn query_text(alloc: Global, program: &Program, query: &Term) -> Result<String, NoMemory>
    ensures { IfOk result (λ text. string_bytes text ≡ query_text program.now query.now) }
{
    term_line(alloc, program, "query: ", query)
}

/// The status with which an ending ends the program.
pub fn ending_status(ending: &Ending) -> u8
    ensures { result ≡ ending_status ending.now }
{
    match ending {
        Ending::NoMore => 0,
        Ending::Violated(_) => 1,
        Ending::Bound => 5,
        Ending::Cyclic(_) | Ending::Arithmetic(_, _) => 6,
    }
}
