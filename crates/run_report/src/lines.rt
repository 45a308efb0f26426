// What stands in several lines.
ghost use Rattle.std.specs.Prelude.{◌≡◌, ◌++◌, ◌∷◌, OnOk, decimal, string_bytes};
ghost use Rattle.term_core.specs.Names.{name_text};
ghost use Rattle.term_core.specs.declared.terms.Term as term;
ghost use Rattle.run_report.specs.Lines.{condition_word, place_text, quoted_text, pred_text, numbered_text};

use itoa::Buffer;
use prog_data::{CompProp, CondKind, Place, Pred, Program};
use term_core::{NIL, Names, NoMemory, Term, print_term};

/// Appends the text of a name, nothing for a number that is no name's.
pub(crate) fn push_name(names: &Names, name: u64, out: &mut String) -> Result<(), NoMemory>
    ensures { OnOk result (string_bytes out.new ≡ string_bytes out.old ++ name_text names.now name) }
{
    out.push_str(names.text_or_empty(name))?;
    Ok(())
}

/// Appends a number in decimal.
pub(crate) fn push_number(number: u64, out: &mut String) -> Result<(), NoMemory>
    ensures { OnOk result (string_bytes out.new ≡ string_bytes out.old ++ decimal number) }
{
    let mut digits = Buffer::new();
    out.push_str(digits.format(number))?;
    Ok(())
}

/// Appends a place: the file, a colon and the line.
pub(crate) fn push_place(names: &Names, place: Place, out: &mut String) -> Result<(), NoMemory>
    ensures { OnOk result (string_bytes out.new ≡ string_bytes out.old ++ place_text names.now place) }
{
    push_name(names, place.file, out)?;
    out.push_str(":")?;
    push_number(place.line, out)
}

/// Appends the text of a term, with quotes.
pub(crate) fn push_term(program: &Program, term: &Term, out: &mut String) -> Result<(), NoMemory>
    ensures { OnOk result (string_bytes out.new ≡ string_bytes out.old ++ quoted_text program.now term.now) }
{
    print_term(&program.names, &program.ops, term, true, out)
}

// Appends a name, a slash and an arity.
fn push_name_with_arity(
    program: &Program,
    name: u64,
    arity: u64,
    out: &mut String,
) -> Result<(), NoMemory>
    ensures { OnOk result (string_bytes out.new ≡ string_bytes out.old ++ (quoted_text program.now (term.Atom name) ++ 47 ∷ decimal arity)) }
{
    push_term(program, &Term::Atom(name), out)?;
    out.push_str("/")?;
    push_number(arity, out)
}

/// Appends a predicate: its name, a slash and its arity.
pub(crate) fn push_pred(program: &Program, pred: &Pred, out: &mut String) -> Result<(), NoMemory>
    ensures { OnOk result (string_bytes out.new ≡ string_bytes out.old ++ pred_text program.now pred.now) }
{
    push_name_with_arity(program, pred.name, pred.arity, out)
}

/// Appends the predicate with a number.
pub(crate) fn push_numbered(program: &Program, pred: u64, out: &mut String) -> Result<(), NoMemory>
    ensures { OnOk result (string_bytes out.new ≡ string_bytes out.old ++ numbered_text program.now pred) }
{
    match program.preds.get(pred as usize) {
        Some(pred) => push_name_with_arity(program, pred.name, pred.arity, out),
        None => push_name_with_arity(program, NIL, 0, out),
    }
}

/// The word for the kind of a condition.
pub(crate) fn condition_word(kind: &CondKind) -> &str
    ensures { result.now ≡ condition_word kind.now }
{
    match kind {
        CondKind::Calls(_) => "calls",
        CondKind::Success(_, _) => "success",
        CondKind::Comp(_, CompProp::NotFails) => "not_fails",
        CondKind::Comp(_, CompProp::Fails) => "fails",
        CondKind::Comp(_, CompProp::IsDet) => "is_det",
    }
}
