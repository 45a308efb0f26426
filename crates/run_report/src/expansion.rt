// The expansion of an instrumented program.
ghost use Rattle.std.specs.Prelude.{◌≡◌, ◌++◌, nat_eq, map, filter, Some, IfOk, OnOk, string_bytes};
ghost use Rattle.std.specs.List.{list_any};
ghost use Rattle.run_report.specs.Expansion.{is_kept_in, header_line, check_line, numbered_line, clause_line, pred_lines, expand_lines};

use crate::clause_terms::clause_term;
use crate::kept::kept_conditions;
use crate::lines::{condition_word, push_name, push_place, push_pred, push_term};
use indexmap::IndexSet;
use prog_data::{Clause, Cond, Pred, Program, Text};
use sqlite_items::Items;
use std::alloc::Global;
use term_core::NoMemory;

// The line before a predicate.
fn header_line(alloc: Global, program: &Program, pred: &Pred) -> Result<String, NoMemory>
    ensures { IfOk result (λ text. string_bytes text ≡ header_line program.now pred.now) }
{
    let mut text = String::new(alloc);
    push_name(&program.names, pred.module, &mut text)?;
    text.push_str(":")?;
    push_pred(program, pred, &mut text)?;
    text.push_str("\n")?;
    Ok(text)
}

// The line of a kept condition.
fn check_line(alloc: Global, program: &Program, condition: &Cond) -> Result<String, NoMemory>
    ensures { IfOk result (λ text. string_bytes text ≡ check_line program.now (Some condition.now)) }
{
    let mut text = String::from_str(alloc, "  check ")?;
    text.push_str(condition_word(&condition.kind))?;
    text.push_str(" ")?;
    push_place(&program.names, condition.place, &mut text)?;
    text.push_str("\n")?;
    Ok(text)
}

// The line of the kept condition with a number, nothing where there is none.
fn numbered_line(alloc: Global, program: &Program, condition: u64) -> Result<String, NoMemory>
    ensures { IfOk result (λ text. string_bytes text ≡ numbered_line program.now condition) }
{
    match program.conds.get(condition as usize) {
        Some(condition) => check_line(alloc, program, condition),
        None => Ok(String::new(alloc)),
    }
}

// The line of a clause.
fn clause_line(
    alloc: Global,
    program: &Program,
    pred: &Pred,
    clause: &Clause,
) -> Result<String, NoMemory>
    ensures { IfOk result (λ text. string_bytes text ≡ clause_line program.now pred.now clause.now) }
{
    let mut text = String::from_str(alloc, "  ")?;
    let term = clause_term(alloc, program, pred, clause)?;
    push_term(program, &term, &mut text)?;
    text.push_str(".")?;
    text.push_str("\n")?;
    Ok(text)
}

// Appends the lines of the conditions of a predicate that are in a set.
fn push_among(
    alloc: Global,
    program: &Program,
    pred: &Pred,
    kept: &IndexSet<u64>,
    lines: &mut Items<Text>,
) -> Result<(), NoMemory>
    ensures { OnOk result (lines.new ≡ lines.old ++ map (numbered_line program.now) (filter (λ c. list_any (nat_eq c) kept.now.keys) pred.now.conds)) }
{
    for condition in pred.conds.as_slice() {
        if kept.contains(condition) {
            lines.push(Text::new(numbered_line(alloc, program, *condition)?))?;
        }
    }
    Ok(())
}

// Appends the lines of the kept conditions of a predicate, in order of number.
fn push_checks(
    alloc: Global,
    program: &Program,
    pred: &Pred,
    lines: &mut Items<Text>,
) -> Result<(), NoMemory>
    ensures { OnOk result (lines.new ≡ lines.old ++ map (numbered_line program.now) (filter (is_kept_in pred.now) pred.now.conds)) }
{
    let kept = kept_conditions(alloc, pred)?;
    push_among(alloc, program, pred, &kept, lines)?;
    Ok(())
}

// Appends the lines of the clauses of a predicate.
fn push_clauses(
    alloc: Global,
    program: &Program,
    pred: &Pred,
    lines: &mut Items<Text>,
) -> Result<(), NoMemory>
    ensures { OnOk result (lines.new ≡ lines.old ++ map (clause_line program.now pred.now) pred.now.clauses) }
{
    for clause in pred.clauses.as_slice() {
        lines.push(Text::new(clause_line(alloc, program, pred, clause)?))?;
    }
    Ok(())
}

// Appends the lines of a predicate.
fn push_pred_lines(
    alloc: Global,
    program: &Program,
    pred: &Pred,
    lines: &mut Items<Text>,
) -> Result<(), NoMemory>
    ensures { OnOk result (lines.new ≡ lines.old ++ pred_lines program.now pred.now) }
{
    lines.push(Text::new(header_line(alloc, program, pred)?))?;
    push_checks(alloc, program, pred, lines)?;
    push_clauses(alloc, program, pred, lines)?;
    Ok(())
}

/// The expansion, line by line: each predicate with the conditions that its call checks name and with its clauses, as
/// they would stand in source. A call is written behind its module, and the exit of an instrumented clause as `'$exit'`.
///
/// # Errors
///
/// Only for want of memory.
pub fn expand_text(alloc: Global, program: &Program) -> Result<Items<Text>, NoMemory>
    ensures { IfOk result (λ lines. lines ≡ expand_lines program.now) }
{
    let mut lines = Items::new(alloc);
    for pred in program.preds.as_slice() {
        push_pred_lines(alloc, program, pred, &mut lines)?;
    }
    Ok(lines)
}
