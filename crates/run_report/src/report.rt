// The report on a program's assertions.
ghost use Rattle.std.specs.Prelude.{◌≡◌, ◌++◌, map, length, filter, IfOk, OnOk, codes, decimal, string_bytes};
ghost use Rattle.std.specs.List.{list_any, list_all};
ghost use Rattle.prog_data.specs.declared.tables.Status.TheVariants.{Checked, False};
ghost use Rattle.run_report.specs.Lines.{line};
ghost use Rattle.run_report.specs.Report.{same_status, has_status, claim_status, status_word, keyword_word, claim_line, claims_with, count_line, report_lines, report_status};

use crate::lines::{push_number, push_numbered, push_place};
use prog_data::{Claim, Keyword, Program, Status, Text};
use sqlite_items::Items;
use std::alloc::Global;
use term_core::NoMemory;

fn is_same(one: Status, other: Status) -> bool
    ensures { result ≡ same_status one other }
{
    match (one, other) {
        (Status::Checked, Status::Checked) => true,
        (Status::Check, Status::Check) => true,
        (Status::False, Status::False) => true,
        _ => false,
    }
}

// Whether a condition has this status.
fn has_status(statuses: &[Status], status: Status, condition: u64) -> bool
    ensures { result ≡ has_status statuses.now status condition }
{
    match statuses.get(condition as usize) {
        Some(found) => is_same(status, *found),
        None => false,
    }
}

// Whether one of the conditions is false.
fn has_false(statuses: &[Status], conditions: &[u64]) -> bool
    ensures { result ≡ list_any (has_status statuses.now False) conditions.now }
{
    for condition in conditions {
        if has_status(statuses, Status::False, *condition) {
            return true;
        }
    }
    false
}

// Whether all conditions are checked.
fn are_checked(statuses: &[Status], conditions: &[u64]) -> bool
    ensures { result ≡ list_all (has_status statuses.now Checked) conditions.now }
{
    for condition in conditions {
        if !has_status(statuses, Status::Checked, *condition) {
            return false;
        }
    }
    true
}

// The status of an assertion, from those of its conditions.
fn claim_status(statuses: &[Status], claim: &Claim) -> Status
    ensures { result ≡ claim_status statuses.now claim.now }
{
    if has_false(statuses, claim.conds.as_slice()) {
        Status::False
    } else if are_checked(statuses, claim.conds.as_slice()) {
        Status::Checked
    } else {
        Status::Check
    }
}

fn status_word(status: Status) -> &'static str
    ensures { result.now ≡ status_word status }
{
    match status {
        Status::Checked => "checked",
        Status::Check => "check",
        Status::False => "false",
    }
}

fn keyword_word(keyword: Keyword) -> &'static str
    ensures { result.now ≡ keyword_word keyword }
{
    match keyword {
        Keyword::Pred => "pred",
        Keyword::Calls => "calls",
        Keyword::Success => "success",
        Keyword::Comp => "comp",
    }
}

// The line of an assertion.
fn claim_line(
    alloc: Global,
    program: &Program,
    statuses: &[Status],
    claim: &Claim,
) -> Result<String, NoMemory>
    ensures { IfOk result (λ text. string_bytes text ≡ claim_line program.now statuses.now claim.now) }
{
    let mut text = String::from_str(alloc, status_word(claim_status(statuses, claim)))?;
    text.push_str(" ")?;
    push_place(&program.names, claim.place, &mut text)?;
    text.push_str(" ")?;
    text.push_str(keyword_word(claim.keyword))?;
    text.push_str(" ")?;
    push_numbered(program, claim.pred, &mut text)?;
    text.push_str("\n")?;
    Ok(text)
}

// How many assertions have a status.
fn claims_with(statuses: &[Status], claims: &[Claim], status: Status) -> u64
    ensures { result ≡ length (filter (λ claim. same_status status (claim_status statuses.now claim)) claims.now) }
{
    let mut count = 0u64;
    for claim in claims {
        if is_same(status, claim_status(statuses, claim)) {
            count += 1;
        }
    }
    count
}

// Appends a word and a number.
fn push_count(word: &str, number: u64, out: &mut String) -> Result<(), NoMemory>
    ensures { OnOk result (string_bytes out.new ≡ string_bytes out.old ++ (word.now ++ decimal number)) }
{
    out.push_str(word)?;
    push_number(number, out)
}

// The last line, from how many assertions have which status.
fn numbers_line(alloc: Global, checked: u64, check: u64, broken: u64) -> Result<String, NoMemory>
    ensures { IfOk result (λ text. string_bytes text ≡ line (codes "checked " ++ decimal checked ++ codes ", check " ++ decimal check ++ codes ", false " ++ decimal broken)) }
{
    let mut text = String::new(alloc);
    push_count("checked ", checked, &mut text)?;
    push_count(", check ", check, &mut text)?;
    push_count(", false ", broken, &mut text)?;
    text.push_str("\n")?;
    Ok(text)
}

// The last line.
fn count_line(alloc: Global, program: &Program, statuses: &[Status]) -> Result<String, NoMemory>
    ensures { IfOk result (λ text. string_bytes text ≡ count_line program.now statuses.now) }
{
    let claims = program.claims.as_slice();
    let checked = claims_with(statuses, claims, Status::Checked);
    let check = claims_with(statuses, claims, Status::Check);
    let broken = claims_with(statuses, claims, Status::False);
    numbers_line(alloc, checked, check, broken)
}

/// The report, line by line: each assertion with its status, in the order of the program, and how many have which. An
/// assertion is false where one of its conditions is, checked where all are, else it is left to be checked (Puebla,
/// Bueno, Hermenegildo, "An assertion language for constraint logic programs", 2000).
///
/// # Errors
///
/// Only for want of memory.
pub fn report_text(
    alloc: Global,
    program: &Program,
    statuses: &[Status],
) -> Result<Items<Text>, NoMemory>
    ensures { IfOk result (λ lines. lines ≡ report_lines program.now statuses.now) }
{
    let mut lines = Items::new(alloc);
    for claim in program.claims.as_slice() {
        lines.push(Text::new(claim_line(alloc, program, statuses, claim)?))?;
    }
    lines.push(Text::new(count_line(alloc, program, statuses)?))?;
    Ok(lines)
}

/// The status of a report: 1 where an assertion is false, else 0.
pub fn report_status(program: &Program, statuses: &[Status]) -> u8
    ensures { result ≡ report_status program.now statuses.now }
{
    for claim in program.claims.as_slice() {
        if is_same(Status::False, claim_status(statuses, claim)) {
            return 1;
        }
    }
    0
}
