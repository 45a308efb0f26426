// Reports, and the line of a refusal.
use crate::programs::{claim, facts, names, place, program, whole};
use prog_data::{Keyword, Program, Refusal, RefusalKind, Status};
use run_report::{refusal_text, report_status, report_text};
use sqlite_items::Items;
use std::alloc::Global;
use term_core::NoMemory;

// The statuses of the three conditions of an assertion, the report and its status.
const ROWS: [([Status; 3], &str, u8); 5] = [
    (
        [Status::Checked, Status::Checked, Status::Checked],
        "checked x.pl:2 pred p/1\nchecked 1, check 0, false 0\n",
        0,
    ),
    (
        [Status::Checked, Status::Check, Status::Checked],
        "check x.pl:2 pred p/1\nchecked 0, check 1, false 0\n",
        0,
    ),
    (
        [Status::Checked, Status::False, Status::Checked],
        "false x.pl:2 pred p/1\nchecked 0, check 0, false 1\n",
        1,
    ),
    (
        [Status::Check, Status::Check, Status::False],
        "false x.pl:2 pred p/1\nchecked 0, check 0, false 1\n",
        1,
    ),
    (
        [Status::False, Status::Checked, Status::Check],
        "false x.pl:2 pred p/1\nchecked 0, check 0, false 1\n",
        1,
    ),
];

fn is_reported(
    alloc: Global,
    program: &Program,
    statuses: &[Status],
    text: &str,
    status: u8,
) -> Result<bool, NoMemory> {
    let lines = report_text(alloc, program, statuses)?;
    let found = whole(alloc, lines.as_slice())?;
    Ok(found.as_str() == text && report_status(program, statuses) == status)
}

// Whether each row is reported so.
fn are_reported(alloc: Global, rows: &[([Status; 3], &str, u8)]) -> Result<bool, NoMemory> {
    let program = facts(alloc, true, true)?;
    for row in rows {
        if !is_reported(alloc, &program, &row.0, row.1, row.2)? {
            return Ok(false);
        }
    }
    Ok(true)
}

#[test]
fn an_assertion_is_reported_by_its_conditions(rt: HostRuntime) -> Result<(), NoMemory> {
    assert!(rt; are_reported(rt.alloc(), &ROWS)?);
    Ok(())
}

// Four assertions of one predicate, one without conditions, with each keyword.
fn four(alloc: Global) -> Result<Program, NoMemory> {
    let mut made = facts(alloc, true, true)?;
    let mut claims = Items::new(alloc);
    claims.push(claim(alloc, Keyword::Calls, &[0])?)?;
    claims.push(claim(alloc, Keyword::Success, &[1])?)?;
    claims.push(claim(alloc, Keyword::Comp, &[2])?)?;
    claims.push(claim(alloc, Keyword::Comp, &[])?)?;
    made.claims = claims;
    Ok(made)
}

#[test]
fn assertions_are_reported_in_order_and_counted(rt: HostRuntime) -> Result<(), NoMemory> {
    let alloc = rt.alloc();
    let statuses = [Status::Check, Status::False, Status::Checked];
    let text =
        "check x.pl:2 calls p/1\nfalse x.pl:2 success p/1\nchecked x.pl:2 comp p/1\nchecked x.pl:2 comp p/1\nchecked 2, check 1, false 1\n";
    assert!(rt; is_reported(alloc, &four(alloc)?, &statuses, text, 1)?);
    Ok(())
}

#[test]
fn a_program_without_assertions_has_one_line(rt: HostRuntime) -> Result<(), NoMemory> {
    let alloc = rt.alloc();
    let empty = program(alloc, &["m.pl"], Items::new(alloc), Items::new(alloc))?;
    assert!(rt; is_reported(alloc, &empty, &[], "checked 0, check 0, false 0\n", 0)?);
    Ok(())
}

#[test]
fn a_refusal_has_its_place_and_its_word(rt: HostRuntime) -> Result<(), NoMemory> {
    let alloc = rt.alloc();
    let refusal = Refusal {
        place: place(2),
        kind: RefusalKind::NotExported,
    };
    let text = refusal_text(alloc, &names(alloc, &["x.pl"])?, &refusal)?;
    assert!(rt; text.as_str() == "fault: x.pl:2 NotExported\n");
    Ok(())
}
