// The texts of runs.
use crate::programs::{FILE, FOURTH, NAME, facts};
use prog_data::{ArithKind, Ending, Event, Place, Program, Text};
use run_report::{ending_status, event_text, query_text};
use std::alloc::Global;
use term_core::{NoMemory, Term, one};

const IN_LINE_9: Place = Place {
    file: FILE,
    line: 9,
};

const ENDINGS: [(Ending, &str, u8); 10] = [
    (Ending::NoMore, "end: no more answers\n", 0),
    (Ending::Bound, "end: unknown, step bound\n", 5),
    (Ending::Violated(0), "end: violated x.pl:2 calls p/1\n", 1),
    (Ending::Violated(1), "end: violated x.pl:2 success p/1\n", 1),
    (Ending::Violated(2), "end: violated x.pl:2 is_det p/1\n", 1),
    (Ending::Cyclic(IN_LINE_9), "end: cyclic term x.pl:9\n", 6),
    (
        Ending::Arithmetic(ArithKind::Overflow, IN_LINE_9),
        "end: arithmetic overflow x.pl:9\n",
        6,
    ),
    (
        Ending::Arithmetic(ArithKind::ZeroDivisor, IN_LINE_9),
        "end: arithmetic zero divisor x.pl:9\n",
        6,
    ),
    (
        Ending::Arithmetic(ArithKind::Unbound, IN_LINE_9),
        "end: arithmetic unbound operand x.pl:9\n",
        6,
    ),
    (
        Ending::Arithmetic(ArithKind::NotNumber, IN_LINE_9),
        "end: arithmetic not a number x.pl:9\n",
        6,
    ),
];

fn is_told(alloc: Global, program: &Program, event: &Event, text: &str) -> Result<bool, NoMemory> {
    let found = event_text(alloc, program, event)?;
    Ok(found.as_str() == text)
}

// Whether each ending has its line and its status.
fn end_so(alloc: Global, rows: &[(Ending, &str, u8)]) -> Result<bool, NoMemory> {
    let program = facts(alloc, true, true)?;
    for row in rows {
        if !is_told(alloc, &program, &Event::End(row.0), row.1)? {
            return Ok(false);
        }
        if ending_status(&row.0) != row.2 {
            return Ok(false);
        }
    }
    Ok(true)
}

#[test]
fn endings_have_their_lines_and_statuses(rt: HostRuntime) -> Result<(), NoMemory> {
    assert!(rt; end_so(rt.alloc(), &ENDINGS)?);
    Ok(())
}

#[test]
fn other_events_have_their_texts(rt: HostRuntime) -> Result<(), NoMemory> {
    let alloc = rt.alloc();
    let program = facts(alloc, true, true)?;
    let told = String::from_str(alloc, "one")?;
    assert!(rt; is_told(alloc, &program, &Event::Out(Text::new(told)), "one")?);
    let answer = Term::Node(NAME, one(alloc, Term::Var(1))?);
    assert!(rt; is_told(alloc, &program, &Event::Answer(answer), "answer: p(_1)\n")?);
    assert!(rt;
        is_told(
            alloc,
            &program,
            &Event::Broken(1),
            "violated x.pl:2 success p/1\n"
        )?
    );
    Ok(())
}

#[test]
fn a_query_stands_before_its_run(rt: HostRuntime) -> Result<(), NoMemory> {
    let alloc = rt.alloc();
    let program = facts(alloc, true, true)?;
    let query = Term::Node(NAME, one(alloc, Term::Atom(FOURTH))?);
    let text = query_text(alloc, &program, &query)?;
    assert!(rt; text.as_str() == "query: p(a)\n");
    Ok(())
}
