// The limits of files.
use crate::clauses::COUNT;
use crate::runs::{runs_so, status_of};
use std::alloc::{AllocError, Global};
use std::test::Fail;
use std::thread::Threads;

// A text, and so many times another behind it.
fn push_times(text: &mut String, piece: &str, times: usize) -> Result<(), AllocError> {
    for _ in 0..times {
        text.push_str(piece)?;
    }
    Ok(())
}

// A text with a piece in it so many times.
fn repeated(
    alloc: Global,
    before: &str,
    piece: &str,
    times: usize,
    behind: &str,
) -> Result<String, AllocError> {
    let mut text = String::from_str(alloc, before)?;
    push_times(&mut text, piece, times)?;
    text.push_str(behind)?;
    Ok(text)
}

// `s(s(..z..))`, of the depth given.
fn nested(alloc: Global, depth: usize) -> Result<String, AllocError> {
    let mut text = String::new(alloc);
    push_times(&mut text, "s(", depth.saturating_sub(1))?;
    text.push_str("z")?;
    push_times(&mut text, ")", depth.saturating_sub(1))?;
    Ok(text)
}

// A module with one fact.
fn module_of(alloc: Global, export: &str, fact: &str) -> Result<String, AllocError> {
    let mut text = String::from_str(alloc, ":- module(c,[")?;
    text.push_str(export)?;
    text.push_str("]).\n")?;
    text.push_str(fact)?;
    text.push_str(".\n")?;
    Ok(text)
}

// What is written for one answer.
fn answer_text(alloc: Global, answer: &str) -> Result<String, AllocError> {
    let mut text = String::from_str(alloc, "answer: ")?;
    text.push_str(answer)?;
    text.push_str("\nend: no more answers\n")?;
    Ok(text)
}

// Whether a fact that is exported so answers itself.
fn answers_itself<R: Threads + Sync>(
    rt: &R,
    alloc: Global,
    export: &str,
    fact: &str,
) -> Result<bool, AllocError> {
    let text = module_of(alloc, export, fact)?;
    let written = answer_text(alloc, fact)?;
    runs_so(rt, alloc, text.as_bytes(), fact, "1", &written, 0)
}

// Whether a fact that is exported so is refused with this text.
fn is_refused_so<R: Threads + Sync>(
    rt: &R,
    alloc: Global,
    export: &str,
    fact: &str,
    written: &str,
) -> Result<bool, AllocError> {
    let text = module_of(alloc, export, fact)?;
    runs_so(rt, alloc, text.as_bytes(), "p(a)", "1", written, 3)
}

#[test]
fn depth_of_a_sentence(rt: HostRuntime) -> Result<(), Fail> {
    let alloc = rt.alloc();
    let deep = nested(alloc, 4096)?;
    assert!(rt; answers_itself(&rt, alloc, "s/1", &deep)?);
    let deeper = nested(alloc, 4097)?;
    assert!(rt; is_refused_so(&rt, alloc, "s/1", &deeper, "fault: c.pl:2 TooDeep\n")?);
    Ok(())
}

// `p(a,a,..,a)` with so many arguments.
fn wide(alloc: Global, arity: usize) -> Result<String, AllocError> {
    repeated(alloc, "p(a", ",a", arity.saturating_sub(1), ")")
}

#[test]
fn arity_of_a_compound(rt: HostRuntime) -> Result<(), Fail> {
    let alloc = rt.alloc();
    let widest = wide(alloc, 255)?;
    assert!(rt; answers_itself(&rt, alloc, "p/255", &widest)?);
    let wider = wide(alloc, 256)?;
    assert!(rt; is_refused_so(&rt, alloc, "p/256", &wider, "fault: c.pl:2 Syntax\n")?);
    Ok(())
}

const NOT_EXPORTED: &str = "fault: query not exported\n";

const UNREAD: &str = "fault: query unread\n";

// A text, another so many times behind it, and one at the end: a query, and what is written for it.
type Query = (
    &'static str,
    &'static str,
    usize,
    &'static str,
    &'static str,
);

const QUERIES: [Query; 6] = [
    ("f(a", ",a", 254, ")", NOT_EXPORTED),
    ("f(a", ",a", 255, ")", UNREAD),
    ("[a", ",a", 4094, "]", NOT_EXPORTED),
    ("[a", ",a", 4095, "]", UNREAD),
    ("", "\\+ ", 4095, "a", NOT_EXPORTED),
    ("", "\\+ ", 4096, "a", UNREAD),
];

fn query_goes_so<R: Threads + Sync>(
    rt: &R,
    alloc: Global,
    row: &Query,
) -> Result<bool, AllocError> {
    let query = repeated(alloc, row.0, row.1, row.2, row.3)?;
    runs_so(rt, alloc, COUNT.as_bytes(), &query, "1", row.4, 4)
}

// The place of the first query that goes otherwise.
fn first_other_query<R: Threads + Sync>(
    rt: &R,
    alloc: Global,
    rows: &[Query],
) -> Result<Option<usize>, AllocError> {
    for (at, row) in rows.iter().enumerate() {
        if !query_goes_so(rt, alloc, row)? {
            return Ok(Some(at));
        }
    }
    Ok(None)
}

#[test]
fn depth_of_a_query(rt: HostRuntime) -> Result<(), Fail> {
    let alloc = rt.alloc();
    let deeper = nested(alloc, 4097)?;
    assert!(rt; runs_so(&rt, alloc, COUNT.as_bytes(), &deeper, "1", UNREAD, 4)?);
    Ok(())
}

#[test]
fn limits_of_a_query(rt: HostRuntime) -> Result<(), Fail> {
    assert_eq!(rt; first_other_query(&rt, rt.alloc(), &QUERIES)?, None);
    Ok(())
}

// A text, another so many times behind it, and one at the end: a file, and the status of a query of it.
type File = (&'static str, &'static str, usize, &'static str, u8);

fn file_status<R: Threads + Sync>(rt: &R, alloc: Global, row: &File) -> Result<u8, AllocError> {
    let text = repeated(alloc, row.0, row.1, row.2, row.3)?;
    status_of(rt, alloc, &text, "p")
}

// The place of the first file with another status.
fn first_other_file<R: Threads + Sync>(
    rt: &R,
    alloc: Global,
    rows: &[File],
) -> Result<Option<usize>, AllocError> {
    for (at, row) in rows.iter().enumerate() {
        if file_status(rt, alloc, row)? != row.4 {
            return Ok(Some(at));
        }
    }
    Ok(None)
}

const EXPORTS_AND_GOALS: [File; 4] = [
    (":- module(c,[p/0", ",p/0", 4091, "]).\np.\n", 0),
    (":- module(c,[p/0", ",p/0", 4092, "]).\np.\n", 3),
    (":- module(c,[p/0]).\np :- p", ",p", 4094, ".\n", 5),
    (":- module(c,[p/0]).\np :- p", ",p", 4095, ".\n", 3),
];

#[test]
fn numbers_of_exports_and_goals(rt: HostRuntime) -> Result<(), Fail> {
    assert_eq!(rt;
        first_other_file(&rt, rt.alloc(), &EXPORTS_AND_GOALS)?,
        None
    );
    Ok(())
}

// The query is not exported where the file is read.
const BEFORE: &str = ":- module(c,[]).\np(1).\n:- pred p(X) : (int(X)";

const PROPERTIES: [File; 4] = [
    (BEFORE, ",int(X)", 4090, ").\n", 4),
    (BEFORE, ",int(X)", 4091, ").\n", 3),
    (BEFORE, ",int(X)", 4089, ") => int(X).\n", 4),
    (BEFORE, ",int(X)", 4090, ") => int(X).\n", 3),
];

#[test]
fn numbers_of_properties(rt: HostRuntime) -> Result<(), Fail> {
    assert_eq!(rt; first_other_file(&rt, rt.alloc(), &PROPERTIES)?, None);
    Ok(())
}

const FACT: &str = ":- module(c,[p/0]).\np.\n";

// Sizes of a file, and what is written and the status for it.
const SIZES: [(usize, &str, u8); 2] = [
    (1_048_576, "answer: p\nend: no more answers\n", 0),
    (1_048_577, "fault: c.pl:0 FileTooLarge\n", 3),
];

// Whether a file of the size given runs so: a fact, and spaces behind it.
fn size_runs_so<R: Threads + Sync>(
    rt: &R,
    alloc: Global,
    size: usize,
    written: &str,
    status: u8,
) -> Result<bool, AllocError> {
    let text = repeated(alloc, FACT, " ", size.saturating_sub(FACT.len()), "")?;
    runs_so(rt, alloc, text.as_bytes(), "p", "1", written, status)
}

// The first size that goes otherwise.
fn first_other_size<R: Threads + Sync>(
    rt: &R,
    alloc: Global,
    rows: &[(usize, &str, u8)],
) -> Result<Option<usize>, AllocError> {
    for row in rows {
        if !size_runs_so(rt, alloc, row.0, row.1, row.2)? {
            return Ok(Some(row.0));
        }
    }
    Ok(None)
}

#[test]
fn size_of_a_file(rt: HostRuntime) -> Result<(), Fail> {
    assert_eq!(rt; first_other_size(&rt, rt.alloc(), &SIZES)?, None);
    Ok(())
}
