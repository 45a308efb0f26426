// Runs of the tool over a file and a sink in memory.
use byte_io::{MemFiles, MemSink};
use ciao_top::run_tool;
use std::alloc::{AllocError, Global};
use std::thread::Threads;

// A run of a query of a file `c.pl`, or of no file where its text is empty.
pub(crate) struct Case {
    pub(crate) text: &'static str,
    pub(crate) query: &'static str,
    pub(crate) steps: &'static str,
    pub(crate) written: &'static str,
    pub(crate) status: u8,
}

pub(crate) fn words_of(alloc: Global, query: &str, steps: &str) -> Result<Vec<String>, AllocError> {
    let mut words = Vec::new(alloc);
    for word in ["run", "c.pl", query, "--steps", steps] {
        words.push(String::from_str(alloc, word)?)?;
    }
    Ok(words)
}

// What the tool writes for a file `c.pl`, and its status.
fn run_file<R: Threads + Sync>(
    rt: &R,
    alloc: Global,
    text: &[u8],
    query: &str,
    steps: &str,
) -> Result<(MemSink, u8), AllocError> {
    let mut files = MemFiles::new(alloc);
    let mut out = MemSink::new(alloc, 7);
    if !text.is_empty() && files.add("c.pl", text).is_err() {
        return Err(AllocError);
    }
    let words = words_of(alloc, query, steps)?;
    let status = run_tool(rt, alloc, &words, &mut files, &mut out);
    Ok((out, status))
}

// Whether the tool writes this for a file `c.pl`, with this status.
pub(crate) fn runs_so<R: Threads + Sync>(
    rt: &R,
    alloc: Global,
    text: &[u8],
    query: &str,
    steps: &str,
    written: &str,
    status: u8,
) -> Result<bool, AllocError> {
    let (out, ended) = run_file(rt, alloc, text, query, steps)?;
    Ok(ended == status && out.bytes() == written.as_bytes())
}

// The status of the tool for a file `c.pl`, at a bound of one call.
pub(crate) fn status_of<R: Threads + Sync>(
    rt: &R,
    alloc: Global,
    text: &str,
    query: &str,
) -> Result<u8, AllocError> {
    let (_, status) = run_file(rt, alloc, text.as_bytes(), query, "1")?;
    Ok(status)
}

fn case_runs_so<R: Threads + Sync>(rt: &R, alloc: Global, case: &Case) -> Result<bool, AllocError> {
    runs_so(
        rt,
        alloc,
        case.text.as_bytes(),
        case.query,
        case.steps,
        case.written,
        case.status,
    )
}

// The first case that runs otherwise: its file and its query.
pub(crate) fn first_other<R: Threads + Sync>(
    rt: &R,
    alloc: Global,
    cases: &[Case],
) -> Result<Option<(&'static str, &'static str)>, AllocError> {
    for case in cases {
        if !case_runs_so(rt, alloc, case)? {
            return Ok(Some((case.text, case.query)));
        }
    }
    Ok(None)
}
