// The tool over sets of files and a sink in memory.
use byte_io::{MemFiles, MemSink};
use ciao_top::run_tool;
use std::alloc::{AllocError, Global};
use std::thread::Threads;

// Files with their texts, the words of a command, and what is written, with the status.
pub(crate) struct SetCase {
    pub(crate) files: &'static [(&'static str, &'static str)],
    pub(crate) words: &'static [&'static str],
    pub(crate) written: &'static str,
    pub(crate) status: u8,
}

// One file more.
pub(crate) fn add_file(files: &mut MemFiles, name: &str, text: &str) -> Result<(), AllocError> {
    if files.add(name, text.as_bytes()).is_err() {
        return Err(AllocError);
    }
    Ok(())
}

pub(crate) fn files_of(alloc: Global, texts: &[(&str, &str)]) -> Result<MemFiles, AllocError> {
    let mut files = MemFiles::new(alloc);
    for (name, text) in texts {
        add_file(&mut files, name, text)?;
    }
    Ok(files)
}

fn words_of(alloc: Global, texts: &[&str]) -> Result<Vec<String>, AllocError> {
    let mut words = Vec::new(alloc);
    for text in texts {
        words.push(String::from_str(alloc, text)?)?;
    }
    Ok(words)
}

// Whether the tool writes this over these files, with this status.
pub(crate) fn tool_writes_so<R: Threads + Sync>(
    rt: &R,
    alloc: Global,
    files: &mut MemFiles,
    words: &[&str],
    written: &str,
    status: u8,
) -> Result<bool, AllocError> {
    let mut out = MemSink::new(alloc, 7);
    let words = words_of(alloc, words)?;
    let ended = run_tool(rt, alloc, &words, files, &mut out);
    Ok(ended == status && out.bytes() == written.as_bytes())
}

// Whether the tool writes this for files and words, with this status.
pub(crate) fn writes_so<R: Threads + Sync>(
    rt: &R,
    alloc: Global,
    texts: &[(&str, &str)],
    words: &[&str],
    written: &str,
    status: u8,
) -> Result<bool, AllocError> {
    let mut files = files_of(alloc, texts)?;
    tool_writes_so(rt, alloc, &mut files, words, written, status)
}

// The place of the first case that comes out otherwise.
pub(crate) fn first_other_set<R: Threads + Sync>(
    rt: &R,
    alloc: Global,
    cases: &[SetCase],
) -> Result<Option<usize>, AllocError> {
    for (place, case) in cases.iter().enumerate() {
        if !writes_so(rt, alloc, case.files, case.words, case.written, case.status)? {
            return Ok(Some(place));
        }
    }
    Ok(None)
}
