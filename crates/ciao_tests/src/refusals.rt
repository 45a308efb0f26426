// Each rule of the language broken alone, behind another one, on one line with another one, and in a second file.
use crate::sets::{add_file, files_of, tool_writes_so};
use std::alloc::{AllocError, Global};
use std::test::Fail;
use std::thread::Threads;

// Sentences that break a rule while files are loaded.
const LOADED: [(&str, &str); 12] = [
    ("q(1.5).", "BadToken"),
    ("q(9223372036854775808).", "IntRange"),
    ("q(a.", "Syntax"),
    (":- op(500,xfy,++).", "OpRefused"),
    ("q", "NoEnd"),
    (":- module(c,[]).", "BadModule"),
    (":- initialization(s).", "UnknownDirective"),
    (":- use_module(library).", "NoFile"),
    (":- use_module(1).", "UnknownDirective"),
    (":- use_package(foo).", "UnknownPackage"),
    (":- use_module(library(foo)).", "UnknownLibrary"),
    (":- use_module(nofile).", "NoFile"),
];

// Sentences that break a rule of linked files, in the order in which faults of one line are told.
const LINKED: [(&str, &str); 8] = [
    ("q := ~ 1.", "BadExpansion"),
    (":- regtype t/2.", "BadRegtype"),
    (":- pred s(X) : small(X).", "UnknownProperty"),
    (":- pred s(X) : int(Y).", "BadAssertion"),
    ("int(1).", "BadClause"),
    (":- use_module(library(lists),[zz/0]).", "NotExported"),
    ("q :- two.", "Ambiguous"),
    ("q :- r.", "Undefined"),
];

// The front of a module, which imports a predicate `two` of two others.
fn front(alloc: Global, module: &str) -> Result<String, AllocError> {
    Ok(format!(in alloc;
        ":- module({module},[],[fsyntax]). :- use_module(d1). :- use_module(d2).\ns(_).\n"
    )?)
}

const GIVERS: [(&str, &str); 2] = [
    ("d1.pl", ":- module(d1,[two/0]).\ntwo.\n"),
    ("d2.pl", ":- module(d2,[two/0]).\ntwo.\n"),
];

const WORDS: [&str; 5] = ["run", "c.pl", "s(1)", "--steps", "5"];

// Whether a module `c`, with the other files, is refused so.
fn is_refused<R: Threads + Sync>(
    rt: &R,
    alloc: Global,
    main: &str,
    other: &str,
    written: &str,
) -> Result<bool, AllocError> {
    let mut files = files_of(alloc, &GIVERS)?;
    add_file(&mut files, "c.pl", main)?;
    add_file(&mut files, "d.pl", other)?;
    tool_writes_so(rt, alloc, &mut files, &WORDS, written, 3)
}

// Whether a sentence is refused alone, in line 3.
fn alone<R: Threads + Sync>(
    rt: &R,
    alloc: Global,
    sentence: &str,
    kind: &str,
) -> Result<bool, AllocError> {
    let main = format!(in alloc; "{}{sentence}\n", front(alloc, "c")?.as_str())?;
    let written = format!(in alloc; "fault: c.pl:3 {kind}\n")?;
    is_refused(
        rt,
        alloc,
        main.as_str(),
        ":- module(d,[]).\n",
        written.as_str(),
    )
}

// Whether it is refused in line 3 of a second file.
fn in_second<R: Threads + Sync>(
    rt: &R,
    alloc: Global,
    sentence: &str,
    kind: &str,
) -> Result<bool, AllocError> {
    let other = format!(in alloc; "{}{sentence}\n", front(alloc, "d")?.as_str())?;
    let written = format!(in alloc; "fault: d.pl:3 {kind}\n")?;
    is_refused(
        rt,
        alloc,
        ":- module(c,[]).\n:- use_module(d).\n",
        other.as_str(),
        written.as_str(),
    )
}

// Whether of two sentences in lines 3 and 4 this one is refused, in this line.
fn of_two<R: Threads + Sync>(
    rt: &R,
    alloc: Global,
    first: &str,
    between: &str,
    second: &str,
    told: &str,
) -> Result<bool, AllocError> {
    let main = format!(in alloc; "{}{first}{between}{second}\n", front(alloc, "c")?.as_str())?;
    let written = format!(in alloc; "fault: c.pl:{told}\n")?;
    is_refused(
        rt,
        alloc,
        main.as_str(),
        ":- module(d,[]).\n",
        written.as_str(),
    )
}

// The first sentence that is refused otherwise alone, or in a second file.
fn first_other<'a, R: Threads + Sync>(
    rt: &R,
    alloc: Global,
    rows: &[(&'a str, &str)],
) -> Result<Option<&'a str>, AllocError> {
    for (sentence, kind) in rows {
        if !(alone(rt, alloc, sentence, kind)? && in_second(rt, alloc, sentence, kind)?) {
            return Ok(Some(*sentence));
        }
    }
    Ok(None)
}

// The first sentence that is refused otherwise behind one in the line before that no predicate has.
fn first_other_behind<'a, R: Threads + Sync>(
    rt: &R,
    alloc: Global,
    rows: &[(&'a str, &str)],
    line: u64,
    kind_before: Option<&str>,
) -> Result<Option<&'a str>, AllocError> {
    for (sentence, kind) in rows {
        let told = format!(in alloc; "{line} {}", kind_before.unwrap_or(kind))?;
        if !of_two(rt, alloc, "q :- r.", "\n", sentence, told.as_str())? {
            return Ok(Some(*sentence));
        }
    }
    Ok(None)
}

// The first two sentences of one line of which not the one before in the order is told.
fn first_other_pair<'a, R: Threads + Sync>(
    rt: &R,
    alloc: Global,
    rows: &[(&'a str, &str)],
    sentence: &str,
    kind: &str,
) -> Result<Option<&'a str>, AllocError> {
    let told = format!(in alloc; "3 {kind}")?;
    for (other, _) in rows {
        if !of_two(rt, alloc, other, " ", sentence, told.as_str())? {
            return Ok(Some(*other));
        }
    }
    Ok(None)
}

#[test]
fn rules_that_are_broken(rt: HostRuntime) -> Result<(), Fail> {
    let alloc = rt.alloc();
    assert_eq!(rt; first_other(&rt, alloc, &LOADED)?, None);
    assert_eq!(rt; first_other(&rt, alloc, &LINKED)?, None);
    Ok(())
}

#[test]
fn rules_that_are_broken_behind_another(rt: HostRuntime) -> Result<(), Fail> {
    let alloc = rt.alloc();
    assert_eq!(rt; first_other_behind(&rt, alloc, &LOADED, 4, None)?, None);
    assert_eq!(rt;
        first_other_behind(&rt, alloc, &LINKED, 3, Some("Undefined"))?,
        None
    );
    Ok(())
}

// The first of the rules with which another of the same line is told otherwise.
fn first_other_of_pairs<'a, R: Threads + Sync>(
    rt: &R,
    alloc: Global,
    rows: &[(&'a str, &'a str)],
) -> Result<Option<&'a str>, AllocError> {
    for (place, (sentence, kind)) in rows.iter().enumerate() {
        if first_other_pair(rt, alloc, &rows[place..], sentence, kind)?.is_some() {
            return Ok(Some(*kind));
        }
    }
    Ok(None)
}

#[test]
fn rules_that_are_broken_in_one_line(rt: HostRuntime) -> Result<(), Fail> {
    assert_eq!(rt; first_other_of_pairs(&rt, rt.alloc(), &LINKED)?, None);
    Ok(())
}
