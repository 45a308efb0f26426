// The types that modules see, each by its grammar name.
use crate::grammars::fault_told;
use crate::modules::modules_of;
use ciao_reader::read_sentences;
use prog_data::Seen;
use regtype_grammar::{are_seen, seen_types};
use sqlite_items::Items;
use std::alloc::{AllocError, Global};
use std::test::Fail;
use term_core::Names;

// Modules, and what each of them sees.
const ROWS: [(&str, &str); 4] = [
    ("", ";"),
    (":- regtype a/1.\na(x).\n:- regtype b/1.", " a=10 b=11;"),
    (
        ":- see(c,1,1).\n:- regtype a/1.\n:- next.\n:- regtype b/1.\n:- regtype c/1.",
        " c=12 a=10; b=11 c=12;",
    ),
    (
        ":- regtype a/1.\n:- next.\n:- see(a,0,0).\n:- regtype a/1.",
        " a=10; a=10 a=11;",
    ),
];

fn add_seen(
    alloc: Global,
    names: &Names,
    seen: &[Seen],
    out: &mut String,
) -> Result<(), AllocError> {
    for one in seen {
        out.push_str(" ")?;
        out.push_str(names.text_or_empty(one.name))?;
        out.push_str(format!(in alloc; "={}", one.kind)?.as_str())?;
    }
    out.push_str(";")
}

fn all_told(alloc: Global, names: &Names, modules: &[Items<Seen>]) -> Result<String, AllocError> {
    let mut out = String::new(alloc);
    for seen in modules {
        add_seen(alloc, names, seen.as_slice(), &mut out)?;
    }
    Ok(out)
}

// What is told of the modules of a text.
fn told(alloc: Global, text: &str) -> Result<String, Fail> {
    let mut names = Names::new(alloc)?;
    match read_sentences(alloc, &mut names, text.as_bytes()) {
        Ok(source) => {
            let modules = modules_of(alloc, &names, source.sentences.as_slice())?;
            if !are_seen(modules.as_slice()) {
                return Ok(String::from_str(alloc, "not seen")?);
            }
            match seen_types(alloc, modules.as_slice()) {
                Ok(seen) => Ok(all_told(alloc, &names, seen.as_slice())?),
                Err(fault) => Ok(fault_told(alloc, &fault)?),
            }
        }
        Err(_) => Ok(String::from_str(alloc, "unread")?),
    }
}

// The first text of which something else is told.
fn first_other(
    alloc: Global,
    rows: &[(&'static str, &'static str)],
) -> Result<Option<&'static str>, Fail> {
    for row in rows {
        if told(alloc, row.0)?.as_str() != row.1 {
            return Ok(Some(row.0));
        }
    }
    Ok(None)
}

#[test]
fn modules_see_types(rt: HostRuntime) -> Result<(), Fail> {
    assert_eq!(rt; first_other(rt.alloc(), &ROWS)?, None);
    Ok(())
}
