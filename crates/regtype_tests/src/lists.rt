// The lists of an element, found or added.
use crate::grammars::{fault_told, grammar_told};
use crate::modules::modules_of;
use ciao_reader::read_sentences;
use prog_data::Grammar;
use regtype_grammar::{are_seen, grammar_of, list_of};
use std::alloc::{AllocError, Global};
use std::test::Fail;
use term_core::Names;

// Modules, an element, and what is told: the name of its lists, and the grammar then.
const ROWS: [(&str, u64, &str); 6] = [
    ("", 0, "9: "),
    ("", 1, "10: 10 [] ./1/10;"),
    (
        ":- regtype l/1.\nl([]).\nl([X|Y]) :- int(X), l(Y).",
        1,
        "10: 10 [] ./1/10;",
    ),
    (
        ":- regtype l/1.\nl([]).\nl([X|Y]) :- int(X), l(Y).",
        10,
        "11: 10 [] ./1/10;11 [] ./10/11;",
    ),
    (
        ":- regtype l/1.\nl([X|Y]) :- int(X), l(Y).\nl([]).",
        1,
        "11: 10 ./1/10 [];11 [] ./1/11;",
    ),
    (
        ":- regtype a/1.\na(X) :- list(X,int).",
        1,
        "11: 10 =11;11 [] ./1/11;",
    ),
];

// The name of the lists of an element, and the grammar with them.
fn list_told(
    alloc: Global,
    names: &Names,
    mut grammar: Grammar,
    element: u64,
) -> Result<String, AllocError> {
    match list_of(alloc, &mut grammar, element) {
        Ok(name) => {
            let text = grammar_told(alloc, names, &grammar)?;
            format!(in alloc; "{name}: {}", text.as_str())
        }
        Err(fault) => fault_told(alloc, &fault),
    }
}

// What is told of the lists of an element behind the types of a text.
fn told(alloc: Global, text: &str, element: u64) -> Result<String, Fail> {
    let mut names = Names::new(alloc)?;
    match read_sentences(alloc, &mut names, text.as_bytes()) {
        Ok(source) => {
            let modules = modules_of(alloc, &names, source.sentences.as_slice())?;
            if !are_seen(modules.as_slice()) {
                return Ok(String::from_str(alloc, "not seen")?);
            }
            match grammar_of(alloc, &names, modules.as_slice()) {
                Ok(grammar) => Ok(list_told(alloc, &names, grammar, element)?),
                Err(fault) => Ok(fault_told(alloc, &fault)?),
            }
        }
        Err(_) => Ok(String::from_str(alloc, "unread")?),
    }
}

// The first text of which something else is told.
fn first_other(
    alloc: Global,
    rows: &[(&'static str, u64, &'static str)],
) -> Result<Option<&'static str>, Fail> {
    for row in rows {
        if told(alloc, row.0, row.1)?.as_str() != row.2 {
            return Ok(Some(row.2));
        }
    }
    Ok(None)
}

#[test]
fn lists_are_found_or_added(rt: HostRuntime) -> Result<(), Fail> {
    assert_eq!(rt; first_other(rt.alloc(), &ROWS)?, None);
    Ok(())
}
