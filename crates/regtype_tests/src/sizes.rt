// How many names a grammar may have.
use crate::grammars::fault_told;
use crate::modules::modules_of;
use ciao_reader::read_sentences;
use regtype_grammar::{are_seen, grammar_of};
use std::alloc::{AllocError, Global};
use std::test::Fail;
use term_core::Names;

// How many types of one constant, a text behind them, and what is told: the number of names, or the fault.
const ROWS: [(u64, &str, &str); 7] = [
    (0, "", "10"),
    (502, "", "512"),
    (503, "", "TooManyNames"),
    (501, "t500(X) :- list(X,int).", "512"),
    (
        501,
        "t500(X) :- list(X,int).\nt500(X) :- list(X,atm).",
        "TooManyNames",
    ),
    (501, "t500(f(a,a)).", "TooManyNames"),
    (503, "t502(X) :- b(X).", "UnknownProperty 0 1007"),
];

// So many types of one constant.
fn types(alloc: Global, count: u64) -> Result<String, AllocError> {
    let mut out = String::new(alloc);
    for number in 0..count {
        out.push_str(format!(in alloc; ":- regtype t{number}/1.\nt{number}(a).\n")?.as_str())?;
    }
    Ok(out)
}

fn told(alloc: Global, count: u64, more: &str) -> Result<String, Fail> {
    let mut text = types(alloc, count)?;
    text.push_str(more)?;
    let mut names = Names::new(alloc)?;
    match read_sentences(alloc, &mut names, text.as_bytes()) {
        Ok(source) => {
            let modules = modules_of(alloc, &names, source.sentences.as_slice())?;
            if !are_seen(modules.as_slice()) {
                return Ok(String::from_str(alloc, "not seen")?);
            }
            match grammar_of(alloc, &names, modules.as_slice()) {
                Ok(grammar) => Ok(format!(in alloc; "{}", grammar.rules.len())?),
                Err(fault) => Ok(fault_told(alloc, &fault)?),
            }
        }
        Err(_) => Ok(String::from_str(alloc, "unread")?),
    }
}

// The first row of which something else is told.
fn first_other(
    alloc: Global,
    rows: &[(u64, &'static str, &'static str)],
) -> Result<Option<u64>, Fail> {
    for row in rows {
        if told(alloc, row.0, row.1)?.as_str() != row.2 {
            return Ok(Some(row.0));
        }
    }
    Ok(None)
}

#[test]
fn grammars_have_at_most_so_many_names(rt: HostRuntime) -> Result<(), Fail> {
    assert_eq!(rt; first_other(rt.alloc(), &ROWS)?, None);
    Ok(())
}
