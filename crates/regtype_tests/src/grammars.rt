// The grammar of the types of modules, or why they have none.
use crate::modules::modules_of;
use ciao_reader::read_sentences;
use prog_data::{Grammar, Place, Rule};
use regtype_grammar::{TypeFault, are_seen, grammar_of};
use std::alloc::{AllocError, Global};
use std::test::Fail;
use term_core::Names;

// Modules, and what is told of them: each name behind the basic ones with its rules, where `=` is a unit rule; or the fault with the position of its module and its line.
const ROWS: [(&str, &str); 49] = [
    // constants, compounds, units
    (
        ":- regtype tree/1.\ntree(leaf).\ntree(node(L,N,R)) :- tree(L), int(N), tree(R).",
        "10 leaf node/10/1/10;",
    ),
    (
        ":- regtype a(X).\na(X) :- int(X).\na(X).\na(X) :- true.",
        "10 =1 =0 =0;",
    ),
    (":- regtype a/1.\na(-1).\na(f(_)).", "10 -1 f/0;"),
    (
        ":- regtype a/1.\na(f(X,Y,Z)) :- (int(X), atm(Z)), gnd(Y).",
        "10 f/1/5/4;",
    ),
    // parts, outer before inner and left before right, equal ones each by itself
    (
        ":- regtype t(X).\nt(f(g(a),g(a),X,1)) :- list(X,t).",
        "10 f/11/13/16/15;11 g/12;12 a;13 g/14;14 a;15 1;16 [] ./10/16;",
    ),
    (
        ":- regtype t/1.\nt([X,Y]) :- atm(Y).\nt(f([])).",
        "10 ./0/11 f/13;11 ./4/12;12 [];13 [];",
    ),
    // the lists of a clause by its literals, before the parts of the next clause
    (
        ":- regtype a/1.\na(f(X,Y)) :- list(Y,int), list(X,atm).",
        "10 f/12/11;11 [] ./1/11;12 [] ./4/12;",
    ),
    (
        ":- regtype a/1.\na(f(b,X)) :- list(X,int).\na(g(c)).",
        "10 f/11/12 g/13;11 b;12 [] ./1/12;13 c;",
    ),
    // several types, mutual ones, types that lead to one another
    (
        ":- regtype a/1.\na(f(X)) :- b(X).\n:- regtype b/1.\nb(c).\nb(g(X)) :- a(X).",
        "10 f/11;11 c g/10;",
    ),
    (
        ":- regtype a/1.\na(X) :- b(X).\n:- regtype b/1.\nb(X) :- a(X).",
        "10 =11;11 =10;",
    ),
    (":- regtype a/1.\na(X) :- a(X).", "10 =10;"),
    // lists: that of any term is there, each other one is added once
    (
        ":- regtype a/1.\na(X) :- list(X,term).\na(X) :- list(X).",
        "10 =9 =9;",
    ),
    (
        ":- regtype a/1.\na(f(X,Y)) :- list(X,int), list(Y,int).\na(X) :- list(X,int).",
        "10 f/11/11 =11;11 [] ./1/11;",
    ),
    (
        ":- regtype a/1.\na(X) :- list(X,int).\n:- regtype b/1.\nb(X) :- list(X,a).\n:- regtype c/1.\nc(X) :- list(X,list).",
        "10 =13;11 =14;12 =15;13 [] ./1/13;14 [] ./10/14;15 [] ./9/15;",
    ),
    (
        ":- regtype l/1.\nl([]).\nl([X|Y]) :- int(X), l(Y).\n:- regtype k/1.\nk(X) :- list(X,int).",
        "10 [] ./1/10;11 =12;12 [] ./1/12;",
    ),
    // several modules
    (
        ":- regtype a/1.\na(x).\n:- next.\n:- see(a,0,0).\n:- regtype b/1.\nb(X) :- a(X).",
        "10 x;11 =10;",
    ),
    (
        ":- see(b,1,1).\n:- regtype a/1.\na(X) :- b(X).\n:- next.\n:- regtype c/1.\nc(x).\n:- regtype b/1.\nb(y).",
        "10 =12;11 x;12 y;",
    ),
    (
        ":- regtype a/1.\na(x).\n:- next.\n:- regtype a/1.\na(y).\n:- regtype b/1.\nb(X) :- a(X).",
        "10 x;11 y;12 =11;",
    ),
    (
        ":- regtype a/1.\na(x).\n:- next.\n:- see(b,0,0).\n:- regtype a/1.\na(f(X)) :- b(X).",
        "not seen",
    ),
    (":- next.", ""),
    (":- see(a,0,0).", "not seen"),
    (":- see(a,1,0).\n:- regtype b/1.\nb(a).", "not seen"),
    // a type that several modules give
    (
        ":- regtype a/1.\na(x).\n:- next.\n:- see(a,0,0).\n:- regtype a/1.\na(y).\n:- regtype b/1.\nb(X) :- a(X).",
        "Ambiguous 1 8",
    ),
    (
        ":- regtype a/1.\na(x).\n:- next.\n:- see(a,0,0).\n:- regtype a/1.\na(y).",
        "10 x;11 y;",
    ),
    (
        ":- regtype a/1.\na(x).\n:- next.\n:- see(a,0,0).\n:- regtype a/1.\na(y).\n:- regtype b/1.\nb(X) :- list(X,a).",
        "Ambiguous 1 8",
    ),
    (
        ":- regtype a/1.\na(x).\n:- next.\n:- regtype a/1.\na(y).\n:- next.\n:- see(a,0,0).\n:- see(a,1,0).\n:- regtype b/1.\nb(X) :- a(X).",
        "Ambiguous 2 10",
    ),
    (
        ":- regtype a/1.\na(x).\n:- next.\n:- regtype b/1.\nb(y).\n:- next.\n:- see(b,1,0).\n:- see(a,0,0).\n:- regtype c/1.\nc(f(X,Y)) :- a(X), b(Y).",
        "10 x;11 y;12 f/10/11;",
    ),
    // declarations
    (":- regtype int/1.\nint(1).", "BadRegtype 0 1"),
    (":- regtype ground(X).\nground(1).", "BadRegtype 0 1"),
    (
        ":- regtype a/1.\na(x).\n:- regtype a/1.\na(y).",
        "BadRegtype 0 3",
    ),
    (":- regtype a/1.", "BadRegtype 0 1"),
    // clauses
    (":- regtype a/1.\na(f(X,X)).", "BadRegtype 0 2"),
    (":- regtype a/1.\na(X) :- int(Y).", "BadRegtype 0 2"),
    (":- regtype a/1.\na(X) :- int(X), atm(X).", "BadRegtype 0 2"),
    (":- regtype a/1.\na(X) :- X.", "BadRegtype 0 2"),
    (":- regtype a/1.\na(X) :- true, int(X).", "BadRegtype 0 2"),
    (":- regtype a/1.\na(X) :- int(f(X)).", "BadRegtype 0 2"),
    (":- regtype a/1.\na(X) :- t(X,int).", "BadRegtype 0 2"),
    (":- regtype a/1.\na(f(X,Y)) :- list(X,Y).", "BadRegtype 0 2"),
    (":- regtype a/1.\na(X,Y).", "BadRegtype 0 2"),
    (":- regtype a/1.\nb(x).", "BadRegtype 0 2"),
    // names of types
    (":- regtype a/1.\na(X) :- b(X).", "UnknownProperty 0 2"),
    (":- regtype a/1.\na(X) :- var(X).", "UnknownProperty 0 2"),
    (
        ":- regtype a/1.\na(X) :- list(X,ground).",
        "UnknownProperty 0 2",
    ),
    // the least fault
    (
        ":- regtype a/1.\na(X) :- b(X). a(f(X,X)).",
        "BadRegtype 0 2",
    ),
    (
        ":- regtype a/1.\na(X) :- b(X).\na(f(X,X)).",
        "UnknownProperty 0 2",
    ),
    (
        ":- regtype a/1.\na(x).\n:- next.\n:- see(a,0,0).\n:- regtype a/1.\na(y).\n:- regtype b/1.\nb(X) :- a(X). b(X) :- c(X).",
        "UnknownProperty 1 8",
    ),
    (
        ":- next.\n:- regtype a/1.\na(x).\na(X) :- b(X).\n:- next.\n:- regtype int/1.",
        "UnknownProperty 1 4",
    ),
    (
        ":- regtype a/1.\na(x). :- regtype int/1. int(X) :- b(X).",
        "BadRegtype 0 2",
    ),
];

fn add_rule(alloc: Global, names: &Names, rule: &Rule, out: &mut String) -> Result<(), AllocError> {
    match rule {
        Rule::Basic(_) => out.push_str("basic"),
        Rule::Int(number) => out.push_str(format!(in alloc; "{number}")?.as_str()),
        Rule::Atom(name) => out.push_str(names.text_or_empty(*name)),
        Rule::Unit(name) => out.push_str(format!(in alloc; "={name}")?.as_str()),
        Rule::Node(name, parts) => {
            out.push_str(names.text_or_empty(*name))?;
            for part in parts.as_slice() {
                out.push_str(format!(in alloc; "/{part}")?.as_str())?;
            }
            Ok(())
        }
    }
}

fn add_rules(
    alloc: Global,
    names: &Names,
    rules: &[Rule],
    out: &mut String,
) -> Result<(), AllocError> {
    for rule in rules {
        out.push_str(" ")?;
        add_rule(alloc, names, rule, out)?;
    }
    out.push_str(";")
}

/// The names behind the basic ones, with their rules.
pub(crate) fn grammar_told(
    alloc: Global,
    names: &Names,
    grammar: &Grammar,
) -> Result<String, AllocError> {
    let mut out = String::new(alloc);
    for (number, rules) in grammar.rules.as_slice().iter().enumerate() {
        if number >= 10 {
            out.push_str(format!(in alloc; "{number}")?.as_str())?;
            add_rules(alloc, names, rules.as_slice(), &mut out)?;
        }
    }
    Ok(out)
}

fn at_place(alloc: Global, kind: &str, position: u64, place: Place) -> Result<String, AllocError> {
    format!(in alloc; "{kind} {position} {}", place.line)
}

/// A fault in words.
pub(crate) fn fault_told(alloc: Global, fault: &TypeFault) -> Result<String, AllocError> {
    match fault {
        TypeFault::BadRegtype(position, place) => at_place(alloc, "BadRegtype", *position, *place),
        TypeFault::UnknownProperty(position, place) => {
            at_place(alloc, "UnknownProperty", *position, *place)
        }
        TypeFault::Ambiguous(position, place) => at_place(alloc, "Ambiguous", *position, *place),
        TypeFault::TooManyNames => String::from_str(alloc, "TooManyNames"),
        TypeFault::NoMemory => String::from_str(alloc, "memory"),
    }
}

// What is told of the modules of a text.
fn told(alloc: Global, text: &str) -> Result<String, Fail> {
    let mut names = Names::new(alloc)?;
    match read_sentences(alloc, &mut names, text.as_bytes()) {
        Ok(source) => {
            let modules = modules_of(alloc, &names, source.sentences.as_slice())?;
            if !are_seen(modules.as_slice()) {
                return Ok(String::from_str(alloc, "not seen")?);
            }
            match grammar_of(alloc, &names, modules.as_slice()) {
                Ok(grammar) => Ok(grammar_told(alloc, &names, &grammar)?),
                Err(fault) => Ok(fault_told(alloc, &fault)?),
            }
        }
        Err(_) => Ok(String::from_str(alloc, "unread")?),
    }
}

// The first text of which something else is told.
fn first_other(
    alloc: Global,
    rows: &[(&'static str, &'static str)],
) -> Result<Option<&'static str>, Fail> {
    for row in rows {
        if told(alloc, row.0)?.as_str() != row.1 {
            return Ok(Some(row.0));
        }
    }
    Ok(None)
}

#[test]
fn grammars_of_modules(rt: HostRuntime) -> Result<(), Fail> {
    assert_eq!(rt; first_other(rt.alloc(), &ROWS)?, None);
    Ok(())
}
