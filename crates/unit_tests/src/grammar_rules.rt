// Rules and their clauses, as texts. The clause of a rule that the table refuses is the empty text.
use ciao_reader::{Sentence, read_goal};
use dcg_expand::{ExpandFault, expand_rule};
use sqlite_items::Items;
use std::alloc::Global;
use term_core::{GRAMMAR_ARROW, Names, NoMemory, OpTable, TRUE, Term, one, print_term, with_last};

const ROWS: [(&str, &str); 25] = [
    // The rules of a grammar of unary numbers.
    ("as(0) --> []", "as(0,_0,_1) :- _0 = _1"),
    (
        "as(s(N)) --> \"a\", as(N)",
        "as(s(_0),_1,_2) :- _1 = [97|_3],as(_0,_3,_2)",
    ),
    // Each line of the table.
    ("a --> b, c, d", "a(_0,_1) :- b(_0,_2),c(_2,_3),d(_3,_1)"),
    (
        "a --> (b, c), d",
        "a(_0,_1) :- (b(_0,_3),c(_3,_2)),d(_2,_1)",
    ),
    ("a --> b ; [c]", "a(_0,_1) :- b(_0,_1) ; _0 = [c|_1]"),
    ("a --> b | !", "a(_0,_1) :- b(_0,_1) ; !,_0 = _1"),
    ("a --> b -> c", "a(_0,_1) :- b(_0,_2) -> c(_2,_1)"),
    ("a --> \\+ b", "a(_0,_1) :- \\+ b(_0,_2),_0 = _1"),
    ("a(X) --> {q(X)}", "a(_0,_1,_2) :- q(_0),_1 = _2"),
    ("a --> [X, f(X)]", "a(_1,_2) :- _1 = [_0,f(_0)|_2]"),
    ("a --> {}", "a(_0,_1) :- '{}'(_0,_1)"),
    ("a --> q(1)", "a(_0,_1) :- q(1,_0,_1)"),
    ("a --> q(1, X)", "a(_1,_2) :- q(1,_0,_1,_2)"),
    ("a --> q(X, Y, X)", "a(_2,_3) :- q(_0,_1,_0,_2,_3)"),
    (
        "a --> \\+ (b, c) ; d",
        "a(_0,_1) :- \\+ (b(_0,_3),c(_3,_2)),_0 = _1 ; d(_0,_1)",
    ),
    // What has no line: pushback among them.
    ("a, [b] --> c", ""),
    ("X --> c", ""),
    ("1 --> c", ""),
    ("a(X) --> X", ""),
    ("a --> 1", ""),
    ("a(X) --> [b|X]", ""),
    ("a --> [b|c]", ""),
    ("a --> b, 1", ""),
    ("a --> \\+ 1 ; b", ""),
    ("a :- b", ""),
];

// The text of the clause of a rule, `?` for a text that is not read.
fn expanded(alloc: Global, text: &str) -> Result<String, NoMemory> {
    let mut names = Names::new(alloc)?;
    let ops = OpTable::standard(alloc)?;
    let mut out = String::new(alloc);
    match read_goal(alloc, &mut names, &ops, text) {
        Err(_) => out.push_str("?")?,
        Ok(rule) => match expand_rule(alloc, &rule) {
            Ok(clause) => print_term(&names, &ops, &clause.term, true, &mut out)?,
            Err(ExpandFault::BadExpansion) => {}
            Err(ExpandFault::NoMemory) => return Err(NoMemory),
        },
    }
    Ok(out)
}

// The number of the first rule with another clause.
fn first_other(alloc: Global, rows: &[(&str, &str)]) -> Result<Option<u64>, NoMemory> {
    let mut at = 0u64;
    for row in rows {
        let found = expanded(alloc, row.0)?;
        if found.as_str() != row.1 {
            return Ok(Some(at));
        }
        at = at.saturating_add(1);
    }
    Ok(None)
}

#[test]
fn rules(rt: HostRuntime) -> Result<(), NoMemory> {
    assert_eq!(rt; first_other(rt.alloc(), &ROWS)?, None);
    Ok(())
}

// Whether a rule has a clause whose body calls a name with so many arguments.
fn calls_with(alloc: Global, count: u64) -> Result<bool, NoMemory> {
    let mut arguments = Items::new(alloc);
    for _ in 0..count {
        arguments.push(Term::Int(1))?;
    }
    let parts = with_last(one(alloc, Term::Atom(TRUE))?, Term::Node(TRUE, arguments))?;
    let rule = Sentence {
        term: Term::Node(GRAMMAR_ARROW, parts),
        line: 1,
        vars: 0,
    };
    match expand_rule(alloc, &rule) {
        Ok(_) => Ok(true),
        Err(ExpandFault::BadExpansion) => Ok(false),
        Err(ExpandFault::NoMemory) => Err(NoMemory),
    }
}

#[test]
fn arities(rt: HostRuntime) -> Result<(), NoMemory> {
    let found = (calls_with(rt.alloc(), 253)?, calls_with(rt.alloc(), 254)?);
    assert_eq!(rt; found, (true, false));
    Ok(())
}
