// Clauses and what they become, as texts: each clause with a full stop, the empty text where there is no line.
use ciao_reader::{Sentence, read_goal};
use dcg_expand::ExpandFault;
use fsyntax_expand::expand_clause;
use sqlite_items::Items;
use std::alloc::Global;
use term_core::{
    COMMA, NECK, Names, NoMemory, OpTable, TILDE, TRUE, Term, discard, one, print_term, with_last,
};

const ROWS: [(&str, &str); 30] = [
    // The clauses of a module with a factorial and a type of colors.
    (
        "fact(N) := N = 0 ? 1 | ~mul(N,~fact(~dec(N)))",
        "fact(_0,_1) :- _0 = 0 -> _1 = 1 ; dec(_0,_2),fact(_2,_3),mul(_0,_3,_4),_1 = _4.",
    ),
    (
        "mul(X,Y) := Z :- Z is X * Y",
        "mul(_0,_1,_2) :- _2 is _0 * _1.",
    ),
    ("dec(X) := Y :- Y is X - 1", "dec(_0,_1) :- _1 is _0 - 1."),
    (
        "color := red | green | blue",
        "color(red).color(green).color(blue).",
    ),
    // Calls in heads, in goals and in results.
    ("p(~f(X)) :- q", "p(_1) :- f(_0,_1),q."),
    ("p(~f(X))", "p(_1) :- f(_0,_1)."),
    ("p :- q(~a,~b(~c))", "p :- a(_0),c(_1),b(_1,_2),q(_0,_2)."),
    ("p(X) :- q(~f(X)), r", "p(_0) :- (f(_0,_1),q(_1)),r."),
    (
        "p(X) :- \\+ q(~f(X)) ; r",
        "p(_0) :- \\+ (f(_0,_1),q(_1)) ; r.",
    ),
    ("p :- ~a -> ~b", "p :- a(_0),_0 -> b(_1),_1."),
    ("p :- (q | r(~a))", "p :- q | a(_0),r(_0)."),
    ("p := [~a|~b]", "p([_0|_1]) :- a(_0),b(_1)."),
    (
        "f(~g) := ~h :- q(~k)",
        "f(_0,_2) :- g(_0),(k(_1),q(_1)),h(_2).",
    ),
    // Results with a clause of their own, and results of a variable.
    ("f(X) := a | Y", "f(_0,a).f(_0,_1)."),
    (
        "f(X) := ~a | ~b(X)",
        "f(_0,_1) :- a(_1).f(_0,_1) :- b(_0,_1).",
    ),
    ("f := (a | b) | c", "f(a).f(b).f(c)."),
    ("f := a ? b", "f(_0) :- a -> _0 = b."),
    ("f := a | (b ? c)", "f(_0) :- _0 = a ; b -> _0 = c."),
    (
        "f := (a | (b ? c)) | d",
        "f(_0) :- _0 = a ; b -> _0 = c.f(d).",
    ),
    (
        "f := g(~h) ? ~a | c ? d",
        "f(_0) :- h(_1),g(_1) -> a(_2),_0 = _2 ; c -> _0 = d.",
    ),
    ("f(~g) := a ? b :- q", "f(_1,_0) :- g(_1),q,(a -> _0 = b)."),
    // What has no line.
    ("p := ~ (~a)", ""),
    ("p := a | b | ~ 1", ""),
    ("p :- q(~X)", ""),
    ("~a := b", ""),
    ("X := b", ""),
    ("1 := b", ""),
    ("X := b :- c", ""),
    ("p := a ? ~ 1", ""),
    ("p := a :- \\+ q(~ 1)", ""),
];

// The text of what a clause becomes, `?` for a text that is not read.
fn expanded(alloc: Global, text: &str) -> Result<String, NoMemory> {
    let mut names = Names::new(alloc)?;
    let ops = OpTable::standard(alloc)?;
    let mut out = String::new(alloc);
    match read_goal(alloc, &mut names, &ops, text) {
        Err(_) => out.push_str("?")?,
        Ok(clause) => match expand_clause(alloc, &clause) {
            Ok(made) => {
                for one in made.as_slice() {
                    print_term(&names, &ops, &one.term, true, &mut out)?;
                    out.push_str(".")?;
                }
            }
            Err(ExpandFault::BadExpansion) => {}
            Err(ExpandFault::NoMemory) => return Err(NoMemory),
        },
    }
    Ok(out)
}

// The number of the first clause that becomes something else.
fn first_other(alloc: Global, rows: &[(&str, &str)]) -> Result<Option<u64>, NoMemory> {
    let mut at = 0u64;
    for row in rows {
        let found = expanded(alloc, row.0)?;
        if found.as_str() != row.1 {
            return Ok(Some(at));
        }
        at = at.saturating_add(1);
    }
    Ok(None)
}

#[test]
fn clauses(rt: HostRuntime) -> Result<(), NoMemory> {
    assert_eq!(rt; first_other(rt.alloc(), &ROWS)?, None);
    Ok(())
}

// A compound of so many calls.
fn calls(alloc: Global, count: u64) -> Result<Term, NoMemory> {
    let mut parts = Items::new(alloc);
    for _ in 0..count {
        parts.push(Term::Node(TILDE, one(alloc, Term::Atom(TRUE))?))?;
    }
    Ok(Term::Node(TRUE, parts))
}

// A compound of so many compounds, each of 250 calls.
fn many_calls(alloc: Global, count: u64) -> Result<Term, NoMemory> {
    let mut parts = Items::new(alloc);
    for _ in 0..count {
        parts.push(calls(alloc, 250)?)?;
    }
    Ok(Term::Node(TRUE, parts))
}

// How many variables the last clause has, which is let go.
fn vars_of_last(mut clauses: Items<Sentence>) -> Option<u64> {
    let Sentence { term, vars, .. } = clauses.pop()?;
    discard(term);
    Some(vars)
}

// How many variables a clause has whose body is 50,000 calls and a last goal; none where it has no line.
fn vars_with(alloc: Global, last: Term) -> Result<Option<u64>, NoMemory> {
    let goals = with_last(one(alloc, many_calls(alloc, 200)?)?, last)?;
    let parts = with_last(one(alloc, Term::Atom(TRUE))?, Term::Node(COMMA, goals))?;
    let clause = Sentence {
        term: Term::Node(NECK, parts),
        line: 1,
        vars: 0,
    };
    match expand_clause(alloc, &clause) {
        Ok(clauses) => Ok(vars_of_last(clauses)),
        Err(ExpandFault::BadExpansion) => Ok(None),
        Err(ExpandFault::NoMemory) => Err(NoMemory),
    }
}

#[test]
fn deep_bodies(rt: HostRuntime) -> Result<(), NoMemory> {
    let alloc = rt.alloc();
    let refused = Term::Node(TILDE, one(alloc, Term::Int(1))?);
    let found = (
        vars_with(alloc, Term::Atom(TRUE))?,
        vars_with(alloc, refused)?,
    );
    assert_eq!(rt; found, (Some(50_000), None));
    Ok(())
}
