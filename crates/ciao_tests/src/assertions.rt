// Files with assertions: conditions that hold, and the first that is broken.
use crate::runs::{Case, first_other, runs_so};
use std::alloc::{AllocError, Global};
use std::test::Fail;
use std::thread::Threads;

const EITHER: &str = ":- module(c,[p/1]).\n:- pred p(X) : int(X).\n:- pred p(X) : atm(X).\np(_).\n";

const OUTCOME: &str =
    ":- module(c,[p/1]).\n:- pred p(X) : int(X).\n:- pred p(X) : atm(X) => list(X).\np(_).\n";

const LISTS: &str = ":- module(c,[p/1]).\n:- pred p(X) : list(X).\np(_).\n";

const SECOND: &str = ":- module(c,[p/1]).\n:- pred p(X) => int(X).\np(1).\np(a).\n";

const GIVES: &str = ":- module(c,[p/1]).\n:- pred p(X) : var(X) => int(X).\np(1).\np(a).\n";

const LATER: &str =
    ":- module(c,[p/1]).\n:- pred p(X) : var(X).\n:- pred p(X) : int(X) => atm(X).\np(1).\n";

const NOTED: &str =
    ":- module(c,[q/0,r/0]).\n:- pred p(X,Y) : int(X) => int(Y).\n:- pred p(X,Y) : atm(X).\np(1,2).\np(a,b).\np(3,c).\nq :- p(1,Y), p(a,Z).\nr :- p(a,Z), p(3,Y).\n";

const INNER: &str = ":- module(c,[q/0]).\nq :- p(a).\n:- pred p(X) : int(X).\np(_).\n";

const BOTH: &str =
    ":- module(c,[p/2]).\n:- pred p(X,Y) : (int(X), var(Y)) => (atm(Y), int(X)).\np(1,a).\np(2,3).\n";

const ORDER: &str =
    ":- module(c,[p/1]).\n:- pred p(X) => list(X).\n:- pred p(X) => atm(X).\np(7).\np([]).\np([a]).\n";

const COUNTED: &str =
    ":- module(c,[n/2]).\n:- pred n(X,Y) : list(X) => list(Y).\nn([],[]).\nn([X|Xs],[X|Ys]) :- n(Xs,Ys).\n";

const CASES: [Case; 42] = [
    // two assertions of one predicate, of which one has to hold at a call
    Case {
        text: EITHER,
        query: "p(f(a))",
        steps: "1000",
        written: "end: violated c.pl:2 calls p/1\n",
        status: 1,
    },
    Case {
        text: EITHER,
        query: "p(b)",
        steps: "1000",
        written: "answer: p(b)\nend: no more answers\n",
        status: 0,
    },
    Case {
        text: EITHER,
        query: "p(7)",
        steps: "1000",
        written: "answer: p(7)\nend: no more answers\n",
        status: 0,
    },
    Case {
        text: EITHER,
        query: "p(X)",
        steps: "1000",
        written: "end: violated c.pl:2 calls p/1\n",
        status: 1,
    },
    // no call is made, so no condition is broken
    Case {
        text: EITHER,
        query: "p(f(a))",
        steps: "0",
        written: "end: unknown, step bound\n",
        status: 5,
    },
    // one has to hold at a call, and the second of them has a postcondition
    Case {
        text: OUTCOME,
        query: "p(f(a))",
        steps: "1000",
        written: "end: violated c.pl:2 calls p/1\n",
        status: 1,
    },
    Case {
        text: OUTCOME,
        query: "p(b)",
        steps: "1000",
        written: "end: violated c.pl:3 success p/1\n",
        status: 1,
    },
    Case {
        text: OUTCOME,
        query: "p([])",
        steps: "1000",
        written: "answer: p([])\nend: no more answers\n",
        status: 0,
    },
    Case {
        text: OUTCOME,
        query: "p(7)",
        steps: "1000",
        written: "answer: p(7)\nend: no more answers\n",
        status: 0,
    },
    // a list that is open, one that is improper, and lists with unbound elements
    Case {
        text: LISTS,
        query: "p([1|T])",
        steps: "1000",
        written: "end: violated c.pl:2 calls p/1\n",
        status: 1,
    },
    Case {
        text: LISTS,
        query: "p([1|a])",
        steps: "1000",
        written: "end: violated c.pl:2 calls p/1\n",
        status: 1,
    },
    Case {
        text: LISTS,
        query: "p([A,B])",
        steps: "1000",
        written: "answer: p([_1,_2])\nend: no more answers\n",
        status: 0,
    },
    Case {
        text: LISTS,
        query: "p([A,A|[b]])",
        steps: "1000",
        written: "answer: p([_1,_1,b])\nend: no more answers\n",
        status: 0,
    },
    Case {
        text: LISTS,
        query: "p([])",
        steps: "1000",
        written: "answer: p([])\nend: no more answers\n",
        status: 0,
    },
    Case {
        text: LISTS,
        query: "p(T)",
        steps: "1000",
        written: "end: violated c.pl:2 calls p/1\n",
        status: 1,
    },
    // a postcondition that the second answer breaks, and not the first
    Case {
        text: SECOND,
        query: "p(X)",
        steps: "1000",
        written: "answer: p(1)\nend: violated c.pl:2 success p/1\n",
        status: 1,
    },
    Case {
        text: SECOND,
        query: "p(1)",
        steps: "1000",
        written: "answer: p(1)\nend: no more answers\n",
        status: 0,
    },
    Case {
        text: SECOND,
        query: "p(a)",
        steps: "1000",
        written: "end: violated c.pl:2 success p/1\n",
        status: 1,
    },
    Case {
        text: SECOND,
        query: "p(f(X))",
        steps: "1000",
        written: "end: no more answers\n",
        status: 0,
    },
    // a precondition that holds at the call and no longer at the exit: its postcondition is tested
    Case {
        text: GIVES,
        query: "p(X)",
        steps: "1000",
        written: "answer: p(1)\nend: violated c.pl:2 success p/1\n",
        status: 1,
    },
    Case {
        text: GIVES,
        query: "p(1)",
        steps: "1000",
        written: "end: violated c.pl:2 calls p/1\n",
        status: 1,
    },
    // a precondition that holds at the exit and not at the call: its postcondition is not tested
    Case {
        text: LATER,
        query: "p(X)",
        steps: "1000",
        written: "answer: p(1)\nend: no more answers\n",
        status: 0,
    },
    Case {
        text: LATER,
        query: "p(1)",
        steps: "1000",
        written: "end: violated c.pl:3 success p/1\n",
        status: 1,
    },
    Case {
        text: LATER,
        query: "p(a)",
        steps: "1000",
        written: "end: violated c.pl:2 calls p/1\n",
        status: 1,
    },
    // a success condition that one call of a predicate notes, and the next one does not
    Case {
        text: NOTED,
        query: "q",
        steps: "1000",
        written: "answer: q\nend: no more answers\n",
        status: 0,
    },
    Case {
        text: NOTED,
        query: "r",
        steps: "1000",
        written: "end: violated c.pl:2 success p/2\n",
        status: 1,
    },
    // a condition on a predicate that is not exported
    Case {
        text: INNER,
        query: "q",
        steps: "1000",
        written: "end: violated c.pl:3 calls p/1\n",
        status: 1,
    },
    // several properties, of several arguments, before and after
    Case {
        text: BOTH,
        query: "p(1,Y)",
        steps: "1000",
        written: "answer: p(1,a)\nend: no more answers\n",
        status: 0,
    },
    Case {
        text: BOTH,
        query: "p(2,Y)",
        steps: "1000",
        written: "end: violated c.pl:2 success p/2\n",
        status: 1,
    },
    Case {
        text: BOTH,
        query: "p(a,Y)",
        steps: "1000",
        written: "end: violated c.pl:2 calls p/2\n",
        status: 1,
    },
    Case {
        text: BOTH,
        query: "p(1,a)",
        steps: "1000",
        written: "end: violated c.pl:2 calls p/2\n",
        status: 1,
    },
    // two postconditions: the first that is broken is told
    Case {
        text: ORDER,
        query: "p(7)",
        steps: "1000",
        written: "end: violated c.pl:2 success p/1\n",
        status: 1,
    },
    Case {
        text: ORDER,
        query: "p([])",
        steps: "1000",
        written: "answer: p([])\nend: no more answers\n",
        status: 0,
    },
    Case {
        text: ORDER,
        query: "p([_])",
        steps: "1000",
        written: "end: violated c.pl:3 success p/1\n",
        status: 1,
    },
    // conditions on each call of a recursion
    Case {
        text: COUNTED,
        query: "n([1,2],Y)",
        steps: "1000",
        written: "answer: n([1,2],[1,2])\nend: no more answers\n",
        status: 0,
    },
    Case {
        text: COUNTED,
        query: "n([1|a],Y)",
        steps: "1000",
        written: "end: violated c.pl:2 calls n/2\n",
        status: 1,
    },
    Case {
        text: COUNTED,
        query: "n([],Y)",
        steps: "1000",
        written: "answer: n([],[])\nend: no more answers\n",
        status: 0,
    },
    // how assertions may be written
    Case {
        text: ":- module(c,[p/1]).\n:-pred p(X):(int(X),nnegint(X))=>int(X).\np(1).\n",
        query: "p(1)",
        steps: "1000",
        written: "answer: p(1)\nend: no more answers\n",
        status: 0,
    },
    Case {
        text: ":- module(c,[p/1]).\n% what comes out\n:- pred p( % the argument\n  X ) => ( int( X ) , gnd(X)\n) .\np(a).\n",
        query: "p(X)",
        steps: "1000",
        written: "end: violated c.pl:3 success p/1\n",
        status: 1,
    },
    Case {
        text: ":- module(c,[p/2]).\np(1,2).\n:- pred p(_,Y) => var(Y).\n",
        query: "p(A,B)",
        steps: "1000",
        written: "end: violated c.pl:3 success p/2\n",
        status: 1,
    },
    Case {
        text: ":- module(c,[p/1]).\n:- pred (p(X)) : (int(X)).\n:- pred(p(X) => gnd(X)).\np(1).\n",
        query: "p(1)",
        steps: "1000",
        written: "answer: p(1)\nend: no more answers\n",
        status: 0,
    },
    Case {
        text: ":- module(c,[p/2]). p(1,2). :- pred p(X,Y) : int(Y)\n=>(int(X),int(X)).\n",
        query: "p(A,2)",
        steps: "1000",
        written: "answer: p(1,2)\nend: no more answers\n",
        status: 0,
    },
];

#[test]
fn runs_with_assertions(rt: HostRuntime) -> Result<(), Fail> {
    assert_eq!(rt; first_other(&rt, rt.alloc(), &CASES)?, None);
    Ok(())
}

// Sentences that are no assertion, with their fault.
const OTHERS: [(&str, &str); 31] = [
    (":- pred p(X) : small(X).", "UnknownProperty"),
    (":- pred p(X) : int(Y).", "BadAssertion"),
    (":- pred p(X) : int(1).", "BadAssertion"),
    (":- pred p(X) : int(f(X)).", "BadAssertion"),
    (":- pred p(X,X) : int(X).", "BadAssertion"),
    (":- pred p(1) : int(X).", "BadAssertion"),
    (":- pred p(f(X)) : int(X).", "BadAssertion"),
    (":- pred p(X) => int(X) : int(X).", "BadAssertion"),
    (":- pred p(X) : int(X) : atm(X).", "Syntax"),
    (":- pred p(X) => int(X) => atm(X).", "Syntax"),
    (":- pred p(X) : int(X), atm(X).", "BadAssertion"),
    (":- pred p(X) : (int(X),).", "Syntax"),
    (":- pred p(X) : (int(X) atm(X)).", "Syntax"),
    (":- pred p(X) : int.", "BadAssertion"),
    (":- pred p(X) : X.", "BadAssertion"),
    (":- pred p : int(X).", "BadAssertion"),
    (":- pred int(X) : int(X).", "Undefined"),
    (":- pred [X] : int(X).", "BadAssertion"),
    (":- pred X:Y => int(X).", "BadAssertion"),
    (":- pred (X # Y) : int(X).", "BadAssertion"),
    (":- pred (X => Y) : int(X).", "BadAssertion"),
    (":- pred (X : Y) : int(X).", "BadAssertion"),
    (":- pred (X + Y) : int(X).", "BadAssertion"),
    (":- pred X : int(X).", "BadAssertion"),
    (":- pred p(X) : int(X)", "NoEnd"),
    (":- p(X).", "UnknownDirective"),
    (":- pred p(X) : int(X) :- p(X).", "Syntax"),
    (":- pred p(X) :- int(X).", "Syntax"),
    (":- pred p(X) : =>int(X).", "Syntax"),
    (":- pred p(X) = > int(X).", "Syntax"),
    (":- pred p/1 : int(X).", "BadAssertion"),
];

// Assertions, and what a call of `p(1)` gives.
const READ: [(&str, &str, u8); 8] = [
    (":- pred p(X).", "answer: p(1)\nend: no more answers\n", 0),
    (
        ":- pred p(X) : ((int(X), atm(X)), gnd(X)).",
        "end: violated c.pl:4 calls p/1\n",
        1,
    ),
    (
        ":- pred p(X) : list(X,int).",
        "end: violated c.pl:4 calls p/1\n",
        1,
    ),
    (
        ":- pred p(X) : true.",
        "answer: p(1)\nend: no more answers\n",
        0,
    ),
    (
        ":- calls p(X) : int(X).",
        "answer: p(1)\nend: no more answers\n",
        0,
    ),
    (
        ":- check pred p(X) : int(X).",
        "answer: p(1)\nend: no more answers\n",
        0,
    ),
    (
        ":- pred p(X) : int(X) + is_det.",
        "answer: p(1)\nend: no more answers\n",
        0,
    ),
    (
        ":- pred p(X) : int(X) # \"a comment\".",
        "answer: p(1)\nend: no more answers\n",
        0,
    ),
];

// A module with that sentence in line 4.
fn module_with(alloc: Global, sentence: &str) -> Result<String, AllocError> {
    let mut text = String::from_str(alloc, ":- module(c,[p/1]).\np(1).\np(1,2).\n")?;
    text.push_str(sentence)?;
    text.push_str("\n")?;
    Ok(text)
}

// What is written for a fault in line 4.
fn fault_text(alloc: Global, fault: &str) -> Result<String, AllocError> {
    let mut text = String::from_str(alloc, "fault: c.pl:4 ")?;
    text.push_str(fault)?;
    text.push_str("\n")?;
    Ok(text)
}

// Whether a module with that sentence is refused for that fault.
fn is_refused_so<R: Threads + Sync>(
    rt: &R,
    alloc: Global,
    sentence: &str,
    fault: &str,
) -> Result<bool, AllocError> {
    let text = module_with(alloc, sentence)?;
    let written = fault_text(alloc, fault)?;
    runs_so(rt, alloc, text.as_bytes(), "p(1)", "5", &written, 3)
}

// The first sentence that is refused otherwise, or read.
fn first_other_sentence<'a, R: Threads + Sync>(
    rt: &R,
    alloc: Global,
    rows: &[(&'a str, &str)],
) -> Result<Option<&'a str>, AllocError> {
    for row in rows {
        if !is_refused_so(rt, alloc, row.0, row.1)? {
            return Ok(Some(row.0));
        }
    }
    Ok(None)
}

// The first assertion with which a call of `p(1)` gives something else.
fn first_read_otherwise<'a, R: Threads + Sync>(
    rt: &R,
    alloc: Global,
    rows: &[(&'a str, &str, u8)],
) -> Result<Option<&'a str>, AllocError> {
    for row in rows {
        let text = module_with(alloc, row.0)?;
        if !runs_so(rt, alloc, text.as_bytes(), "p(1)", "5", row.1, row.2)? {
            return Ok(Some(row.0));
        }
    }
    Ok(None)
}

#[test]
fn sentences_that_are_assertions(rt: HostRuntime) -> Result<(), Fail> {
    assert_eq!(rt; first_read_otherwise(&rt, rt.alloc(), &READ)?, None);
    Ok(())
}

#[test]
fn sentences_that_are_no_assertions(rt: HostRuntime) -> Result<(), Fail> {
    assert_eq!(rt; first_other_sentence(&rt, rt.alloc(), &OTHERS)?, None);
    Ok(())
}
