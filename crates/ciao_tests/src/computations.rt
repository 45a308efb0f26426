// Conditions of the computation, and conditions in all places.
use crate::runs::{Case, first_other};
use std::test::Fail;

const CASES: [Case; 30] = [
    // what is to fail
    Case {
        text: ":- module(c,_).\n:- comp p(X) : int(X) + fails.\np(_).\n",
        query: "p(1)",
        steps: "1000",
        written: "end: violated c.pl:2 fails p/1\n",
        status: 1,
    },
    Case {
        text: ":- module(c,_).\n:- comp p(X) : int(X) + fails.\np(_).\n",
        query: "p(a)",
        steps: "1000",
        written: "answer: p(a)\nend: no more answers\n",
        status: 0,
    },
    Case {
        text: ":- module(c,_).\n:- comp p(X) + fails.\np(1).\n",
        query: "p(2)",
        steps: "1000",
        written: "end: no more answers\n",
        status: 0,
    },
    // what is to succeed once
    Case {
        text: ":- module(c,_).\n:- pred p(X) + is_det.\np(1).\np(2).\n",
        query: "p(X)",
        steps: "1000",
        written: "answer: p(1)\nend: violated c.pl:2 is_det p/1\n",
        status: 1,
    },
    Case {
        text: ":- module(c,_).\n:- pred p(X) + is_det.\np(1).\np(2).\n",
        query: "p(2)",
        steps: "1000",
        written: "answer: p(2)\nend: no more answers\n",
        status: 0,
    },
    // preconditions choose
    Case {
        text: ":- module(c,_).\n:- pred p(X) : var(X) + is_det.\n:- pred p(X) : int(X) + not_fails.\np(1).\np(2).\n",
        query: "p(3)",
        steps: "1000",
        written: "end: violated c.pl:3 not_fails p/1\n",
        status: 1,
    },
    Case {
        text: ":- module(c,_).\n:- pred p(X) : var(X) + is_det.\n:- pred p(X) : int(X) + not_fails.\np(1).\np(2).\n",
        query: "p(X)",
        steps: "1000",
        written: "answer: p(1)\nend: violated c.pl:2 is_det p/1\n",
        status: 1,
    },
    // a cut of the caller takes the mark off
    Case {
        text: ":- module(c,_).\n:- pred q(X) + is_det.\np(X) :- q(X), !.\nq(1).\nq(2).\n",
        query: "p(X)",
        steps: "1000",
        written: "answer: p(1)\nend: no more answers\n",
        status: 0,
    },
    Case {
        text: ":- module(c,_).\n:- pred q(X) + is_det.\np(X) :- ( q(X) -> true ; true ).\nq(1).\nq(2).\n",
        query: "p(X)",
        steps: "1000",
        written: "answer: p(1)\nend: no more answers\n",
        status: 0,
    },
    // the second exit is looked at, whatever comes of the first
    Case {
        text: ":- module(c,_).\n:- pred q(X) + is_det.\np(X) :- q(X), X > 1.\nq(1).\nq(2).\n",
        query: "p(X)",
        steps: "1000",
        written: "end: violated c.pl:2 is_det q/1\n",
        status: 1,
    },
    // a cut of one's own
    Case {
        text: ":- module(c,_).\n:- pred q(X) + is_det.\nq(1) :- !.\nq(2).\n",
        query: "q(X)",
        steps: "1000",
        written: "answer: q(1)\nend: no more answers\n",
        status: 0,
    },
    // a cut does not take one's own mark off
    Case {
        text: ":- module(c,_).\n:- pred q + not_fails.\nq :- !, fail.\nq.\n",
        query: "q",
        steps: "1000",
        written: "end: violated c.pl:2 not_fails q/0\n",
        status: 1,
    },
    Case {
        text: ":- module(c,_).\n:- pred q + not_fails.\np :- q, !, fail.\nq.\n",
        query: "p",
        steps: "1000",
        written: "end: no more answers\n",
        status: 0,
    },
    // what has succeeded may fail later
    Case {
        text: ":- module(c,_).\n:- pred q + not_fails.\np :- q, fail.\nq.\n",
        query: "p",
        steps: "1000",
        written: "end: no more answers\n",
        status: 0,
    },
    // in a negation, and in a condition
    Case {
        text: ":- module(c,_).\n:- pred q + not_fails.\np :- \\+ q.\nq :- fail.\n",
        query: "p",
        steps: "1000",
        written: "end: violated c.pl:2 not_fails q/0\n",
        status: 1,
    },
    Case {
        text: ":- module(c,_).\n:- pred q + not_fails.\np :- ( q -> true ; true ).\nq :- fail.\n",
        query: "p",
        steps: "1000",
        written: "end: violated c.pl:2 not_fails q/0\n",
        status: 1,
    },
    Case {
        text: ":- module(c,_).\n:- pred q(X) : int(X) => atm(X).\np :- \\+ q(1).\nq(_).\n",
        query: "p",
        steps: "1000",
        written: "end: violated c.pl:2 success q/1\n",
        status: 1,
    },
    Case {
        text: ":- module(c,_).\n:- pred q(X) : int(X).\np :- \\+ q(a).\nq(_).\n",
        query: "p",
        steps: "1000",
        written: "end: violated c.pl:2 calls q/1\n",
        status: 1,
    },
    Case {
        text: ":- module(c,_).\n:- pred q(X) : int(X).\np :- ( q(a) ; true ).\nq(_).\n",
        query: "p",
        steps: "1000",
        written: "end: violated c.pl:2 calls q/1\n",
        status: 1,
    },
    // a postcondition and several of the computation
    Case {
        text: ":- module(c,_).\n:- pred p(X) => int(X) + (is_det, not_fails).\np(1).\np(2).\n",
        query: "p(X)",
        steps: "1000",
        written: "answer: p(1)\nend: violated c.pl:2 is_det p/1\n",
        status: 1,
    },
    Case {
        text: ":- module(c,_).\n:- pred p(X) => int(X) + (is_det, not_fails).\np(1).\np(2).\n",
        query: "p(3)",
        steps: "1000",
        written: "end: violated c.pl:2 not_fails p/1\n",
        status: 1,
    },
    Case {
        text: ":- module(c,_).\n:- pred p(X) => int(X) + (is_det, not_fails).\np(a).\n",
        query: "p(X)",
        steps: "1000",
        written: "end: violated c.pl:2 success p/1\n",
        status: 1,
    },
    Case {
        text: ":- module(c,_).\n:- pred p(X) + (fails, not_fails).\np(1).\n",
        query: "p(1)",
        steps: "1000",
        written: "end: violated c.pl:2 fails p/1\n",
        status: 1,
    },
    Case {
        text: ":- module(c,_).\n:- pred p(X) + (fails, not_fails).\np(1).\n",
        query: "p(2)",
        steps: "1000",
        written: "end: violated c.pl:2 not_fails p/1\n",
        status: 1,
    },
    // a precondition is looked at when the call is made
    Case {
        text: ":- module(c,_).\n:- success p(X,Y) : int(X) => int(Y).\np(X,Y) :- Y = X, q(X).\nq(_).\n",
        query: "p(X,Y)",
        steps: "1000",
        written: "answer: p(_1,_1)\nend: no more answers\n",
        status: 0,
    },
    Case {
        text: ":- module(c,_).\n:- success p(X,Y) : var(X) => int(Y).\np(a,Y) :- Y = b.\n",
        query: "p(X,Y)",
        steps: "1000",
        written: "end: violated c.pl:2 success p/2\n",
        status: 1,
    },
    // calls of calls
    Case {
        text: ":- module(c,_).\n:- pred n(X) : nnegint(X).\nn(0).\nn(X) :- X > 0, Y is X - 1, n(Y).\n",
        query: "n(2)",
        steps: "1000",
        written: "answer: n(2)\nend: no more answers\n",
        status: 0,
    },
    Case {
        text: ":- module(c,_).\n:- pred n(X) : nnegint(X).\nn(0).\nn(X) :- Y is X - 1, n(Y).\n",
        query: "n(1)",
        steps: "1000",
        written: "answer: n(1)\nend: violated c.pl:2 calls n/1\n",
        status: 1,
    },
    // the inner of two marks is looked at first
    Case {
        text: ":- module(c,_).\n:- pred p + is_det.\np :- q.\n:- pred q + is_det.\nq.\nq.\n",
        query: "p",
        steps: "1000",
        written: "answer: p\nend: violated c.pl:4 is_det q/0\n",
        status: 1,
    },
    Case {
        text: ":- module(c,_).\n:- pred p + not_fails.\np :- q.\n:- pred q + not_fails.\nq :- fail.\n",
        query: "p",
        steps: "1000",
        written: "end: violated c.pl:4 not_fails q/0\n",
        status: 1,
    },
];

#[test]
fn conditions_in_all_places(rt: HostRuntime) -> Result<(), Fail> {
    assert_eq!(rt; first_other(&rt, rt.alloc(), &CASES)?, None);
    Ok(())
}
