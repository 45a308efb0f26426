// Control.
use crate::runs::{Case, first_other};
use std::test::Fail;

const CASES: [Case; 37] = [
    // cuts
    Case {
        text: ":- module(c,_).\np(X) :- q(X), !.\np(9).\nq(1).\nq(2).\n",
        query: "p(X)",
        steps: "1000",
        written: "answer: p(1)\nend: no more answers\n",
        status: 0,
    },
    Case {
        text: ":- module(c,_).\np(1) :- !.\np(2).\n",
        query: "p(X)",
        steps: "1000",
        written: "answer: p(1)\nend: no more answers\n",
        status: 0,
    },
    Case {
        text: ":- module(c,_).\np(1) :- !.\np(2).\n",
        query: "p(2)",
        steps: "1000",
        written: "answer: p(2)\nend: no more answers\n",
        status: 0,
    },
    Case {
        text: ":- module(c,_).\np(X) :- q(X).\np(X) :- q(X), !.\np(9).\nq(1).\nq(2).\n",
        query: "p(X)",
        steps: "1000",
        written: "answer: p(1)\nanswer: p(2)\nanswer: p(1)\nend: no more answers\n",
        status: 0,
    },
    // a cut of a predicate that is called
    Case {
        text: ":- module(c,_).\np(X,Y) :- q(X), r(Y).\nr(Y) :- q(Y), !.\nq(1).\nq(2).\n",
        query: "p(X,Y)",
        steps: "1000",
        written: "answer: p(1,1)\nanswer: p(2,1)\nend: no more answers\n",
        status: 0,
    },
    // a cut in a condition, and under a negation
    Case {
        text: ":- module(c,_).\np(X) :- ( ! -> q(X) ; true ).\np(9).\nq(1).\nq(2).\n",
        query: "p(X)",
        steps: "1000",
        written: "answer: p(1)\nanswer: p(2)\nanswer: p(9)\nend: no more answers\n",
        status: 0,
    },
    Case {
        text: ":- module(c,_).\np(X) :- ( q(X), ! -> true ; true ).\np(9).\nq(1).\nq(2).\n",
        query: "p(X)",
        steps: "1000",
        written: "answer: p(1)\nanswer: p(9)\nend: no more answers\n",
        status: 0,
    },
    Case {
        text: ":- module(c,_).\np(X) :- \\+ ( q(Y), !, Y = 2 ), q(X).\np(9).\nq(1).\nq(2).\n",
        query: "p(X)",
        steps: "1000",
        written: "answer: p(1)\nanswer: p(2)\nanswer: p(9)\nend: no more answers\n",
        status: 0,
    },
    // a cut in a branch, and in a disjunction
    Case {
        text: ":- module(c,_).\np(X) :- ( true -> !, q(X) ; true ).\np(9).\nq(1).\nq(2).\n",
        query: "p(X)",
        steps: "1000",
        written: "answer: p(1)\nanswer: p(2)\nend: no more answers\n",
        status: 0,
    },
    Case {
        text: ":- module(c,_).\np(X) :- ( fail -> true ; !, q(X) ).\np(9).\nq(1).\nq(2).\n",
        query: "p(X)",
        steps: "1000",
        written: "answer: p(1)\nanswer: p(2)\nend: no more answers\n",
        status: 0,
    },
    Case {
        text: ":- module(c,_).\np(X) :- ( q(X), ! ; X = 7 ).\np(9).\nq(1).\nq(2).\n",
        query: "p(X)",
        steps: "1000",
        written: "answer: p(1)\nend: no more answers\n",
        status: 0,
    },
    Case {
        text: ":- module(c,_).\np(X) :- ( X = 7 ; ! , q(X) ; X = 8 ).\np(9).\nq(1).\nq(2).\n",
        query: "p(X)",
        steps: "1000",
        written: "answer: p(7)\nanswer: p(1)\nanswer: p(2)\nend: no more answers\n",
        status: 0,
    },
    // conditions: the first answer alone, and no else part behind it
    Case {
        text: ":- module(c,_).\np(X) :- ( q(X) -> true ; X = 0 ).\nq(1).\nq(2).\n",
        query: "p(X)",
        steps: "1000",
        written: "answer: p(1)\nend: no more answers\n",
        status: 0,
    },
    Case {
        text: ":- module(c,_).\np(X) :- ( q(X) -> X = 5 ; X = 6 ).\nq(1).\nq(2).\n",
        query: "p(X)",
        steps: "1000",
        written: "end: no more answers\n",
        status: 0,
    },
    Case {
        text: ":- module(c,_).\np(X) :- ( q(X), X > 1 -> true ; X = 0 ).\nq(1).\nq(2).\n",
        query: "p(X)",
        steps: "1000",
        written: "answer: p(2)\nend: no more answers\n",
        status: 0,
    },
    Case {
        text: ":- module(c,_).\np(X) :- ( fail -> X = 1 ; X = 2 ).\n",
        query: "p(X)",
        steps: "1000",
        written: "answer: p(2)\nend: no more answers\n",
        status: 0,
    },
    // all answers of a branch
    Case {
        text: ":- module(c,_).\np(X) :- ( true -> q(X) ; X = 0 ).\nq(1).\nq(2).\n",
        query: "p(X)",
        steps: "1000",
        written: "answer: p(1)\nanswer: p(2)\nend: no more answers\n",
        status: 0,
    },
    Case {
        text: ":- module(c,_).\np(X) :- ( fail -> X = 0 ; q(X) ).\nq(1).\nq(2).\n",
        query: "p(X)",
        steps: "1000",
        written: "answer: p(1)\nanswer: p(2)\nend: no more answers\n",
        status: 0,
    },
    // a condition without an else part
    Case {
        text: ":- module(c,_).\np :- ( fail -> true ).\n",
        query: "p",
        steps: "1000",
        written: "end: no more answers\n",
        status: 0,
    },
    Case {
        text: ":- module(c,_).\np(X) :- ( true -> X = 1 ).\n",
        query: "p(X)",
        steps: "1000",
        written: "answer: p(1)\nend: no more answers\n",
        status: 0,
    },
    // a disjunction behind a condition
    Case {
        text: ":- module(c,_).\np(X) :- ( true -> X = 1 ; X = 2 ; X = 3 ).\n",
        query: "p(X)",
        steps: "1000",
        written: "answer: p(1)\nend: no more answers\n",
        status: 0,
    },
    Case {
        text: ":- module(c,_).\np(X) :- ( ( true -> X = 1 ; X = 2 ) ; X = 3 ).\n",
        query: "p(X)",
        steps: "1000",
        written: "answer: p(1)\nanswer: p(3)\nend: no more answers\n",
        status: 0,
    },
    Case {
        text: ":- module(c,_).\np(X) :- ( fail -> X = 1 ; true -> X = 2 ; X = 3 ).\n",
        query: "p(X)",
        steps: "1000",
        written: "answer: p(2)\nend: no more answers\n",
        status: 0,
    },
    // disjunctions
    Case {
        text: ":- module(c,_).\np(X) :- ( X = 1 ; X = 2 | X = 3 ).\n",
        query: "p(X)",
        steps: "1000",
        written: "answer: p(1)\nanswer: p(2)\nanswer: p(3)\nend: no more answers\n",
        status: 0,
    },
    Case {
        text: ":- module(c,_).\np(X,Y) :- ( X = 1 ; X = 2 ), ( Y = a ; Y = b ).\n",
        query: "p(X,Y)",
        steps: "1000",
        written: "answer: p(1,a)\nanswer: p(1,b)\nanswer: p(2,a)\nanswer: p(2,b)\nend: no more answers\n",
        status: 0,
    },
    // negations bind nothing
    Case {
        text: ":- module(c,_).\np(X) :- \\+ X = 1.\n",
        query: "p(X)",
        steps: "1000",
        written: "end: no more answers\n",
        status: 0,
    },
    Case {
        text: ":- module(c,_).\np(X) :- \\+ \\+ X = 1.\n",
        query: "p(X)",
        steps: "1000",
        written: "answer: p(_1)\nend: no more answers\n",
        status: 0,
    },
    Case {
        text: ":- module(c,_).\np(X) :- \\+ X = 1.\n",
        query: "p(2)",
        steps: "1000",
        written: "answer: p(2)\nend: no more answers\n",
        status: 0,
    },
    Case {
        text: ":- module(c,_).\np(X) :- \\+ ( q(X), X > 5 ), X = 3.\nq(1).\nq(2).\n",
        query: "p(X)",
        steps: "1000",
        written: "answer: p(3)\nend: no more answers\n",
        status: 0,
    },
    Case {
        text: ":- module(c,_).\np(X) :- \\+ ( X = 1 -> fail ; true ), X = 1.\n",
        query: "p(X)",
        steps: "1000",
        written: "answer: p(1)\nend: no more answers\n",
        status: 0,
    },
    Case {
        text: ":- module(c,_).\np(X) :- ( \\+ fail -> ( X = 1 ; X = 2 ) ; true ).\n",
        query: "p(X)",
        steps: "1000",
        written: "answer: p(1)\nanswer: p(2)\nend: no more answers\n",
        status: 0,
    },
    Case {
        text: ":- module(c,_).\np(X) :- ( ( X = 1 ; X = 2 ), X > 1 -> true ; true ).\n",
        query: "p(X)",
        steps: "1000",
        written: "answer: p(2)\nend: no more answers\n",
        status: 0,
    },
    // goals that are true
    Case {
        text: ":- module(c,_).\np :- true, ( true, true ), true.\n",
        query: "p",
        steps: "1000",
        written: "answer: p\nend: no more answers\n",
        status: 0,
    },
    Case {
        text: ":- module(c,_).\np :- fail.\np :- true.\n",
        query: "p",
        steps: "1000",
        written: "answer: p\nend: no more answers\n",
        status: 0,
    },
    // output of a branch that fails stays, and built-ins count nothing
    Case {
        text: ":- module(c,_).\np :- write(a), fail.\np :- write(b), p.\n",
        query: "p",
        steps: "3",
        written: "abababend: unknown, step bound\n",
        status: 5,
    },
    Case {
        text: ":- module(c,_).\np :- \\+ \\+ \\+ fail.\n",
        query: "p",
        steps: "1000",
        written: "answer: p\nend: no more answers\n",
        status: 0,
    },
    // every goal in order
    Case {
        text: ":- module(c,_).\np :- ( write(a) -> write(b) ; write(c) ), \\+ ( write(d), fail ), ( write(e), fail ; write(f) ), nl.\n",
        query: "p",
        steps: "1000",
        written: "abdef\nanswer: p\nend: no more answers\n",
        status: 0,
    },
];

#[test]
fn control(rt: HostRuntime) -> Result<(), Fail> {
    assert_eq!(rt; first_other(&rt, rt.alloc(), &CASES)?, None);
    Ok(())
}
