// Files in which something names a predicate without clauses.
use crate::runs::{Case, first_other};
use std::test::Fail;

const CASES: [Case; 17] = [
    // a goal without clauses
    Case {
        text: ":- module(c,[q/0]).\nq :- r.\np(X,X).\n",
        query: "q",
        steps: "5",
        written: "fault: c.pl:2 Undefined\n",
        status: 3,
    },
    // an export without clauses
    Case {
        text: ":- module(c,[q/0,r/0]).\nq.\n",
        query: "q",
        steps: "5",
        written: "fault: c.pl:1 Undefined\n",
        status: 3,
    },
    // the module directive on a later line
    Case {
        text: "% first\n\n:- module(c,[q/0,r/0]).\nq.\n",
        query: "q",
        steps: "5",
        written: "fault: c.pl:3 Undefined\n",
        status: 3,
    },
    // an assertion without clauses
    Case {
        text: ":- module(c,[q/0]).\nq.\n:- pred r(X) : int(X).\n",
        query: "q",
        steps: "5",
        written: "fault: c.pl:3 Undefined\n",
        status: 3,
    },
    // another number of arguments
    Case {
        text: ":- module(c,[q/0]).\nq.\nq :- q(1).\n",
        query: "q",
        steps: "5",
        written: "fault: c.pl:3 Undefined\n",
        status: 3,
    },
    // an assertion of another number of arguments
    Case {
        text: ":- module(c,[q/0]).\nq.\n:- pred q(X) : int(X).\n",
        query: "q",
        steps: "5",
        written: "fault: c.pl:3 Undefined\n",
        status: 3,
    },
    // the least of several lines: of a clause before an assertion
    Case {
        text: ":- module(c,[q/0]).\nq.\nq :- r.\n:- pred r(X) : int(X).\n",
        query: "q",
        steps: "5",
        written: "fault: c.pl:3 Undefined\n",
        status: 3,
    },
    // of an assertion before a clause
    Case {
        text: ":- module(c,[q/0]).\nq.\n:- pred r(X) : int(X).\nq :- r.\n",
        query: "q",
        steps: "5",
        written: "fault: c.pl:3 Undefined\n",
        status: 3,
    },
    // of an export before both
    Case {
        text: ":- module(c,[q/0,r/0]).\n:- pred r(X) : int(X).\nq :- r.\n",
        query: "q",
        steps: "5",
        written: "fault: c.pl:1 Undefined\n",
        status: 3,
    },
    // the line of a clause is that of its first token
    Case {
        text: ":- module(c,[q/0]).\n\nq :-\n  q,\n  r.\n",
        query: "q",
        steps: "5",
        written: "fault: c.pl:3 Undefined\n",
        status: 3,
    },
    // two sentences on a line
    Case {
        text: ":- module(c,[q/0]).\nq. q :- r. q :- s.\n",
        query: "q",
        steps: "5",
        written: "fault: c.pl:2 Undefined\n",
        status: 3,
    },
    // a goal behind goals that have clauses
    Case {
        text: ":- module(c,[q/0]).\nq :- q, q, r, q.\n",
        query: "q",
        steps: "5",
        written: "fault: c.pl:2 Undefined\n",
        status: 3,
    },
    // no clause can be of a built-in
    Case {
        text: ":- module(c,[nl/0]).\nq.\n",
        query: "q",
        steps: "5",
        written: "fault: c.pl:1 Undefined\n",
        status: 3,
    },
    // or of an operator
    Case {
        text: ":- module(c,[is/2]).\nq.\n",
        query: "q",
        steps: "5",
        written: "fault: c.pl:1 Undefined\n",
        status: 3,
    },
    // a clause that is none, on a later line
    Case {
        text: ":- module(c,[q/0]).\nq :- r.\nq :- 1.\n",
        query: "q",
        steps: "5",
        written: "fault: c.pl:2 Undefined\n",
        status: 3,
    },
    // a query that cannot be read is told later
    Case {
        text: ":- module(c,[q/0]).\nq :- r.\n",
        query: "q(",
        steps: "5",
        written: "fault: c.pl:2 Undefined\n",
        status: 3,
    },
    // and so is one that is not exported
    Case {
        text: ":- module(c,[q/0]).\nq :- r.\n",
        query: "s",
        steps: "5",
        written: "fault: c.pl:2 Undefined\n",
        status: 3,
    },
];

#[test]
fn predicates_without_clauses(rt: HostRuntime) -> Result<(), Fail> {
    assert_eq!(rt; first_other(&rt, rt.alloc(), &CASES)?, None);
    Ok(())
}
