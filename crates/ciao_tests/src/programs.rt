// Programs of the whole language.
use crate::sets::{SetCase, first_other_set};
use std::test::Fail;

const SETS: [SetCase; 18] = [
    // conditions that ask nothing at a call
    SetCase {
        files: &[(
            "w.pl",
            ":- module(w,[p/1]).\n:- success p(X) : int(X) => atm(X).\np(f(a)).\np(1).\n",
        )],
        words: &["run", "w.pl", "p(f(a))", "--steps", "1000"],
        written: "answer: p(f(a))\nend: no more answers\n",
        status: 0,
    },
    SetCase {
        files: &[(
            "w.pl",
            ":- module(w,[p/1]).\n:- success p(X) : int(X) => atm(X).\np(f(a)).\np(1).\n",
        )],
        words: &["run", "w.pl", "p(Y)", "--steps", "1000"],
        written: "answer: p(f(a))\nanswer: p(1)\nend: no more answers\n",
        status: 0,
    },
    SetCase {
        files: &[(
            "w.pl",
            ":- module(w,[p/1]).\n:- success p(X) : int(X) => atm(X).\np(f(a)).\np(1).\n",
        )],
        words: &["run", "w.pl", "p(1)", "--steps", "1000"],
        written: "end: violated w.pl:2 success p/1\n",
        status: 1,
    },
    // output between answers
    SetCase {
        files: &[(
            "o.pl",
            ":- module(o,[p/1]).\n:- success p(X) => int(X).\np(1) :- write(one), nl.\np(a) :- write(two), nl.\n",
        )],
        words: &["run", "o.pl", "p(X)", "--steps", "1000"],
        written: "one\nanswer: p(1)\ntwo\nend: violated o.pl:2 success p/1\n",
        status: 1,
    },
    // cyclic terms
    SetCase {
        files: &[("y.pl", ":- module(y,[p/0]).\np :- X = f(X).\n")],
        words: &["run", "y.pl", "p", "--steps", "1000"],
        written: "end: cyclic term y.pl:2\n",
        status: 6,
    },
    SetCase {
        files: &[(
            "z.pl",
            ":- module(z,[p/0,q/0]).\np :- f(X,a) = f(g(X),b).\nq :- f(a,X) = f(b,g(X)).\n",
        )],
        words: &["run", "z.pl", "p", "--steps", "1000"],
        written: "end: cyclic term z.pl:2\n",
        status: 6,
    },
    SetCase {
        files: &[(
            "z.pl",
            ":- module(z,[p/0,q/0]).\np :- f(X,a) = f(g(X),b).\nq :- f(a,X) = f(b,g(X)).\n",
        )],
        words: &["run", "z.pl", "q", "--steps", "1000"],
        written: "end: no more answers\n",
        status: 0,
    },
    // arithmetic
    SetCase {
        files: &[(
            "a.pl",
            ":- module(a,[p/1,q/1,r/1]).\np(X) :- X is 9223372036854775807 + 1.\nq(-9223372036854775808).\nr([A,B,C,D]) :- A is -7 // 2, B is -7 rem 2, C is -7 mod 2, D is 7 mod -2.\n",
        )],
        words: &["run", "a.pl", "p(X)", "--steps", "1000"],
        written: "end: arithmetic overflow a.pl:2\n",
        status: 6,
    },
    SetCase {
        files: &[(
            "a.pl",
            ":- module(a,[p/1,q/1,r/1]).\np(X) :- X is 9223372036854775807 + 1.\nq(-9223372036854775808).\nr([A,B,C,D]) :- A is -7 // 2, B is -7 rem 2, C is -7 mod 2, D is 7 mod -2.\n",
        )],
        words: &["run", "a.pl", "q(X)", "--steps", "1000"],
        written: "answer: q(-9223372036854775808)\nend: no more answers\n",
        status: 0,
    },
    SetCase {
        files: &[(
            "a.pl",
            ":- module(a,[p/1,q/1,r/1]).\np(X) :- X is 9223372036854775807 + 1.\nq(-9223372036854775808).\nr([A,B,C,D]) :- A is -7 // 2, B is -7 rem 2, C is -7 mod 2, D is 7 mod -2.\n",
        )],
        words: &["run", "a.pl", "r(X)", "--steps", "1000"],
        written: "answer: r([-3,-1,1,-1])\nend: no more answers\n",
        status: 0,
    },
    // how often predicates succeed
    SetCase {
        files: &[(
            "d.pl",
            ":- module(d,[p/1,q/1]).\n:- comp p(X) + is_det.\np(1).\np(2).\nq(X) :- p(X), !.\n",
        )],
        words: &["run", "d.pl", "p(X)", "--steps", "1000"],
        written: "answer: p(1)\nend: violated d.pl:2 is_det p/1\n",
        status: 1,
    },
    SetCase {
        files: &[(
            "d.pl",
            ":- module(d,[p/1,q/1]).\n:- comp p(X) + is_det.\np(1).\np(2).\nq(X) :- p(X), !.\n",
        )],
        words: &["run", "d.pl", "q(X)", "--steps", "1000"],
        written: "answer: q(1)\nend: no more answers\n",
        status: 0,
    },
    SetCase {
        files: &[(
            "e.pl",
            ":- module(e,[p/0]).\n:- comp q + not_fails.\nq :- !, fail.\np :- \\+ q.\n",
        )],
        words: &["run", "e.pl", "p", "--steps", "1000"],
        written: "end: violated e.pl:2 not_fails q/0\n",
        status: 1,
    },
    SetCase {
        files: &[(
            "d2.pl",
            ":- module(d2,[p/1]).\n:- comp p(X) + is_det.\np(1).\np(2).\n",
        )],
        words: &["run", "d2.pl", "p(X)", "--steps", "1000"],
        written: "answer: p(1)\nend: violated d2.pl:2 is_det p/1\n",
        status: 1,
    },
    SetCase {
        files: &[(
            "f2.pl",
            ":- module(f2,[p/0]).\n:- comp p + not_fails.\np :- fail.\n",
        )],
        words: &["run", "f2.pl", "p", "--steps", "1000"],
        written: "end: violated f2.pl:2 not_fails p/0\n",
        status: 1,
    },
    // control
    SetCase {
        files: &[(
            "q2.pl",
            ":- module(q2,[p/1]).\np(X) :- ( X = 1 ; X = 2 ; X = 3 ), ( X > 1 -> true ; fail ), !.\n",
        )],
        words: &["run", "q2.pl", "p(X)", "--steps", "1000"],
        written: "answer: p(2)\nend: no more answers\n",
        status: 0,
    },
    // a clause whose head is control
    SetCase {
        files: &[("q2.pl", ":- module(q2,[p/1]).\nX = 1 :- true.\np(1).\n")],
        words: &["run", "q2.pl", "p(X)", "--steps", "1000"],
        written: "fault: q2.pl:2 BadClause\n",
        status: 3,
    },
    // bindings that are undone
    SetCase {
        files: &[(
            "tw.pl",
            ":- module(tw,[p/1]).\np(X) :- X = f(Y,Z), ( Y = 1, Z = 2 ; Z = 3 ).\n",
        )],
        words: &["run", "tw.pl", "p(X)", "--steps", "1000"],
        written: "answer: p(f(1,2))\nanswer: p(f(_1,3))\nend: no more answers\n",
        status: 0,
    },
];

#[test]
fn programs_of_all_kinds(rt: HostRuntime) -> Result<(), Fail> {
    assert_eq!(rt; first_other_set(&rt, rt.alloc(), &SETS)?, None);
    Ok(())
}
