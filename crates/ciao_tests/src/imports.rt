// Files that import others and libraries.
use crate::sets::{SetCase, first_other_set};
use std::test::Fail;

const SETS: [SetCase; 30] = [
    // two files that import each other
    SetCase {
        files: &[
            (
                "u.pl",
                ":- module(u,[p/1]).\n:- use_module(w2).\np(X) :- q(X).\n",
            ),
            (
                "w2.pl",
                ":- module(w2,[q/1]).\n:- use_module(u).\nq(1).\nq(X) :- fail, p(X).\n",
            ),
        ],
        words: &["run", "u.pl", "p(X)", "--steps", "1000"],
        written: "answer: p(1)\nend: no more answers\n",
        status: 0,
    },
    // a predicate of one's own goes before an imported one
    SetCase {
        files: &[
            (
                "u.pl",
                ":- module(u,[p/1]).\n:- use_module(w2).\np(X) :- q(X).\nq(2).\n",
            ),
            (
                "w2.pl",
                ":- module(w2,[q/1]).\n:- use_module(u).\nq(1).\nq(X) :- fail, p(X).\n",
            ),
        ],
        words: &["run", "u.pl", "p(X)", "--steps", "1000"],
        written: "answer: p(2)\nend: no more answers\n",
        status: 0,
    },
    // a list names what is not exported
    SetCase {
        files: &[
            (
                "u.pl",
                ":- module(u,[p/1]).\n:- use_module(w2).\np(X) :- q(X).\n",
            ),
            (
                "w2.pl",
                ":- module(w2,[q/1]).\n:- use_module(u,[zz/0]).\nq(1).\nq(X) :- fail, p(X).\n",
            ),
        ],
        words: &["run", "u.pl", "p(X)", "--steps", "1000"],
        written: "fault: w2.pl:2 NotExported\n",
        status: 3,
    },
    // a file that is not there
    SetCase {
        files: &[(
            "u.pl",
            ":- module(u,[p/1]).\n:- use_module(w2).\np(X) :- q(X).\n",
        )],
        words: &["run", "u.pl", "p(X)", "--steps", "1000"],
        written: "fault: u.pl:2 NoFile\n",
        status: 3,
    },
    // one file too many
    SetCase {
        files: &[(
            "t.pl",
            ":- module(t,[]).\n:- use_module(a1).\n:- use_module(a2).\n:- use_module(a3).\n:- use_module(a4).\n:- use_module(a5).\n:- use_module(a6).\n:- use_module(a7).\n:- use_module(a8).\n:- use_module(a9).\n:- use_module(a10).\n:- use_module(a11).\n:- use_module(a12).\n:- use_module(a13).\n:- use_module(a14).\n:- use_module(a15).\n:- use_module(a16).\n:- use_module(a17).\n:- use_module(a18).\n:- use_module(a19).\n:- use_module(a20).\n:- use_module(a21).\n:- use_module(a22).\n:- use_module(a23).\n:- use_module(a24).\n:- use_module(a25).\n:- use_module(a26).\n:- use_module(a27).\n:- use_module(a28).\n:- use_module(a29).\n:- use_module(a30).\n:- use_module(a31).\n:- use_module(a32).\n:- use_module(a33).\n:- use_module(a34).\n:- use_module(a35).\n:- use_module(a36).\n:- use_module(a37).\n:- use_module(a38).\n:- use_module(a39).\n:- use_module(a40).\n:- use_module(a41).\n:- use_module(a42).\n:- use_module(a43).\n:- use_module(a44).\n:- use_module(a45).\n:- use_module(a46).\n:- use_module(a47).\n:- use_module(a48).\n:- use_module(a49).\n:- use_module(a50).\n:- use_module(a51).\n:- use_module(a52).\n:- use_module(a53).\n:- use_module(a54).\n:- use_module(a55).\n:- use_module(a56).\n:- use_module(a57).\n:- use_module(a58).\n:- use_module(a59).\n:- use_module(a60).\n:- use_module(a61).\n:- use_module(a62).\n:- use_module(a63).\n:- use_module(a64).\n",
        )],
        words: &["run", "t.pl", "p", "--steps", "1000"],
        written: "fault: t.pl:65 TooManyFiles\n",
        status: 3,
    },
    // two files give a predicate that is called
    SetCase {
        files: &[
            ("i2.pl", ":- module(i2,[q/0]).\nq.\n"),
            ("i3.pl", ":- module(i3,[q/0]).\nq.\n"),
            (
                "i1.pl",
                ":- module(i1,[p/0]).\n:- use_module(i2).\n:- use_module(i3).\np :- q.\n",
            ),
        ],
        words: &["run", "i1.pl", "p", "--steps", "1000"],
        written: "fault: i1.pl:4 Ambiguous\n",
        status: 3,
    },
    // and one that is not called
    SetCase {
        files: &[
            ("i2.pl", ":- module(i2,[q/0]).\nq.\n"),
            ("i3.pl", ":- module(i3,[q/0]).\nq.\n"),
            (
                "i1.pl",
                ":- module(i1,[p/0]).\n:- use_module(i2).\n:- use_module(i3).\np.\n",
            ),
        ],
        words: &["run", "i1.pl", "p", "--steps", "1000"],
        written: "answer: p\nend: no more answers\n",
        status: 0,
    },
    // a predicate that is exported without clauses, imported and called
    SetCase {
        files: &[
            (
                "c.pl",
                ":- module(c,[p/0]).\n:- use_module(d,[q/0]).\np :- q.\n",
            ),
            ("d.pl", ":- module(d,[q/0]).\n"),
        ],
        words: &["run", "c.pl", "p", "--steps", "1000"],
        written: "fault: c.pl:3 Undefined\n",
        status: 3,
    },
    // and one that is not called
    SetCase {
        files: &[
            ("c.pl", ":- module(c,[p/0]).\n:- use_module(d,[q/0]).\np.\n"),
            ("d.pl", ":- module(d,[q/0]).\n"),
        ],
        words: &["run", "c.pl", "p", "--steps", "1000"],
        written: "fault: d.pl:1 Undefined\n",
        status: 3,
    },
    // a predicate of a library that the module defines itself
    SetCase {
        files: &[(
            "c.pl",
            ":- module(c,[p/1]).\n:- use_module(library(lists)).\np(X) :- last([1,2],X).\nlast(_,own).\n",
        )],
        words: &["run", "c.pl", "p(X)", "--steps", "1000"],
        written: "answer: p(own)\nend: no more answers\n",
        status: 0,
    },
    // and one that it does not
    SetCase {
        files: &[(
            "c.pl",
            ":- module(c,[p/1]).\n:- use_module(library(lists)).\np(X) :- last([1,2],X).\n",
        )],
        words: &["run", "c.pl", "p(X)", "--steps", "1000"],
        written: "answer: p(2)\nend: no more answers\n",
        status: 0,
    },
    // a library that is not imported
    SetCase {
        files: &[("c.pl", ":- module(c,[p/1]).\np(X) :- last([1,2],X).\n")],
        words: &["run", "c.pl", "p(X)", "--steps", "1000"],
        written: "fault: c.pl:2 Undefined\n",
        status: 3,
    },
    // a predicate that a library does not export
    SetCase {
        files: &[(
            "c.pl",
            ":- module(c,[p/1]).\n:- use_module(library(lists),[append/3,last/2]).\np(X) :- reverse_([1],[],X).\n",
        )],
        words: &["run", "c.pl", "p(X)", "--steps", "1000"],
        written: "fault: c.pl:3 Undefined\n",
        status: 3,
    },
    // what libraries give
    SetCase {
        files: &[(
            "c.pl",
            ":- module(c,[p/1]).\n:- use_module(library(basic_props)).\np(X) :- member(X,[1,2]).\n",
        )],
        words: &["run", "c.pl", "p(X)", "--steps", "1000"],
        written: "answer: p(1)\nanswer: p(2)\nend: no more answers\n",
        status: 0,
    },
    SetCase {
        files: &[(
            "c.pl",
            ":- module(c,[p/3]).\n:- use_module(library(lists)).\np(X,Y,Z) :- select(X,[1,2],Y), length(Y,Z).\n",
        )],
        words: &["run", "c.pl", "p(X,Y,Z)", "--steps", "1000"],
        written: "answer: p(1,[2],1)\nanswer: p(2,[1],1)\nend: no more answers\n",
        status: 0,
    },
    // what is seen everywhere may be named of its library
    SetCase {
        files: &[(
            "c.pl",
            ":- module(c,[p/1]).\n:- use_module(library(basic_props),[list/2,int/1,member/2]).\n:- use_module(library(write),[write/1,nl/0]).\np(X) :- member(X,[a]), write(X), nl.\n",
        )],
        words: &["run", "c.pl", "p(X)", "--steps", "1000"],
        written: "a\nanswer: p(a)\nend: no more answers\n",
        status: 0,
    },
    // but of no other one
    SetCase {
        files: &[(
            "c.pl",
            ":- module(c,[p/0]).\n:- use_module(library(write),[list/2]).\np.\n",
        )],
        words: &["run", "c.pl", "p", "--steps", "1000"],
        written: "fault: c.pl:2 NotExported\n",
        status: 3,
    },
    // a list that names another predicate
    SetCase {
        files: &[
            (
                "c.pl",
                ":- module(c,[p/0]).\n:- use_module(d,[q/0]).\np :- r.\n",
            ),
            ("d.pl", ":- module(d,[q/0,r/0]).\nq.\nr.\n"),
        ],
        words: &["run", "c.pl", "p", "--steps", "1000"],
        written: "fault: c.pl:3 Undefined\n",
        status: 3,
    },
    // a file that is imported twice
    SetCase {
        files: &[
            (
                "c.pl",
                ":- module(c,[p/0]).\n:- use_module(d,[q/0]).\n:- use_module(d).\np :- r.\n",
            ),
            ("d.pl", ":- module(d,[q/0,r/0]).\nq.\nr.\n"),
        ],
        words: &["run", "c.pl", "p", "--steps", "1000"],
        written: "answer: p\nend: no more answers\n",
        status: 0,
    },
    // one of two files exports it
    SetCase {
        files: &[
            (
                "c.pl",
                ":- module(c,[p/0]).\n:- use_module(d).\n:- use_module(e).\np :- q.\n",
            ),
            ("d.pl", ":- module(d,[]).\nq.\n"),
            ("e.pl", ":- module(e,[q/0]).\nq.\n"),
        ],
        words: &["run", "c.pl", "p", "--steps", "1000"],
        written: "answer: p\nend: no more answers\n",
        status: 0,
    },
    // what a file imports it does not export
    SetCase {
        files: &[
            ("c.pl", ":- module(c,[p/0]).\n:- use_module(d).\np :- q.\n"),
            ("d.pl", ":- module(d,[]).\n:- use_module(e).\n"),
            ("e.pl", ":- module(e,[q/0]).\nq.\n"),
        ],
        words: &["run", "c.pl", "p", "--steps", "1000"],
        written: "fault: c.pl:3 Undefined\n",
        status: 3,
    },
    // a file that imports itself
    SetCase {
        files: &[(
            "c.pl",
            ":- module(c,[p/0]).\n:- use_module(c).\np :- q.\nq.\n",
        )],
        words: &["run", "c.pl", "p", "--steps", "1000"],
        written: "answer: p\nend: no more answers\n",
        status: 0,
    },
    // a query of what is imported
    SetCase {
        files: &[
            ("c.pl", ":- module(c,[]).\n:- use_module(d).\n"),
            ("d.pl", ":- module(d,[q/0]).\nq.\n"),
        ],
        words: &["run", "c.pl", "q", "--steps", "1000"],
        written: "fault: query not exported\n",
        status: 4,
    },
    // directives that export
    SetCase {
        files: &[(
            "c.pl",
            ":- module(c,[]).\n:- export(p/0).\n:- export([q/0,r/1]).\np.\nq.\nr(1).\n",
        )],
        words: &["run", "c.pl", "r(X)", "--steps", "1000"],
        written: "answer: r(1)\nend: no more answers\n",
        status: 0,
    },
    // an export without clauses, at its line
    SetCase {
        files: &[("c.pl", ":- module(c,[]).\np.\n:- export(q/0).\n")],
        words: &["run", "c.pl", "p", "--steps", "1000"],
        written: "fault: c.pl:3 Undefined\n",
        status: 3,
    },
    // all predicates are exported
    SetCase {
        files: &[("c.pl", ":- module(c,_).\np.\nq(1).\n")],
        words: &["run", "c.pl", "q(X)", "--steps", "1000"],
        written: "answer: q(1)\nend: no more answers\n",
        status: 0,
    },
    // clauses apart from each other
    SetCase {
        files: &[("c.pl", ":- module(c,[p/1]).\np(1).\nq.\np(2).\n")],
        words: &["run", "c.pl", "p(X)", "--steps", "1000"],
        written: "answer: p(1)\nanswer: p(2)\nend: no more answers\n",
        status: 0,
    },
    // a condition of another file
    SetCase {
        files: &[
            (
                "c.pl",
                ":- module(c,[p/0]).\n:- use_module(d).\np :- q(a).\n",
            ),
            (
                "d.pl",
                ":- module(d,[q/1]).\n:- pred q(X) : int(X).\nq(_).\n",
            ),
        ],
        words: &["run", "c.pl", "p", "--steps", "1000"],
        written: "end: violated d.pl:2 calls q/1\n",
        status: 1,
    },
    // a cyclic unification in another file
    SetCase {
        files: &[
            (
                "c.pl",
                ":- module(c,[p/1]).\n:- use_module(d).\np(X) :- q(X,f(X)).\n",
            ),
            ("d.pl", ":- module(d,[q/2]).\nq(X,X).\n"),
        ],
        words: &["run", "c.pl", "p(X)", "--steps", "1000"],
        written: "end: cyclic term d.pl:2\n",
        status: 6,
    },
    // files of a folder
    SetCase {
        files: &[
            (
                "x/c.pl",
                ":- module(c,[p/0]).\n:- use_module(d).\np :- q.\n",
            ),
            ("x/d.pl", ":- module(d,[q/0]).\nq :- r.\n"),
        ],
        words: &["run", "x/c.pl", "p", "--steps", "1000"],
        written: "fault: d.pl:2 Undefined\n",
        status: 3,
    },
];

#[test]
fn files_that_import(rt: HostRuntime) -> Result<(), Fail> {
    assert_eq!(rt; first_other_set(&rt, rt.alloc(), &SETS)?, None);
    Ok(())
}
