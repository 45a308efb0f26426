// Grammars, functions, and limits of answers.
use crate::sets::{SetCase, first_other_set};
use std::test::Fail;

const SETS: [SetCase; 25] = [
    // a grammar
    SetCase {
        files: &[(
            "g.pl",
            ":- module(g,[m/1],[dcg]).\nm(N) :- as(N,\"aa\",[]).\nas(0) --> [].\nas(s(N)) --> \"a\", as(N).\n",
        )],
        words: &["run", "g.pl", "m(X)", "--steps", "1000"],
        written: "answer: m(s(s(0)))\nend: no more answers\n",
        status: 0,
    },
    // functions
    SetCase {
        files: &[(
            "h.pl",
            ":- module(h,[fact/2,color/1],[assertions,regtypes,fsyntax]).\nfact(N) := N = 0 ? 1 | ~mul(N, ~fact(~dec(N))).\nmul(X,Y) := Z :- Z is X * Y.\ndec(X) := Y :- Y is X - 1.\n:- regtype color/1.\ncolor := red | green | blue.\n",
        )],
        words: &["run", "h.pl", "fact(5,X)", "--steps", "1000"],
        written: "answer: fact(5,120)\nend: no more answers\n",
        status: 0,
    },
    SetCase {
        files: &[(
            "h.pl",
            ":- module(h,[fact/2,color/1],[assertions,regtypes,fsyntax]).\nfact(N) := N = 0 ? 1 | ~mul(N, ~fact(~dec(N))).\nmul(X,Y) := Z :- Z is X * Y.\ndec(X) := Y :- Y is X - 1.\n:- regtype color/1.\ncolor := red | green | blue.\n",
        )],
        words: &["run", "h.pl", "color(X)", "--steps", "1000"],
        written: "answer: color(red)\nanswer: color(green)\nanswer: color(blue)\nend: no more answers\n",
        status: 0,
    },
    // a rule that has no expansion
    SetCase {
        files: &[("g2.pl", ":- module(g2,[p/1],[dcg]).\np(X) --> X.\np(a).\n")],
        words: &["run", "g2.pl", "p", "--steps", "1000"],
        written: "fault: g2.pl:2 BadExpansion\n",
        status: 3,
    },
    // a function that has none
    SetCase {
        files: &[(
            "x2.pl",
            ":- module(x2,[p/1],[fsyntax]).\np := a | b | ~ 1.\np(a).\n",
        )],
        words: &["run", "x2.pl", "p", "--steps", "1000"],
        written: "fault: x2.pl:2 BadExpansion\n",
        status: 3,
    },
    // a rule without the package
    SetCase {
        files: &[("g3.pl", ":- module(g3,[p/1]).\np(X) --> [X].\np(a).\n")],
        words: &["run", "g3.pl", "p", "--steps", "1000"],
        written: "fault: g3.pl:2 BadClause\n",
        status: 3,
    },
    // a limit of answers
    SetCase {
        files: &[(
            "o.pl",
            ":- module(o,[p/1]).\n:- success p(X) => int(X).\np(1) :- write(one), nl.\np(a) :- write(two), nl.\n",
        )],
        words: &["run", "o.pl", "p(X)", "--steps", "1000", "--answers", "1"],
        written: "one\nanswer: p(1)\nend: answer limit\n",
        status: 0,
    },
    SetCase {
        files: &[(
            "x3.pl",
            ":- module(x3,[p/1],[fsyntax]).\np := a | b.\np(a).\n",
        )],
        words: &["run", "x3.pl", "p(X)", "--steps", "1000", "--answers", "1"],
        written: "answer: p(a)\nend: answer limit\n",
        status: 0,
    },
    // another order of words
    SetCase {
        files: &[("c.pl", ":- module(c,[n/1]).\nn(z).\nn(s(X)) :- n(X).\n")],
        words: &["run", "c.pl", "--steps=2", "--", "n(z)"],
        written: "answer: n(z)\nend: no more answers\n",
        status: 0,
    },
    // a limit that is just reached, and one that is not
    SetCase {
        files: &[("c.pl", ":- module(c,[p/1]).\np(1).\np(2).\n")],
        words: &["run", "c.pl", "p(X)", "--steps", "1000", "--answers", "2"],
        written: "answer: p(1)\nanswer: p(2)\nend: answer limit\n",
        status: 0,
    },
    SetCase {
        files: &[("c.pl", ":- module(c,[p/1]).\np(1).\np(2).\n")],
        words: &["run", "c.pl", "p(X)", "--steps", "1000", "--answers", "3"],
        written: "answer: p(1)\nanswer: p(2)\nend: no more answers\n",
        status: 0,
    },
    SetCase {
        files: &[("c.pl", ":- module(c,[p/1]).\np(1).\np(2).\n")],
        words: &[
            "run",
            "c.pl",
            "p(X)",
            "--steps",
            "1000",
            "--answers",
            "9223372036854775807",
        ],
        written: "answer: p(1)\nanswer: p(2)\nend: no more answers\n",
        status: 0,
    },
    // limits that are none
    SetCase {
        files: &[("c.pl", ":- module(c,[p/1]).\np(1).\np(2).\n")],
        words: &["run", "c.pl", "p(X)", "--steps", "1000", "--answers", "0"],
        written: "fault: words\n",
        status: 2,
    },
    SetCase {
        files: &[("c.pl", ":- module(c,[p/1]).\np(1).\np(2).\n")],
        words: &[
            "run",
            "c.pl",
            "p(X)",
            "--steps",
            "1000",
            "--answers",
            "9223372036854775808",
        ],
        written: "fault: words\n",
        status: 2,
    },
    SetCase {
        files: &[("c.pl", ":- module(c,[p/1]).\np(1).\np(2).\n")],
        words: &[
            "run",
            "c.pl",
            "p(X)",
            "--steps",
            "1000",
            "--answers",
            "1",
            "--answers",
            "1",
        ],
        written: "fault: words\n",
        status: 2,
    },
    SetCase {
        files: &[("c.pl", ":- module(c,[p/1]).\np(1).\np(2).\n")],
        words: &["run", "c.pl", "p(X)", "--steps", "1000", "--answers"],
        written: "fault: words\n",
        status: 2,
    },
    SetCase {
        files: &[("c.pl", ":- module(c,[p/1]).\np(1).\np(2).\n")],
        words: &["run", "--answers=1", "--steps=5", "c.pl", "p(X)"],
        written: "answer: p(1)\nend: answer limit\n",
        status: 0,
    },
    // a condition that is broken before the first answer
    SetCase {
        files: &[(
            "c.pl",
            ":- module(c,[p/1]).\n:- pred p(X) => int(X).\np(a).\np(2).\n",
        )],
        words: &["run", "c.pl", "p(X)", "--steps", "1000", "--answers", "1"],
        written: "end: violated c.pl:2 success p/1\n",
        status: 1,
    },
    // a grammar over codes
    SetCase {
        files: &[(
            "c.pl",
            ":- module(c,[s/2],[dcg]).\ns --> [].\ns --> \"a\", s.\n",
        )],
        words: &["run", "c.pl", "s(\"aa\",[])", "--steps", "1000"],
        written: "answer: s([97,97],[])\nend: no more answers\n",
        status: 0,
    },
    // a cut, a goal and a negation in a grammar
    SetCase {
        files: &[(
            "c.pl",
            ":- module(c,[s/3],[dcg]).\ns(N) --> [N], {integer(N)}, !.\ns(none) --> \\+ [_].\n",
        )],
        words: &["run", "c.pl", "s(N,[7],[])", "--steps", "1000"],
        written: "answer: s(7,[7],[])\nend: no more answers\n",
        status: 0,
    },
    SetCase {
        files: &[(
            "c.pl",
            ":- module(c,[s/3],[dcg]).\ns(N) --> [N], {integer(N)}, !.\ns(none) --> \\+ [_].\n",
        )],
        words: &["run", "c.pl", "s(N,[],[])", "--steps", "1000"],
        written: "answer: s(none,[],[])\nend: no more answers\n",
        status: 0,
    },
    // a function by cases
    SetCase {
        files: &[(
            "c.pl",
            ":- module(c,[f/2],[fsyntax]).\nf(X) := X > 0 ? pos | X < 0 ? neg | zero.\n",
        )],
        words: &["run", "c.pl", "f(-3,Y)", "--steps", "1000"],
        written: "answer: f(-3,neg)\nend: no more answers\n",
        status: 0,
    },
    SetCase {
        files: &[(
            "c.pl",
            ":- module(c,[f/2],[fsyntax]).\nf(X) := X > 0 ? pos | X < 0 ? neg | zero.\n",
        )],
        words: &["run", "c.pl", "f(0,Y)", "--steps", "1000"],
        written: "answer: f(0,zero)\nend: no more answers\n",
        status: 0,
    },
    // functions in a body
    SetCase {
        files: &[(
            "c.pl",
            ":- module(c,[p/1],[fsyntax]).\nsucc(X,Y) :- Y is X + 1.\np(X) :- X = ~succ(~succ(1)).\n",
        )],
        words: &["run", "c.pl", "p(X)", "--steps", "1000"],
        written: "answer: p(3)\nend: no more answers\n",
        status: 0,
    },
    // a function without the package
    SetCase {
        files: &[("c.pl", ":- module(c,[p/0]).\np := a.\n")],
        words: &["run", "c.pl", "p", "--steps", "1000"],
        written: "fault: c.pl:1 Undefined\n",
        status: 3,
    },
];

#[test]
fn packages_and_limits(rt: HostRuntime) -> Result<(), Fail> {
    assert_eq!(rt; first_other_set(&rt, rt.alloc(), &SETS)?, None);
    Ok(())
}
