// Regular types of programs.
use crate::sets::{SetCase, first_other_set};
use std::test::Fail;

const SETS: [SetCase; 18] = [
    // a type of trees
    SetCase {
        files: &[(
            "tr.pl",
            ":- module(tr,[p/1,tree/1]).\n:- regtype tree/1.\ntree(leaf).\ntree(node(L,N,R)) :- tree(L), int(N), tree(R).\n:- pred p(T) : tree(T).\np(_).\n",
        )],
        words: &["run", "tr.pl", "p(node(leaf,1,leaf))", "--steps", "1000"],
        written: "answer: p(node(leaf,1,leaf))\nend: no more answers\n",
        status: 0,
    },
    SetCase {
        files: &[(
            "tr.pl",
            ":- module(tr,[p/1,tree/1]).\n:- regtype tree/1.\ntree(leaf).\ntree(node(L,N,R)) :- tree(L), int(N), tree(R).\n:- pred p(T) : tree(T).\np(_).\n",
        )],
        words: &["run", "tr.pl", "p(node(leaf,X,leaf))", "--steps", "1000"],
        written: "end: violated tr.pl:5 calls p/1\n",
        status: 1,
    },
    // a type is a predicate too
    SetCase {
        files: &[(
            "tr.pl",
            ":- module(tr,[p/1,tree/1]).\n:- regtype tree/1.\ntree(leaf).\ntree(node(L,N,R)) :- tree(L), int(N), tree(R).\n:- pred p(T) : tree(T).\np(_).\n",
        )],
        words: &["run", "tr.pl", "tree(X)", "--steps", "2"],
        written: "answer: tree(leaf)\nend: unknown, step bound\n",
        status: 5,
    },
    // a clause that no type has
    SetCase {
        files: &[(
            "tr.pl",
            ":- module(tr,[p/1,tree/1]).\n:- regtype tree/1.\ntree(leaf).\ntree(n(L,L)) :- tree(L).\n:- pred p(T) : tree(T).\np(_).\n",
        )],
        words: &["run", "tr.pl", "p", "--steps", "1000"],
        written: "fault: tr.pl:4 BadRegtype\n",
        status: 3,
    },
    // a type that is called
    SetCase {
        files: &[(
            "c.pl",
            ":- module(c,[p/1]).\n:- regtype color/1.\ncolor(red).\ncolor(blue).\np(X) :- color(X).\n",
        )],
        words: &["run", "c.pl", "p(X)", "--steps", "1000"],
        written: "answer: p(red)\nanswer: p(blue)\nend: no more answers\n",
        status: 0,
    },
    // two types, each by the other
    SetCase {
        files: &[(
            "c.pl",
            ":- module(c,[p/1]).\n:- regtype even/1.\n:- regtype odd/1.\neven(z).\neven(s(X)) :- odd(X).\nodd(s(X)) :- even(X).\n:- pred p(X) : even(X).\np(_).\n",
        )],
        words: &["run", "c.pl", "p(s(s(z)))", "--steps", "1000"],
        written: "answer: p(s(s(z)))\nend: no more answers\n",
        status: 0,
    },
    SetCase {
        files: &[(
            "c.pl",
            ":- module(c,[p/1]).\n:- regtype even/1.\n:- regtype odd/1.\neven(z).\neven(s(X)) :- odd(X).\nodd(s(X)) :- even(X).\n:- pred p(X) : even(X).\np(_).\n",
        )],
        words: &["run", "c.pl", "p(s(z))", "--steps", "1000"],
        written: "end: violated c.pl:7 calls p/1\n",
        status: 1,
    },
    // a type that is one of two others
    SetCase {
        files: &[(
            "c.pl",
            ":- module(c,[p/1]).\n:- regtype num_or_atom/1.\nnum_or_atom(X) :- num(X).\nnum_or_atom(X) :- atm(X).\n:- pred p(X) : list(X,num_or_atom).\np(_).\n",
        )],
        words: &["run", "c.pl", "p([1,a])", "--steps", "1000"],
        written: "answer: p([1,a])\nend: no more answers\n",
        status: 0,
    },
    SetCase {
        files: &[(
            "c.pl",
            ":- module(c,[p/1]).\n:- regtype num_or_atom/1.\nnum_or_atom(X) :- num(X).\nnum_or_atom(X) :- atm(X).\n:- pred p(X) : list(X,num_or_atom).\np(_).\n",
        )],
        words: &["run", "c.pl", "p([1,f(a)])", "--steps", "1000"],
        written: "end: violated c.pl:5 calls p/1\n",
        status: 1,
    },
    // a type of nested terms
    SetCase {
        files: &[(
            "c.pl",
            ":- module(c,[p/1]).\n:- regtype pairs/1 # \"lists of pairs\".\npairs([]).\npairs([K - _|R]) :- int(K), pairs(R).\n:- pred p(X) => pairs(X).\np([1 - a,2 - b]).\np([1 - a,b - 2]).\n",
        )],
        words: &["run", "c.pl", "p(X)", "--steps", "1000"],
        written: "answer: p([1 - a,2 - b])\nend: violated c.pl:5 success p/1\n",
        status: 1,
    },
    // a list in the body of a clause of a type, which is called
    SetCase {
        files: &[(
            "c.pl",
            ":- module(c,[p/1]).\n:- regtype t(X).\nt(f(X)) :- list(X,int).\np(X) :- t(X).\n",
        )],
        words: &["run", "c.pl", "p(f([1]))", "--steps", "1000"],
        written: "answer: p(f([1]))\nend: no more answers\n",
        status: 0,
    },
    // types that are refused: of two arguments, a basic name, a second declaration, without clauses, with a repeated variable
    SetCase {
        files: &[(
            "c.pl",
            ":- module(c,[p/0]).\n:- regtype t/2.\nt(a,b).\np.\n",
        )],
        words: &["run", "c.pl", "p", "--steps", "1000"],
        written: "fault: c.pl:2 BadRegtype\n",
        status: 3,
    },
    SetCase {
        files: &[("c.pl", ":- module(c,[p/0]).\n:- regtype int/1.\np.\n")],
        words: &["run", "c.pl", "p", "--steps", "1000"],
        written: "fault: c.pl:2 BadRegtype\n",
        status: 3,
    },
    SetCase {
        files: &[(
            "c.pl",
            ":- module(c,[p/0]).\n:- regtype t/1.\n:- regtype t/1.\nt(a).\np.\n",
        )],
        words: &["run", "c.pl", "p", "--steps", "1000"],
        written: "fault: c.pl:3 BadRegtype\n",
        status: 3,
    },
    SetCase {
        files: &[("c.pl", ":- module(c,[p/0]).\np.\n:- regtype t/1.\n")],
        words: &["run", "c.pl", "p", "--steps", "1000"],
        written: "fault: c.pl:3 BadRegtype\n",
        status: 3,
    },
    SetCase {
        files: &[(
            "c.pl",
            ":- module(c,[p/0]).\np.\n:- regtype t/1.\nt(f(X,X)).\n",
        )],
        words: &["run", "c.pl", "p", "--steps", "1000"],
        written: "fault: c.pl:4 BadRegtype\n",
        status: 3,
    },
    // names of types that mean none
    SetCase {
        files: &[(
            "c.pl",
            ":- module(c,[p/0]).\np.\n:- regtype t/1.\nt(f(X)) :- small(X).\n",
        )],
        words: &["run", "c.pl", "p", "--steps", "1000"],
        written: "fault: c.pl:4 UnknownProperty\n",
        status: 3,
    },
    SetCase {
        files: &[(
            "c.pl",
            ":- module(c,[p/0]).\np.\n:- regtype t/1.\nt(f(X)) :- var(X).\n",
        )],
        words: &["run", "c.pl", "p", "--steps", "1000"],
        written: "fault: c.pl:4 UnknownProperty\n",
        status: 3,
    },
];

#[test]
fn types_of_programs(rt: HostRuntime) -> Result<(), Fail> {
    assert_eq!(rt; first_other_set(&rt, rt.alloc(), &SETS)?, None);
    Ok(())
}
