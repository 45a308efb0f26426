// Entries, and assertions of all forms.
use crate::sets::{SetCase, first_other_set};
use std::test::Fail;

const SETS: [SetCase; 34] = [
    // a module with an entry and assertions
    SetCase {
        files: &[(
            "qsort.pl",
            ":- module(qsort,[qsort/2],[assertions]).\n:- use_module(library(lists),[append/3]).\n:- entry qsort(X,Y) : list(X,int).\n:- pred qsort(X,Y) : list(X,int) => list(Y,int) # \"sorts\".\nqsort([],[]).\nqsort([X|L],R) :- part(L,X,A,B), qsort(A,S), qsort(B,T), append(S,[X|T],R).\n:- pred part(L,X,A,B) : (list(L,int), int(X)) => (list(A,int), list(B,int)).\npart([],_,[],[]).\npart([E|R],C,[E|A],B) :- E < C, part(R,C,A,B).\npart([E|R],C,A,[E|B]) :- E >= C, part(R,C,A,B).\n",
        )],
        words: &["run", "qsort.pl", "qsort([3,1,2],X)", "--steps", "1000"],
        written: "answer: qsort([3,1,2],[1,2,3])\nend: no more answers\n",
        status: 0,
    },
    // queries that meet no entry, are not exported, or cannot be read
    SetCase {
        files: &[(
            "qsort.pl",
            ":- module(qsort,[qsort/2],[assertions]).\n:- use_module(library(lists),[append/3]).\n:- entry qsort(X,Y) : list(X,int).\n:- pred qsort(X,Y) : list(X,int) => list(Y,int) # \"sorts\".\nqsort([],[]).\nqsort([X|L],R) :- part(L,X,A,B), qsort(A,S), qsort(B,T), append(S,[X|T],R).\n:- pred part(L,X,A,B) : (list(L,int), int(X)) => (list(A,int), list(B,int)).\npart([],_,[],[]).\npart([E|R],C,[E|A],B) :- E < C, part(R,C,A,B).\npart([E|R],C,A,[E|B]) :- E >= C, part(R,C,A,B).\n",
        )],
        words: &["run", "qsort.pl", "qsort([a],X)", "--steps", "1000"],
        written: "fault: query no entry\n",
        status: 4,
    },
    SetCase {
        files: &[(
            "qsort.pl",
            ":- module(qsort,[qsort/2],[assertions]).\n:- use_module(library(lists),[append/3]).\n:- entry qsort(X,Y) : list(X,int).\n:- pred qsort(X,Y) : list(X,int) => list(Y,int) # \"sorts\".\nqsort([],[]).\nqsort([X|L],R) :- part(L,X,A,B), qsort(A,S), qsort(B,T), append(S,[X|T],R).\n:- pred part(L,X,A,B) : (list(L,int), int(X)) => (list(A,int), list(B,int)).\npart([],_,[],[]).\npart([E|R],C,[E|A],B) :- E < C, part(R,C,A,B).\npart([E|R],C,A,[E|B]) :- E >= C, part(R,C,A,B).\n",
        )],
        words: &["run", "qsort.pl", "part([],1,A,B)", "--steps", "1000"],
        written: "fault: query not exported\n",
        status: 4,
    },
    SetCase {
        files: &[(
            "qsort.pl",
            ":- module(qsort,[qsort/2],[assertions]).\n:- use_module(library(lists),[append/3]).\n:- entry qsort(X,Y) : list(X,int).\n:- pred qsort(X,Y) : list(X,int) => list(Y,int) # \"sorts\".\nqsort([],[]).\nqsort([X|L],R) :- part(L,X,A,B), qsort(A,S), qsort(B,T), append(S,[X|T],R).\n:- pred part(L,X,A,B) : (list(L,int), int(X)) => (list(A,int), list(B,int)).\npart([],_,[],[]).\npart([E|R],C,[E|A],B) :- E < C, part(R,C,A,B).\npart([E|R],C,A,[E|B]) :- E >= C, part(R,C,A,B).\n",
        )],
        words: &["run", "qsort.pl", "qsort(", "--steps", "1000"],
        written: "fault: query unread\n",
        status: 4,
    },
    // without the entry
    SetCase {
        files: &[(
            "qsort.pl",
            ":- module(qsort,[qsort/2],[assertions]).\n:- use_module(library(lists),[append/3]).\n\n:- pred qsort(X,Y) : list(X,int) => list(Y,int) # \"sorts\".\nqsort([],[]).\nqsort([X|L],R) :- part(L,X,A,B), qsort(A,S), qsort(B,T), append(S,[X|T],R).\n:- pred part(L,X,A,B) : (list(L,int), int(X)) => (list(A,int), list(B,int)).\npart([],_,[],[]).\npart([E|R],C,[E|A],B) :- E < C, part(R,C,A,B).\npart([E|R],C,A,[E|B]) :- E >= C, part(R,C,A,B).\n",
        )],
        words: &["run", "qsort.pl", "qsort([a],X)", "--steps", "1000"],
        written: "end: violated qsort.pl:4 calls qsort/2\n",
        status: 1,
    },
    // an entry alone
    SetCase {
        files: &[(
            "i.pl",
            ":- module(i,[p/1]).\n:- entry p(X) : int(X).\np(_).\n",
        )],
        words: &["run", "i.pl", "p(a)", "--steps", "1000"],
        written: "fault: query no entry\n",
        status: 4,
    },
    // an assertion that is none
    SetCase {
        files: &[("i.pl", ":- module(i,[p/1]).\n:- pred p(X,X).\np(_).\n")],
        words: &["run", "i.pl", "p(a)", "--steps", "1000"],
        written: "fault: i.pl:2 BadAssertion\n",
        status: 3,
    },
    // an assertion that holds by itself
    SetCase {
        files: &[(
            "i.pl",
            ":- module(i,[p/1]).\n:- true pred p(X) => atm(X).\np(_).\n",
        )],
        words: &["run", "i.pl", "p(1)", "--steps", "1000"],
        written: "answer: p(1)\nend: no more answers\n",
        status: 0,
    },
    // a list of a type
    SetCase {
        files: &[(
            "lk.pl",
            ":- module(lk,[p/1]).\n:- success q(X) => list(X).\np(X) :- q(X), q(X).\nq(_).\n",
        )],
        words: &["run", "lk.pl", "p([a])", "--steps", "10"],
        written: "answer: p([a])\nend: no more answers\n",
        status: 0,
    },
    // the second of two entries is met
    SetCase {
        files: &[(
            "c.pl",
            ":- module(c,[p/1]).\n:- entry p(X) : int(X).\n:- entry p(X) : atm(X).\np(_).\n",
        )],
        words: &["run", "c.pl", "p(a)", "--steps", "1000"],
        written: "answer: p(a)\nend: no more answers\n",
        status: 0,
    },
    SetCase {
        files: &[(
            "c.pl",
            ":- module(c,[p/1]).\n:- entry p(X) : int(X).\n:- entry p(X) : atm(X).\np(_).\n",
        )],
        words: &["run", "c.pl", "p(1)", "--steps", "1000"],
        written: "answer: p(1)\nend: no more answers\n",
        status: 0,
    },
    SetCase {
        files: &[(
            "c.pl",
            ":- module(c,[p/1]).\n:- entry p(X) : int(X).\n:- entry p(X) : atm(X).\np(_).\n",
        )],
        words: &["run", "c.pl", "p(f(a))", "--steps", "1000"],
        written: "fault: query no entry\n",
        status: 4,
    },
    // entries that count for nothing
    SetCase {
        files: &[(
            "c.pl",
            ":- module(c,[p/1]).\n:- true entry p(X) : int(X).\np(_).\n",
        )],
        words: &["run", "c.pl", "p(a)", "--steps", "1000"],
        written: "answer: p(a)\nend: no more answers\n",
        status: 0,
    },
    SetCase {
        files: &[(
            "c.pl",
            ":- module(c,[p/1]).\n:- checked entry p(X) : int(X).\n:- trust entry p(X) : var(X).\np(_).\n",
        )],
        words: &["run", "c.pl", "p(1)", "--steps", "1000"],
        written: "fault: query no entry\n",
        status: 4,
    },
    // an entry of another predicate
    SetCase {
        files: &[(
            "c.pl",
            ":- module(c,[p/1,q/1]).\n:- entry q(X) : int(X).\np(_).\nq(_).\n",
        )],
        words: &["run", "c.pl", "p(a)", "--steps", "1000"],
        written: "answer: p(a)\nend: no more answers\n",
        status: 0,
    },
    // and of another file
    SetCase {
        files: &[
            (
                "c.pl",
                ":- module(c,[p/1]).\n:- use_module(d).\np(X) :- q(X).\n",
            ),
            (
                "d.pl",
                ":- module(d,[q/1]).\n:- entry q(X) : int(X).\nq(_).\n",
            ),
        ],
        words: &["run", "c.pl", "p(a)", "--steps", "1000"],
        written: "answer: p(a)\nend: no more answers\n",
        status: 0,
    },
    // a conjunction in an entry
    SetCase {
        files: &[(
            "c.pl",
            ":- module(c,[p/2]).\n:- entry p(X,Y) : (list(X,int), var(Y)).\np(X,X).\n",
        )],
        words: &["run", "c.pl", "p([1,2],Y)", "--steps", "1000"],
        written: "answer: p([1,2],[1,2])\nend: no more answers\n",
        status: 0,
    },
    SetCase {
        files: &[(
            "c.pl",
            ":- module(c,[p/2]).\n:- entry p(X,Y) : (list(X,int), var(Y)).\np(X,X).\n",
        )],
        words: &["run", "c.pl", "p([1,a],Y)", "--steps", "1000"],
        written: "fault: query no entry\n",
        status: 4,
    },
    // properties by argument
    SetCase {
        files: &[(
            "c.pl",
            ":- module(c,[p/2]).\n:- entry p/2 : list(int) * var.\np(X,X).\n",
        )],
        words: &["run", "c.pl", "p([1],2)", "--steps", "1000"],
        written: "fault: query no entry\n",
        status: 4,
    },
    SetCase {
        files: &[(
            "c.pl",
            ":- module(c,[p/2]).\n:- pred p/2 : int * list(atm) => int * list(gnd) # \"by argument\".\np(_,_).\n",
        )],
        words: &["run", "c.pl", "p(1,[a,b])", "--steps", "1000"],
        written: "answer: p(1,[a,b])\nend: no more answers\n",
        status: 0,
    },
    SetCase {
        files: &[(
            "c.pl",
            ":- module(c,[p/2]).\n:- pred p/2 : int * list(atm) => int * list(gnd) # \"by argument\".\np(_,_).\n",
        )],
        words: &["run", "c.pl", "p(1,[a,2])", "--steps", "1000"],
        written: "end: violated c.pl:2 calls p/2\n",
        status: 1,
    },
    // calls and success by themselves
    SetCase {
        files: &[(
            "c.pl",
            ":- module(c,[p/1]).\n:- calls p(X) : int(X).\n:- success p(X) => nnegint(X).\np(_).\n",
        )],
        words: &["run", "c.pl", "p(-1)", "--steps", "1000"],
        written: "end: violated c.pl:3 success p/1\n",
        status: 1,
    },
    // preconditions of calls and of pred are alternatives
    SetCase {
        files: &[(
            "c.pl",
            ":- module(c,[p/1]).\n:- calls p(X) : int(X).\n:- pred p(X) : atm(X).\np(_).\n",
        )],
        words: &["run", "c.pl", "p(a)", "--steps", "1000"],
        written: "answer: p(a)\nend: no more answers\n",
        status: 0,
    },
    SetCase {
        files: &[(
            "c.pl",
            ":- module(c,[p/1]).\n:- calls p(X) : int(X).\n:- pred p(X) : atm(X).\np(_).\n",
        )],
        words: &["run", "c.pl", "p([a])", "--steps", "1000"],
        written: "end: violated c.pl:2 calls p/1\n",
        status: 1,
    },
    // statuses: two are tested, three are not
    SetCase {
        files: &[(
            "c.pl",
            ":- module(c,[p/1]).\n:- trust pred p(X) : int(X).\np(_).\n",
        )],
        words: &["run", "c.pl", "p(a)", "--steps", "1000"],
        written: "end: violated c.pl:2 calls p/1\n",
        status: 1,
    },
    SetCase {
        files: &[(
            "c.pl",
            ":- module(c,[p/1]).\n:- true pred p(X) : int(X).\n:- false pred p(X) : int(X).\n:- checked pred p(X) : int(X).\np(_).\n",
        )],
        words: &["run", "c.pl", "p(a)", "--steps", "1000"],
        written: "answer: p(a)\nend: no more answers\n",
        status: 0,
    },
    // names of properties are not looked up where an assertion has no effect
    SetCase {
        files: &[(
            "c.pl",
            ":- module(c,[p/1]).\n:- true pred p(X) : small(X) + quick.\np(_).\n",
        )],
        words: &["run", "c.pl", "p(a)", "--steps", "1000"],
        written: "answer: p(a)\nend: no more answers\n",
        status: 0,
    },
    SetCase {
        files: &[(
            "c.pl",
            ":- module(c,[p/1]).\n:- pred p(X) + quick.\np(_).\n",
        )],
        words: &["run", "c.pl", "p(a)", "--steps", "1000"],
        written: "fault: c.pl:2 UnknownProperty\n",
        status: 3,
    },
    // but their predicates are
    SetCase {
        files: &[(
            "c.pl",
            ":- module(c,[p/0]).\n:- checked pred q(X) : int(X).\np.\n",
        )],
        words: &["run", "c.pl", "p", "--steps", "1000"],
        written: "fault: c.pl:2 Undefined\n",
        status: 3,
    },
    // a type of another file
    SetCase {
        files: &[
            (
                "c.pl",
                ":- module(c,[p/1]).\n:- use_module(d).\n:- pred p(X) : t(X).\np(_).\n",
            ),
            ("d.pl", ":- module(d,[t/1]).\n:- regtype t/1.\nt(a).\n"),
        ],
        words: &["run", "c.pl", "p(a)", "--steps", "1000"],
        written: "answer: p(a)\nend: no more answers\n",
        status: 0,
    },
    SetCase {
        files: &[
            (
                "c.pl",
                ":- module(c,[p/1]).\n:- use_module(d).\n:- pred p(X) : t(X).\np(_).\n",
            ),
            ("d.pl", ":- module(d,[t/1]).\n:- regtype t/1.\nt(a).\n"),
        ],
        words: &["run", "c.pl", "p(b)", "--steps", "1000"],
        written: "end: violated c.pl:3 calls p/1\n",
        status: 1,
    },
    // one that is not exported
    SetCase {
        files: &[
            (
                "c.pl",
                ":- module(c,[p/1]).\n:- use_module(d).\n:- pred p(X) : t(X).\np(_).\n",
            ),
            ("d.pl", ":- module(d,[]).\n:- regtype t/1.\nt(a).\n"),
        ],
        words: &["run", "c.pl", "p(b)", "--steps", "1000"],
        written: "fault: c.pl:3 UnknownProperty\n",
        status: 3,
    },
    // one that two files give
    SetCase {
        files: &[
            (
                "c.pl",
                ":- module(c,[p/1]).\n:- use_module(d).\n:- use_module(e).\n:- pred p(X) : t(X).\np(_).\n",
            ),
            ("d.pl", ":- module(d,[t/1]).\n:- regtype t/1.\nt(a).\n"),
            ("e.pl", ":- module(e,[t/1]).\n:- regtype t/1.\nt(b).\n"),
        ],
        words: &["run", "c.pl", "p(b)", "--steps", "1000"],
        written: "fault: c.pl:4 Ambiguous\n",
        status: 3,
    },
    // one's own goes before
    SetCase {
        files: &[
            (
                "c.pl",
                ":- module(c,[p/1]).\n:- use_module(d).\n:- regtype t/1.\n:- pred p(X) : t(X).\nt(b).\np(_).\n",
            ),
            ("d.pl", ":- module(d,[t/1]).\n:- regtype t/1.\nt(a).\n"),
        ],
        words: &["run", "c.pl", "p(b)", "--steps", "1000"],
        written: "answer: p(b)\nend: no more answers\n",
        status: 0,
    },
];

#[test]
fn entries_and_assertions(rt: HostRuntime) -> Result<(), Fail> {
    assert_eq!(rt; first_other_set(&rt, rt.alloc(), &SETS)?, None);
    Ok(())
}
