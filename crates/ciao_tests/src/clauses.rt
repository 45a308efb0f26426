// Files without assertions: answers, endings and refusals.
use crate::runs::{Case, first_other};
use std::test::Fail;

pub(crate) const COUNT: &str = ":- module(c,[n/1]).\nn(z).\nn(s(X)) :- n(X).\n";

const CYCLIC: &str = ":- module(c,[q/0]).\nq :- p(X,f(X)).\np(X,X).\n";

const FIRST_DEEP: &str = ":- module(c,[n/1]).\nn(s(X)) :- n(X).\nn(z).\n";

const THREE: &str = ":- module(c,[t/3]).\nt(X,Y,Z) :- b(X), b(Y), b(Z).\nb(0).\nb(1).\n";

const SHARED: &str = ":- module(c,[e/2,two/1]).\ne(X,X).\ntwo(X) :- e(X,a), e(X,Y), e(Y,a).\n";

const FREE: &str = ":- module(c,[p/3]).\np(X,f(Y,X,_),_).\n";

const NUMBERS: &str = ":- module(c,[p/1]).\np(0).\np(007).\np(9223372036854775807).\n";

const CASES: [Case; 38] = [
    // counting, with bounds that are enough, one too small and none
    Case {
        text: COUNT,
        query: "n(s(z))",
        steps: "2",
        written: "answer: n(s(z))\nend: no more answers\n",
        status: 0,
    },
    Case {
        text: COUNT,
        query: "n(s(z))",
        steps: "1",
        written: "end: unknown, step bound\n",
        status: 5,
    },
    Case {
        text: COUNT,
        query: "n(s(z))",
        steps: "0",
        written: "end: unknown, step bound\n",
        status: 5,
    },
    Case {
        text: COUNT,
        query: "n(X)",
        steps: "3",
        written: "answer: n(z)\nanswer: n(s(z))\nanswer: n(s(s(z)))\nend: unknown, step bound\n",
        status: 5,
    },
    // a cyclic unification of a head
    Case {
        text: CYCLIC,
        query: "q",
        steps: "1000",
        written: "end: cyclic term c.pl:3\n",
        status: 6,
    },
    // refusals
    Case {
        text: ":- module(c,[q/0]).\nq :- X = 1.\np(X,X).\n",
        query: "q",
        steps: "1000",
        written: "answer: q\nend: no more answers\n",
        status: 0,
    },
    Case {
        text: CYCLIC,
        query: "p(1,2)",
        steps: "1000",
        written: "fault: query not exported\n",
        status: 4,
    },
    Case {
        text: "",
        query: "q",
        steps: "5",
        written: "fault: c.pl:0 NoFile\n",
        status: 3,
    },
    Case {
        text: COUNT,
        query: "n(",
        steps: "5",
        written: "fault: query unread\n",
        status: 4,
    },
    Case {
        text: COUNT,
        query: "X",
        steps: "5",
        written: "fault: query not exported\n",
        status: 4,
    },
    Case {
        text: COUNT,
        query: "n([])",
        steps: "5",
        written: "end: no more answers\n",
        status: 0,
    },
    Case {
        text: COUNT,
        query: "fail",
        steps: "5",
        written: "fault: query not exported\n",
        status: 4,
    },
    Case {
        text: COUNT,
        query: "n",
        steps: "5",
        written: "fault: query not exported\n",
        status: 4,
    },
    Case {
        text: COUNT,
        query: "n(z)",
        steps: "-1",
        written: "fault: words\n",
        status: 2,
    },
    // the clauses in the other order: the bound comes before any answer
    Case {
        text: FIRST_DEEP,
        query: "n(X)",
        steps: "3",
        written: "end: unknown, step bound\n",
        status: 5,
    },
    Case {
        text: FIRST_DEEP,
        query: "n(s(z))",
        steps: "2",
        written: "answer: n(s(z))\nend: no more answers\n",
        status: 0,
    },
    // backtracking over three levels, and a bound in the middle of a conjunction
    Case {
        text: THREE,
        query: "t(X,Y,Z)",
        steps: "8",
        written: "answer: t(0,0,0)\nanswer: t(0,0,1)\nanswer: t(0,1,0)\nanswer: t(0,1,1)\nanswer: t(1,0,0)\nanswer: t(1,0,1)\nanswer: t(1,1,0)\nanswer: t(1,1,1)\nend: no more answers\n",
        status: 0,
    },
    Case {
        text: THREE,
        query: "t(X,Y,Z)",
        steps: "7",
        written: "answer: t(0,0,0)\nanswer: t(0,0,1)\nanswer: t(0,1,0)\nanswer: t(0,1,1)\nanswer: t(1,0,0)\nanswer: t(1,0,1)\nend: unknown, step bound\n",
        status: 5,
    },
    Case {
        text: THREE,
        query: "t(1,1,1)",
        steps: "3",
        written: "end: unknown, step bound\n",
        status: 5,
    },
    // a variable that a head has twice, and bindings that go through a body
    Case {
        text: SHARED,
        query: "e(f(X,b),f(a,Y))",
        steps: "1",
        written: "answer: e(f(a,b),f(a,b))\nend: no more answers\n",
        status: 0,
    },
    Case {
        text: SHARED,
        query: "e(f(X),g(X))",
        steps: "1",
        written: "end: no more answers\n",
        status: 0,
    },
    Case {
        text: SHARED,
        query: "two(X)",
        steps: "4",
        written: "answer: two(a)\nend: no more answers\n",
        status: 0,
    },
    Case {
        text: SHARED,
        query: "e(X,f(X))",
        steps: "1",
        written: "end: cyclic term c.pl:2\n",
        status: 6,
    },
    // several unbound variables, numbered as they come
    Case {
        text: FREE,
        query: "p(A,B,C)",
        steps: "1",
        written: "answer: p(_1,f(_2,_1,_3),_4)\nend: no more answers\n",
        status: 0,
    },
    Case {
        text: FREE,
        query: "p(_,B,_)",
        steps: "1",
        written: "answer: p(_1,f(_2,_1,_3),_4)\nend: no more answers\n",
        status: 0,
    },
    // numbers
    Case {
        text: NUMBERS,
        query: "p(X)",
        steps: "1",
        written: "answer: p(0)\nanswer: p(7)\nanswer: p(9223372036854775807)\nend: no more answers\n",
        status: 0,
    },
    Case {
        text: ":- module(c,[p/1]).\np(9223372036854775808).\n",
        query: "p(X)",
        steps: "1",
        written: "fault: c.pl:2 IntRange\n",
        status: 3,
    },
    // a comment at the end without a line feed, and layout everywhere
    Case {
        text: ":- module(c,[p/0]).\np. % no line feed",
        query: "p",
        steps: "1",
        written: "answer: p\nend: no more answers\n",
        status: 0,
    },
    Case {
        text: "% first\n:-\tmodule( c , [ p / 1 ] ) .\np( % an argument\n  a ) .",
        query: " p( X ) . ",
        steps: "1",
        written: "answer: p(a)\nend: no more answers\n",
        status: 0,
    },
    // no export
    Case {
        text: ":- module(c,[]).\np.\n",
        query: "p",
        steps: "1",
        written: "fault: query not exported\n",
        status: 4,
    },
    // a file of another name
    Case {
        text: ":- module(d,[p/0]).\np.\n",
        query: "p",
        steps: "1",
        written: "fault: c.pl:1 BadModule\n",
        status: 3,
    },
    // lists
    Case {
        text: ":- module(c,[p/1]).\np([a|T]).\np([a|[b]]).\np([a,b|c]).\np([[],[a,[b]|[]]]).\np(f([],[X|X])).\n",
        query: "p(X)",
        steps: "1",
        written: "answer: p([a|_1])\nanswer: p([a,b])\nanswer: p([a,b|c])\nanswer: p([[],[a,[b]]])\nanswer: p(f([],[_1|_1]))\nend: no more answers\n",
        status: 0,
    },
    Case {
        text: ":- module(c,[app/3]).\napp([],Ys,Ys).\napp([X|Xs],Ys,[X|Zs]) :- app(Xs,Ys,Zs).\n",
        query: "app(Xs,Ys,[1,2])",
        steps: "3",
        written: "answer: app([],[1,2],[1,2])\nanswer: app([1],[2],[1,2])\nanswer: app([1,2],[],[1,2])\nend: no more answers\n",
        status: 0,
    },
    Case {
        text: ":- module(c,[p/1]).\np([a|b|c]).\n",
        query: "p(X)",
        steps: "1",
        written: "fault: c.pl:2 Syntax\n",
        status: 3,
    },
    Case {
        text: ":- module(c,[p/1]).\np([a,]).\n",
        query: "p(X)",
        steps: "1",
        written: "fault: c.pl:2 Syntax\n",
        status: 3,
    },
    Case {
        text: ":- module(c,[p/1]).\np([]).\n[a].\n",
        query: "p(X)",
        steps: "1",
        written: "answer: p([])\nend: no more answers\n",
        status: 0,
    },
    Case {
        text: ":- module(c,[p/1]).\np([]).\n",
        query: "p([a)",
        steps: "1",
        written: "fault: query unread\n",
        status: 4,
    },
    Case {
        text: ":- module(c,[p/1]).\np([]).\n",
        query: "[a]",
        steps: "1",
        written: "fault: query not exported\n",
        status: 4,
    },
];

#[test]
fn runs_without_assertions(rt: HostRuntime) -> Result<(), Fail> {
    assert_eq!(rt; first_other(&rt, rt.alloc(), &CASES)?, None);
    Ok(())
}
