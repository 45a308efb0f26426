// The table of a program, and the statuses by it.
// A value is written by the bits of its names, as in the tests of transfer; 1024 is the first name behind the basic ones.
ghost use Rattle.prog_data.specs.Programs.{IsProgram};

use crate::conditions::{Asked, are_same};
use crate::goal_ranges::Refused;
use crate::program_ranges::program_in_range;
use crate::programs::{Leaf, Plan, program_of};
use crate::words::word;
use discharger::statuses;
use fixpoint_analyser::analyse;
use prog_data::{CompProp, Program, Prop, Row, Status, Table, Value};
use std::alloc::Global;
use std::test::Fail;
use term_core::{CELL, MINUS, NIL, NoMemory};

// The values of calls, none where there are none, and of exits.
type Wanted = (Option<&'static [u64]>, Option<&'static [u64]>);

// A program, the rows of its predicates and the statuses of its conditions.
struct Case {
    plan: Plan,
    rows: &'static [Wanted],
    statuses: &'static [Status],
}

const CHECKED: Status = Status::Checked;

const CHECK: Status = Status::Check;

const FALSE: Status = Status::False;

// All terms, integers, integers from 0 on, atoms but the empty list, and atoms or integers, as values.
const ANY: u64 = 1;

const INT: u64 = 107;

const ONE: u64 = 111;

const ATOM: u64 = 369;

const CONSTANT: u64 = 97;

// Nothing is asked of the calls of the first predicate.
const ANY_CALL: &[(u64, &[Prop])] = &[(0, &[])];

const INT_0: Prop = Prop::Belongs(0, 1);

const INT_1: Prop = Prop::Belongs(1, 1);

const ATM_0: Prop = Prop::Belongs(0, 4);

// The first type behind the basic ones.
const OWN_0: Prop = Prop::Belongs(0, 10);

const OWN_1: Prop = Prop::Belongs(1, 10);

const OWN_2: Prop = Prop::Belongs(2, 10);

const OWN_3: Prop = Prop::Belongs(3, 10);

const CALLED_WITH_INT: Asked = Asked::Calls(&[&[INT_0]]);

const QUICKSORT: &str = "
    qsort([],[]).
    qsort([X|L],R) :- part(L,X,A,B), qsort(A,S), qsort(B,T), append(S,[X|T],R).
    part([],_,[],[]).
    part([E|R],C,[E|A],B) :- E < C, part(R,C,A,B).
    part([E|R],C,A,[E|B]) :- E >= C, part(R,C,A,B).
    append([],L,L).
    append([X|Xs],Ys,[X|Zs]) :- append(Xs,Ys,Zs).";

// Programs whose conditions matter.
const CONDITIONS: [Case; 9] = [
    // a call that another predicate makes after its own test
    Case {
        plan: Plan {
            text: "p(X) :- q(X). q(_).",
            types: &[],
            conds: &[(0, CALLED_WITH_INT), (1, CALLED_WITH_INT)],
            entries: ANY_CALL,
        },
        rows: &[(Some(&[ANY]), Some(&[INT])), (Some(&[INT]), Some(&[INT]))],
        statuses: &[CHECK, CHECKED],
    },
    // what is a variable now need not stay one
    Case {
        plan: Plan {
            text: "p(_).",
            types: &[],
            conds: &[(0, Asked::Success(&[], &[Prop::IsVar(0)]))],
            entries: ANY_CALL,
        },
        rows: &[(Some(&[ANY]), Some(&[ANY]))],
        statuses: &[CHECK],
    },
    // a predicate that is not reached
    Case {
        plan: Plan {
            text: "p. q(a).",
            types: &[],
            conds: &[
                (1, Asked::Calls(&[&[]])),
                (1, Asked::Success(&[], &[INT_0])),
                (1, Asked::Comp(CompProp::NotFails)),
            ],
            entries: ANY_CALL,
        },
        rows: &[(Some(&[]), Some(&[])), (None, None)],
        statuses: &[CHECKED, CHECKED, CHECKED],
    },
    // some exits break the condition
    Case {
        plan: Plan {
            text: "p(a). p(1).",
            types: &[],
            conds: &[
                (0, Asked::Calls(&[&[]])),
                (0, Asked::Success(&[], &[INT_0])),
            ],
            entries: ANY_CALL,
        },
        rows: &[(Some(&[ANY]), Some(&[CONSTANT]))],
        statuses: &[CHECKED, CHECK],
    },
    // each exit does
    Case {
        plan: Plan {
            text: "p(a).",
            types: &[],
            conds: &[
                (0, Asked::Calls(&[&[]])),
                (0, Asked::Success(&[], &[INT_0])),
            ],
            entries: ANY_CALL,
        },
        rows: &[(Some(&[ANY]), Some(&[ATOM]))],
        statuses: &[CHECKED, FALSE],
    },
    // no call passes, so no clause is run
    Case {
        plan: Plan {
            text: "p(X) :- integer(X), q(X). q(X) :- r(X). r(_).",
            types: &[],
            conds: &[(1, Asked::Calls(&[&[ATM_0]]))],
            entries: ANY_CALL,
        },
        rows: &[(Some(&[ANY]), None), (Some(&[INT]), None), (None, None)],
        statuses: &[FALSE],
    },
    // two disjuncts
    Case {
        plan: Plan {
            text: "p(_).",
            types: &[],
            conds: &[(0, Asked::Calls(&[&[INT_0], &[ATM_0]]))],
            entries: ANY_CALL,
        },
        rows: &[(Some(&[ANY]), Some(&[CONSTANT]))],
        statuses: &[CHECK],
    },
    // quicksort, with lists of integers
    Case {
        plan: Plan {
            text: QUICKSORT,
            types: &[&[Leaf::Atom(NIL), Leaf::Node(CELL, &[1, 10])]],
            conds: &[
                (0, Asked::Calls(&[&[OWN_0]])),
                (0, Asked::Success(&[OWN_0], &[OWN_1])),
                (1, Asked::Calls(&[&[OWN_0, INT_1]])),
                (1, Asked::Success(&[OWN_0, INT_1], &[OWN_2, OWN_3])),
            ],
            entries: &[(0, &[OWN_0])],
        },
        rows: &[
            (Some(&[1825, ANY]), Some(&[1825, 1825])),
            (Some(&[1825, INT, ANY, ANY]), Some(&[1825, INT, 1825, 1825])),
            (Some(&[1825, 1953, ANY]), Some(&[1825, 1953, 1953])),
        ],
        statuses: &[CHECKED, CHECKED, CHECKED, CHECKED],
    },
    // a recursive type: integers, and pairs of it
    Case {
        plan: Plan {
            text: "sum(X,X) :- integer(X). sum(L-R,N) :- sum(L,A), sum(R,B), N is A+B.",
            types: &[&[Leaf::Unit(1), Leaf::Node(MINUS, &[10, 10])]],
            conds: &[
                (0, Asked::Calls(&[&[OWN_0]])),
                (0, Asked::Success(&[OWN_0], &[INT_1])),
            ],
            entries: &[(0, &[OWN_0])],
        },
        rows: &[(Some(&[1057, ANY]), Some(&[1057, 1131]))],
        statuses: &[CHECKED, CHECKED],
    },
];

// Programs whose rows hang on one another.
const ROWS: [Case; 12] = [
    // no entry, so nothing is reached
    Case {
        plan: Plan {
            text: "p(X) :- q(X). q(1).",
            types: &[],
            conds: &[(0, CALLED_WITH_INT), (1, Asked::Comp(CompProp::NotFails))],
            entries: &[],
        },
        rows: &[(None, None), (None, None)],
        statuses: &[CHECKED, CHECKED],
    },
    // nothing at all
    Case {
        plan: Plan {
            text: "",
            types: &[],
            conds: &[],
            entries: &[],
        },
        rows: &[],
        statuses: &[],
    },
    // a predicate that never exits, and what stands behind its call
    Case {
        plan: Plan {
            text: "p(X) :- q(X), r(X). q(X) :- q(X). r(_).",
            types: &[],
            conds: &[
                (1, Asked::Comp(CompProp::Fails)),
                (1, Asked::Comp(CompProp::IsDet)),
                (1, Asked::Comp(CompProp::NotFails)),
                (1, Asked::Success(&[], &[INT_0])),
            ],
            entries: ANY_CALL,
        },
        rows: &[(Some(&[ANY]), None), (Some(&[ANY]), None), (None, None)],
        statuses: &[CHECKED, CHECKED, CHECK, CHECKED],
    },
    // the same without arguments
    Case {
        plan: Plan {
            text: "p :- q, r. q :- q. r.",
            types: &[],
            conds: &[(0, Asked::Comp(CompProp::Fails))],
            entries: ANY_CALL,
        },
        rows: &[(Some(&[]), None), (Some(&[]), None), (None, None)],
        statuses: &[CHECKED],
    },
    // two entries of one predicate
    Case {
        plan: Plan {
            text: "p(X) :- q(X). q(_).",
            types: &[],
            conds: &[],
            entries: &[(0, &[INT_0]), (0, &[ATM_0])],
        },
        rows: &[
            (Some(&[CONSTANT]), Some(&[CONSTANT])),
            (Some(&[CONSTANT]), Some(&[CONSTANT])),
        ],
        statuses: &[],
    },
    // an entry that no query meets
    Case {
        plan: Plan {
            text: "p(_). q(_).",
            types: &[],
            conds: &[],
            entries: &[(0, &[INT_0]), (1, &[INT_0, ATM_0])],
        },
        rows: &[(Some(&[INT]), Some(&[INT])), (None, None)],
        statuses: &[],
    },
    // the calls of q grow, and so do its exits, after p has seen them
    Case {
        plan: Plan {
            text: "p(X) :- q(1,X), r(_). r(X) :- q(a,X). q(X,X).",
            types: &[],
            conds: &[],
            entries: ANY_CALL,
        },
        rows: &[
            (Some(&[ANY]), Some(&[CONSTANT])),
            (Some(&[ANY]), Some(&[CONSTANT])),
            (Some(&[CONSTANT, ANY]), Some(&[CONSTANT, CONSTANT])),
        ],
        statuses: &[],
    },
    // the calls of q grow so that its condition narrows no exit any more, and its exits stay
    Case {
        plan: Plan {
            text: "p(Y) :- q(1,Y), r(_,_). r(X,Y) :- q(X,Y). q(1,_).",
            types: &[],
            conds: &[(2, Asked::Success(&[INT_0], &[INT_1]))],
            entries: ANY_CALL,
        },
        rows: &[
            (Some(&[ANY]), Some(&[ANY])),
            (Some(&[ANY, ANY]), Some(&[ONE, ANY])),
            (Some(&[ANY, ANY]), Some(&[ONE, ANY])),
        ],
        statuses: &[CHECK],
    },
    // the same while q is called with integers alone
    Case {
        plan: Plan {
            text: "p(Y) :- q(1,Y). q(1,_).",
            types: &[],
            conds: &[(1, Asked::Success(&[INT_0], &[INT_1]))],
            entries: ANY_CALL,
        },
        rows: &[
            (Some(&[ANY]), Some(&[INT])),
            (Some(&[ONE, ANY]), Some(&[ONE, ANY])),
        ],
        statuses: &[CHECK],
    },
    // a chain of calls, with two facts at its end: the second is the empty list
    Case {
        plan: Plan {
            text: "p(X) :- q(X). q(X) :- r(X). r(X) :- s(X). s(1). s([]).",
            types: &[],
            conds: &[],
            entries: ANY_CALL,
        },
        rows: &[
            (Some(&[ANY]), Some(&[CONSTANT])),
            (Some(&[ANY]), Some(&[CONSTANT])),
            (Some(&[ANY]), Some(&[CONSTANT])),
            (Some(&[ANY]), Some(&[CONSTANT])),
        ],
        statuses: &[],
    },
    // facts with two arguments
    Case {
        plan: Plan {
            text: "p(1,a). p(2,b).",
            types: &[],
            conds: &[],
            entries: ANY_CALL,
        },
        rows: &[(Some(&[ANY, ANY]), Some(&[ONE, ATOM]))],
        statuses: &[],
    },
    // both ways of a disjunction, a condition and its branches, and a negation, whose call is reached
    Case {
        plan: Plan {
            text: "p(X,Y,Z) :- ( X = 1 ; X = a ), ( integer(Y) -> q(Y) ; Y = a ), \\+ r(Z), ! . q(_). r(1).",
            types: &[],
            conds: &[],
            entries: ANY_CALL,
        },
        rows: &[
            (Some(&[ANY, ANY, ANY]), Some(&[CONSTANT, CONSTANT, ANY])),
            (Some(&[INT]), Some(&[INT])),
            (Some(&[ANY]), Some(&[ONE])),
        ],
        statuses: &[],
    },
];

// Whether no values are there and none wanted, or those that are wanted.
fn are_words(values: &[Value], there: bool, wanted: Option<&[u64]>) -> bool {
    match wanted {
        None => !there && are_zero(values),
        Some(words) => there && are_these(values, words),
    }
}

fn are_zero(values: &[Value]) -> bool {
    for value in values {
        if word(value) != 0 {
            return false;
        }
    }
    true
}

fn are_these(values: &[Value], words: &[u64]) -> bool {
    if values.len() != words.len() {
        return false;
    }
    for (place, value) in values.iter().enumerate() {
        match words.get(place) {
            None => return false,
            Some(other) => {
                if word(value) != *other {
                    return false;
                }
            }
        }
    }
    true
}

fn is_row(row: &Row, wanted: &Wanted) -> bool {
    if !are_words(row.entry.as_slice(), row.reached, wanted.0) {
        return false;
    }
    are_words(row.exit.as_slice(), row.exits, wanted.1)
}

fn are_rows(table: &Table, wanted: &[Wanted]) -> bool {
    if table.rows.len() != wanted.len() {
        return false;
    }
    for (place, row) in table.rows.as_slice().iter().enumerate() {
        match wanted.get(place) {
            None => return false,
            Some(other) => {
                if !is_row(row, other) {
                    return false;
                }
            }
        }
    }
    true
}

// Whether a program has this table and these statuses.
fn is_analysed(alloc: Global, program: &Program, case: &Case) -> Result<bool, NoMemory>
    requires { IsProgram program.now }
{
    let table = analyse(alloc, program)?;
    let found = statuses(alloc, program, &table)?;
    if !are_rows(&table, case.rows) {
        return Ok(false);
    }
    Ok(are_same(found.as_slice(), case.statuses))
}

fn is_case(alloc: Global, case: &Case) -> Result<bool, Refused> {
    let program = program_of(alloc, &case.plan)?;
    program_in_range(alloc, &program)?;
    let answer = is_analysed(alloc, &program, case)?;
    Ok(answer)
}

// The place of the first program with another table or other statuses.
fn first_other(alloc: Global, cases: &[Case]) -> Result<Option<usize>, Refused> {
    for (place, case) in cases.iter().enumerate() {
        if !is_case(alloc, case)? {
            return Ok(Some(place));
        }
    }
    Ok(None)
}

#[test]
fn programs_are_analysed(rt: HostRuntime) -> Result<(), Fail> {
    let alloc = rt.alloc();
    let found = (first_other(alloc, &CONDITIONS)?, first_other(alloc, &ROWS)?);
    assert_eq!(rt; found, (None, None));
    Ok(())
}
