// Expansions.
use crate::programs::{FOURTH, MODULE, NAME, checked_pred, clause, facts, pred, program, whole};
use instrumenter::instrument;
use prog_data::{Builtin, Goal, INT_TYPE, LIST_TYPE, Pred, Program, Status};
use run_report::expand_text;
use sqlite_items::{Boxed, Items};
use std::alloc::Global;
use term_core::{INT, NoMemory, Term, one};

// The statuses of the three conditions of p/1, and the expansion.
const ROWS: [([Status; 3], &str); 4] = [
    (
        [Status::Checked, Status::Checked, Status::Checked],
        "x:p/1\n  p(a).\n  p(1).\n",
    ),
    (
        [Status::Checked, Status::Check, Status::Checked],
        "x:p/1\n  check success x.pl:2\n  p(a) :- '$exit'.\n  p(1) :- '$exit'.\n",
    ),
    (
        [Status::Check, Status::Checked, Status::Checked],
        "x:p/1\n  check calls x.pl:2\n  p(a).\n  p(1).\n",
    ),
    (
        [Status::False, Status::Check, Status::Check],
        "x:p/1\n  check calls x.pl:2\n  check success x.pl:2\n  check is_det x.pl:2\n  p(a) :- '$exit'.\n  p(1) :- '$exit'.\n",
    ),
];

fn is_expanded(
    alloc: Global,
    program: Program,
    statuses: &[Status],
    text: &str,
) -> Result<bool, NoMemory> {
    let kept = instrument(alloc, program, statuses)?;
    let lines = expand_text(alloc, &kept)?;
    let found = whole(alloc, lines.as_slice())?;
    Ok(found.as_str() == text)
}

// Whether each row is expanded so.
fn are_expanded(alloc: Global, rows: &[([Status; 3], &str)]) -> Result<bool, NoMemory> {
    for row in rows {
        if !is_expanded(alloc, facts(alloc, true, true)?, &row.0, row.1)? {
            return Ok(false);
        }
    }
    Ok(true)
}

#[test]
fn kept_conditions_and_exits_are_written(rt: HostRuntime) -> Result<(), NoMemory> {
    assert!(rt; are_expanded(rt.alloc(), &ROWS)?);
    Ok(())
}

#[test]
fn a_program_without_predicates_has_no_line(rt: HostRuntime) -> Result<(), NoMemory> {
    let alloc = rt.alloc();
    let empty = program(alloc, &["m.pl"], Items::new(alloc), Items::new(alloc))?;
    assert!(rt; is_expanded(alloc, empty, &[], "")?);
    Ok(())
}

fn both_terms(alloc: Global, second: Term) -> Result<Items<Term>, NoMemory> {
    let mut terms = one(alloc, Term::Var(0))?;
    terms.push(second)?;
    Ok(terms)
}

fn conjunction(alloc: Global, first: Goal, second: Goal) -> Result<Goal, NoMemory> {
    Ok(Goal::Conj(Boxed::new(alloc, first)?, Boxed::new(alloc, second)?))
}

// _0 = _1 -> ! ; fail
fn choice(alloc: Global) -> Result<Goal, NoMemory> {
    let condition = Goal::Builtin(Builtin::Unify, both_terms(alloc, Term::Var(1))?);
    Ok(Goal::IfElse(
        Boxed::new(alloc, condition)?,
        Boxed::new(alloc, Goal::Cut)?,
        Boxed::new(alloc, Goal::Fail)?,
    ))
}

// \+ (int(_0) ; list(_0,int))
fn denied(alloc: Global) -> Result<Goal, NoMemory> {
    let first = Goal::Builtin(Builtin::Belongs(INT_TYPE), one(alloc, Term::Var(0))?);
    let second = Goal::Builtin(
        Builtin::Belongs(LIST_TYPE + 1),
        both_terms(alloc, Term::Atom(INT))?,
    );
    let either = Goal::Disj(Boxed::new(alloc, first)?, Boxed::new(alloc, second)?);
    Ok(Goal::Not(Boxed::new(alloc, either)?))
}

// A call of p/1, one of q/2 of a library, and what is above.
fn body(alloc: Global) -> Result<Goal, NoMemory> {
    let own = Goal::Call(0, one(alloc, Term::Var(1))?);
    let other = Goal::Call(1, both_terms(alloc, Term::Var(1))?);
    let last = conjunction(alloc, choice(alloc)?, denied(alloc)?)?;
    conjunction(alloc, own, conjunction(alloc, other, last)?)
}

// p/1 with that body, and select/2 of library(lists), of which no clause is here.
fn preds(alloc: Global) -> Result<Items<Pred>, NoMemory> {
    let clauses = one(alloc, clause(alloc, Term::Var(0), body(alloc)?, 3)?)?;
    let mut preds = one(alloc, checked_pred(alloc, clauses)?)?;
    preds.push(pred(alloc, FOURTH, FOURTH + 1, 2, Items::new(alloc)))?;
    Ok(preds)
}

#[test]
fn goals_are_written_as_in_source(rt: HostRuntime) -> Result<(), NoMemory> {
    let alloc = rt.alloc();
    let names = ["x.pl", "x", "p", "library(lists)", "q", "lists"];
    let made = program(alloc, &names, preds(alloc)?, Items::new(alloc))?;
    let text =
        "x:p/1\n  check is_det x.pl:2\n  p(_0) :- (x : p(_1),library(lists) : q(_0,_1),(_0 = _1 -> ! ; fail),\\+ (int(_0) ; list(_0,int))),'$exit'.\nlibrary(lists):q/2\n";
    assert!(rt;
        is_expanded(
            alloc,
            made,
            &[Status::Checked, Status::Checked, Status::Check],
            text
        )?
    );
    Ok(())
}
