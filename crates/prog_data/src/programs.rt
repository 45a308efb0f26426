// Linked programs.
use crate::{Cond, Goal, Grammar, Prop};
use sqlite_items::Items;
use term_core::{Names, OpTable, Term};

/// A line of a file, the file as a name.
#[derive(Clone, Copy, Drop, Debug)]
pub struct Place {
    pub file: u64,
    pub line: u64,
}

/// A test that an instrumented program makes at a call, by the number of its condition.
#[derive(Drop)]
pub enum Check {
    Calls(u64),
    Note(u64),
    Mark(Items<u64>),
}

/// A clause. The variables of the head and the body are below `vars`.
#[derive(Drop)]
pub struct Clause {
    pub head: Items<Term>,
    pub body: Goal,
    pub vars: u64,
    pub place: Place,
}

/// A predicate. `conds` are the numbers of its conditions.
#[derive(Drop)]
pub struct Pred {
    pub module: u64,
    pub name: u64,
    pub arity: u64,
    pub clauses: Items<Clause>,
    pub conds: Items<u64>,
    pub call_checks: Items<Check>,
}

/// The keyword of an assertion.
#[derive(Clone, Copy, Drop, Debug)]
pub enum Keyword {
    Pred,
    Calls,
    Success,
    Comp,
}

/// An assertion that is reported, with the numbers of its conditions.
#[derive(Drop)]
pub struct Claim {
    pub place: Place,
    pub keyword: Keyword,
    pub pred: u64,
    pub conds: Items<u64>,
}

/// Calls that a query may be: of this predicate, where the conjunction holds of the arguments.
#[derive(Drop)]
pub struct Entry {
    pub pred: u64,
    pub pre: Items<Prop>,
}

/// A linked program. Predicates and conditions are numbered by their places.
#[derive(Drop)]
pub struct Program {
    pub names: Names,
    /// The operators with which texts are printed.
    pub ops: OpTable,
    pub files: Items<u64>,
    pub preds: Items<Pred>,
    pub conds: Items<Cond>,
    pub claims: Items<Claim>,
    pub grammar: Grammar,
    pub exports: Items<u64>,
    pub entries: Items<Entry>,
}
