// Goals.
use sqlite_items::{Boxed, Items};
use term_core::Term;

/// A built-in predicate.
#[derive(Clone, Copy, Drop, Debug)]
pub enum Builtin {
    Unify,
    NotUnify,
    Same,
    NotSame,
    Is,
    Less,
    Greater,
    LessEq,
    GreaterEq,
    NumEq,
    NumNotEq,
    Integer,
    Atom,
    Write,
    Writeq,
    Nl,
    /// Its first argument belongs to this grammar name.
    Belongs(u64),
    IsVar,
    IsNonvar,
    IsGround,
}

/// A goal of a clause's body.
#[derive(Drop)]
pub enum Goal {
    True,
    Fail,
    Cut,
    /// A predicate by its number, and the arguments.
    Call(u64, Items<Term>),
    Builtin(Builtin, Items<Term>),
    Conj(Boxed<Goal>, Boxed<Goal>),
    Disj(Boxed<Goal>, Boxed<Goal>),
    IfElse(Boxed<Goal>, Boxed<Goal>, Boxed<Goal>),
    Not(Boxed<Goal>),
    /// The exit of the clause's call, in an instrumented program.
    Exit,
}
