// What a sentence becomes as a clause, and why it is none.
ghost use Rattle.std.specs.Prelude.{◌≡◌};

use prog_data::Clause;
use std::alloc::AllocError;
use term_core::NoMemory;

/// The name and the number of arguments of a predicate (ISO/IEC 13211-1, predicate indicator).
#[derive(Clone, Copy, Drop, Debug, PartialEq, Eq, Hash)]
pub struct Indicator {
    pub name: u64,
    pub arity: u64,
}

/// A clause with the name and the number of arguments of its predicate.
#[derive(Drop)]
pub struct Compiled {
    pub name: u64,
    pub arity: u64,
    pub clause: Clause,
}

/// What may be wrong with a sentence as a clause, in the order in which it is told.
#[derive(Clone, Copy, Drop, Debug)]
pub enum Problem {
    /// The second argument of a goal `list(X,T)` names no type.
    UnknownProperty,
    /// The head is no head of a clause, or a goal is a variable or a number.
    BadClause,
    /// Several predicates or types have the name.
    Ambiguous,
    /// No predicate has the name.
    Undefined,
}

/// Why a sentence becomes no clause. The first four have its line.
#[derive(Drop, Debug)]
pub enum BodyFault {
    /// The second argument of a goal `list(X,T)` names no type.
    UnknownProperty(u64),
    /// The head is no head of a clause, or a goal is a variable or a number.
    BadClause(u64),
    /// Several predicates or types have the name.
    Ambiguous(u64),
    /// No predicate has the name.
    Undefined(u64),
    /// More than 512 grammar names are needed.
    TooManyNames,
    /// Memory was refused.
    NoMemory,
}

impl From<AllocError> for BodyFault {
    ghost use Rattle.body_code.specs.declared.faults.BodyFault.TheVariants as BodyFault;

    ghost from_gives = { λ _ fault. fault ≡ BodyFault.NoMemory };

    fn from(_error: AllocError) -> BodyFault {
        BodyFault::NoMemory
    }
}

impl From<NoMemory> for BodyFault {
    ghost use Rattle.body_code.specs.declared.faults.BodyFault.TheVariants as BodyFault;

    ghost from_gives = { λ _ fault. fault ≡ BodyFault.NoMemory };

    fn from(_memory: NoMemory) -> BodyFault {
        BodyFault::NoMemory
    }
}
