// What the assertions of a predicate give, and why they give nothing.
ghost use Rattle.std.specs.Prelude.{◌≡◌};

use prog_data::{Claim, Cond, Entry};
use sqlite_items::Items;
use std::alloc::AllocError;
use term_core::NoMemory;

/// Conditions, numbered on from a number, the claims that are reported, and the entries.
#[derive(Drop)]
pub struct Normal {
    pub conds: Items<Cond>,
    pub claims: Items<Claim>,
    pub entries: Items<Entry>,
}

/// Why assertions give nothing. The first two have the line of one of them.
#[derive(Drop, Debug)]
pub enum NormalFault {
    /// A name means no property.
    UnknownProperty(u64),
    /// A name means several types.
    Ambiguous(u64),
    /// More than 512 grammar names are needed.
    TooManyNames,
    /// Memory was refused.
    NoMemory,
}

impl From<AllocError> for NormalFault {
    ghost use Rattle.assertion_normal.specs.declared.outcomes.NormalFault.TheVariants as NormalFault;

    ghost from_gives = { λ _ fault. fault ≡ NormalFault.NoMemory };

    fn from(_error: AllocError) -> NormalFault {
        NormalFault::NoMemory
    }
}

impl From<NoMemory> for NormalFault {
    ghost use Rattle.assertion_normal.specs.declared.outcomes.NormalFault.TheVariants as NormalFault;

    ghost from_gives = { λ _ fault. fault ≡ NormalFault.NoMemory };

    fn from(_memory: NoMemory) -> NormalFault {
        NormalFault::NoMemory
    }
}
