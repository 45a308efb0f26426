// Why units are not linked.
ghost use Rattle.std.specs.Prelude.{◌≡◌};

use prog_data::Refusal;
use std::alloc::AllocError;
use term_core::{Names, NoMemory};

/// Why there is no program.
#[derive(Drop)]
pub enum LinkFault {
    /// The units break a rule of the language; with the names, for the text of the refusal.
    Refused(Refusal, Names),
    /// Memory was refused.
    NoMemory,
}

impl From<AllocError> for LinkFault {
    ghost use Rattle.program_link.specs.declared.outcomes.LinkFault.TheVariants as LinkFault;

    ghost from_gives = { λ _ fault. fault ≡ LinkFault.NoMemory };

    fn from(_error: AllocError) -> LinkFault {
        LinkFault::NoMemory
    }
}

impl From<NoMemory> for LinkFault {
    ghost use Rattle.program_link.specs.declared.outcomes.LinkFault.TheVariants as LinkFault;

    ghost from_gives = { λ _ fault. fault ≡ LinkFault.NoMemory };

    fn from(_memory: NoMemory) -> LinkFault {
        LinkFault::NoMemory
    }
}

/// Why something of a program is not made.
#[derive(Clone, Copy, Drop, Debug)]
pub(crate) enum RoomFault {
    /// More than 512 grammar names are needed.
    TooManyNames,
    /// Memory was refused, or numbers are wanting.
    NoMemory,
}

impl From<AllocError> for RoomFault {
    ghost use Rattle.program_link.specs.declared.outcomes.RoomFault.TheVariants as RoomFault;

    ghost from_gives = { λ _ fault. fault ≡ RoomFault.NoMemory };

    fn from(_error: AllocError) -> RoomFault {
        RoomFault::NoMemory
    }
}

impl From<NoMemory> for RoomFault {
    ghost use Rattle.program_link.specs.declared.outcomes.RoomFault.TheVariants as RoomFault;

    ghost from_gives = { λ _ fault. fault ≡ RoomFault.NoMemory };

    fn from(_memory: NoMemory) -> RoomFault {
        RoomFault::NoMemory
    }
}
