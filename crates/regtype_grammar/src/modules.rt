// The regular types of modules, and why they have no grammar.
ghost use Rattle.std.specs.Prelude.{◌≡◌};

use ciao_reader::Sentence;
use prog_data::Place;
use sqlite_items::Items;
use std::alloc::AllocError;
use term_core::NoMemory;

/// A type that a directive declares at a place, with the clauses of its predicate.
#[derive(Drop)]
pub struct RegType {
    pub name: u64,
    pub clauses: Items<Sentence>,
    pub place: Place,
}

/// A type that is seen by its name: the position of its module, and its position among the types of the module, where it has this name.
#[derive(Clone, Copy, Drop)]
pub struct SeenType {
    pub name: u64,
    pub module: u64,
    pub position: u64,
}

/// The types of a file, and those that are seen in it, in any order.
///
/// Who makes one puts each own type among the visible ones, once, and each imported type whose name no own type has, once: own types hide imported ones. So two visible types of one name are different types of other modules, and the name is ambiguous.
#[derive(Drop)]
pub struct TypeModule {
    pub file: u64,
    pub types: Items<RegType>,
    pub visible: Items<SeenType>,
}

/// Why types have no grammar. The first three have the position of the module in the list of modules.
#[derive(Drop, Debug)]
pub enum TypeFault {
    /// A declaration or a clause is none of a regular type.
    BadRegtype(u64, Place),
    /// No type has the name.
    UnknownProperty(u64, Place),
    /// Several types have the name.
    Ambiguous(u64, Place),
    /// More than 512 names are needed.
    TooManyNames,
    /// Memory was refused.
    NoMemory,
}

impl From<AllocError> for TypeFault {
    ghost use Rattle.regtype_grammar.specs.declared.modules.TypeFault.TheVariants as TypeFault;

    ghost from_gives = { λ _ fault. fault ≡ TypeFault.NoMemory };

    fn from(_error: AllocError) -> TypeFault {
        TypeFault::NoMemory
    }
}

impl From<NoMemory> for TypeFault {
    ghost use Rattle.regtype_grammar.specs.declared.modules.TypeFault.TheVariants as TypeFault;

    ghost from_gives = { λ _ fault. fault ≡ TypeFault.NoMemory };

    fn from(_memory: NoMemory) -> TypeFault {
        TypeFault::NoMemory
    }
}
