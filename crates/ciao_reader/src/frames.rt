// What waits for a term.
use crate::parts::Part;
use crate::words::Word;
use sqlite_items::Items;
use term_core::Term;

/// What waits for a term, and the greatest priority that its own term may have, which is last.
#[derive(Drop)]
pub(crate) enum Frame {
    /// A prefix operator.
    Before(u64, u64),
    /// An infix operator with what stands before it.
    Between(u64, Part, u64),
    Paren(u64),
    Curly(u64),
    /// A name with the arguments so far, and the depth of the deepest.
    Call(u64, Items<Term>, u64, u64),
    /// A list with the items so far.
    Listed(Items<Part>, u64),
    /// The tail of a list with these items.
    Tail(Items<Part>, u64),
}

/// What is due next, or is there.
#[derive(Drop)]
pub(crate) enum Mode {
    /// A term of at most this priority.
    Need(u64),
    /// A term of at most the first priority, of this one, which may grow.
    Have(u64, u64, Part),
    /// The whole sentence.
    Done(Part),
    /// No term.
    Stuck,
}

/// What is due behind some words, and the words that are left.
#[derive(Drop)]
pub(crate) struct Stepped<'a> {
    pub(crate) mode: Mode,
    pub(crate) left: &'a [Word],
}
