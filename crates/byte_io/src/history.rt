// What was read and what was taken. It is told in proofs alone, and takes no memory when run.
ghost use Rattle.std.specs.Prelude.{◌≡◌, ℕ, List, [], ◌∷◌, ◌++◌, take, vec_items};
ghost use Rattle.std.specs.Coded.{coded_ℕ, coded_list};
ghost use Rattle.std.specs.Borrow.{ftrue};
ghost use Rattle.byte_io.specs.Outside.{FileRead, answer_of};
ghost use Rattle.byte_io.specs.Codes.{file_read_code};

use crate::FilesFault;
use std::marker::Model;

/// The reads that were made.
#[derive(Drop, Debug)]
pub(crate) struct Reads {
    ghost list: { List FileRead } by { coded_list file_read_code },
}

impl Model for Reads {
    ghost also_owns = { λ _. ftrue };
}

/// A read and its answer.
#[derive(Drop)]
pub(crate) struct AnsweredRead<'a> {
    pub(crate) name: &'a str,
    pub(crate) most: u64,
    pub(crate) answer: &'a Result<Option<Vec<u8>>, FilesFault>,
}

impl Reads {
    /// No read.
    pub(crate) fn new() -> Reads
        ensures { result.list ≡ [] }
    {
        Reads {}
    }

    /// These reads, and one more.
    pub(crate) fn then(&self, _read: &AnsweredRead<'_>) -> Reads
        ensures { result.list ≡ self.now.list ++ record { name = _read.now.name.now; most = _read.now.most; answer = answer_of vec_items _read.now.answer.now } ∷ [] }
    {
        Reads {}
    }
}

/// The bytes that were taken.
#[derive(Drop)]
pub(crate) struct Taken {
    ghost bytes: { List ℕ } by { coded_list coded_ℕ },
}

impl Model for Taken {
    ghost also_owns = { λ _. ftrue };
}

/// The front of a piece that was taken, so many bytes.
#[derive(Drop)]
pub(crate) struct Front<'a> {
    pub(crate) piece: &'a [u8],
    pub(crate) count: usize,
}

impl Taken {
    /// Nothing.
    pub(crate) fn new() -> Taken
        ensures { result.bytes ≡ [] }
    {
        Taken {}
    }

    /// These bytes, and then a front.
    pub(crate) fn then(&self, _front: &Front<'_>) -> Taken
        ensures { result.bytes ≡ self.now.bytes ++ take _front.now.count _front.now.piece.now }
    {
        Taken {}
    }
}
