// What a trail keeps of a change.
ghost use Rattle.std.specs.Prelude.{◌≡◌};
ghost use Rattle.term_heap.specs.Histories.{entry_serial};

/// A change, with its serial.
#[derive(Clone, Copy, Drop)]
pub(crate) enum Entry {
    /// The heap grew beyond so many cells.
    Grew(u64, u64),
    /// This cell was bound.
    Bound(u64, u64),
}

impl Entry {
    /// The serial of the change.
    pub(crate) fn serial(self) -> u64
        ensures { result ≡ entry_serial self }
    {
        match self {
            Entry::Grew(_, serial) => serial,
            Entry::Bound(_, serial) => serial,
        }
    }
}
