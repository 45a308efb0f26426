// What a run tests.

/// Which conditions a run tests, and whether a broken one ends it or is told.
#[derive(Clone, Copy, Drop)]
pub enum Reading {
    /// Every condition, and the first that is broken ends the run.
    All,
    /// Those of the call checks and exit goals of the program, and the first that is broken ends the run.
    Kept,
    /// Every condition, and those that are broken are told.
    AllTold,
    /// Those of the call checks and exit goals of the program, and those that are broken are told.
    KeptTold,
}
