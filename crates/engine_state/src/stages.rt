// Where a run is.
use crate::tasks::Row;
use prog_data::{Ending, Goal, Place};

/// What a goal is run with: the place of its first variable, the height that a cut in it leaves, the place of its clause, and the link behind it.
#[derive(Clone, Copy, Drop)]
pub struct Setting {
    pub base: u64,
    pub height: u64,
    pub place: Place,
    pub rest: u64,
}

/// Where a run is.
#[derive(Clone, Copy, Drop)]
pub enum Stage<'p> {
    /// The tasks from a link on are to be done.
    Doing(u64),
    /// A goal of the program is in hand.
    Goal(&'p Goal, Setting),
    /// A call is due: its predicate, the cells of its arguments, its height and place, and the link behind it.
    Calling(u64, Row, u64, Place, u64),
    Failed,
    Over(Ending),
    /// Memory was refused.
    Stuck,
}
