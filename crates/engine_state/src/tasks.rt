// What is to be done, in links.
ghost use Rattle.std.specs.Prelude.{◌≡◌};
ghost use Rattle.engine_state.specs.Moments.{is_idle};

use prog_data::{Goal, Place};

/// Numbers in a row: the place of the first, and how many.
#[derive(Clone, Copy, Drop)]
pub struct Row {
    pub first: u64,
    pub count: u64,
}

/// The exit of a call: its predicate, the cells of its arguments, the notes taken at the call, and the height of its mark.
#[derive(Clone, Copy, Drop)]
pub struct Exit {
    pub pred: u64,
    pub args: Row,
    pub noted: Row,
    pub mark: Option<u64>,
}

/// What is to be done.
#[derive(Clone, Copy, Drop)]
pub enum Task<'p> {
    /// A goal of the program, the place of its first variable, the height that a cut in it leaves, and the place of its clause.
    Runs(&'p Goal, u64, u64, Place),
    /// Choices are cut to a height.
    Cuts(u64),
    /// Failure, with the height and the place of a goal.
    Fails(u64, Place),
    Leaves(Exit),
}

/// A task, the number of the link with the task after it, and how many notes these use.
#[derive(Clone, Copy, Drop)]
pub struct Link<'p> {
    pub task: Task<'p>,
    pub next: u64,
    pub notes: u64,
}

/// Whether an exit tests nothing.
pub fn is_idle(exit: Exit) -> bool
    ensures { result ≡ is_idle exit }
{
    match exit.mark {
        None => exit.noted.count == 0,
        Some(_) => false,
    }
}
