// What is due at a link.
ghost use Rattle.std.specs.Prelude.{◌≡◌, [], IfOk};
ghost use Rattle.engine_state.specs.declared.stages.Stage.TheVariants.{Doing};
ghost use Rattle.engine_state.specs.Stages.{IsWhole};
ghost use Rattle.engine_moves.specs.Linked.{IsDueAt};

use crate::exits::do_exit;
use crate::readings::Reading;
use crate::turns::Turn;
use engine_state::{Engine, Setting, Task};
use prog_data::Goal;
use term_core::NoMemory;

/// What is due at a link.
#[derive(Clone, Copy, Drop)]
pub enum Due<'p> {
    /// A goal of the program. Nothing was done yet.
    Goal(&'p Goal, Setting),
    /// The answer: there is no such link, and nothing is left to be done.
    Answer,
    /// Its task was done.
    Done(Turn<'p>),
}

/// Does the task of a link, unless it is a goal of the program. Conditions that are broken at an exit are told, or the first of
/// them ends the run.
///
/// # Errors
///
/// Only for want of memory.
pub fn do_link<'p>(
    engine: &mut Engine<'p>,
    reading: Reading,
    told: &mut Vec<u64>,
    number: u64,
) -> Result<Due<'p>, NoMemory>
    requires whole { IsWhole engine.old (Doing number) }
    requires none { told.old.items ≡ [] }
    ensures { IfOk result (λ due. IsDueAt reading engine.old number told.new.items engine.new due) }
{
    match engine.link(number) {
        None => Ok(Due::Answer),
        Some(link) => match link.task {
            Task::Runs(goal, base, height, place) => {
                let rest = link.next;
                let setting = Setting {
                    base,
                    height,
                    place,
                    rest,
                };
                Ok(Due::Goal(goal, setting))
            }
            Task::Cuts(height) => {
                let stage = engine.do_cuts(height, link.next);
                Ok(Due::Done(Turn { stage, tests: 0 }))
            }
            Task::Fails(height, place) => {
                let rest = link.next;
                let setting = Setting {
                    base: 0,
                    height,
                    place,
                    rest,
                };
                let stage = engine.do_fail(setting);
                Ok(Due::Done(Turn { stage, tests: 0 }))
            }
            Task::Leaves(exit) => {
                let turn = do_exit(engine, reading, told, exit, link.next)?;
                Ok(Due::Done(turn))
            }
        },
    }
}
