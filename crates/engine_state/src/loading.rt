// Arguments that are put into cells.
ghost use Rattle.std.specs.Prelude.{IfOk};
ghost use Rattle.prog_data.specs.declared.goals.Goal as goal;
ghost use Rattle.engine_state.specs.declared.stages.Stage.TheVariants as stage;
ghost use Rattle.engine_state.specs.Stages.{goal_state, IsDue};
ghost use Rattle.engine_state.specs.Turns.{HasBecome};

use crate::engine::Engine;
use crate::stages::Setting;
use crate::tasks::Row;
use machine_model::leaner_states_law;
use std::alloc::Global;
use term_core::{NoMemory, Term};

impl<'p> Engine<'p> {
    /// Puts the arguments of a call into cells, where it has any; their places. The call is then due.
    ///
    /// # Errors
    ///
    /// Only for want of memory.
    pub fn load_call(
        &mut self,
        alloc: Global,
        pred: u64,
        args: &[Term],
        setting: Setting,
    ) -> Result<Row, NoMemory>
        requires { IsDue self.old (goal.Call pred args.now) setting }
        ensures { IfOk result (λ row. HasBecome self.old (goal_state self.old (goal.Call pred args.now) setting) self.new (stage.Calling pred row setting.height setting.place setting.rest)) }
    {
        leaner_states_law();
        let count = args.len() as u64;
        if count == 0 {
            return Ok(Row { first: 0, count: 0 });
        }
        let first = self.heap.load_all(alloc, args, setting.base)?;
        let _size = self.heap.len();
        Ok(Row { first, count })
    }
}
