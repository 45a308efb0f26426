// Arguments of built-ins that are put into cells, and what built-ins then do.
ghost use Rattle.std.specs.Prelude.{IfOk};
ghost use Rattle.prog_data.specs.declared.goals.Goal as goal;
ghost use Rattle.engine_state.specs.Stages.{goal_state, IsDue};
ghost use Rattle.engine_state.specs.BuiltinMoves.{HasArguments, BuiltinsMove};

use crate::engine::Engine;
use crate::stages::Setting;
use crate::tasks::Row;
use machine_model::{leaner_law, leaner_states_law};
use prog_data::Builtin;
use std::alloc::Global;
use term_core::{NoMemory, Term, unification_law};

impl<'p> Engine<'p> {
    /// Puts the arguments of a built-in into cells, where it has any; their places.
    ///
    /// # Errors
    ///
    /// Only for want of memory.
    pub fn load_builtin(
        &mut self,
        alloc: Global,
        builtin: Builtin,
        args: &[Term],
        setting: Setting,
    ) -> Result<Row, NoMemory>
        requires { IsDue self.old (goal.Builtin builtin args.now) setting }
        ensures { IfOk result (λ row. HasArguments self.old (goal_state self.old (goal.Builtin builtin args.now) setting) builtin row setting self.new) }
    {
        leaner_states_law();
        let count = args.len() as u64;
        if count == 0 {
            return Ok(Row { first: 0, count: 0 });
        }
        let first = self.heap.load_all(alloc, args, setting.base)?;
        let _size = self.heap.len();
        Ok(Row { first, count })
    }
}

/// What a built-in does that is due, by its effect.
pub fn builtin_moves_law()
    ensures { BuiltinsMove }
{
    unification_law();
    leaner_law();
    leaner_states_law();
}
