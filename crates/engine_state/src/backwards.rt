// Moves where a run has failed.
ghost use Rattle.std.specs.Prelude.{◌≡◌, [], MatchOption};
ghost use Rattle.engine_state.specs.declared.stages.Stage.TheVariants.{Failed};
ghost use Rattle.engine_state.specs.Stages.{choices_at, IsWhole};
ghost use Rattle.engine_state.specs.Turns.{HasGoneBack};

use crate::engine::Engine;
use crate::points::Alternative;
use machine_model::leaner_states_law;

impl<'p> Engine<'p> {
    /// Goes back to the newest choice after failure; its alternative, if there is one.
    pub fn go_back(&mut self) -> Option<Alternative>
        requires { IsWhole self.old Failed }
        ensures back { MatchOption result (choices_at self.old ≡ []) (λ a. HasGoneBack self.old a self.new) }
        ensures program { self.new.program.now ≡ self.old.program.now }
    {
        leaner_states_law();
        match self.take_choice() {
            None => None,
            Some(alternative) => {
                let _size = self.heap.len();
                Some(alternative)
            }
        }
    }
}
