// Clauses that the index selects for a call.
ghost use Rattle.std.specs.Prelude.{◌≡◌, ◌<◌, length};
ghost use Rattle.engine_state.specs.Selections.{selected_at, clause_number};

use crate::engine::Engine;
use clause_index::Key;

impl<'p> Engine<'p> {
    /// How many clauses of a predicate are selected by a key.
    pub fn count_selected(&self, pred: u64, key: Key) -> u64
        ensures { result ≡ length (selected_at self.now.index pred key) }
    {
        self.index.select(pred, key).len() as u64
    }

    /// The number of the clause at a place among those of a predicate that are selected by a key.
    pub fn selected(&self, pred: u64, key: Key, place: u64) -> u64
        requires { place < length (selected_at self.now.index pred key) }
        ensures { result ≡ clause_number self.now.index pred key place }
    {
        let clauses = self.index.select(pred, key);
        clauses[place as usize]
    }
}
