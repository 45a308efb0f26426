// Notes: the numbers of conditions, in rows.
ghost use Rattle.std.specs.Prelude.{◌≡◌, length};
ghost use Rattle.engine_state.specs.Views.{row_of};
ghost use Rattle.engine_state.specs.Notes.{IsRowWithin};

use crate::tasks::Row;

/// The notes of a row.
pub fn noted(notes: &[u64], row: Row) -> &[u64]
    requires { IsRowWithin (length notes.now) row }
    ensures { result.now ≡ row_of notes.now row }
{
    &notes[row.first as usize..(row.first + row.count) as usize]
}
