// Terms of places that are to become the same.
ghost use Rattle.std.specs.Prelude.{◌≡◌, ◌<◌, IfOk};
ghost use Rattle.term_heap.specs.Changes.{size_of};
ghost use Rattle.engine_state.specs.BuiltinMoves.{equated_stage, refuted_stage};
ghost use Rattle.engine_moves.specs.BuiltinEffects.{HasUnifiedPlaces, HasUnifiedNumber, HasTriedPlaces};

use engine_state::{Engine, Setting, Stage};
use prog_data::Ending;
use std::alloc::Global;
use term_core::{NoMemory, Term};
use unify_core::{Unified, unify};

/// Where a run is after two places were to become the same.
pub(crate) fn equated<'p>(unified: Unified, setting: Setting) -> Stage<'p>
    ensures { result ≡ equated_stage setting unified }
{
    match unified {
        Unified::Same => Stage::Doing(setting.rest),
        Unified::Clash => Stage::Failed,
        Unified::Cyclic => Stage::Over(Ending::Cyclic(setting.place)),
    }
}

/// And after it was tried whether they can.
pub(crate) fn refuted<'p>(unified: Unified, setting: Setting) -> Stage<'p>
    ensures { result ≡ refuted_stage setting unified }
{
    match unified {
        Unified::Same => Stage::Failed,
        Unified::Clash => Stage::Doing(setting.rest),
        Unified::Cyclic => Stage::Over(Ending::Cyclic(setting.place)),
    }
}

/// Makes the terms of two places the same, if they can be.
///
/// # Errors
///
/// Only for want of memory.
pub(crate) fn equate<'p>(
    engine: &mut Engine<'p>,
    alloc: Global,
    left: u64,
    right: u64,
) -> Result<Unified, NoMemory>
    requires left { left < size_of engine.old.heap.changes }
    requires right { right < size_of engine.old.heap.changes }
    ensures { IfOk result (λ unified. HasUnifiedPlaces engine.old left right unified engine.new) }
{
    let _size = engine.heap.len();
    let unified = unify(alloc, &mut engine.heap, left, right)?;
    let _still = engine.heap.len();
    Ok(unified)
}

/// Makes the term of a place the same as a number, if it can be.
///
/// # Errors
///
/// Only for want of memory.
pub(crate) fn equate_number<'p>(
    engine: &mut Engine<'p>,
    alloc: Global,
    place: u64,
    number: i64,
) -> Result<Unified, NoMemory>
    requires { place < size_of engine.old.heap.changes }
    ensures { IfOk result (λ unified. HasUnifiedNumber engine.old place number unified engine.new) }
{
    let at = engine.heap.load(alloc, &Term::Int(number), 0)?;
    let unified = equate(engine, alloc, place, at)?;
    Ok(unified)
}

/// Whether the terms of two places can become the same; they are left as they were.
///
/// # Errors
///
/// Only for want of memory.
pub(crate) fn differ<'p>(
    engine: &mut Engine<'p>,
    alloc: Global,
    left: u64,
    right: u64,
) -> Result<Unified, NoMemory>
    requires left { left < size_of engine.old.heap.changes }
    requires right { right < size_of engine.old.heap.changes }
    ensures { IfOk result (λ unified. HasTriedPlaces engine.old left right unified engine.new) }
{
    let mark = engine.heap.mark();
    let unified = unify(alloc, &mut engine.heap, left, right)?;
    engine.heap.undo_to(mark);
    Ok(unified)
}
