// What a run does where it has failed.
ghost use Rattle.std.specs.Prelude.{◌≡◌, [], ℕ, map, length, IfOk};
ghost use Rattle.prog_data.specs.declared.events.Event.TheVariants.{Broken};
ghost use Rattle.prog_data.specs.declared.programs.Program.{Program};
ghost use Rattle.machine_model.specs.State.{Failed};
ghost use Rattle.engine_state.specs.declared.stages.Stage.TheVariants as stage;
ghost use Rattle.engine_state.specs.Engines.{as_state};
ghost use Rattle.engine_state.specs.Views.{row_of};
ghost use Rattle.engine_state.specs.Notes.{IsRowWithin};
ghost use Rattle.engine_state.specs.StepsMade.{found_at_failure};
ghost use Rattle.engine_state.specs.Findings.{HasAdded};
ghost use Rattle.engine_state.specs.Stages.{as_engine, IsWhole};
ghost use Rattle.engine_state.specs.Turns.{back_state};
ghost use Rattle.engine_moves.specs.Readings.{tests_by};
ghost use Rattle.engine_moves.specs.Turned.{HasTurned};
ghost use Rattle.engine_moves.specs.Failures.{IsBackAt, failed_unless};

use crate::readings::Reading;
use crate::relied::relied_law;
use crate::tries::try_clause;
use crate::turns::Turn;
use engine_state::{Alternative, Counted, Engine, Row, Stage, noted, test_all};
use prog_data::Ending;
use prop_check::failure_breaks;
use std::alloc::Global;
use term_core::NoMemory;

// Whether the first broken condition ends the run.
fn stops(reading: Reading) -> bool
    ensures { (program : Program) → result ≡ (tests_by program reading).stops }
{
    match reading {
        Reading::All | Reading::Kept => true,
        Reading::AllTold | Reading::KeptTold => false,
    }
}

// Tests the conditions of a mark that failure went back to.
fn test_mark(
    engine: &Engine<'_>,
    reading: Reading,
    conds: Row,
    exited: bool,
    told: &mut Vec<u64>,
) -> Result<Counted, NoMemory>
    requires { IsRowWithin (length engine.now.notes.items) conds }
    ensures { IfOk result (λ r. HasAdded (tests_by engine.now.program.now reading).stops 0 (found_at_failure engine.now.program.now exited) (row_of engine.now.notes.items conds) told.old.items told.new.items r.tests r.ended) }
{
    let program = engine.program;
    let conditions = noted(engine.notes.as_slice(), conds);
    let holds = |condition| !failure_breaks(program, condition, exited);
    let counted = test_all(holds, conditions, stops(reading), 0, told)?;
    Ok(counted)
}

// The stage behind tests of a failure.
fn failed_unless<'p>(ended: Option<Ending>) -> Stage<'p>
    ensures { result ≡ failed_unless ended }
{
    match ended {
        None => Stage::Failed,
        Some(ending) => Stage::Over(ending),
    }
}

// Goes on with an alternative that failure went back to.
fn take_up<'p>(
    engine: &mut Engine<'p>,
    alloc: Global,
    reading: Reading,
    alternative: Alternative,
    told: &mut Vec<u64>,
) -> Result<Turn<'p>, NoMemory>
    requires back { IsBackAt engine.old alternative }
    requires none { told.old.items ≡ [] }
    ensures { (bound : ℕ) → IfOk result (λ turn. HasTurned reading bound engine.old (back_state engine.old alternative) (map Broken told.new.items) turn.tests engine.new turn.stage) }
{
    relied_law();
    match alternative {
        Alternative::Resumes(rest) => Ok(Turn {
            stage: Stage::Doing(rest),
            tests: 0,
        }),
        Alternative::Retries(key, next, _, pending) => {
            let number = engine.selected(pending.exit.pred, key, next);
            let turn = try_clause(engine, alloc, reading, number, pending)?;
            Ok(turn)
        }
        Alternative::Marks(_, conds, exited) => {
            let counted = test_mark(engine, reading, conds, exited, told)?;
            Ok(Turn {
                stage: failed_unless(counted.ended),
                tests: counted.tests,
            })
        }
    }
}

/// Goes on where a run has failed: with the newest choice, a clause of a call that is to be tried, a link with what is to be done, or a mark whose conditions are tested. Without a choice the run is over.
///
/// Conditions that are told are added to `told`.
///
/// # Errors
///
/// Only for want of memory.
pub fn do_failed<'p>(
    engine: &mut Engine<'p>,
    alloc: Global,
    reading: Reading,
    told: &mut Vec<u64>,
) -> Result<Turn<'p>, NoMemory>
    requires whole { IsWhole engine.old stage.Failed }
    requires none { told.old.items ≡ [] }
    ensures { (bound : ℕ) → IfOk result (λ turn. HasTurned reading bound engine.old (as_state (as_engine engine.old) Failed) (map Broken told.new.items) turn.tests engine.new turn.stage) }
{
    relied_law();
    match engine.go_back() {
        None => Ok(Turn {
            stage: Stage::Over(Ending::NoMore),
            tests: 0,
        }),
        Some(alternative) => {
            let turn = take_up(engine, alloc, reading, alternative, told)?;
            Ok(turn)
        }
    }
}
