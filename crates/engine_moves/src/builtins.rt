// Built-ins.
ghost use Rattle.std.specs.Prelude.{◌≡◌, ℕ, None, IfOk};
ghost use Rattle.prog_data.specs.declared.goals.Goal as goal;
ghost use Rattle.engine_state.specs.Stages.{goal_state, IsDue};
ghost use Rattle.engine_state.specs.BuiltinMoves.{builtin_state, IsReady, HasDone};
ghost use Rattle.engine_moves.specs.Turned.{HasTurned};
ghost use Rattle.engine_moves.specs.Texts.{events_of};
ghost use Rattle.engine_moves.specs.declared.readings.Reading.{Reading};

mod comparing;
mod effects;
mod kinds;
mod numbers;
mod unifying;
mod writing;

use effects::{Effect, effect_of};
use engine_state::{Engine, Row, Setting, Stage, builtin_moves_law};
pub(crate) use kinds::end_cell;
use prog_data::{Builtin, Ending, Text};
use std::alloc::Global;
use term_core::{NoMemory, Term};
use unifying::{differ, equate, equate_number, equated, refuted};

/// Where a run went after a built-in, and the text that it wrote.
#[derive(Drop)]
pub struct BuiltinTurn<'p> {
    pub stage: Stage<'p>,
    pub text: Option<Text>,
}

// A turn that tells nothing.
fn quiet<'p>(stage: Stage<'p>) -> BuiltinTurn<'p>
    ensures stage { result.stage ≡ stage.entry }
    ensures text { result.text ≡ None }
{
    BuiltinTurn { stage, text: None }
}

// Does a built-in whose arguments are in cells.
fn do_ready<'p>(
    engine: &mut Engine<'p>,
    alloc: Global,
    builtin: Builtin,
    args: Row,
    setting: Setting,
) -> Result<BuiltinTurn<'p>, NoMemory>
    requires { IsReady engine.old builtin args setting }
    ensures { IfOk result (λ turn. HasDone engine.old (builtin_state engine.old builtin args setting) (events_of turn.text) engine.new turn.stage) }
{
    builtin_moves_law();
    let effect = effect_of(alloc, engine.program, &engine.heap, builtin, args.first)?;
    match effect {
        Effect::Succeeds => Ok(quiet(Stage::Doing(setting.rest))),
        Effect::Fails => Ok(quiet(Stage::Failed)),
        Effect::Faults(kind) => { Ok(quiet(Stage::Over(Ending::Arithmetic(kind, setting.place)))) }
        Effect::Writes(text) => Ok(BuiltinTurn {
            stage: Stage::Doing(setting.rest),
            text: Some(text),
        }),
        Effect::Equates(left, right) => {
            let unified = equate(engine, alloc, left, right)?;
            Ok(quiet(equated(unified, setting)))
        }
        Effect::EquatesNumber(place, number) => {
            let unified = equate_number(engine, alloc, place, number)?;
            Ok(quiet(equated(unified, setting)))
        }
        Effect::Differs(left, right) => {
            let unified = differ(engine, alloc, left, right)?;
            Ok(quiet(refuted(unified, setting)))
        }
    }
}

/// Does a built-in.
///
/// # Errors
///
/// Only for want of memory.
pub fn do_builtin<'p>(
    engine: &mut Engine<'p>,
    alloc: Global,
    builtin: Builtin,
    args: &[Term],
    setting: Setting,
) -> Result<BuiltinTurn<'p>, NoMemory>
    requires { IsDue engine.old (goal.Builtin builtin args.now) setting }
    ensures { (reading : Reading) (bound : ℕ) → IfOk result (λ turn. HasTurned reading bound engine.old (goal_state engine.old (goal.Builtin builtin args.now) setting) (events_of turn.text) 0 engine.new turn.stage) }
{
    builtin_moves_law();
    let row = engine.load_builtin(alloc, builtin, args, setting)?;
    let turn = do_ready(engine, alloc, builtin, row, setting)?;
    Ok(turn)
}
