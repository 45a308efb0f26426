// One turn of a run, and turns up to its next event.
ghost use Rattle.std.specs.Prelude.{◌≡◌, ◌<◌, [], ℕ, None, Some, IfOk, length, true, false};
ghost use Rattle.prog_data.specs.declared.goals.Goal as goal;
ghost use Rattle.machine_model.specs.State.{Failed, Phase, Going};
ghost use Rattle.engine_state.specs.declared.stages.Stage.TheVariants as stage;
ghost use Rattle.engine_state.specs.Engines.{as_state};
ghost use Rattle.engine_state.specs.Stages.{as_engine, tasks_at, doing, goal_state, phase_of, IsDue, IsWhole};
ghost use Rattle.engine_moves.specs.declared.readings.Reading.{Reading};
ghost use Rattle.engine_moves.specs.Calling.{call_state};
ghost use Rattle.sld_engine.specs.Going.{HasGone, HasCome};

use engine_moves::{
    BuiltinTurn, Due, Reading, answer, do_builtin, do_call, do_failed, do_link, relied_law,
};
use engine_state::{Engine, Row, Setting, Stage};
use prog_data::{Builtin, Event, Goal, Place};
use std::alloc::Global;
use term_core::{NoMemory, Term};

/// Where a run went, how many tests were made, and the event, if there is one.
#[derive(Drop)]
pub(crate) struct Told<'p> {
    pub stage: Stage<'p>,
    pub tests: u64,
    pub event: Option<Event>,
}

// A turn without event and test.
fn quiet<'p>(stage: Stage<'p>) -> Told<'p>
    ensures { result ≡ record { stage = stage.entry; tests = 0; event = None } }
{
    Told {
        stage,
        tests: 0,
        event: None,
    }
}

// At a call of a clause's body: its arguments are put into cells, and the call is made.
fn from_call<'p>(
    engine: &mut Engine<'p>,
    alloc: Global,
    reading: Reading,
    bound: u64,
    pred: u64,
    args: &[Term],
    setting: Setting,
    told: &mut Vec<u64>,
) -> Result<Told<'p>, NoMemory>
    requires due { IsDue engine.old (goal.Call pred args.now) setting }
    requires none { told.old.items ≡ [] }
    ensures { IfOk result (λ t. HasGone reading bound engine.old.program.now (Going (goal_state engine.old (goal.Call pred args.now) setting)) t.event told.new.items t.tests engine.new t.stage) }
{
    relied_law();
    let row = engine.load_call(alloc, pred, args, setting)?;
    let turn = do_call(
        engine,
        reading,
        bound,
        told,
        pred,
        row,
        setting.height,
        setting.place,
        setting.rest,
    )?;
    Ok(Told {
        stage: turn.stage,
        tests: turn.tests,
        event: None,
    })
}

// At a built-in of a clause's body.
fn from_builtin<'p>(
    engine: &mut Engine<'p>,
    alloc: Global,
    builtin: Builtin,
    args: &[Term],
    setting: Setting,
) -> Result<Told<'p>, NoMemory>
    requires { IsDue engine.old (goal.Builtin builtin args.now) setting }
    ensures { (reading : Reading) (bound : ℕ) → IfOk result (λ t. HasGone reading bound engine.old.program.now (Going (goal_state engine.old (goal.Builtin builtin args.now) setting)) t.event [] t.tests engine.new t.stage) }
{
    let turn = do_builtin(engine, alloc, builtin, args, setting)?;
    let BuiltinTurn { stage, text } = turn;
    match text {
        None => Ok(quiet(stage)),
        Some(text) => Ok(Told {
            stage,
            tests: 0,
            event: Some(Event::Out(text)),
        }),
    }
}

// At a goal of a clause's body.
fn from_goal<'p>(
    engine: &mut Engine<'p>,
    alloc: Global,
    reading: Reading,
    bound: u64,
    goal: &'p Goal,
    setting: Setting,
    told: &mut Vec<u64>,
) -> Result<Told<'p>, NoMemory>
    requires due { IsDue engine.old goal.now setting }
    requires none { told.old.items ≡ [] }
    ensures { IfOk result (λ t. HasGone reading bound engine.old.program.now (Going (goal_state engine.old goal.now setting)) t.event told.new.items t.tests engine.new t.stage) }
{
    match goal {
        Goal::True => Ok(quiet(engine.do_true(setting))),
        Goal::Fail => Ok(quiet(engine.do_fail(setting))),
        Goal::Cut => Ok(quiet(engine.do_cut(setting))),
        Goal::Conj(first, second) => {
            let stage = engine.do_conj(first.get(), second.get(), setting)?;
            Ok(quiet(stage))
        }
        Goal::Disj(first, second) => {
            let stage = engine.do_disj(first.get(), second.get(), setting)?;
            Ok(quiet(stage))
        }
        Goal::IfElse(condition, first, second) => {
            let stage = engine.do_if(condition.get(), first.get(), second.get(), setting)?;
            Ok(quiet(stage))
        }
        Goal::Not(negated) => {
            let stage = engine.do_not(negated.get(), setting)?;
            Ok(quiet(stage))
        }
        Goal::Call(pred, args) => {
            let args = args.as_slice();
            let turn = from_call(engine, alloc, reading, bound, *pred, args, setting, told)?;
            Ok(turn)
        }
        Goal::Builtin(builtin, args) => {
            let args = args.as_slice();
            let turn = from_builtin(engine, alloc, *builtin, args, setting)?;
            Ok(turn)
        }
        Goal::Exit => unreachable!(),
    }
}

// Where the tasks from a link on are to be done.
fn from_link<'p>(
    engine: &mut Engine<'p>,
    alloc: Global,
    reading: Reading,
    bound: u64,
    number: u64,
    told: &mut Vec<u64>,
) -> Result<Told<'p>, NoMemory>
    requires whole { IsWhole engine.old (stage.Doing number) }
    requires none { told.old.items ≡ [] }
    ensures { IfOk result (λ t. HasGone reading bound engine.old.program.now (Going (doing engine.old (tasks_at engine.old number))) t.event told.new.items t.tests engine.new t.stage) }
{
    let due = do_link(engine, reading, told, number)?;
    match due {
        Due::Goal(goal, setting) => {
            let turn = from_goal(engine, alloc, reading, bound, goal, setting, told)?;
            Ok(turn)
        }
        Due::Answer => {
            let term = answer(engine, alloc)?;
            Ok(Told {
                stage: Stage::Failed,
                tests: 0,
                event: Some(Event::Answer(term)),
            })
        }
        Due::Done(turn) => Ok(Told {
            stage: turn.stage,
            tests: turn.tests,
            event: None,
        }),
    }
}

// Where a call is due.
fn from_calling<'p>(
    engine: &mut Engine<'p>,
    reading: Reading,
    bound: u64,
    pred: u64,
    args: Row,
    height: u64,
    place: Place,
    rest: u64,
    told: &mut Vec<u64>,
) -> Result<Told<'p>, NoMemory>
    requires whole { IsWhole engine.old (stage.Calling pred args height place rest) }
    requires none { told.old.items ≡ [] }
    ensures { IfOk result (λ t. HasGone reading bound engine.old.program.now (Going (call_state engine.old pred args height place rest)) t.event told.new.items t.tests engine.new t.stage) }
{
    let turn = do_call(
        engine, reading, bound, told, pred, args, height, place, rest,
    )?;
    Ok(Told {
        stage: turn.stage,
        tests: turn.tests,
        event: None,
    })
}

// Where the run has failed.
fn from_failure<'p>(
    engine: &mut Engine<'p>,
    alloc: Global,
    reading: Reading,
    bound: u64,
    told: &mut Vec<u64>,
) -> Result<Told<'p>, NoMemory>
    requires whole { IsWhole engine.old stage.Failed }
    requires none { told.old.items ≡ [] }
    ensures { IfOk result (λ t. HasGone reading bound engine.old.program.now (Going (as_state (as_engine engine.old) Failed)) t.event told.new.items t.tests engine.new t.stage) }
{
    let turn = do_failed(engine, alloc, reading, told)?;
    Ok(Told {
        stage: turn.stage,
        tests: turn.tests,
        event: None,
    })
}

// Makes a turn: from a link, a goal, a call or a failure to what comes of it; a run that is over tells its ending.
fn take_turn<'p>(
    engine: &mut Engine<'p>,
    alloc: Global,
    reading: Reading,
    bound: u64,
    stage: Stage<'p>,
    told: &mut Vec<u64>,
) -> Result<Told<'p>, NoMemory>
    requires whole { IsWhole engine.old stage }
    requires none { told.old.items ≡ [] }
    ensures { (p : Phase) → phase_of engine.old stage.entry ≡ Some p → IfOk result (λ t. HasGone reading bound engine.old.program.now p t.event told.new.items t.tests engine.new t.stage) }
{
    match stage {
        Stage::Doing(number) => {
            let turn = from_link(engine, alloc, reading, bound, number, told)?;
            Ok(turn)
        }
        Stage::Goal(goal, setting) => {
            let turn = from_goal(engine, alloc, reading, bound, goal, setting, told)?;
            Ok(turn)
        }
        Stage::Calling(pred, args, height, place, rest) => {
            let turn = from_calling(
                engine, reading, bound, pred, args, height, place, rest, told,
            )?;
            Ok(turn)
        }
        Stage::Failed => {
            let turn = from_failure(engine, alloc, reading, bound, told)?;
            Ok(turn)
        }
        Stage::Over(ending) => Ok(Told {
            stage: Stage::Over(ending),
            tests: 0,
            event: Some(Event::End(ending)),
        }),
        Stage::Stuck => Err(NoMemory),
    }
}

// Whether a turn told something.
fn has_told(turn: &Told<'_>, told: &Vec<u64>) -> bool
    ensures none { result ≡ false → (turn.now.event ≡ None) × (told.now.items ≡ []) }
    ensures some { result ≡ true → turn.now.event ≡ None → 0 < length told.now.items }
{
    match turn.event {
        Some(_) => true,
        None => !told.is_empty(),
    }
}

/// Goes on to the next event of a run, or to conditions that are to be told.
///
/// # Errors
///
/// Only for want of memory.
pub(crate) fn go_on<'p>(
    engine: &mut Engine<'p>,
    alloc: Global,
    reading: Reading,
    bound: u64,
    stage: Stage<'p>,
    told: &mut Vec<u64>,
) -> Result<Told<'p>, NoMemory>
    requires whole { IsWhole engine.old stage }
    requires phase { (p : Phase) × (phase_of engine.old stage ≡ Some p) }
    requires none { told.old.items ≡ [] }
    ensures come { (p : Phase) → phase_of engine.old stage.entry ≡ Some p → IfOk result (λ t. HasCome reading bound engine.old.program.now p t.event told.new.items t.tests engine.new t.stage) }
    ensures some { IfOk result (λ t. t.event ≡ None → 0 < length told.new.items) }
{
    let mut stage = stage;
    let mut tests = 0u64;
    'turns: loop {
        let mut turn = take_turn(engine, alloc, reading, bound, stage, told)?;
        turn.tests = tests.saturating_add(turn.tests);
        if has_told(&turn, told) {
            return Ok(turn);
        }
        tests = turn.tests;
        stage = turn.stage;
    }
}
