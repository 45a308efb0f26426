// What moves of the engine do to a run: laws of steps, of tests, and of states that tell the same.
ghost use Rattle.std.specs.Prelude.{ℕ, List};
ghost use Rattle.prog_data.specs.declared.programs.Program.{Program};
ghost use Rattle.prog_data.specs.Programs.{IsProgram};
ghost use Rattle.machine_model.specs.State.{Choice};
ghost use Rattle.machine_model.specs.Tests.{Tests};
ghost use Rattle.engine_state.specs.Within.{TasksWithin, VariablesWithin};
ghost use Rattle.engine_state.specs.Tested.{TestsJoin};
ghost use Rattle.engine_state.specs.Moves.{MovesCompose, FewestLeft};
ghost use Rattle.engine_state.specs.StepsMade.{GoalsMake, BuiltinsMake, CallsMake, ExitsMake, FailuresMake};
ghost use Rattle.engine_state.specs.MoveLaws.{CutsStay, ClausesEnter, SolvedHaveBindings, EquatedAlike, SolvedMove, LeanersMove, CallsMove};
ghost use Rattle.engine_state.specs.CellMoves.{CellsMove};
ghost use Rattle.engine_state.specs.PointMoves.{PointsPushed, GoesBack};

use machine_model::{leaner_law, leaner_states_law};
use term_core::unification_law;

/// Tasks whose cells are among so many see no other place.
pub fn tasks_law()
    ensures { TasksWithin }
{}

/// The variables of frames and choices whose cells are there are cells that are there.
pub fn variables_law()
    ensures { VariablesWithin }
{}

/// What the tests of conditions give is put together from what each gives.
pub fn tests_law()
    ensures { TestsJoin }
{}

/// Moves are made of steps, one after the other, and of states that tell the same.
pub fn moves_law()
    ensures { (what : Tests) (program : Program) (bound : ℕ) → MovesCompose what program bound }
{}

/// The number of steps left is enough, falls with each move, and is no greater in a leaner state.
pub fn steps_left_law()
    ensures { (what : Tests) (program : Program) (bound : ℕ) → FewestLeft what program bound }
{}

/// What each goal of control does.
pub fn goals_law()
    ensures { (what : Tests) (program : Program) (bound made n : ℕ) (cs : List Choice) → GoalsMake what program bound made n cs }
{}

/// What a built-in does, by its effect.
pub fn builtins_law()
    ensures { (what : Tests) (program : Program) (bound made n : ℕ) (cs : List Choice) → BuiltinsMake what program bound made n cs }
{}

/// What a call does, given what its tests gave.
pub fn calls_law()
    ensures { (what : Tests) (program : Program) (bound made n : ℕ) (cs : List Choice) → CallsMake what program bound made n cs }
{}

/// What an exit does, given what its tests gave.
pub fn exits_law()
    ensures { (what : Tests) (program : Program) (bound made n : ℕ) (cs : List Choice) → ExitsMake what program bound made n cs }
{}

/// What failure does, by the newest choice.
pub fn failures_law()
    ensures { (what : Tests) (program : Program) (bound made n : ℕ) (cs : List Choice) → FailuresMake what program bound made n cs }
{}

/// A cut to as many choices as there are leaves them, and one to the older ones takes the newer ones off.
pub fn cuts_law()
    ensures { CutsStay }
{}

/// A clause that is tried over cells is the one that the semantics tries.
pub fn clauses_law()
    ensures { ClausesEnter }
{}

/// Equations that some values solve have bindings.
pub fn bindings_law()
    ensures { SolvedHaveBindings }
{
    unification_law();
}

/// What a built-in equates may be made equal by any most general values.
pub fn equated_law()
    ensures { (program : Program) → EquatedAlike program }
{}

/// A state moves on by any most general values of the equations that are due.
pub fn solved_law()
    ensures { (what : Tests) (program : Program) (bound : ℕ) → IsProgram program → SolvedMove what program bound }
{
    unification_law();
    leaner_law();
    leaner_states_law();
}

/// What moves on to or from a leaner state.
pub fn leaners_law()
    ensures { (what : Tests) (program : Program) (bound : ℕ) → IsProgram program → LeanersMove what program bound }
{
    leaner_law();
    leaner_states_law();
}

/// Clauses that cannot match may be left out at a call.
pub fn chosen_law()
    ensures { (what : Tests) (program : Program) (bound : ℕ) → IsProgram program → CallsMove what program bound }
{
    leaner_law();
    leaner_states_law();
}

/// A state moves on by what was done with cells: a head that was matched, and places that were unified.
pub fn cells_law()
    ensures { (what : Tests) (program : Program) (bound made : ℕ) (cs : List Choice) → IsProgram program → CellsMove what program bound made cs }
{
    unification_law();
    leaner_law();
    leaner_states_law();
}

/// What new choice points stand for: a call's mark and its clauses among them.
pub fn pushed_law()
    ensures { PointsPushed }
{}

/// Failure goes back to the newest choice, at its moment, in a leaner state.
pub fn back_law()
    ensures { (program : Program) → IsProgram program → GoesBack program }
{
    leaner_states_law();
}
