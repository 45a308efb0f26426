//! The checking semantics and its laws.
#![tactic(auto)]

ghost use Rattle.std.specs.Prelude.{ℕ, ◌≤◌, List};
ghost use Rattle.prog_data.specs.declared.tables.Status.{Status};
ghost use Rattle.prog_data.specs.declared.programs.Program.{Program};
ghost use Rattle.machine_model.specs.State.{State};
ghost use Rattle.machine_model.specs.Tests.{Tests};
ghost use Rattle.machine_model.specs.Marks.{MarksOwned};
ghost use Rattle.machine_model.specs.LeanerLaws.{LeanerTellsTheSame, LeanerStatesAreFound};
ghost use Rattle.machine_model.specs.Laws.{OneRun, Ends, Erases, ToldErases, ErasesInstrumented, Drops, Suffices, Simulates, CallsBounded, LeftLaws};

/// A run has one list of events, one number of tests and one ending.
pub fn one_run_law()
    ensures { (what : Tests) (program : Program) (bound : ℕ) → OneRun what program bound }
{}

/// For each bound a run ends.
pub fn ends_law()
    ensures { (what : Tests) (program : Program) → Ends what program }
{}

/// The calls made never pass the bound.
pub fn calls_bounded_law()
    ensures { (what : Tests) (program : Program) (bound : ℕ) → CallsBounded what program bound }
{}

/// What is left of a run is told step by step, and has one end.
pub fn left_law()
    ensures { (what : Tests) (program : Program) (bound : ℕ) → LeftLaws what program bound }
{}

/// Until a condition is broken, the run is the one of the program without conditions.
pub fn erasure_law()
    ensures { (program : Program) → Erases program }
{}

/// Where each broken condition is told and the run goes on, it is, without these events, the run of the program without conditions.
pub fn told_erasure_law()
    ensures { (program : Program) → ToldErases program }
{}

/// An instrumented program and the program are the same without their conditions.
pub fn instrumented_erasure_law()
    ensures { (program : Program) (statuses : List Status) → ErasesInstrumented program statuses }
{}

/// Until a condition that is not tested is broken, the run that tests only some conditions is the one that tests all.
pub fn dropping_law()
    ensures { (program : Program) → Drops program }
{}

/// Where the statuses are sound, the tests of the conditions that are not checked suffice.
pub fn kept_tests_law()
    ensures { (program : Program) (statuses : List Status) → Suffices program statuses }
{}

/// Where the statuses are sound, the instrumented program's run by its checks is the program's run.
pub fn simulation_law()
    ensures { (program : Program) (statuses : List Status) → Simulates program statuses }
{}

/// The mark that an exit finds is one of a call of its predicate.
pub fn marks_law()
    ensures { (what : Tests) (program : Program) → MarksOwned what program }
{}

/// A state that differs from another by the names of variables, by exits that test nothing and by clauses whose first
/// equation clashes tells the same.
pub fn leaner_law()
    ensures { LeanerTellsTheSame }
{}

/// How such states are found.
pub fn leaner_states_law()
    ensures { LeanerStatesAreFound }
{}
