// What is so of closed tables and of statuses, in every run.
ghost use Rattle.prog_data.specs.declared.grammars.Grammar.{Grammar as GrammarValue};
ghost use Rattle.prog_data.specs.declared.programs.Program.{Program};
ghost use Rattle.prog_data.specs.GrammarRange.{IsGrammar};
ghost use Rattle.discharger.specs.ReliedOn.{ReliedOn};
ghost use Rattle.discharger.specs.ClosedTables.{AnyRowsAreClosed};
ghost use Rattle.discharger.specs.Laws.{ClosedDescribes, ClosedIsSound, ErasedIsSound, Discharges};

use goal_transfer::{exit_law, monotone_law};
use machine_model::{marks_law, simulation_law};
use name_order::{basic_rules_law, belongs_meet_law};
use prog_data::{
    arithmetic_value_law, membership_law, persistence_law, program_parts_law,
    property_persistence_law, value_persistence_law,
};
use term_core::unification_law;
use type_domain::terms_law;

// What is relied on of terms, names, values and transfer, by the laws of the crates below.
fn relied_law()
    ensures { (g : GrammarValue) → IsGrammar g → ReliedOn g }
{
    unification_law();
    membership_law();
    persistence_law();
    property_persistence_law();
    value_persistence_law();
    arithmetic_value_law();
    basic_rules_law();
    belongs_meet_law();
    name_order::order_law();
    terms_law();
    type_domain::order_law();
    monotone_law();
    exit_law();
}

/// A closed table describes each call and each exit of every run of a query that meets an entry, before its own tests.
pub fn described_law()
    ensures { (program : Program) → ClosedDescribes program }
{
    relied_law();
}

/// The statuses by a closed table are true of each point: what is checked holds there, and what is false does not.
pub fn sound_law()
    ensures { (program : Program) → ClosedIsSound program }
{
    relied_law();
    program_parts_law();
    marks_law();
}

/// Where each broken condition is told and the run goes on, this is so of the statuses by a table that is closed for the
/// program without conditions.
pub fn told_sound_law()
    ensures { (program : Program) → ErasedIsSound program }
{
    relied_law();
    program_parts_law();
    marks_law();
}

/// So the run of a query that meets an entry is the run of the program that keeps only the checks that are not discharged.
pub fn discharged_law()
    ensures { (program : Program) → Discharges program }
{
    sound_law();
    simulation_law();
}

/// A program in range has a closed table: that in which each predicate is called, and exits, with any terms.
pub fn closed_table_law()
    ensures { (program : Program) → AnyRowsAreClosed program }
{
    goal_transfer::given_law();
    type_domain::given_law();
}
