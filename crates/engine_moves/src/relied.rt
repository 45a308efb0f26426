// The laws of the crates below that moves stand on.
ghost use Rattle.engine_moves.specs.Relied.{Relied};

use engine_state::{
    cells_law, choices_law, clauses_law, failures_law, goals_law, leaners_law, moments_give_law,
    moments_law, moments_within_law, moves_law, tasks_law, variables_law,
};
use machine_model::leaner_states_law;

// All of them together.
pub fn relied_law()
    ensures { Relied }
{
    choices_law();
    moments_law();
    moments_give_law();
    moments_within_law();
    tasks_law();
    variables_law();
    moves_law();
    goals_law();
    failures_law();
    leaners_law();
    clauses_law();
    cells_law();
    leaner_states_law();
}
