//! What the engine holds over cells, and the state that it is.
#![tactic(auto)]

mod backwards;
mod builtin_loading;
mod control;
mod engine;
mod findings;
mod laws;
mod links;
mod loading;
mod marks;
mod move_laws;
mod notes;
mod points;
mod selecting;
mod stages;
mod tasks;

pub use builtin_loading::builtin_moves_law;
pub use engine::Engine;
pub use findings::{Counted, test_all};
pub use laws::{
    below_law, bound_law, choices_law, cut_law, entered_law, exit_law, mark_law, moments_give_law,
    moments_law, moments_within_law, new_point_law, notes_law, steps_law,
};
pub use marks::Marked;
pub use move_laws::{
    back_law, bindings_law, builtins_law, calls_law, cells_law, chosen_law, clauses_law, cuts_law,
    equated_law, exits_law, failures_law, goals_law, leaners_law, moves_law, pushed_law,
    solved_law, steps_left_law, tasks_law, tests_law, variables_law,
};
pub use notes::noted;
pub use points::{Alternative, ChoicePoint, Pending};
pub use stages::{Setting, Stage};
pub use tasks::{Exit, Link, Row, Task};
