//! Instrumented programs: with call checks and exits for exactly the conditions that are kept.
#![tactic(auto)]

mod bodies;
mod kept;
mod programs;

pub use programs::{instrument, instrumented_range_law};
