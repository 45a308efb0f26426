//! The run of a query over a linked program.
#![tactic(auto)]

mod events;
mod run;
mod starting;
mod state;
mod turning;

pub use engine_moves::Reading;
pub use run::Run;
