//! Statuses of conditions by a table, and what is so of them in every run.
#![tactic(auto)]

mod by_row;
mod by_table;
mod laws;

pub use by_table::statuses;
pub use laws::{closed_table_law, described_law, discharged_law, sound_law, told_sound_law};
