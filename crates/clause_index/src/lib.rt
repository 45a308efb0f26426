//! Which clauses of a predicate can match a call, found by the first argument.
#![tactic(auto)]

mod index;
mod keys;
mod laws;
mod lists;
#[cfg(test)]
mod selections;

pub use index::Index;
pub use keys::{Key, key_of};
pub use laws::{all_selected_law, left_out_law, selected_law};
