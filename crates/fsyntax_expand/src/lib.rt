//! Clauses of the package fsyntax as clauses without functions.
#![tactic(auto)]

mod bodies;
mod clauses;
mod definitions;
mod expand;
mod flattening;

pub use expand::{clauses_in_range_law, expand_clause};
