//! What a clause makes of values, and the tables that are closed for a program.
#![tactic(auto)]

mod bodies;
mod builtins;
mod clauses;
mod exits;
mod goals;
mod laws;
mod lists;
mod narrowing;
mod properties;
mod pushing;
mod states;
mod transfer;
mod unifying;
mod values;

pub use clauses::run_clause_by;
pub use exits::narrowed_exits;
pub use laws::{exit_law, given_law, monotone_law};
pub use lists::met_each;
pub use narrowing::{narrowed_entry, narrowed_exit};
pub use properties::{all_implied, some_excluded, types_of};
pub use states::{Effect, Reached, State};
pub use transfer::{run_clause, run_goal, unify_values};
