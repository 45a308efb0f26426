//! Rules of the package dcg as clauses.
#![tactic(auto)]

mod bodies;
mod faults;
mod making;
mod rules;

pub use faults::ExpandFault;
pub use making::{copied_all, new_variable, pair};
pub use rules::{expand_rule, rules_in_range_law};
