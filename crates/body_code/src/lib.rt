//! Clauses: the goals of a sentence, by the predicates and the types that are seen in its file.
#![tactic(auto)]

mod bodies;
mod clauses;
mod compiling;
mod faults;
mod goals;
mod laws;
mod problems;
mod scopes;

pub use clauses::{clause_indicator, clause_problem};
pub use compiling::compile_clause;
pub use faults::{BodyFault, Compiled, Indicator, Problem};
pub use laws::{bodies_law, compiled_in_range_law, problems_law};
pub use scopes::{Callee, Named, Scope, Visible};
