//! The texts of runs, refusals, reports and expansions.
#![tactic(auto)]

mod clause_terms;
mod expansion;
mod kept;
mod lines;
mod modules;
mod refusals;
mod report;
mod runs;

pub use clause_terms::builtin_names_law;
pub use expansion::expand_text;
pub use kept::kept_conditions_law;
pub use refusals::refusal_text;
pub use report::{report_status, report_text};
pub use runs::{ending_status, event_text, query_text};
