//! The top call: from words, files and a sink to a status.
#![tactic(auto)]

mod prepare;
mod queries;
mod relied;
mod runs;
mod stops;
mod tool;
mod words;

pub use tool::{completeness_law, one_answer_law, run_tool, some_answer_law};
