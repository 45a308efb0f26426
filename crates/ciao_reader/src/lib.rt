//! Sentences read from tokens.
#![tactic(auto)]

mod changes;
mod frames;
mod laws;
mod parts;
mod reader;
mod reading;
mod scan;
mod sentences;
mod steps;
mod words;

pub use laws::{
    every_goal_law, every_text_law, in_range_law, numbers_law, one_goal_law, one_outcome_law,
    one_reading_law, reading_back_law,
};
pub use reader::{read_goal, read_sentences};
pub use sentences::{ReadFault, Sentence, Source};
