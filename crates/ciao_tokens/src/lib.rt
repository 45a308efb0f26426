//! The cut of a text into tokens.
#![tactic(auto)]

mod classes;
mod digits;
mod kinds;
mod laws;
mod layout;
mod numbers;
mod parts;
mod pieces;
mod quoted;
mod quotes;
mod scanner;
mod symbols;
mod words;

pub use kinds::{TextFault, Token, TokenKind};
pub use laws::{
    every_text_law, named_tokens_law, one_cut_law, one_fault_law, order_law, six_ways_law,
    written_law,
};
pub use scanner::tokens;
