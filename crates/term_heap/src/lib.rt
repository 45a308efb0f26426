//! Terms as cells that changes made, which a trail takes back.
#![tactic(auto)]

mod cells;
mod decoding;
mod heap;
mod laws;
mod loading;
mod trails;

pub use cells::Cell;
pub use heap::{Heap, HeapMark};
pub use laws::past_law;
