//! Unification of places of a heap.
#![tactic(auto)]

mod laws;
mod matching;
mod meet;
mod occurs;
mod pairs;
mod reduce;
mod unifying;

pub use laws::new_law;
pub use matching::match_head;
pub use unifying::{Unified, unify};
