//! The conditions, claims and entries that the assertions of a predicate give.
#![tactic(auto)]

mod claims;
mod conditions;
mod laws;
mod normalising;
mod outcomes;
mod properties;
mod settling;
mod troubles;

pub use laws::{
    conditions_law, normals_in_range_law, own_trouble_law, ranges_grow_law, troubles_law,
};
pub use normalising::normalise;
pub use outcomes::{Normal, NormalFault};
pub use troubles::{Trouble, assertion_trouble};
