//! Values: grammar names that a term is known to belong to.
#![tactic(auto)]

mod bits;
mod compounds;
mod laws;
mod leaves;
mod lookups;
mod sets;
mod values;

pub use compounds::{all_set, build, project};
pub use laws::{given_law, monotone_law, order_law, terms_law};
pub use leaves::has_name;
pub use lookups::do_meet;
pub use values::{join, leq, meet, of_atom, of_int, of_name};
