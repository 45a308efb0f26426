//! When terms belong to grammar names, and when properties and conditions hold of arguments, as these stand: of terms, and of
//! places of a heap.
#![tactic(auto)]

mod chains;
mod conditions;
mod conditions_at;
mod gathering;
mod grounds;
mod heads;
mod looks;
mod membership;
mod membership_at;
mod narrowing;
mod narrowing_at;
mod properties;
mod properties_at;
mod sets;
mod settling;

pub use conditions::{
    calls_hold, exit_breaks, failure_breaks, is_comp, is_success, post_holds, pre_holds,
};
pub use conditions_at::{calls_hold_at, post_holds_at, pre_holds_at};
pub use grounds::{are_ground_at, is_ground_at};
pub use membership::belongs;
pub use membership_at::belongs_at;
pub use properties::{all_hold, holds};
pub use properties_at::{all_hold_at, holds_at};
