//! Which names of a grammar have members, which are below which, and which meet.
#![tactic(auto)]

mod basics;
mod below;
mod laws;
mod leaves;
mod marking;
mod meets;
mod pairs;
mod relations;
mod sets;
mod users;

pub use basics::{admits_atom, admits_int};
pub use laws::{
    basic_rules_law, belongs_meet_law, below_belongs_law, below_law, below_order_law,
    fixpoints_law, meets_law, meets_symmetric_law, member_law, members_belong_law, order_law,
};
pub use relations::Relations;
pub use sets::put_where;
