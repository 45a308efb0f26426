//! The grammar of regular types.
#![tactic(auto)]

mod clauses;
mod declarations;
mod faults;
mod grammars;
mod lists;
mod literals;
mod meanings;
mod modules;
mod numbering;
mod ranges;
mod seen;
mod starts;
mod terms;

pub use clauses::clause_law;
pub use declarations::{declaration_law, declared_type};
pub use grammars::{grammar_of, least_terms_law, types_law};
pub use lists::{list_of, lists_law, old_names_law};
pub use meanings::{Meaning, meanings_law, type_meant};
pub use modules::{RegType, SeenType, TypeFault, TypeModule};
pub use ranges::{grammars_in_range_law, listings_in_range_law};
pub use seen::{are_seen, seen_types};
