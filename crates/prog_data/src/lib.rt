//! Programs: goals, clauses, conditions, grammars and events.
#![tactic(auto)]

mod arithmetic;
mod basic_names;
mod conditions;
mod control;
mod events;
mod goals;
mod grammars;
mod programs;
mod queries;
mod ranges;
mod refusals;
mod tables;
mod threads;

pub use arithmetic::arithmetic_value_law;
pub use basic_names::{
    ATM_TYPE, CALLABLE_TYPE, CONSTANT_TYPE, GND_TYPE, INT_TYPE, LIST_TYPE, NNEGINT_TYPE, NUM_TYPE,
    STRUCT_TYPE, TERM_TYPE, basic_grammar,
};
pub use conditions::{
    CompProp, Cond, CondKind, Prop, conjunction_persistence_law, property_persistence_law,
};
pub use control::{Control, Meaning, control_law, meaning_of};
pub use events::{ArithKind, Ending, Event, Text};
pub use goals::{Builtin, Goal};
pub use grammars::{Basic, Grammar, Rule, Seen, membership_law, persistence_law};
pub use programs::{Check, Claim, Clause, Entry, Keyword, Place, Pred, Program};
pub use queries::called_by;
pub use ranges::{program_parts_law, program_ranges_law};
pub use refusals::{Refusal, RefusalKind, kind_word};
pub use tables::{Row, Status, Table, Value, value_persistence_law};
pub use threads::program_threads_law;
