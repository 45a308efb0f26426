//! What the engine over cells does at each call, exit, built-in and failure.
#![tactic(auto)]

mod answers;
mod builtins;
mod calls;
mod choosing;
mod exits;
mod failing;
mod links;
mod looking;
mod noting;
mod readings;
mod relied;
mod tries;
mod turns;

pub use answers::answer;
pub use builtins::{BuiltinTurn, do_builtin};
pub use calls::do_call;
pub use exits::do_exit;
pub use failing::do_failed;
pub use links::{Due, do_link};
pub use readings::Reading;
pub use relied::relied_law;
pub use turns::Turn;
