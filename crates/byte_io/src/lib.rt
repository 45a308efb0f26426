//! The outside as two traits, files and a sink, each with a count of its faults.
#![tactic(auto)]

mod files;
mod history;
mod host;
mod memory;
mod sink;

pub use files::{Files, FilesFault};
pub use host::{HostFiles, HostSink};
pub use memory::{MemFiles, MemSink, NoMemory};
pub use sink::{Sink, SinkFault, write_all};
