// The run of a query.
use engine_moves::Reading;
use engine_state::{Engine, Stage};
use prog_data::Program;
use std::alloc::Global;

/// The run of a query over a program, which makes at most so many calls. Of the conditions that were told so many were given.
#[derive(Drop)]
pub(crate) struct RunState<'p> {
    pub(crate) alloc: Global,
    pub(crate) program: &'p Program,
    pub(crate) reading: Reading,
    pub(crate) bound: u64,
    pub(crate) tests: u64,
    pub(crate) told: Vec<u64>,
    pub(crate) given: usize,
    pub(crate) stage: Stage<'p>,
    pub(crate) engine: Engine<'p>,
}
