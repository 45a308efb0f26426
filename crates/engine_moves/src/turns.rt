// Where a move led.
use engine_state::Stage;

/// Where a run went, and how many tests were made.
#[derive(Clone, Copy, Drop)]
pub struct Turn<'p> {
    pub stage: Stage<'p>,
    pub tests: u64,
}
