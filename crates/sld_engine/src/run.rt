// The run of a query, an event at a time.
ghost use Rattle.std.specs.Prelude.{◌≡◌, Ok, Some, None, IfOk, IsErr, IsSome, OnErr};
ghost use Rattle.prog_data.specs.declared.events.Ending.{Ending};
ghost use Rattle.prog_data.specs.Goals.{called_by};
ghost use Rattle.prog_data.specs.Programs.{IsProgram};
ghost use Rattle.machine_model.specs.State.{Over};
ghost use Rattle.machine_model.specs.Continues.{at_phase};
ghost use Rattle.sld_engine.specs.Runs.{left_of, program_of, bound_of, reading_of, tests_of, Starts, HasTold};

use crate::state::RunState;
use engine_moves::Reading;
use prog_data::{Event, Program};
use std::alloc::Global;
use std::marker::Model;
use term_core::{NoMemory, Term};

/// The run of a query over a program, which makes at most so many calls.
#[derive(Drop)]
pub struct Run<'p> {
    state: RunState<'p>,
}

impl<'p> Model for Run<'p> {
    ghost use denote.Signature.{static_lft};
    ghost use Rattle.sld_engine.specs.contracts.state.RunState.{the_row as state_row};
    ghost use Rattle.sld_engine.specs.declared.state.RunState.{RunState};
    ghost use Rattle.sld_engine.specs.Running.{IsRunning};

    ghost Value = { RunState };

    ghost coded = { (state_row static_lft).coded };

    ghost view = { λ r. r.state };

    ghost invariant = { λ r. IsRunning r.state };
}

impl<'p> Run<'p> {
    /// The run of a query, which is a call of an exported predicate, before its first event.
    ///
    /// # Errors
    ///
    /// Only for want of memory.
    pub fn new(
        alloc: Global,
        program: &'p Program,
        query: &Term,
        bound: u64,
        reading: Reading,
    ) -> Result<Run<'p>, NoMemory>
        requires program { IsProgram program.now }
        requires exported { IsSome (called_by program.now query.now) }
        ensures starts { IfOk result (λ run. Starts program.now query.now bound reading run) }
        ensures program { IfOk result (λ run. program_of run ≡ program.now) }
        ensures bound { IfOk result (λ run. bound_of run ≡ bound) }
        ensures reading { IfOk result (λ run. reading_of run ≡ reading) }
        ensures tests { IfOk result (λ run. tests_of run ≡ 0) }
    {
        let state = RunState::new(alloc, program, query, bound, reading)?;
        Ok(Run { state })
    }

    /// How many tests were made up to the last event, at most the greatest number of 64 bits.
    pub fn tests(&self) -> u64
        ensures { result ≡ tests_of self.now }
    {
        self.state.tests
    }

    /// The next event. After the ending it is told again.
    ///
    /// # Errors
    ///
    /// Only for want of memory, and in each call after one that was refused memory.
    pub fn next(&mut self) -> Result<Event, NoMemory>
        ensures told { IfOk result (λ event. HasTold self.old event self.new) }
        ensures ended { (e : Ending) → left_of self.old ≡ Some (at_phase (Over e)) → (result ≡ Ok (Event.End e)) × (left_of self.new ≡ Some (at_phase (Over e))) }
        ensures refused { OnErr result (left_of self.new ≡ None) }
        ensures tests { OnErr result (tests_of self.new ≡ tests_of self.old) }
        ensures stuck { left_of self.old ≡ None → IsErr result × (left_of self.new ≡ None) }
        ensures program { program_of self.new ≡ program_of self.old }
        ensures bound { bound_of self.new ≡ bound_of self.old }
        ensures reading { reading_of self.new ≡ reading_of self.old }
    {
        self.state.next()
    }
}
