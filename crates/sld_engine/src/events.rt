// The events of a run, one at a time.
ghost use Rattle.std.specs.Prelude.{◌≡◌, ◌<◌, ◌≤◌, Ok, Some, None, IfOk, IsErr, IsSome, OnErr, length};
ghost use Rattle.prog_data.specs.declared.events.Ending.{Ending};
ghost use Rattle.prog_data.specs.Goals.{called_by};
ghost use Rattle.prog_data.specs.Programs.{IsProgram};
ghost use Rattle.machine_model.specs.State.{Phase, Over};
ghost use Rattle.machine_model.specs.Continues.{at_phase};
ghost use Rattle.engine_state.specs.Stages.{phase_of};
ghost use Rattle.sld_engine.specs.Running.{IsRunning};
ghost use Rattle.sld_engine.specs.Runs.{left_of, program_of, bound_of, reading_of, tests_of, Starts, HasTold};

use crate::starting::{Start, start_engine};
use crate::state::RunState;
use crate::turning::{Told, go_on};
use engine_moves::Reading;
use engine_state::Stage;
use machine_model::leaner_law;
use prog_data::{Event, Program, called_by};
use std::alloc::Global;
use term_core::{NoMemory, Term};

impl<'p> RunState<'p> {
    /// The run of a query, which is a call of an exported predicate, before its first event.
    ///
    /// # Errors
    ///
    /// Only for want of memory.
    pub(crate) fn new(
        alloc: Global,
        program: &'p Program,
        query: &Term,
        bound: u64,
        reading: Reading,
    ) -> Result<RunState<'p>, NoMemory>
        requires program { IsProgram program.now }
        requires exported { IsSome (called_by program.now query.now) }
        ensures starts { IfOk result (λ run. Starts program.now query.now bound reading run) }
        ensures program { IfOk result (λ run. program_of run ≡ program.now) }
        ensures bound { IfOk result (λ run. bound_of run ≡ bound) }
        ensures reading { IfOk result (λ run. reading_of run ≡ reading) }
        ensures tests { IfOk result (λ run. tests_of run ≡ 0) }
        ensures running { IfOk result IsRunning }
    {
        leaner_law();
        match called_by(program, query) {
            None => unreachable!(),
            Some(pred) => {
                let first = start_engine(alloc, program, pred, query)?;
                let Start { engine, stage } = first;
                Ok(RunState {
                    alloc,
                    program,
                    reading,
                    bound,
                    tests: 0,
                    told: Vec::new(alloc),
                    given: 0,
                    stage,
                    engine,
                })
            }
        }
    }

    // Gives the next of the conditions that were told.
    fn give(&mut self) -> Event
        requires running { IsRunning self.old }
        requires phase { (p : Phase) × (phase_of self.old.engine self.old.stage ≡ Some p) }
        requires some { self.old.given < length self.old.told.items }
        ensures told { HasTold self.old result self.new }
        ensures running { IsRunning self.new }
        ensures program { program_of self.new ≡ program_of self.old }
        ensures bound { bound_of self.new ≡ bound_of self.old }
        ensures reading { reading_of self.new ≡ reading_of self.old }
    {
        let condition = self.told[self.given];
        self.given += 1;
        Event::Broken(condition)
    }

    // Goes on to the next event, where each of the conditions that were told was given.
    fn tell_next(&mut self) -> Result<Event, NoMemory>
        requires running { IsRunning self.old }
        requires phase { (p : Phase) × (phase_of self.old.engine self.old.stage ≡ Some p) }
        requires given { length self.old.told.items ≤ self.old.given }
        ensures told { IfOk result (λ event. HasTold self.old event self.new) }
        ensures running { IsRunning self.new }
        ensures refused { OnErr result (left_of self.new ≡ None) }
        ensures tests { OnErr result (tests_of self.new ≡ tests_of self.old) }
        ensures program { program_of self.new ≡ program_of self.old }
        ensures bound { bound_of self.new ≡ bound_of self.old }
        ensures reading { reading_of self.new ≡ reading_of self.old }
    {
        let stage = self.stage;
        self.stage = Stage::Stuck;
        self.told.clear();
        self.given = 0;
        let next = go_on(
            &mut self.engine,
            self.alloc,
            self.reading,
            self.bound,
            stage,
            &mut self.told,
        )?;
        let Told {
            stage,
            tests,
            event,
        } = next;
        self.tests = self.tests.saturating_add(tests);
        self.stage = stage;
        match event {
            Some(event) => Ok(event),
            None => {
                let condition = self.told[0];
                self.given = 1;
                Ok(Event::Broken(condition))
            }
        }
    }

    /// The next event. After the ending it is told again.
    ///
    /// # Errors
    ///
    /// Only for want of memory, and in each call after one that was refused memory.
    pub(crate) fn next(&mut self) -> Result<Event, NoMemory>
        requires { IsRunning self.old }
        ensures told { IfOk result (λ event. HasTold self.old event self.new) }
        ensures running { IsRunning self.new }
        ensures ended { (e : Ending) → left_of self.old ≡ Some (at_phase (Over e)) → (result ≡ Ok (Event.End e)) × (left_of self.new ≡ Some (at_phase (Over e))) }
        ensures refused { OnErr result (left_of self.new ≡ None) }
        ensures tests { OnErr result (tests_of self.new ≡ tests_of self.old) }
        ensures stuck { left_of self.old ≡ None → IsErr result × (left_of self.new ≡ None) }
        ensures program { program_of self.new ≡ program_of self.old }
        ensures bound { bound_of self.new ≡ bound_of self.old }
        ensures reading { reading_of self.new ≡ reading_of self.old }
    {
        match self.stage {
            Stage::Stuck => Err(NoMemory),
            Stage::Over(ending) => {
                if self.given < self.told.len() {
                    return Ok(self.give());
                }
                Ok(Event::End(ending))
            }
            _ => {
                if self.given < self.told.len() {
                    return Ok(self.give());
                }
                let event = self.tell_next()?;
                Ok(event)
            }
        }
    }
}
