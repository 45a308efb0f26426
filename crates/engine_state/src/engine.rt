// What a run holds.
ghost use Rattle.std.specs.Prelude.{◌≡◌, ◌≤◌, ◌++◌, [], ℕ, length, Some, IfOk, OnOk, MatchOption};
ghost use Rattle.machine_model.specs.State.{cut, exit_mark};
ghost use Rattle.machine_model.specs.Step.{mark_of};
ghost use Rattle.term_heap.specs.Changes.{size_of, value_of};
ghost use Rattle.engine_state.specs.Engines.{Runs, alternative_choices};
ghost use Rattle.engine_state.specs.Stacks.{mark_seen};
ghost use Rattle.engine_state.specs.Views.{as_links, as_task, as_alternative, as_marked};
ghost use Rattle.engine_state.specs.Notes.{IsRowWithin, IsTaskNoted, IsAlternativeNoted};
ghost use Rattle.engine_state.specs.Moments.{IsWide, IsCallPlaced, IsGoalPlaced, IsTaskPlaced, IsAlternativePlaced};
ghost use Rattle.engine_state.specs.Stages.{choices_at, tasks_at, IsKept};
ghost use Rattle.engine_state.specs.Turns.{GoesTo, IsFirst, HasExit, HasPushed, HasTaken};

use crate::links::{let_go, link_at, push_link};
use crate::marks::{Marked, exit_mark, mark_at};
use crate::points::{Alternative, ChoicePoint, cut_points, height, held_links, take_newest};
use crate::stages::Setting;
use crate::tasks::{Exit, Link, Task, is_idle};
use clause_index::Index;
use prog_data::{Goal, Program};
use term_core::NoMemory;
use term_heap::{Heap, HeapMark};

/// What a run holds: its program and the index of its clauses, the heap, what is to be done, what failure goes back to, the calls made, and the query's place.
#[derive(Drop)]
pub struct Engine<'p> {
    pub program: &'p Program,
    pub index: Index,
    pub heap: Heap,
    pub links: Vec<Link<'p>>,
    pub notes: Vec<u64>,
    pub points: Vec<ChoicePoint>,
    pub calls: u64,
    pub query: u64,
}

impl<'p> Engine<'p> {
    /// How many choices there are.
    ///
    /// # Errors
    ///
    /// Only where no number of 64 bits tells it.
    pub fn height(&self) -> Result<u64, NoMemory>
        requires { IsKept self.now }
        ensures { IfOk result (λ h. h ≡ length (choices_at self.now)) }
    {
        let height = height(self.points.as_slice())?;
        Ok(height)
    }

    /// The link with a number, if there is one.
    pub fn link(&self, number: u64) -> Option<Link<'p>>
        requires { IsKept self.now }
        ensures { MatchOption result (tasks_at self.now number ≡ []) (IsFirst self.now number) }
    {
        match link_at(self.links.as_slice(), number) {
            None => None,
            Some(link) => Some(link),
        }
    }

    /// Lets go of links and notes that neither the tasks from a link on nor choices use.
    pub fn let_go(&mut self, rest: u64)
        requires kept { IsKept self.old }
        requires rest { rest ≤ length self.old.links.items }
        ensures { GoesTo self.old rest (choices_at self.old) self.new }
    {
        let_go(
            &mut self.links,
            &mut self.notes,
            self.points.as_slice(),
            rest,
        );
    }

    /// Puts a task before the tasks from a link on; the number of its link.
    ///
    /// # Errors
    ///
    /// Only for want of memory.
    pub fn push(&mut self, task: Task<'p>, rest: u64) -> Result<u64, NoMemory>
        requires kept { IsKept self.old }
        requires rest { rest ≤ length self.old.links.items }
        requires placed { IsTaskPlaced self.old.program.now (size_of self.old.heap.changes) task }
        requires noted { IsTaskNoted (length self.old.notes.items) task }
        ensures { IfOk result (λ k. HasPushed self.old (as_task self.old.notes.items task.entry) rest k self.new) }
    {
        let held = held_links(self.points.as_slice());
        let link = Link {
            task,
            next: rest,
            notes: self.notes.len() as u64,
        };
        let number = push_link(&mut self.links, held, link)?;
        Ok(number)
    }

    /// Puts a goal off: before the tasks that its settings tell; the number of its link.
    ///
    /// # Errors
    ///
    /// Only for want of memory.
    pub fn put_off(&mut self, goal: &'p Goal, setting: Setting) -> Result<u64, NoMemory>
        requires kept { IsKept self.old }
        requires rest { setting.rest ≤ length self.old.links.items }
        requires placed { IsGoalPlaced self.old.program.now (size_of self.old.heap.changes) goal.now setting.base }
        ensures { IfOk result (λ k. HasPushed self.old (Runs goal.now setting.base setting.height setting.place) setting.rest k self.new) }
    {
        let task = Task::Runs(goal, setting.base, setting.height, setting.place);
        let number = self.push(task, setting.rest)?;
        Ok(number)
    }

    /// Puts the exit of a call before the tasks from a link on, unless it tests nothing; the link with the first of the tasks then.
    ///
    /// # Errors
    ///
    /// Only for want of memory.
    pub fn put_exit(&mut self, exit: Exit, rest: u64) -> Result<u64, NoMemory>
        requires kept { IsKept self.old }
        requires rest { rest ≤ length self.old.links.items }
        requires placed { IsCallPlaced self.old.program.now (size_of self.old.heap.changes) exit.pred exit.args }
        requires noted { IsRowWithin (length self.old.notes.items) exit.noted }
        ensures { IfOk result (λ k. HasExit self.old exit rest k self.new) }
    {
        if is_idle(exit) {
            return Ok(rest);
        }
        let number = self.push(Task::Leaves(exit), rest)?;
        Ok(number)
    }

    /// Makes a choice point of now.
    ///
    /// # Errors
    ///
    /// Only for want of memory.
    pub fn add_point(&mut self, alternative: Alternative) -> Result<(), NoMemory>
        requires kept { IsKept self.old }
        requires placed { IsAlternativePlaced self.old.program.now (size_of self.old.heap.changes) (length self.old.links.items) alternative }
        requires noted { IsAlternativeNoted (length self.old.notes.items) alternative }
        requires wide { IsWide alternative }
        ensures { OnOk result (GoesTo self.old (length self.old.links.items) (alternative_choices (value_of self.old.heap.changes) (as_links self.old.notes.items self.old.links.items) self.old.query (as_alternative self.old.index self.old.notes.items alternative) ++ choices_at self.old) self.new) }
    {
        let below = height(self.points.as_slice())?;
        let point = ChoicePoint {
            trail: self.heap.changes(),
            links: self.links.len() as u64,
            notes: self.notes.len() as u64,
            below,
            alternative,
        };
        self.points.push(point)?;
        Ok(())
    }

    /// Takes the newest choices off until that many are left.
    pub fn cut_to(&mut self, height: u64)
        requires { IsKept self.old }
        ensures { GoesTo self.old (length self.old.links.items) (cut height (choices_at self.old)) self.new }
    {
        cut_points(&mut self.points, height);
    }

    /// Exits the mark with so many choices below it, if there is one.
    pub fn exit_at(&mut self, height: u64)
        requires { IsKept self.old }
        ensures { GoesTo self.old (length self.old.links.items) (exit_mark (Some height) (choices_at self.old)) self.new }
    {
        exit_mark(&mut self.points, height);
    }

    /// The conditions of the mark with so many choices below it, and whether it was exited. Where there is no such mark there are none.
    pub fn mark_at(&self, height: u64) -> Marked
        requires { IsKept self.now }
        ensures mark { as_marked self.now.notes.items result ≡ mark_seen (mark_of (Some height) (choices_at self.now)) }
        ensures noted { IsRowWithin (length self.now.notes.items) result.conds }
    {
        mark_at(self.points.as_slice(), height)
    }

    /// Takes the newest choice off and goes back to its moment; its alternative, if there is one.
    pub fn take_choice(&mut self) -> Option<Alternative>
        requires { IsKept self.old }
        ensures taken { MatchOption result (choices_at self.old ≡ []) (λ a. HasTaken self.old a self.new) }
        ensures program { self.new.program.now ≡ self.old.program.now }
    {
        match take_newest(&mut self.points) {
            None => None,
            Some(point) => {
                let mark = HeapMark {
                    length: point.trail,
                };
                self.heap.undo_to(mark);
                self.links.truncate(point.links as usize);
                self.notes.truncate(point.notes as usize);
                Some(point.alternative)
            }
        }
    }
}
