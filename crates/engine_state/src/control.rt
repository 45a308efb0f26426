// Moves at the goals of control.
ghost use Rattle.std.specs.Prelude.{◌≤◌, ◌∷◌, length, IfOk};
ghost use Rattle.prog_data.specs.declared.goals.Goal as goal;
ghost use Rattle.engine_state.specs.Engines.{Cuts};
ghost use Rattle.engine_state.specs.Stages.{tasks_at, doing, goal_state, IsKept, IsAt, IsDue};
ghost use Rattle.engine_state.specs.Turns.{IsOnce, HasMoved};

use crate::engine::Engine;
use crate::points::Alternative;
use crate::stages::{Setting, Stage};
use crate::tasks::Task;
use machine_model::leaner_states_law;
use prog_data::Goal;
use term_core::NoMemory;

impl<'p> Engine<'p> {
    /// At `true`.
    pub fn do_true(&self, setting: Setting) -> Stage<'p>
        requires { IsDue self.now goal.True setting }
        ensures { HasMoved self.now (goal_state self.now goal.True setting) self.now result }
    {
        leaner_states_law();
        Stage::Doing(setting.rest)
    }

    /// At `fail`.
    pub fn do_fail(&self, setting: Setting) -> Stage<'p>
        requires { IsDue self.now goal.Fail setting }
        ensures { HasMoved self.now (goal_state self.now goal.Fail setting) self.now result }
    {
        leaner_states_law();
        Stage::Failed
    }

    /// At a cut.
    pub fn do_cut(&mut self, setting: Setting) -> Stage<'p>
        requires { IsDue self.old goal.Cut setting }
        ensures { HasMoved self.old (goal_state self.old goal.Cut setting) self.new result }
    {
        leaner_states_law();
        self.cut_to(setting.height);
        Stage::Doing(setting.rest)
    }

    /// At a cut to a height, before the tasks from a link on.
    pub fn do_cuts(&mut self, height: u64, rest: u64) -> Stage<'p>
        requires { IsAt self.old (doing self.old (Cuts height ∷ tasks_at self.old rest)) (rest ≤ length self.old.links.items) }
        ensures { HasMoved self.old (doing self.old (Cuts height ∷ tasks_at self.old rest)) self.new result }
    {
        leaner_states_law();
        self.cut_to(height);
        Stage::Doing(rest)
    }

    /// At a conjunction.
    ///
    /// # Errors
    ///
    /// Only for want of memory.
    pub fn do_conj(
        &mut self,
        first: &'p Goal,
        second: &'p Goal,
        setting: Setting,
    ) -> Result<Stage<'p>, NoMemory>
        requires { IsDue self.old (goal.Conj first.now second.now) setting }
        ensures { IfOk result (λ stage. HasMoved self.old (goal_state self.old (goal.Conj first.now second.now) setting) self.new stage) }
    {
        leaner_states_law();
        let behind = self.put_off(second, setting)?;
        let before = Setting {
            base: setting.base,
            height: setting.height,
            place: setting.place,
            rest: behind,
        };
        Ok(Stage::Goal(first, before))
    }

    /// At a disjunction.
    ///
    /// # Errors
    ///
    /// Only for want of memory.
    pub fn do_disj(
        &mut self,
        first: &'p Goal,
        second: &'p Goal,
        setting: Setting,
    ) -> Result<Stage<'p>, NoMemory>
        requires { IsDue self.old (goal.Disj first.now second.now) setting }
        ensures { IfOk result (λ stage. HasMoved self.old (goal_state self.old (goal.Disj first.now second.now) setting) self.new stage) }
    {
        leaner_states_law();
        self.let_go(setting.rest);
        let other = self.put_off(second, setting)?;
        self.add_point(Alternative::Resumes(other))?;
        Ok(Stage::Goal(first, setting))
    }

    /// At a conditional.
    ///
    /// # Errors
    ///
    /// Only for want of memory.
    pub fn do_if(
        &mut self,
        condition: &'p Goal,
        first: &'p Goal,
        second: &'p Goal,
        setting: Setting,
    ) -> Result<Stage<'p>, NoMemory>
        requires { IsDue self.old (goal.IfElse condition.now first.now second.now) setting }
        ensures { IfOk result (λ stage. HasMoved self.old (goal_state self.old (goal.IfElse condition.now first.now second.now) setting) self.new stage) }
    {
        leaner_states_law();
        let now = self.height()?;
        self.let_go(setting.rest);
        let other = self.put_off(second, setting)?;
        self.add_point(Alternative::Resumes(other))?;
        let behind = self.put_off(first, setting)?;
        let once = self.run_once(setting, now, behind)?;
        Ok(Stage::Goal(condition, once))
    }

    /// At a negation.
    ///
    /// # Errors
    ///
    /// Only for want of memory.
    pub fn do_not(&mut self, negated: &'p Goal, setting: Setting) -> Result<Stage<'p>, NoMemory>
        requires { IsDue self.old (goal.Not negated.now) setting }
        ensures { IfOk result (λ stage. HasMoved self.old (goal_state self.old (goal.Not negated.now) setting) self.new stage) }
    {
        leaner_states_law();
        let now = self.height()?;
        self.let_go(setting.rest);
        self.add_point(Alternative::Resumes(setting.rest))?;
        let behind = self.push(Task::Fails(setting.height, setting.place), setting.rest)?;
        let once = self.run_once(setting, now, behind)?;
        Ok(Stage::Goal(negated, once))
    }

    // What a goal is run with before a cut to a height and then the tasks from a link on.
    fn run_once(&mut self, setting: Setting, now: u64, behind: u64) -> Result<Setting, NoMemory>
        requires kept { IsKept self.old }
        requires behind { behind ≤ length self.old.links.items }
        ensures { IfOk result (λ once. IsOnce self.old setting now behind once self.new) }
    {
        let height = self.height()?;
        let rest = self.push(Task::Cuts(now), behind)?;
        Ok(Setting {
            base: setting.base,
            height,
            place: setting.place,
            rest,
        })
    }
}
