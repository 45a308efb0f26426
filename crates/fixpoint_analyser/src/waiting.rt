// Predicates that wait to be looked at.
ghost use Rattle.std.specs.Prelude.{◌≡◌, ℕ, ◌<◌, ◌||◌, true, false, length, replicate, slice_get, slice_set, Some, IfOk, OnOk, OnErr, MatchBool, MatchOption};
ghost use Rattle.fixpoint_analyser.specs.Callers.{stands_in};
ghost use Rattle.fixpoint_analyser.specs.Waits.{waits};

use std::alloc::Global;
use std::collections::VecDeque;
use std::marker::Model;
use term_core::NoMemory;

/// Which predicates wait, and a queue of them.
#[derive(Drop)]
pub(crate) struct Waiting {
    flags: Vec<bool>,
    queue: VecDeque<u64>,
}

impl Model for Waiting {
    ghost use Rattle.std.specs.Prelude.{Bool, List};
    ghost use Rattle.fixpoint_analyser.specs.Waits.{IsQueue};

    ghost Value = { List Bool };

    ghost view = { λ w. w.flags.items };

    ghost invariant = { λ w. IsQueue w.flags.items w.queue.items };
}

// Whether a flag is there and not set.
fn is_idle(flags: &[bool], pred: u64) -> bool
    ensures { MatchBool result (slice_get flags.now pred ≡ Some false) (slice_set flags.now pred true ≡ flags.now) }
{
    match flags.get(pred as usize) {
        None => false,
        Some(flag) => !*flag,
    }
}

impl Waiting {
    /// None of so many predicates waits.
    ///
    /// # Errors
    ///
    /// Only for want of memory.
    pub(crate) fn none(alloc: Global, count: usize) -> Result<Waiting, NoMemory>
        ensures { IfOk result (λ w. w ≡ replicate count false) }
    {
        let flags = vec![in alloc; false; count]?;
        Ok(Waiting {
            flags,
            queue: VecDeque::new(alloc),
        })
    }

    /// A predicate waits, if there is one with this number.
    ///
    /// # Errors
    ///
    /// Only for want of memory; then nothing is changed.
    pub(crate) fn add(&mut self, pred: u64) -> Result<(), NoMemory>
        ensures ok { OnOk result (self.new ≡ slice_set self.old pred true) }
        ensures err { OnErr result (self.new ≡ self.old) }
    {
        if !is_idle(self.flags.as_slice(), pred) {
            return Ok(());
        }
        self.queue.push_back(pred)?;
        self.flags[pred as usize] = true;
        Ok(())
    }

    /// Each of these predicates waits.
    ///
    /// # Errors
    ///
    /// Only for want of memory; then some of them may wait.
    pub(crate) fn add_all(&mut self, preds: &[u64]) -> Result<(), NoMemory>
        ensures count { length self.new ≡ length self.old }
        ensures ok { OnOk result ((p : ℕ) → p < length self.old → waits self.new p ≡ (waits self.old p || stands_in preds.now p)) }
    {
        for pred in preds {
            self.add(*pred)?;
        }
        Ok(())
    }

    /// The predicate that has waited longest, which waits no more; none where no predicate waits.
    pub(crate) fn take(&mut self) -> Option<u64>
        ensures taken { MatchOption result ((p : ℕ) → waits self.old p ≡ false) (λ p. waits self.old p ≡ true) }
        ensures left { MatchOption result (self.new ≡ self.old) (λ p. self.new ≡ slice_set self.old p false) }
    {
        match self.queue.pop_front() {
            None => None,
            Some(pred) => {
                self.flags[pred as usize] = false;
                Some(pred)
            }
        }
    }
}
