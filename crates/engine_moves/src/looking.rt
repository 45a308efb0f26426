// The conditions that a reading looks at.
ghost use Rattle.std.specs.Prelude.{◌≡◌, ◌≤◌, ◌∷◌, [], true, not, drop, length, filter, flat_map, MatchOption};
ghost use Rattle.std.specs.List.{list_all};
ghost use Rattle.prog_data.specs.declared.programs.Program.{Program};
ghost use Rattle.prog_data.specs.Conditions.{kind_of, is_calls};
ghost use Rattle.prog_data.specs.Goals.{pred_of, checked_at_call};
ghost use Rattle.prog_data.specs.Programs.{IsProgram};
ghost use Rattle.prog_data.specs.Ranges.{is_pred_of};
ghost use Rattle.engine_moves.specs.Readings.{tests_by};
ghost use Rattle.engine_moves.specs.Looking.{is_of, looks_by};

use crate::readings::Reading;
use prog_data::{Check, CondKind, Program, program_ranges_law};
use prop_check::{is_comp, is_success};

/// A kind of conditions that a call takes note of.
#[derive(Clone, Copy, Drop)]
pub(crate) enum Kind {
    Success,
    Comp,
}

/// Whether the condition with this number is of a kind.
pub(crate) fn is_of(program: &Program, kind: Kind, condition: u64) -> bool
    ensures { result ≡ is_of kind (kind_of program.now condition) }
{
    match kind {
        Kind::Success => is_success(program, condition),
        Kind::Comp => is_comp(program, condition),
    }
}

/// Whether a broken condition ends the run.
pub(crate) fn stops(reading: Reading) -> bool
    ensures { (program : Program) → result ≡ (tests_by program reading).stops }
{
    match reading {
        Reading::All | Reading::Kept => true,
        Reading::AllTold | Reading::KeptTold => false,
    }
}

/// The conditions of a predicate, none where there is no such predicate.
pub(crate) fn conditions_of(program: &Program, pred: u64) -> &[u64]
    ensures { result.now ≡ (pred_of program.now pred).conds }
{
    match program.preds.get(pred as usize) {
        Some(pred) => pred.conds.as_slice(),
        None => &[],
    }
}

/// The call checks of a predicate, none where there is no such predicate.
pub(crate) fn checks_of(program: &Program, pred: u64) -> &[Check]
    ensures { result.now ≡ (pred_of program.now pred).call_checks }
{
    match program.preds.get(pred as usize) {
        Some(pred) => pred.call_checks.as_slice(),
        None => &[],
    }
}

// Whether the condition with this number is a calls condition.
fn is_calls(program: &Program, condition: u64) -> bool
    ensures { result ≡ is_calls (kind_of program.now condition) }
{
    match program.conds.get(condition as usize) {
        Some(found) => match &found.kind {
            CondKind::Calls(_) => true,
            CondKind::Success(_, _) | CondKind::Comp(_, _) => false,
        },
        None => false,
    }
}

// The calls condition among conditions of which only the first may be one.
fn first_calls(program: &Program, conditions: &[u64]) -> Option<u64>
    requires { list_all (λ c. not (is_calls (kind_of program.now c))) (drop 1 conditions.now) ≡ true }
    ensures { MatchOption result (filter (λ c. is_calls (kind_of program.now c)) conditions.now ≡ []) (λ c. filter (λ d. is_calls (kind_of program.now d)) conditions.now ≡ c ∷ []) }
{
    if conditions.is_empty() {
        return None;
    }
    let first = conditions[0];
    if is_calls(program, first) {
        return Some(first);
    }
    None
}

// The calls condition among call checks of which one at most has one.
fn checked_calls(checks: &[Check]) -> Option<u64>
    requires { length (flat_map checked_at_call checks.now) ≤ 1 }
    ensures { MatchOption result (flat_map checked_at_call checks.now ≡ []) (λ c. flat_map checked_at_call checks.now ≡ c ∷ []) }
{
    for check in checks {
        match check {
            Check::Calls(condition) => return Some(*condition),
            Check::Note(_) | Check::Mark(_) => {}
        }
    }
    None
}

/// The calls condition that a call of a predicate looks at, if there is one.
pub(crate) fn calls_condition(program: &Program, reading: Reading, pred: u64) -> Option<u64>
    requires ranged { IsProgram program.now }
    requires there { is_pred_of program.now pred ≡ true }
    ensures { MatchOption result ((looks_by program.now reading pred).calls ≡ []) (λ c. (looks_by program.now reading pred).calls ≡ c ∷ []) }
{
    program_ranges_law();
    match reading {
        Reading::All | Reading::AllTold => first_calls(program, conditions_of(program, pred)),
        Reading::Kept | Reading::KeptTold => checked_calls(checks_of(program, pred)),
    }
}
