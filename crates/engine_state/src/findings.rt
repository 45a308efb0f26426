// Tests of conditions, one after the other.
ghost use Rattle.std.specs.Prelude.{◌≡◌, ◌<◌, ◌^◌, ℕ, Bool, IfOk};
ghost use Rattle.machine_model.specs.Step.{finding};
ghost use Rattle.engine_state.specs.Tested.{found};
ghost use Rattle.engine_state.specs.Findings.{IsAdded, HasAdded};

use prog_data::Ending;
use term_core::NoMemory;

/// How many tests there were, and the ending that they gave, where they ended the run.
#[derive(Clone, Copy, Drop)]
pub struct Counted {
    pub tests: u64,
    pub ended: Option<Ending>,
}

// Takes note of one test after so many: counts it, and tells a broken condition or gives the ending that it makes.
fn add_finding(
    stops: bool,
    counts: u64,
    condition: u64,
    holds: bool,
    told: &mut Vec<u64>,
    tests: u64,
) -> Result<Counted, NoMemory>
    ensures { IfOk result (λ r. IsAdded told.old.items tests (found stops counts condition (finding holds)) told.new.items r.tests r.ended) }
{
    let tests = tests.saturating_add(counts);
    if holds {
        return Ok(Counted { tests, ended: None });
    }
    if stops {
        let ended = Some(Ending::Violated(condition));
        return Ok(Counted { tests, ended });
    }
    told.push(condition)?;
    Ok(Counted { tests, ended: None })
}

/// Tests conditions in order, each of which counts so much. Those that are broken are told; or the first of them ends the run, and no more is tested.
///
/// # Errors
///
/// Only for want of memory.
pub fn test_all<F: Fn(u64) -> bool>(
    holds: F,
    conditions: &[u64],
    stops: bool,
    counts: u64,
    told: &mut Vec<u64>,
) -> Result<Counted, NoMemory>
    requires { F.IsAlwaysCallable holds }
    ensures { (test : ℕ → Bool) → ((c : ℕ) (b : Bool) → c < 2 ^ 64 → F.post holds c b → b ≡ test c) → IfOk result (λ r. HasAdded stops counts (λ c. finding (test c)) conditions.now told.old.items told.new.items r.tests r.ended) }
{
    let mut tests = 0;
    for condition in conditions {
        let is_held = holds(*condition);
        let one = add_finding(stops, counts, *condition, is_held, told, tests)?;
        tests = one.tests;
        match one.ended {
            None => {}
            Some(ending) => {
                let ended = Some(ending);
                return Ok(Counted { tests, ended });
            }
        }
    }
    Ok(Counted { tests, ended: None })
}
