// The conditions that the call checks of a predicate name.
ghost use Rattle.std.specs.Prelude.{◌≡◌, ◌++◌, ◌∷◌, [], ◌||◌, ℕ, nat_eq, flat_map, IfOk, OnOk};
ghost use Rattle.std.specs.List.{list_any};
ghost use Rattle.run_report.specs.Expansion.{conds_of, is_kept_in};
ghost use Rattle.run_report.specs.KeptLaws.{ExpandsKept};

use indexmap::IndexSet;
use prog_data::{Check, Pred, program_ranges_law};
use sqlite_items::Items;
use std::alloc::Global;
use term_core::NoMemory;

fn push_one(condition: u64, conditions: &mut Items<u64>) -> Result<(), NoMemory>
    ensures { OnOk result (conditions.new ≡ conditions.old ++ condition ∷ []) }
{
    conditions.push(condition)?;
    Ok(())
}

fn push_all(alloc: Global, others: &[u64], conditions: &mut Items<u64>) -> Result<(), NoMemory>
    ensures { OnOk result (conditions.new ≡ conditions.old ++ others.now) }
{
    let more = Items::from_slice(alloc, others)?;
    conditions.append(more)?;
    Ok(())
}

// Appends the conditions of a check.
fn push_conditions(
    alloc: Global,
    check: &Check,
    conditions: &mut Items<u64>,
) -> Result<(), NoMemory>
    ensures { OnOk result (conditions.new ≡ conditions.old ++ conds_of check.now) }
{
    match check {
        Check::Calls(condition) => push_one(*condition, conditions),
        Check::Note(condition) => push_one(*condition, conditions),
        Check::Mark(others) => push_all(alloc, others.as_slice(), conditions),
    }
}

// The conditions of all call checks.
fn checked_conditions(alloc: Global, pred: &Pred) -> Result<Items<u64>, NoMemory>
    ensures { IfOk result (λ cs. cs ≡ flat_map conds_of pred.now.call_checks) }
{
    let mut conditions = Items::new(alloc);
    for check in pred.call_checks.as_slice() {
        push_conditions(alloc, check, &mut conditions)?;
    }
    Ok(conditions)
}

fn add(set: &mut IndexSet<u64>, number: u64) -> Result<(), NoMemory>
    ensures { OnOk result ((n : ℕ) → list_any (nat_eq n) set.new.keys ≡ (nat_eq n number || list_any (nat_eq n) set.old.keys)) }
{
    set.insert(number)?;
    Ok(())
}

// Numbers as a set.
fn set_of(alloc: Global, numbers: &[u64]) -> Result<IndexSet<u64>, NoMemory>
    ensures { IfOk result (λ set. (n : ℕ) → list_any (nat_eq n) set.keys ≡ list_any (nat_eq n) numbers.now) }
{
    let mut set = IndexSet::new(alloc);
    for number in numbers {
        add(&mut set, *number)?;
    }
    Ok(set)
}

/// The kept conditions of a predicate, as a set.
pub(crate) fn kept_conditions(alloc: Global, pred: &Pred) -> Result<IndexSet<u64>, NoMemory>
    ensures { IfOk result (λ set. (c : ℕ) → list_any (nat_eq c) set.keys ≡ is_kept_in pred.now c) }
{
    let conditions = checked_conditions(alloc, pred)?;
    set_of(alloc, conditions.as_slice())
}

/// Of an instrumented program the expansion has exactly the conditions whose status is not checked.
pub fn kept_conditions_law()
    ensures { ExpandsKept }
{
    program_ranges_law();
}
