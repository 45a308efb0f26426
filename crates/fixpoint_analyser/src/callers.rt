// Who calls whom.
ghost use Rattle.std.specs.Prelude.{◌≡◌, ℕ, ◌==◌, ◌<◌, [], length, slice_index_or, IfOk, OnOk};
ghost use Rattle.std.specs.List.{list_any};
ghost use Rattle.fixpoint_analyser.specs.Ascent.{calls, callers_of};
ghost use Rattle.fixpoint_analyser.specs.Callers.{ends_in, HasAdded, HasCallers};

use prog_data::{Clause, Goal, Pred, Program};
use sqlite_items::Items;
use std::alloc::Global;
use term_core::NoMemory;

// An empty list for each of so many predicates.
fn empty_lists(alloc: Global, count: usize) -> Result<Vec<Items<u64>>, NoMemory>
    ensures count { IfOk result (λ lists. length lists.items ≡ count) }
    ensures empty { IfOk result (λ lists. (q : ℕ) → slice_index_or lists.items q [] ≡ []) }
{
    let mut lists = Vec::new(alloc);
    for _list in 0..count {
        lists.push(Items::new(alloc))?;
    }
    Ok(lists)
}

// Whether a number is the last of a list.
fn ends_in(numbers: &[u64], number: u64) -> bool
    ensures { result ≡ ends_in numbers.now number }
{
    let count = numbers.len();
    if count == 0 {
        return false;
    }
    numbers[count - 1] == number
}

// Lets the list of a predicate, if there is one with this number, end in a number.
fn add_caller(lists: &mut [Items<u64>], called: u64, pred: u64) -> Result<(), NoMemory>
    ensures { OnOk result (HasAdded lists.old lists.new pred (λ q. q == called)) }
{
    let place = called as usize;
    if place >= lists.len() {
        return Ok(());
    }
    if ends_in(lists[place].as_slice(), pred) {
        return Ok(());
    }
    lists[place].push(pred)?;
    Ok(())
}

// Adds a predicate to the callers of each that a goal calls.
fn add_calls(lists: &mut [Items<u64>], goal: &Goal, pred: u64) -> Result<(), NoMemory>
    ensures { OnOk result (HasAdded lists.old lists.new pred (λ q. calls q goal.now)) }
{
    match goal {
        Goal::Call(called, _) => {
            add_caller(lists, *called, pred)?;
            Ok(())
        }
        Goal::Conj(first, second) => {
            add_calls(lists, first.get(), pred)?;
            add_calls(lists, second.get(), pred)?;
            Ok(())
        }
        Goal::Disj(first, second) => {
            add_calls(lists, first.get(), pred)?;
            add_calls(lists, second.get(), pred)?;
            Ok(())
        }
        Goal::IfElse(condition, first, second) => {
            add_calls(lists, condition.get(), pred)?;
            add_calls(lists, first.get(), pred)?;
            add_calls(lists, second.get(), pred)?;
            Ok(())
        }
        Goal::Not(inner) => {
            add_calls(lists, inner.get(), pred)?;
            Ok(())
        }
        Goal::True => Ok(()),
        Goal::Fail => Ok(()),
        Goal::Cut => Ok(()),
        Goal::Builtin(_, _) => Ok(()),
        Goal::Exit => Ok(()),
    }
}

// Adds a predicate to the callers of each that the body of one of its clauses calls.
fn add_clauses(lists: &mut [Items<u64>], clauses: &[Clause], pred: u64) -> Result<(), NoMemory>
    ensures { OnOk result (HasAdded lists.old lists.new pred (λ q. list_any (λ clause. calls q clause.body) clauses.now)) }
{
    for clause in clauses {
        add_calls(lists, &clause.body, pred)?;
    }
    Ok(())
}

// Adds each predicate to the callers of each that it calls.
fn add_all(lists: &mut [Items<u64>], preds: &[Pred]) -> Result<(), NoMemory>
    requires { HasCallers preds.now 0 lists.old }
    ensures { OnOk result (HasCallers preds.now (length preds.now) lists.new) }
{
    for (pred, found) in preds.iter().enumerate() {
        add_clauses(lists, found.clauses.as_slice(), pred as u64)?;
    }
    Ok(())
}

/// For each predicate those that have a clause whose body calls it, in order.
///
/// # Errors
///
/// Only for want of memory.
pub(crate) fn callers_of(alloc: Global, program: &Program) -> Result<Items<Items<u64>>, NoMemory>
    ensures count { IfOk result (λ lists. length lists ≡ length program.now.preds) }
    ensures callers { IfOk result (λ lists. (q : ℕ) → q < length program.now.preds → slice_index_or lists q [] ≡ callers_of program.now q) }
{
    let preds = program.preds.as_slice();
    let mut lists = empty_lists(alloc, preds.len())?;
    add_all(&mut lists, preds)?;
    Ok(Items::from_vec(lists))
}
