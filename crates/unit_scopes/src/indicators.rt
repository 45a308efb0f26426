// Predicates found by their names and numbers of arguments.
ghost use Rattle.std.specs.Prelude.{◌≡◌, ◌+◌, [], length, position, IfOk, OnOk};
ghost use Rattle.unit_scopes.specs.Indicators.{same_indicator, is_among, with_indicator, place_of};
ghost use Rattle.unit_scopes.specs.Numbering.{with_head, heads_behind, numbered};

use body_code::{Indicator, Named, clause_indicator};
use ciao_reader::Sentence;
use indexmap::IndexSet;
use sqlite_items::Items;
use std::alloc::Global;
use term_core::NoMemory;

/// Adds a predicate that is new; its place.
pub(crate) fn add(index: &mut IndexSet<Indicator>, indicator: Indicator) -> Result<u64, NoMemory>
    ensures place { IfOk result (λ at. at ≡ place_of indicator index.old.keys) }
    ensures keys { OnOk result (index.new.keys ≡ with_indicator index.old.keys indicator) }
{
    let (at, _) = index.insert_full(indicator)?;
    Ok(at as u64)
}

/// Whether a predicate is there.
pub(crate) fn is_among(index: &IndexSet<Indicator>, indicator: Indicator) -> bool
    ensures { result ≡ is_among indicator index.now.keys }
{
    index.contains(&indicator)
}

/// The place of a predicate, if it is there.
pub(crate) fn find(index: &IndexSet<Indicator>, indicator: Indicator) -> Option<u64>
    ensures { result ≡ position (same_indicator indicator) index.now.keys }
{
    match index.get_index_of(&indicator) {
        Some(at) => Some(at as u64),
        None => None,
    }
}

// Adds the predicate of a head that is new.
fn add_head(index: &mut IndexSet<Indicator>, head: Option<Indicator>) -> Result<(), NoMemory>
    ensures { OnOk result (index.new.keys ≡ with_head index.old.keys head) }
{
    match head {
        None => Ok(()),
        Some(indicator) => {
            add(index, indicator)?;
            Ok(())
        }
    }
}

/// The predicates of clauses, by their first clauses.
pub(crate) fn heads(alloc: Global, clauses: &[Sentence]) -> Result<IndexSet<Indicator>, NoMemory>
    ensures { IfOk result (λ index. index.keys ≡ heads_behind [] clauses.now) }
{
    let mut index = IndexSet::new(alloc);
    for clause in clauses {
        add_head(&mut index, clause_indicator(&clause.term))?;
    }
    Ok(index)
}

// The next number.
fn following(number: u64) -> Result<u64, NoMemory>
    ensures { IfOk result (λ next. next ≡ number + 1) }
{
    match number.checked_add(1) {
        None => Err(NoMemory),
        Some(next) => Ok(next),
    }
}

/// Predicates numbered on from a number, and the number behind them.
///
/// # Errors
/// Want of memory, or of numbers.
pub(crate) fn numbered(
    alloc: Global,
    first: u64,
    indicators: &[Indicator],
) -> Result<(Items<Named>, u64), NoMemory>
    ensures named { IfOk result (λ r. r.0 ≡ numbered first indicators.now) }
    ensures next { IfOk result (λ r. r.1 ≡ length indicators.now + first) }
{
    let mut named = Items::new(alloc);
    let mut next = first;
    for indicator in indicators {
        named.push(Named {
            name: indicator.name,
            arity: indicator.arity,
            pred: next,
        })?;
        next = following(next)?;
    }
    Ok((named, next))
}
