// Places of clauses and of assertions, by predicate.
ghost use Rattle.std.specs.Prelude.{◌≡◌, ℕ, [], length, slice_index_or, IfOk, OnOk};
ghost use Rattle.unit_scopes.specs.Groups.{HasPlace, AreGroups, clause_place, assertion_place};

use crate::indicators::find;
use assertion_read::Assertion;
use body_code::{Indicator, clause_indicator};
use ciao_reader::Sentence;
use indexmap::IndexSet;
use sqlite_items::Items;
use std::alloc::Global;
use term_core::NoMemory;

// So many empty groups.
fn empty_groups(alloc: Global, count: usize) -> Result<Vec<Items<u64>>, NoMemory>
    ensures count { IfOk result (λ groups. length groups.items ≡ count) }
    ensures empty { IfOk result (λ groups. (q : ℕ) → slice_index_or groups.items q [] ≡ []) }
{
    let mut groups = Vec::new(alloc);
    for _group in 0..count {
        groups.push(Items::new(alloc))?;
    }
    Ok(groups)
}

// Adds a place to a group, if it is there.
fn add_place(groups: &mut [Items<u64>], at: Option<u64>, place: u64) -> Result<(), NoMemory>
    ensures { OnOk result (HasPlace groups.old groups.new at place) }
{
    match at {
        None => Ok(()),
        Some(at) => {
            let at = at as usize;
            if at >= groups.len() {
                return Ok(());
            }
            groups[at].push(place)?;
            Ok(())
        }
    }
}

// Where the predicate of a clause is.
fn clause_place(defined: &IndexSet<Indicator>, clause: &Sentence) -> Option<u64>
    ensures { result ≡ clause_place defined.now.keys clause.now }
{
    match clause_indicator(&clause.term) {
        None => None,
        Some(indicator) => find(defined, indicator),
    }
}

/// The places of the clauses of each predicate.
pub(crate) fn clause_groups(
    alloc: Global,
    defined: &IndexSet<Indicator>,
    clauses: &[Sentence],
) -> Result<Vec<Items<u64>>, NoMemory>
    ensures { IfOk result (λ groups. AreGroups (length defined.now.keys) (clause_place defined.now.keys) clauses.now groups.items) }
{
    let mut groups = empty_groups(alloc, defined.len())?;
    for (place, clause) in clauses.iter().enumerate() {
        add_place(&mut groups, clause_place(defined, clause), place as u64)?;
    }
    Ok(groups)
}

// Where the predicate of an assertion is.
fn assertion_place(defined: &IndexSet<Indicator>, assertion: &Assertion) -> Option<u64>
    ensures { result ≡ assertion_place defined.now.keys assertion.now }
{
    let indicator = Indicator {
        name: assertion.name,
        arity: assertion.arity,
    };
    find(defined, indicator)
}

/// The places of the assertions about each predicate.
pub(crate) fn assertion_groups(
    alloc: Global,
    defined: &IndexSet<Indicator>,
    assertions: &[Assertion],
) -> Result<Vec<Items<u64>>, NoMemory>
    ensures { IfOk result (λ groups. AreGroups (length defined.now.keys) (assertion_place defined.now.keys) assertions.now groups.items) }
{
    let mut groups = empty_groups(alloc, defined.len())?;
    for (place, assertion) in assertions.iter().enumerate() {
        add_place(
            &mut groups,
            assertion_place(defined, assertion),
            place as u64,
        )?;
    }
    Ok(groups)
}
