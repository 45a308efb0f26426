// Predicates before they are linked.
ghost use Rattle.std.specs.Prelude.{◌≡◌, ◌++◌, map, position, slice_get, IfOk, OnOk};
ghost use Rattle.unit_scopes.specs.Indicators.{same_indicator};
ghost use Rattle.program_link.specs.HeldPrograms.{pred_at, unit_preds_from, group_of, if_there, items_at, assertions_held};

use assertion_read::{Assertion, Written};
use body_code::Indicator;
use ciao_reader::Sentence;
use sqlite_items::Items;
use std::alloc::Global;
use term_core::NoMemory;
use unit_scopes::{Index, Source};

/// A predicate of the unit at a place of the load order, with its clauses and the assertions about it, both in the order of their sentences.
#[derive(Drop)]
pub(crate) struct Draft {
    pub(crate) unit: u64,
    pub(crate) indicator: Indicator,
    pub(crate) clauses: Items<Sentence>,
    pub(crate) assertions: Items<Assertion>,
}

/// A predicate of the unit at a place of the load order.
#[derive(Clone, Copy, Drop)]
pub(crate) struct UnitPred {
    pub(crate) unit: u64,
    pub(crate) indicator: Indicator,
}

// Adds the predicates of the unit at a place.
fn add_unit_preds(
    preds: &mut Items<UnitPred>,
    at: u64,
    defined: &[Indicator],
) -> Result<(), NoMemory>
    ensures { OnOk result (preds.new ≡ preds.old ++ map (pred_at at) defined.now) }
{
    for indicator in defined {
        preds.push(UnitPred {
            unit: at,
            indicator: *indicator,
        })?;
    }
    Ok(())
}

/// The predicates of all units, in the order of their numbers.
pub(crate) fn unit_preds(alloc: Global, sources: &[Source]) -> Result<Items<UnitPred>, NoMemory>
    ensures { IfOk result (λ preds. preds ≡ unit_preds_from 0 sources.now) }
{
    let mut preds = Items::new(alloc);
    for (at, source) in sources.iter().enumerate() {
        add_unit_preds(&mut preds, at as u64, source.index.defined.as_slice())?;
    }
    Ok(preds)
}

/// The place of a predicate among those that a unit has clauses for, if it is there.
pub(crate) fn place_of(index: &Index, indicator: Indicator) -> Option<u64>
    ensures { result ≡ position (same_indicator indicator) index.now.defined.keys }
{
    match index.defined.get_index_of(&indicator) {
        Some(at) => Some(at as u64),
        None => None,
    }
}

/// The group of a number, none of no number.
pub(crate) fn group_of(groups: &[Items<u64>], at: Option<u64>) -> &[u64]
    ensures { result.now ≡ group_of groups.now at }
{
    match at {
        None => &[],
        Some(at) => match groups.get(at as usize) {
            None => &[],
            Some(group) => group.as_slice(),
        },
    }
}

// A copy of a postcondition, if there is one.
fn copied_post(
    alloc: Global,
    post: &Option<Items<Written>>,
) -> Result<Option<Items<Written>>, NoMemory>
    ensures { IfOk result (λ copy. copy ≡ post.now) }
{
    match post {
        None => Ok(None),
        Some(list) => {
            let copy = Items::from_slice(alloc, list.as_slice())?;
            Ok(Some(copy))
        }
    }
}

// A copy of an assertion.
fn copied_assertion(alloc: Global, assertion: &Assertion) -> Result<Assertion, NoMemory>
    ensures { IfOk result (λ copy. copy ≡ assertion.now) }
{
    let pre = Items::from_slice(alloc, assertion.pre.as_slice())?;
    let post = copied_post(alloc, &assertion.post)?;
    let comp = Items::from_slice(alloc, assertion.comp.as_slice())?;
    Ok(Assertion {
        keyword: assertion.keyword,
        mark: assertion.mark,
        name: assertion.name,
        arity: assertion.arity,
        pre,
        post,
        comp,
        line: assertion.line,
    })
}

// Adds the assertion at a place, if it is there.
fn add_assertion_at(
    alloc: Global,
    list: &mut Items<Assertion>,
    assertions: &[Assertion],
    place: u64,
) -> Result<(), NoMemory>
    ensures { OnOk result (list.new ≡ list.old ++ if_there (slice_get assertions.now place)) }
{
    match assertions.get(place as usize) {
        None => Ok(()),
        Some(assertion) => {
            let copy = copied_assertion(alloc, assertion)?;
            list.push(copy)?;
            Ok(())
        }
    }
}

// The assertions at some places.
fn assertions_at(
    alloc: Global,
    assertions: &[Assertion],
    places: &[u64],
) -> Result<Items<Assertion>, NoMemory>
    ensures { IfOk result (λ list. list ≡ items_at assertions.now places.now) }
{
    let mut list = Items::new(alloc);
    for place in places {
        add_assertion_at(alloc, &mut list, assertions, *place)?;
    }
    Ok(list)
}

// The assertions about a predicate of a unit.
fn assertions_in(
    alloc: Global,
    source: &Source,
    indicator: Indicator,
) -> Result<Items<Assertion>, NoMemory>
    ensures { IfOk result (λ list. list ≡ items_at source.now.parts.assertions (group_of source.now.assertions (position (same_indicator indicator) source.now.index.defined.keys))) }
{
    let place = place_of(&source.index, indicator);
    let places = group_of(source.assertions.as_slice(), place);
    let list = assertions_at(alloc, source.parts.assertions.as_slice(), places)?;
    Ok(list)
}

/// The assertions about a predicate.
pub(crate) fn assertions_of(
    alloc: Global,
    sources: &[Source],
    pred: UnitPred,
) -> Result<Items<Assertion>, NoMemory>
    ensures { IfOk result (λ list. list ≡ assertions_held pred.indicator (slice_get sources.now pred.unit)) }
{
    match sources.get(pred.unit as usize) {
        None => Ok(Items::new(alloc)),
        Some(source) => assertions_in(alloc, source, pred.indicator),
    }
}
