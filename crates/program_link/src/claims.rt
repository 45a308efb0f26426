// The assertions that are reported, by file and then by sentence.
ghost use Rattle.std.specs.Prelude.{◌≡◌, ◌++◌, is_some, slice_get, slice_index_or, IfOk, OnOk};
ghost use Rattle.assertion_normal.specs.Settling.{counts, keyword_of};
ghost use Rattle.program_link.specs.Programs.{is_reported};
ghost use Rattle.program_link.specs.HeldPrograms.{if_there, claims_at, claim_counted, counted_at, reported_at, claims_counted, no_counts, claims_held};

use crate::drafts::place_of;
use crate::normals::sum;
use assertion_normal::Normal;
use assertion_read::{Assertion, Mark, Word};
use body_code::Indicator;
use prog_data::Claim;
use sqlite_items::Items;
use std::alloc::Global;
use term_core::NoMemory;
use unit_scopes::{Index, Source};

// Whether an assertion of this status has an effect.
fn counts(mark: Mark) -> bool
    ensures { result ≡ counts mark }
{
    match mark {
        Mark::Check | Mark::Trust => true,
        Mark::True | Mark::Checked | Mark::False => false,
    }
}

// Whether an assertion of this keyword is reported: an entry is not.
fn has_keyword(word: Word) -> bool
    ensures { result ≡ is_some (keyword_of word) }
{
    match word {
        Word::Pred | Word::Calls | Word::Success | Word::Comp => true,
        Word::Entry => false,
    }
}

// Whether an assertion is reported: it has an effect, and is no entry.
fn is_reported(assertion: &Assertion) -> bool
    ensures { result ≡ is_reported assertion.now }
{
    counts(assertion.mark) && has_keyword(assertion.keyword)
}

// The predicate that a reported assertion is about, by its place.
fn reported_at(index: &Index, assertion: &Assertion) -> Option<u64>
    ensures { result ≡ reported_at index.now.defined.keys assertion.now }
{
    if !is_reported(assertion) {
        return None;
    }
    let indicator = Indicator {
        name: assertion.name,
        arity: assertion.arity,
    };
    place_of(index, indicator)
}

// A count of no assertion for each predicate.
fn no_counts(alloc: Global, defined: &[Indicator]) -> Result<Items<u64>, NoMemory>
    ensures { IfOk result (λ counts. counts ≡ no_counts defined.now) }
{
    let mut counts = Items::new(alloc);
    for _pred in defined {
        counts.push(0)?;
    }
    Ok(counts)
}

// The count in a place, 0 where there is none.
fn count_at(counts: &[u64], place: u64) -> u64
    ensures { result ≡ slice_index_or counts.now place 0 }
{
    match counts.get(place as usize) {
        None => 0,
        Some(count) => *count,
    }
}

// Counts one more in a place, if it is there.
fn count(counts: &mut Items<u64>, at: Option<u64>) -> Result<(), NoMemory>
    ensures { OnOk result (counts.new ≡ counted_at counts.old at) }
{
    match at {
        None => Ok(()),
        Some(place) => {
            let next = sum(count_at(counts.as_slice(), place), 1)?;
            let place = place as usize;
            if place >= counts.len() {
                return Ok(());
            }
            counts.set(place, next);
            Ok(())
        }
    }
}

// A copy of a claim.
fn copied_claim(alloc: Global, claim: &Claim) -> Result<Claim, NoMemory>
    ensures { IfOk result (λ copy. copy ≡ claim.now) }
{
    let conds = Items::from_slice(alloc, claim.conds.as_slice())?;
    Ok(Claim {
        place: claim.place,
        keyword: claim.keyword,
        pred: claim.pred,
        conds,
    })
}

// Adds the claim of a number, if it is there.
fn add_claim_at(
    alloc: Global,
    claims: &mut Items<Claim>,
    of_pred: &[Claim],
    number: u64,
) -> Result<(), NoMemory>
    ensures { OnOk result (claims.new ≡ claims.old ++ if_there (slice_get of_pred.now number)) }
{
    match of_pred.get(number as usize) {
        None => Ok(()),
        Some(claim) => {
            let copy = copied_claim(alloc, claim)?;
            claims.push(copy)?;
            Ok(())
        }
    }
}

// The claims about the predicate of a number.
fn claims_at(normals: &[Normal], number: u64) -> &[Claim]
    ensures { result.now ≡ claims_at normals.now number }
{
    match normals.get(number as usize) {
        None => &[],
        Some(normal) => normal.claims.as_slice(),
    }
}

// Adds the claim of an assertion about the predicate at a place, behind as many as were counted there.
fn add_claim(
    alloc: Global,
    claims: &mut Items<Claim>,
    normals: &[Normal],
    first: u64,
    counts: &[u64],
    at: Option<u64>,
) -> Result<(), NoMemory>
    ensures { OnOk result (claims.new ≡ claims.old ++ claim_counted normals.now first counts.now at) }
{
    match at {
        None => Ok(()),
        Some(place) => {
            let number = sum(place, first)?;
            let of_pred = claims_at(normals, number);
            add_claim_at(alloc, claims, of_pred, count_at(counts, place))
        }
    }
}

// Adds the claims of a unit, whose predicates are numbered on from a number.
fn add_claims(
    alloc: Global,
    claims: &mut Items<Claim>,
    normals: &[Normal],
    first: u64,
    source: &Source,
) -> Result<(), NoMemory>
    ensures { OnOk result (claims.new ≡ claims.old ++ claims_counted normals.now first source.now.index.defined.keys (no_counts source.now.index.defined.keys) source.now.parts.assertions) }
{
    let mut counts = no_counts(alloc, source.index.defined.as_slice())?;
    for assertion in source.parts.assertions.as_slice() {
        let place = reported_at(&source.index, assertion);
        add_claim(alloc, claims, normals, first, counts.as_slice(), place)?;
        count(&mut counts, place)?;
    }
    Ok(())
}

/// The claims of all units.
pub(crate) fn claims(
    alloc: Global,
    normals: &[Normal],
    sources: &[Source],
) -> Result<Items<Claim>, NoMemory>
    ensures { IfOk result (λ claims. claims ≡ claims_held normals.now 0 sources.now) }
{
    let mut claims = Items::new(alloc);
    let mut first = 0;
    for source in sources {
        add_claims(alloc, &mut claims, normals, first, source)?;
        first = sum(source.index.defined.len() as u64, first)?;
    }
    Ok(claims)
}
