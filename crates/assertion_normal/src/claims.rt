// The claims and entries of a predicate, and all that its assertions give.
ghost use Rattle.std.specs.Prelude.{◌≡◌, ◌∷◌, [], ◌++◌, ◌+◌, ◌-◌, length, IfOk, OnOk};
ghost use Rattle.assertion_normal.specs.Conditions.{numbers_from, own_kinds, shared_numbers, claim_at, claims_by, entries_by, normal_of};

use crate::Normal;
use crate::conditions::{About, add_own, adds_disjunct, calls_conditions, number_behind};
use crate::settling::Settled;
use prog_data::{Claim, Entry, Keyword, Place};
use sqlite_items::Items;
use std::alloc::Global;
use term_core::{NoMemory, both, one};

// The numbers from one on, before another.
fn numbers_between(alloc: Global, from: u64, to: u64) -> Result<Items<u64>, NoMemory>
    ensures { IfOk result (λ numbers. numbers ≡ numbers_from from (to - from)) }
{
    let mut numbers = Items::new(alloc);
    for number in from..to {
        numbers.push(number)?;
    }
    Ok(numbers)
}

// The number of the calls condition, for an assertion that adds a disjunct to it.
fn shared_numbers(alloc: Global, first: u64, adds: bool) -> Result<Items<u64>, NoMemory>
    ensures { IfOk result (λ numbers. numbers ≡ shared_numbers first adds) }
{
    if adds {
        return one(alloc, first);
    }
    Ok(Items::new(alloc))
}

// An assertion as it is reported, whose own conditions have the numbers from one on, before another.
fn made_claim(
    alloc: Global,
    about: About,
    line: u64,
    keyword: Keyword,
    from: u64,
    to: u64,
) -> Result<Claim, NoMemory>
    ensures { IfOk result (λ claim. claim ≡ claim_at about.file about.pred about.first from (to - from) line keyword) }
{
    let shared = shared_numbers(alloc, about.first, adds_disjunct(Some(keyword)))?;
    let own = numbers_between(alloc, from, to)?;
    let conds = both(shared, own)?;
    Ok(Claim {
        place: Place {
            file: about.file,
            line,
        },
        keyword,
        pred: about.pred,
        conds,
    })
}

// Adds the claim of an assertion that is no entry.
fn add_claim(
    alloc: Global,
    about: About,
    claims: &mut Items<Claim>,
    settled: &Settled,
    from: u64,
    to: u64,
) -> Result<(), NoMemory>
    ensures { OnOk result (claims.new ≡ claims.old ++ claims_by about.file about.pred about.first from (to - from) settled.now.line settled.now.keyword) }
{
    match settled.keyword {
        None => Ok(()),
        Some(word) => {
            let claim = made_claim(alloc, about, settled.line, word, from, to)?;
            claims.push(claim)?;
            Ok(())
        }
    }
}

// Adds an entry.
fn add_entry(
    alloc: Global,
    about: About,
    entries: &mut Items<Entry>,
    settled: &Settled,
) -> Result<(), NoMemory>
    ensures { OnOk result (entries.new ≡ entries.old ++ entries_by about.pred settled.now.pre settled.now.keyword) }
{
    match settled.keyword {
        None => {
            let pre = Items::from_slice(alloc, settled.pre.as_slice())?;
            entries.push(Entry {
                pred: about.pred,
                pre,
            })?;
            Ok(())
        }
        Some(_) => Ok(()),
    }
}

/// What assertions give that are looked up.
pub(crate) fn normal_of(alloc: Global, about: About, list: &[Settled]) -> Result<Normal, NoMemory>
    ensures { IfOk result (λ normal. normal ≡ normal_of about.file about.pred about.first list.now) }
{
    let mut conds = calls_conditions(alloc, about, list)?;
    let mut claims = Items::new(alloc);
    let mut entries = Items::new(alloc);
    for settled in list {
        let from = number_behind(about.first, conds.len())?;
        add_own(alloc, about, &mut conds, settled)?;
        let to = number_behind(about.first, conds.len())?;
        add_claim(alloc, about, &mut claims, settled, from, to)?;
        add_entry(alloc, about, &mut entries, settled)?;
    }
    Ok(Normal {
        conds,
        claims,
        entries,
    })
}
