// The conditions of a predicate.
ghost use Rattle.std.specs.Prelude.{◌≡◌, ◌∷◌, [], ◌++◌, ◌+◌, map, length, IfOk, OnOk};
ghost use Rattle.assertion_normal.specs.Conditions.{adds_disjunct, disjuncts, success_kinds, comp_kinds, own_kinds, condition, numbered, first_line, calls_conditions};

use crate::settling::Settled;
use prog_data::{CompProp, Cond, CondKind, Keyword, Place, Prop};
use sqlite_items::Items;
use std::alloc::Global;
use term_core::{NoMemory, one};

/// The file and the predicate of assertions, and the number of their first condition.
#[derive(Clone, Copy, Drop)]
pub(crate) struct About {
    pub(crate) file: u64,
    pub(crate) pred: u64,
    pub(crate) first: u64,
}

/// Whether an assertion of this keyword adds its precondition to the calls condition.
pub(crate) fn adds_disjunct(keyword: Option<Keyword>) -> bool
    ensures { result ≡ adds_disjunct keyword }
{
    match keyword {
        None => false,
        Some(word) => match word {
            Keyword::Pred | Keyword::Calls => true,
            Keyword::Success | Keyword::Comp => false,
        },
    }
}

/// The number behind so many conditions; one that `u64` does not have is answered as want of memory.
pub(crate) fn number_behind(first: u64, count: usize) -> Result<u64, NoMemory>
    ensures { IfOk result (λ number. number ≡ count + first) }
{
    match first.checked_add(count as u64) {
        None => Err(NoMemory),
        Some(number) => Ok(number),
    }
}

fn condition(about: About, number: u64, line: u64, kind: CondKind) -> Cond
    ensures { result ≡ condition about.file about.pred number line kind }
{
    Cond {
        id: number,
        pred: about.pred,
        place: Place {
            file: about.file,
            line,
        },
        kind,
    }
}

// Adds a condition with the next number.
fn add_condition(
    about: About,
    conds: &mut Items<Cond>,
    line: u64,
    kind: CondKind,
) -> Result<(), NoMemory>
    ensures { OnOk result (conds.new ≡ conds.old ++ condition about.file about.pred (length conds.old + about.first) line kind ∷ []) }
{
    let number = number_behind(about.first, conds.len())?;
    conds.push(condition(about, number, line, kind))?;
    Ok(())
}

// Adds the success condition, if there is a postcondition.
fn add_success(
    alloc: Global,
    about: About,
    conds: &mut Items<Cond>,
    settled: &Settled,
) -> Result<(), NoMemory>
    ensures { OnOk result (conds.new ≡ conds.old ++ numbered about.file about.pred (length conds.old + about.first) settled.now.line (success_kinds settled.now.pre settled.now.post)) }
{
    match &settled.post {
        None => Ok(()),
        Some(post) => {
            let pre = Items::from_slice(alloc, settled.pre.as_slice())?;
            let post = Items::from_slice(alloc, post.as_slice())?;
            add_condition(about, conds, settled.line, CondKind::Success(pre, post))?;
            Ok(())
        }
    }
}

// Adds the conditions on the computation.
fn add_comp(
    alloc: Global,
    about: About,
    conds: &mut Items<Cond>,
    line: u64,
    pre: &[Prop],
    comp: &[CompProp],
) -> Result<(), NoMemory>
    ensures { OnOk result (conds.new ≡ conds.old ++ numbered about.file about.pred (length conds.old + about.first) line (comp_kinds pre.now comp.now)) }
{
    for property in comp {
        let pre = Items::from_slice(alloc, pre)?;
        add_condition(about, conds, line, CondKind::Comp(pre, *property))?;
    }
    Ok(())
}

// Adds those of an assertion.
fn add_comp_of(
    alloc: Global,
    about: About,
    conds: &mut Items<Cond>,
    settled: &Settled,
) -> Result<(), NoMemory>
    ensures { OnOk result (conds.new ≡ conds.old ++ numbered about.file about.pred (length conds.old + about.first) settled.now.line (comp_kinds settled.now.pre settled.now.comp)) }
{
    add_comp(
        alloc,
        about,
        conds,
        settled.line,
        settled.pre.as_slice(),
        settled.comp.as_slice(),
    )?;
    Ok(())
}

// Adds both.
fn add_both(
    alloc: Global,
    about: About,
    conds: &mut Items<Cond>,
    assertion: &Settled,
) -> Result<(), NoMemory>
    ensures { OnOk result (conds.new ≡ conds.old ++ numbered about.file about.pred (length conds.old + about.first) assertion.now.line (success_kinds assertion.now.pre assertion.now.post ++ comp_kinds assertion.now.pre assertion.now.comp)) }
{
    add_success(alloc, about, conds, assertion)?;
    add_comp_of(alloc, about, conds, assertion)?;
    Ok(())
}

/// Adds the conditions that an assertion gives by itself.
pub(crate) fn add_own(
    alloc: Global,
    about: About,
    conds: &mut Items<Cond>,
    settled: &Settled,
) -> Result<(), NoMemory>
    ensures { OnOk result (conds.new ≡ conds.old ++ numbered about.file about.pred (length conds.old + about.first) settled.now.line (own_kinds settled.now)) }
{
    match settled.keyword {
        None => Ok(()),
        Some(word) => match word {
            Keyword::Calls => Ok(()),
            Keyword::Pred => {
                add_both(alloc, about, conds, settled)?;
                Ok(())
            }
            Keyword::Success => {
                add_success(alloc, about, conds, settled)?;
                Ok(())
            }
            Keyword::Comp => {
                add_comp_of(alloc, about, conds, settled)?;
                Ok(())
            }
        },
    }
}

// The line of the first assertion that adds a disjunct.
fn first_line(list: &[Settled]) -> Option<u64>
    ensures { result ≡ first_line (disjuncts list.now) }
{
    for settled in list {
        if adds_disjunct(settled.keyword) {
            return Some(settled.line);
        }
    }
    None
}

// Adds the precondition of an assertion that adds a disjunct.
fn add_disjunct(
    alloc: Global,
    found: &mut Items<Items<Prop>>,
    settled: &Settled,
) -> Result<(), NoMemory>
    ensures { OnOk result (found.new ≡ found.old ++ map (λ s. s.pre) (disjuncts (settled.now ∷ []))) }
{
    if !adds_disjunct(settled.keyword) {
        return Ok(());
    }
    let pre = Items::from_slice(alloc, settled.pre.as_slice())?;
    found.push(pre)?;
    Ok(())
}

// The preconditions of those that add one.
fn preconditions(alloc: Global, list: &[Settled]) -> Result<Items<Items<Prop>>, NoMemory>
    ensures { IfOk result (λ found. found ≡ map (λ s. s.pre) (disjuncts list.now)) }
{
    let mut found = Items::new(alloc);
    for settled in list {
        add_disjunct(alloc, &mut found, settled)?;
    }
    Ok(found)
}

/// The calls condition, if there is one.
pub(crate) fn calls_conditions(
    alloc: Global,
    about: About,
    list: &[Settled],
) -> Result<Items<Cond>, NoMemory>
    ensures { IfOk result (λ conds. conds ≡ calls_conditions about.file about.pred about.first (disjuncts list.now)) }
{
    match first_line(list) {
        None => Ok(Items::new(alloc)),
        Some(line) => {
            let kind = CondKind::Calls(preconditions(alloc, list)?);
            let conds = one(alloc, condition(about, about.first, line, kind))?;
            Ok(conds)
        }
    }
}
