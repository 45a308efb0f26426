// What is seen in a file, its types by their grammar names.
ghost use Rattle.std.specs.Prelude.{◌≡◌, ◌+◌, slice_index_or, IfOk};
ghost use Rattle.regtype_grammar.specs.TypeNames.{first_names, number_of, numbered};
ghost use Rattle.unit_scopes.specs.Held.{scope_held};

use crate::sources::Source;
use crate::visible::{preds_seen, types_seen};
use body_code::{Scope, Visible};
use prog_data::Seen;
use regtype_grammar::{SeenType, TypeModule};
use sqlite_items::Items;
use std::alloc::Global;
use term_core::NoMemory;

// Two numbers added up.
fn sum(first: u64, second: u64) -> Result<u64, NoMemory>
    ensures { IfOk result (λ sum. sum ≡ first + second) }
{
    match first.checked_add(second) {
        None => Err(NoMemory),
        Some(sum) => Ok(sum),
    }
}

/// The grammar name of each module's first type.
///
/// # Errors
/// Want of memory, or of numbers.
pub(crate) fn first_kinds(alloc: Global, modules: &[TypeModule]) -> Result<Items<u64>, NoMemory>
    ensures { IfOk result (λ firsts. firsts ≡ first_names modules.now) }
{
    let mut firsts = Items::new(alloc);
    let mut next = 10;
    for one in modules {
        firsts.push(next)?;
        next = sum(one.types.len() as u64, next)?;
    }
    Ok(firsts)
}

// The number in a place, 0 where there is none.
fn first_of(firsts: &[u64], at: u64) -> u64
    ensures { result ≡ slice_index_or firsts.now at 0 }
{
    match firsts.get(at as usize) {
        Some(first) => *first,
        None => 0,
    }
}

// The grammar name of a type that is seen.
fn kind_of(firsts: &[u64], seen: SeenType) -> Result<u64, NoMemory>
    ensures { IfOk result (λ kind. kind ≡ number_of firsts.now seen) }
{
    sum(first_of(firsts, seen.module), seen.position)
}

/// The types that are seen, by their grammar names.
///
/// # Errors
/// Want of memory, or of numbers.
pub(crate) fn kinds(
    alloc: Global,
    firsts: &[u64],
    visible: &[SeenType],
) -> Result<Items<Seen>, NoMemory>
    ensures { IfOk result (λ seen. seen ≡ numbered firsts.now visible.now) }
{
    let mut seen = Items::new(alloc);
    for one in visible {
        seen.push(Seen {
            name: one.name,
            kind: kind_of(firsts, *one)?,
        })?;
    }
    Ok(seen)
}

/// What is seen in a unit among others.
///
/// # Errors
/// Want of memory, or of numbers.
pub(crate) fn scope_of(
    alloc: Global,
    firsts: &[u64],
    sources: &[Source],
    source: &Source,
) -> Result<Scope, NoMemory>
    ensures { IfOk result (λ scope. scope ≡ scope_held firsts.now sources.now source.now) }
{
    let preds = preds_seen(alloc, source, sources)?;
    let visible = types_seen(alloc, source, sources)?;
    let types = kinds(alloc, firsts, visible.as_slice())?;
    let scope = Scope::new(alloc, Visible { preds, types })?;
    Ok(scope)
}
