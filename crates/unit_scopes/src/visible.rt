// What is seen in a file.
ghost use Rattle.std.specs.Prelude.{◌≡◌, ◌++◌, ◌∷◌, [], not, ◌&&◌, nat_eq, filter, if◌then◌else◌, IfOk, OnOk};
ghost use Rattle.std.specs.List.{list_any};
ghost use Rattle.unit_scopes.specs.Indicators.{is_among};
ghost use Rattle.unit_scopes.specs.Imports.{indicator_named, type_indicator};
ghost use Rattle.unit_scopes.specs.Sources.{index_gets, preds_given, types_given};

use crate::indexes::Index;
use crate::sources::Source;
use body_code::{Indicator, Named};
use regtype_grammar::SeenType;
use sqlite_items::Items;
use std::alloc::Global;
use term_core::NoMemory;

// Adds a predicate, where it is wanted.
fn add_pred_where(preds: &mut Items<Named>, wanted: bool, named: Named) -> Result<(), NoMemory>
    ensures { OnOk result (preds.new ≡ preds.old ++ (if wanted then named ∷ [] else [])) }
{
    if !wanted {
        return Ok(());
    }
    preds.push(named)?;
    Ok(())
}

// Whether a unit gets a predicate of another one, which is at this place, and has none of its own of that name.
fn is_given(index: &Index, at: u64, other: &Index, indicator: Indicator) -> bool
    ensures { result ≡ (index_gets index.now at other.now indicator && not (is_among indicator index.now.defined.keys)) }
{
    index.gets(at, other, indicator) && !index.defines(indicator)
}

// Adds the predicates that a unit gets from another one.
fn add_given(
    preds: &mut Items<Named>,
    index: &Index,
    at: u64,
    other: &Source,
) -> Result<(), NoMemory>
    ensures { OnOk result (preds.new ≡ preds.old ++ filter (λ m. index_gets index.now at other.now.index (indicator_named m) && not (is_among (indicator_named m) index.now.defined.keys)) other.now.preds) }
{
    for named in other.preds.as_slice() {
        let indicator = Indicator {
            name: named.name,
            arity: named.arity,
        };
        let given = is_given(index, at, &other.index, indicator);
        add_pred_where(preds, given, *named)?;
    }
    Ok(())
}

/// The predicates that are seen in a unit: its own, and those that others give it.
pub(crate) fn preds_seen(
    alloc: Global,
    source: &Source,
    sources: &[Source],
) -> Result<Items<Named>, NoMemory>
    ensures { IfOk result (λ preds. preds ≡ source.now.preds ++ preds_given source.now.index 0 sources.now) }
{
    let mut preds = Items::from_slice(alloc, source.preds.as_slice())?;
    for (at, other) in sources.iter().enumerate() {
        add_given(&mut preds, &source.index, at as u64, other)?;
    }
    Ok(preds)
}

// Adds a type, where it is wanted.
fn add_type_where(types: &mut Items<SeenType>, wanted: bool, seen: SeenType) -> Result<(), NoMemory>
    ensures { OnOk result (types.new ≡ types.old ++ (if wanted then seen ∷ [] else [])) }
{
    if !wanted {
        return Ok(());
    }
    types.push(seen)?;
    Ok(())
}

// Whether a unit gets a type of another one, which is at this place, and declares none of that name.
fn is_type_given(source: &Source, at: u64, other: &Index, name: u64) -> bool
    ensures { result ≡ (index_gets source.now.index at other.now (type_indicator name) && not (list_any (nat_eq name) source.now.declared.keys)) }
{
    let indicator = Indicator { name, arity: 1 };
    source.index.gets(at, other, indicator) && !source.declared.contains(&name)
}

// Adds the types that a unit gets from another one.
fn add_types_given(
    types: &mut Items<SeenType>,
    source: &Source,
    at: u64,
    other: &Source,
) -> Result<(), NoMemory>
    ensures { OnOk result (types.new ≡ types.old ++ filter (λ t. index_gets source.now.index at other.now.index (type_indicator t.name) && not (list_any (nat_eq t.name) source.now.declared.keys)) other.now.types) }
{
    for seen in other.types.as_slice() {
        let given = is_type_given(source, at, &other.index, seen.name);
        add_type_where(types, given, *seen)?;
    }
    Ok(())
}

/// The types that are seen in a unit: its own, and those that others give it.
pub(crate) fn types_seen(
    alloc: Global,
    source: &Source,
    sources: &[Source],
) -> Result<Items<SeenType>, NoMemory>
    ensures { IfOk result (λ types. types ≡ source.now.types ++ types_given source.now 0 sources.now) }
{
    let mut types = Items::from_slice(alloc, source.types.as_slice())?;
    for (at, other) in sources.iter().enumerate() {
        add_types_given(&mut types, source, at as u64, other)?;
    }
    Ok(types)
}
