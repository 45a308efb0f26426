// The regular types of units.
ghost use Rattle.std.specs.Prelude.{◌≡◌, ◌∷◌, ◌++◌, [], map, slice_get, IfOk, OnOk};
ghost use Rattle.unit_scopes.specs.Sayings.{file_of};
ghost use Rattle.unit_scopes.specs.Imports.{type_modules};
ghost use Rattle.unit_scopes.specs.Sources.{AreSources};
ghost use Rattle.unit_scopes.specs.Held.{clause_at, clauses_at, group_at, places_held, clauses_held, type_held, module_held};

use crate::copies::add_copy;
use crate::discarding::{discard_modules, discard_sentences, discard_types};
use crate::indicators::find;
use crate::sayings::Declared;
use crate::sources::Source;
use crate::visible::types_seen;
use body_code::Indicator;
use ciao_modules::Unit;
use ciao_reader::Sentence;
use prog_data::Place;
use regtype_grammar::{RegType, TypeModule};
use sqlite_items::Items;
use std::alloc::Global;
use term_core::NoMemory;

// Adds the clause at a place, if it is there.
fn add_clause_at(
    alloc: Global,
    made: &mut Items<Sentence>,
    clauses: &[Sentence],
    place: u64,
) -> Result<(), NoMemory>
    ensures { OnOk result (made.new ≡ made.old ++ clause_at (slice_get clauses.now place)) }
{
    match clauses.get(place as usize) {
        None => Ok(()),
        Some(clause) => add_copy(alloc, made, clause),
    }
}

// Adds the clauses at some places.
fn add_clauses(
    alloc: Global,
    made: &mut Items<Sentence>,
    clauses: &[Sentence],
    places: &[u64],
) -> Result<(), NoMemory>
    ensures { OnOk result (made.new ≡ made.old ++ clauses_at clauses.now places.now) }
{
    for place in places {
        add_clause_at(alloc, made, clauses, *place)?;
    }
    Ok(())
}

/// The clauses at some places.
pub(crate) fn clauses_at(
    alloc: Global,
    clauses: &[Sentence],
    places: &[u64],
) -> Result<Items<Sentence>, NoMemory>
    ensures { IfOk result (λ made. made ≡ clauses_at clauses.now places.now) }
{
    let mut made = Items::new(alloc);
    match add_clauses(alloc, &mut made, clauses, places) {
        Ok(()) => Ok(made),
        Err(refused) => {
            discard_sentences(&mut made);
            Err(refused)
        }
    }
}

// The group of a number, none of no number.
fn group_at(groups: &[Items<u64>], at: Option<u64>) -> &[u64]
    ensures { result.now ≡ group_at groups.now at }
{
    match at {
        None => &[],
        Some(at) => match groups.get(at as usize) {
            None => &[],
            Some(group) => group.as_slice(),
        },
    }
}

// The places of the clauses of a predicate.
fn places_of(source: &Source, indicator: Indicator) -> &[u64]
    ensures { result.now ≡ places_held source.now indicator }
{
    group_at(
        source.clauses.as_slice(),
        find(&source.index.defined, indicator),
    )
}

// The clauses of a predicate.
fn clauses_of(
    alloc: Global,
    source: &Source,
    indicator: Indicator,
) -> Result<Items<Sentence>, NoMemory>
    ensures { IfOk result (λ clauses. clauses ≡ clauses_held source.now indicator) }
{
    let places = places_of(source, indicator);
    let clauses = clauses_at(alloc, source.parts.clauses.as_slice(), places)?;
    Ok(clauses)
}

// A declared type with the clauses of its predicate.
fn type_of(alloc: Global, source: &Source, declared: Declared) -> Result<RegType, NoMemory>
    ensures { IfOk result (λ t. t ≡ type_held source.now declared) }
{
    let indicator = Indicator {
        name: declared.name,
        arity: 1,
    };
    let clauses = clauses_of(alloc, source, indicator)?;
    Ok(RegType {
        name: declared.name,
        clauses,
        place: Place {
            file: source.file,
            line: declared.line,
        },
    })
}

// Adds a declared type. There is room for it before it is made, since its clauses may be deep.
#[tactic(auto, using(crate::proofs::CopyLaws::set_last))]
fn add_type(
    alloc: Global,
    types: &mut Items<RegType>,
    source: &Source,
    declared: Declared,
) -> Result<(), NoMemory>
    ensures { OnOk result (types.new ≡ types.old ++ type_held source.now declared ∷ []) }
{
    let place = types.len();
    types.push(RegType {
        name: 0,
        clauses: Items::new(alloc),
        place: Place { file: 0, line: 0 },
    })?;
    let made = type_of(alloc, source, declared)?;
    types.set(place, made);
    Ok(())
}

// Adds the types that a unit declares.
fn add_types(alloc: Global, types: &mut Items<RegType>, source: &Source) -> Result<(), NoMemory>
    ensures { OnOk result (types.new ≡ types.old ++ map (type_held source.now) source.now.parts.types) }
{
    for declared in source.parts.types.as_slice() {
        add_type(alloc, types, source, *declared)?;
    }
    Ok(())
}

// The types that a unit declares.
fn types_of(alloc: Global, source: &Source) -> Result<Items<RegType>, NoMemory>
    ensures { IfOk result (λ types. types ≡ map (type_held source.now) source.now.parts.types) }
{
    let mut types = Items::new(alloc);
    match add_types(alloc, &mut types, source) {
        Ok(()) => Ok(types),
        Err(refused) => {
            discard_types(&mut types);
            Err(refused)
        }
    }
}

// The types of a unit, and those that are seen in it.
fn type_module(alloc: Global, source: &Source, sources: &[Source]) -> Result<TypeModule, NoMemory>
    ensures { IfOk result (λ one. one ≡ module_held sources.now source.now) }
{
    let visible = types_seen(alloc, source, sources)?;
    let types = types_of(alloc, source)?;
    Ok(TypeModule {
        file: source.file,
        types,
        visible,
    })
}

// Adds the types of a unit. There is room for them before they are made.
#[tactic(auto, using(crate::proofs::CopyLaws::set_last))]
fn add_module(
    alloc: Global,
    modules: &mut Items<TypeModule>,
    source: &Source,
    sources: &[Source],
) -> Result<(), NoMemory>
    ensures { OnOk result (modules.new ≡ modules.old ++ module_held sources.now source.now ∷ []) }
{
    let place = modules.len();
    modules.push(TypeModule {
        file: 0,
        types: Items::new(alloc),
        visible: Items::new(alloc),
    })?;
    let made = type_module(alloc, source, sources)?;
    modules.set(place, made);
    Ok(())
}

// Adds the types of each unit.
fn add_modules(
    alloc: Global,
    modules: &mut Items<TypeModule>,
    sources: &[Source],
) -> Result<(), NoMemory>
    ensures { OnOk result (modules.new ≡ modules.old ++ map (module_held sources.now) sources.now) }
{
    for source in sources {
        add_module(alloc, modules, source, sources)?;
    }
    Ok(())
}

// The types of each unit, by what is held of it.
fn modules_held(alloc: Global, sources: &[Source]) -> Result<Items<TypeModule>, NoMemory>
    ensures { IfOk result (λ modules. modules ≡ map (module_held sources.now) sources.now) }
{
    let mut modules = Items::new(alloc);
    match add_modules(alloc, &mut modules, sources) {
        Ok(()) => Ok(modules),
        Err(refused) => {
            discard_modules(modules);
            Err(refused)
        }
    }
}

/// The types of units, and those that are seen in each of them.
///
/// # Errors
/// Where memory is refused.
pub fn type_modules(
    alloc: Global,
    units: &[Unit],
    sources: &[Source],
) -> Result<Items<TypeModule>, NoMemory>
    requires sources { AreSources 0 0 (map file_of units.now) sources.now }
    ensures { IfOk result (λ modules. modules ≡ type_modules (map file_of units.now)) }
{
    let modules = modules_held(alloc, sources)?;
    Ok(modules)
}
