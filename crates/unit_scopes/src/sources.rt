// What is held of a unit.
ghost use Rattle.std.specs.Prelude.{◌≡◌, ◌+◌, ◌++◌, [], map, length, IfOk, OnOk};
ghost use Rattle.term_core.specs.Terms.{with_new};
ghost use Rattle.unit_scopes.specs.Imports.{first_declared, types_behind};
ghost use Rattle.unit_scopes.specs.Sources.{type_names_behind, IsSource, AreSources};
ghost use Rattle.unit_scopes.specs.Sayings.{file_of};
ghost use Rattle.unit_scopes.specs.Numbering.{indicators};

use crate::groups::{assertion_groups, clause_groups};
use crate::indexes::{Index, index_of};
use crate::indicators::numbered;
use crate::sayings::{Declared, Parts, parts_of_unit};
use body_code::Named;
use ciao_modules::Unit;
use indexmap::IndexSet;
use regtype_grammar::SeenType;
use sqlite_items::Items;
use std::alloc::Global;
use term_core::{Names, NoMemory};

/// A unit with what its sentences say, its predicates with their numbers, and its types.
#[derive(Drop)]
pub struct Source {
    /// The file and the module as they are printed.
    pub file: u64,
    pub module: u64,
    pub parts: Parts,
    pub index: Index,
    pub preds: Items<Named>,
    /// The types that it declares, each name once.
    pub types: Items<SeenType>,
    /// Their names.
    pub declared: IndexSet<u64>,
    /// The places of the clauses of each predicate, and of the assertions about it.
    pub clauses: Items<Items<u64>>,
    pub assertions: Items<Items<u64>>,
}

/// Types and their names.
#[derive(Drop)]
pub(crate) struct Types {
    pub types: Items<SeenType>,
    pub names: IndexSet<u64>,
}

// Adds a type at a place and a position, where its name is new.
fn add_type(types: &mut Types, at: u64, position: u64, name: u64) -> Result<(), NoMemory>
    ensures types { OnOk result (types.new.types ≡ types.old.types ++ first_declared at position types.old.names.keys name) }
    ensures names { OnOk result (types.new.names.keys ≡ with_new types.old.names.keys name) }
{
    if types.names.contains(&name) {
        return Ok(());
    }
    types.names.insert(name)?;
    types.types.push(SeenType {
        name,
        module: at,
        position,
    })?;
    Ok(())
}

/// The types of the file at a place, where a name that is declared again is its first type.
pub(crate) fn own_types(alloc: Global, at: u64, declared: &[Declared]) -> Result<Types, NoMemory>
    ensures types { IfOk result (λ types. types.types ≡ types_behind at 0 [] declared.now) }
    ensures names { IfOk result (λ types. types.names.keys ≡ type_names_behind [] declared.now) }
{
    let mut types = Types {
        types: Items::new(alloc),
        names: IndexSet::new(alloc),
    };
    for (position, one) in declared.iter().enumerate() {
        add_type(&mut types, at, position as u64, one.name)?;
    }
    Ok(types)
}

/// What is held of a unit at a place, whose predicates are numbered on from a number; the number behind them.
pub(crate) fn source_of(
    alloc: Global,
    names: &Names,
    at: u64,
    first: u64,
    unit: &Unit,
) -> Result<(Source, u64), NoMemory>
    ensures source { IfOk result (λ r. IsSource at first (file_of unit.now) r.0) }
    ensures next { IfOk result (λ r. r.1 ≡ length (indicators (file_of unit.now)) + first) }
{
    let parts = parts_of_unit(alloc, names, unit)?;
    let index = index_of(alloc, unit, &parts)?;
    let (preds, next) = numbered(alloc, first, index.defined.as_slice())?;
    let Types { types, names } = own_types(alloc, at, parts.types.as_slice())?;
    let clauses = clause_groups(alloc, &index.defined, parts.clauses.as_slice())?;
    let assertions = assertion_groups(alloc, &index.defined, parts.assertions.as_slice())?;
    let source = Source {
        file: unit.file,
        module: unit.name,
        parts,
        index,
        preds,
        types,
        declared: names,
        clauses: Items::from_vec(clauses),
        assertions: Items::from_vec(assertions),
    };
    Ok((source, next))
}

/// What is held of all units, in their order.
pub fn sources_of(alloc: Global, names: &Names, units: &[Unit]) -> Result<Items<Source>, NoMemory>
    ensures { IfOk result (AreSources 0 0 (map file_of units.now)) }
{
    let mut sources = Items::new(alloc);
    let mut first = 0;
    for (at, unit) in units.iter().enumerate() {
        let (source, next) = source_of(alloc, names, at as u64, first, unit)?;
        sources.push(source)?;
        first = next;
    }
    Ok(sources)
}
