// What a unit defines, exports and imports, found by name.
ghost use Rattle.std.specs.Prelude.{◌≡◌, [], IfOk, OnOk};
ghost use Rattle.ciao_modules.specs.UnitRanges.{exports_of};
ghost use Rattle.unit_scopes.specs.Indicators.{is_among};
ghost use Rattle.unit_scopes.specs.Imports.{exported, exports_all};
ghost use Rattle.unit_scopes.specs.Sources.{named_behind, index_exports, index_lets_in, index_gets, wanted_behind, with_only, imports_behind, let_in_seen, IsIndex};

use crate::indicators::{add, heads, is_among};
use crate::sayings::Parts;
use body_code::Indicator;
use ciao_modules::{Export, Exports, Import, Unit};
use indexmap::IndexSet;
use std::alloc::Global;
use term_core::NoMemory;

/// A predicate that an import of a unit names.
#[derive(Clone, Copy, Drop, Debug, PartialEq, Eq, Hash)]
pub struct Wanted {
    pub unit: u64,
    pub name: u64,
    pub arity: u64,
}

/// What a unit defines, exports and imports.
#[derive(Drop)]
pub struct Index {
    /// The predicates that it has clauses for, by their first clauses.
    pub defined: IndexSet<Indicator>,
    /// Whether it exports all of them.
    pub all: bool,
    /// The predicates that its directives export by name.
    pub exported: IndexSet<Indicator>,
    /// The units of which it imports all that they export.
    pub whole: IndexSet<u64>,
    /// The predicates that its other imports name.
    pub wanted: IndexSet<Wanted>,
}

/// The predicate that a directive names.
pub fn exported(export: Export) -> Indicator
    ensures { result ≡ exported export }
{
    Indicator {
        name: export.name,
        arity: export.arity,
    }
}

// The exports that directives name.
fn named_exports(exports: &Exports) -> &[Export]
    ensures { result.now ≡ exports_of exports.now }
{
    match exports {
        Exports::All(named) => named.as_slice(),
        Exports::Listed(named) => named.as_slice(),
    }
}

// Whether all that the file defines is exported.
fn exports_all(exports: &Exports) -> bool
    ensures { result ≡ exports_all exports.now }
{
    match exports {
        Exports::All(_) => true,
        Exports::Listed(_) => false,
    }
}

// The predicates that directives name.
fn exported_by_name(alloc: Global, exports: &[Export]) -> Result<IndexSet<Indicator>, NoMemory>
    ensures { IfOk result (λ index. index.keys ≡ named_behind [] exports.now) }
{
    let mut index = IndexSet::new(alloc);
    for export in exports {
        add(&mut index, exported(*export))?;
    }
    Ok(index)
}

// Adds the predicates that a list names of a unit.
fn add_wanted(wanted: &mut IndexSet<Wanted>, unit: u64, only: &[Export]) -> Result<(), NoMemory>
    ensures { OnOk result (wanted.new.keys ≡ wanted_behind wanted.old.keys unit only.now) }
{
    for export in only {
        wanted.insert(Wanted {
            unit,
            name: export.name,
            arity: export.arity,
        })?;
    }
    Ok(())
}

/// What the imports of a unit let in.
#[derive(Drop)]
struct LetIn {
    whole: IndexSet<u64>,
    wanted: IndexSet<Wanted>,
}

// Adds what an import lets in.
fn add_import(let_in: &mut LetIn, import: &Import) -> Result<(), NoMemory>
    ensures { OnOk result (let_in_seen let_in.new ≡ with_only (let_in_seen let_in.old) import.now.unit import.now.only) }
{
    match &import.only {
        None => {
            let_in.whole.insert(import.unit)?;
            Ok(())
        }
        Some(only) => {
            add_wanted(&mut let_in.wanted, import.unit, only.as_slice())?;
            Ok(())
        }
    }
}

// What imports let in.
fn let_in(alloc: Global, imports: &[Import]) -> Result<LetIn, NoMemory>
    ensures { IfOk result (λ let_in. let_in_seen let_in ≡ imports_behind (record { whole = []; wanted = [] }) imports.now) }
{
    let mut let_in = LetIn {
        whole: IndexSet::new(alloc),
        wanted: IndexSet::new(alloc),
    };
    for import in imports {
        add_import(&mut let_in, import)?;
    }
    Ok(let_in)
}

/// What a unit defines, exports and imports, by what its sentences say.
pub(crate) fn index_of(alloc: Global, unit: &Unit, parts: &Parts) -> Result<Index, NoMemory>
    ensures { IfOk result (λ index. IsIndex (record { unit = unit.now; parts = parts.now }) index) }
{
    let defined = heads(alloc, parts.clauses.as_slice())?;
    let exported = exported_by_name(alloc, named_exports(&unit.exports))?;
    let LetIn { whole, wanted } = let_in(alloc, unit.imports.as_slice())?;
    Ok(Index {
        defined,
        all: exports_all(&unit.exports),
        exported,
        whole,
        wanted,
    })
}

impl Index {
    /// Whether the unit has clauses for a predicate.
    pub fn defines(&self, indicator: Indicator) -> bool
        ensures { result ≡ is_among indicator self.now.defined.keys }
    {
        is_among(&self.defined, indicator)
    }

    /// Whether it exports a predicate, with clauses or without.
    pub fn exports(&self, indicator: Indicator) -> bool
        ensures { result ≡ index_exports self.now indicator }
    {
        (self.all && self.defines(indicator)) || is_among(&self.exported, indicator)
    }

    // Whether one of its imports is of the unit at this place, and lets a predicate in.
    fn lets_in(&self, at: u64, indicator: Indicator) -> bool
        ensures { result ≡ index_lets_in self.now at indicator }
    {
        let wanted = Wanted {
            unit: at,
            name: indicator.name,
            arity: indicator.arity,
        };
        self.whole.contains(&at) || self.wanted.contains(&wanted)
    }

    /// Whether it gets a predicate from another unit, which is at this place.
    pub(crate) fn gets(&self, at: u64, other: &Index, indicator: Indicator) -> bool
        ensures { result ≡ index_gets self.now at other.now indicator }
    {
        self.lets_in(at, indicator) && (other.exports(indicator) && other.defines(indicator))
    }
}
