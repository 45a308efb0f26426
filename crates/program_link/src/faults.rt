// What is wrong with units.
ghost use Rattle.std.specs.Prelude.{◌≡◌, Some, None, map, slice_get};
ghost use Rattle.regtype_grammar.specs.TypeFaults.{refused};
ghost use Rattle.unit_scopes.specs.Sayings.{file_of};
ghost use Rattle.unit_scopes.specs.Sources.{AreSources};
ghost use Rattle.unit_scopes.specs.Settings.{settings as settings_of};
ghost use Rattle.unit_scopes.specs.Imports.{type_modules};
ghost use Rattle.program_link.specs.FaultOrder.{least_from, least};
ghost use Rattle.program_link.specs.Faults.{type_faults, all_faults};
ghost use Rattle.program_link.specs.HeldFaults.{held_faults, held_at, held_from};

use crate::fault_order::sooner_of_two;
use crate::named_faults::{least_of_exports, least_of_imports};
use crate::sentence_faults::{least_of_assertions, least_of_broken, least_of_clauses};
use ciao_modules::Unit;
use prog_data::{Place, RefusalKind};
use regtype_grammar::TypeFault;
use term_core::Names;
use unit_scopes::{Setting, Source};

/// A rule of the language that is broken in a line of a unit, which is given by its place in the load order.
#[derive(Clone, Copy, Drop, Debug)]
pub(crate) struct Fault {
    pub(crate) unit: u64,
    pub(crate) line: u64,
    pub(crate) kind: RefusalKind,
}

// The first of a fault and those of the unit at a place, but for its types.
fn least_of_file(
    names: &Names,
    found: Option<Fault>,
    at: u64,
    sources: &[Source],
    unit: &Unit,
    source: &Source,
    setting: &Setting,
) -> Option<Fault>
    ensures { result ≡ least_from found (held_faults names.now sources.now at unit.now source.now setting.now) }
{
    let broken = least_of_broken(found, at, source.parts.broken.as_slice());
    let exports = least_of_exports(broken, at, &source.index, &unit.exports);
    let imports = least_of_imports(names, exports, at, sources, unit.imports.as_slice());
    let assertions = least_of_assertions(
        names,
        imports,
        at,
        setting.scope.types(),
        &source.index,
        source.parts.assertions.as_slice(),
    );
    least_of_clauses(
        assertions,
        at,
        &setting.scope,
        source.parts.clauses.as_slice(),
    )
}

// The same, where its source and its setting are found.
fn least_at(
    names: &Names,
    found: Option<Fault>,
    at: u64,
    sources: &[Source],
    settings: &[Setting],
    unit: &Unit,
) -> Option<Fault>
    ensures { result ≡ least_from found (held_at names.now sources.now at unit.now (slice_get sources.now at) (slice_get settings.now at)) }
{
    match sources.get(at as usize) {
        None => found,
        Some(source) => match settings.get(at as usize) {
            None => found,
            Some(setting) => least_of_file(names, found, at, sources, unit, source, setting),
        },
    }
}

// The first fault of units, but for those of types.
fn least_of_files(
    names: &Names,
    units: &[Unit],
    sources: &[Source],
    settings: &[Setting],
) -> Option<Fault>
    ensures { result ≡ least (held_from names.now sources.now settings.now 0 units.now) }
{
    let mut least = None;
    for (at, unit) in units.iter().enumerate() {
        least = least_at(names, least, at as u64, sources, settings, unit);
    }
    least
}

// A fault of types at a place.
fn fault_at(unit: u64, place: Place, kind: RefusalKind) -> Option<Fault>
    ensures { result ≡ Some (record { unit = unit; line = place.line; kind = kind }) }
{
    Some(Fault {
        unit,
        line: place.line,
        kind,
    })
}

/// A fault of types, in the unit of its module; none where names or memory are wanting.
pub(crate) fn type_fault(fault: &TypeFault) -> Option<Fault>
    ensures { result ≡ least (type_faults (Some fault.now)) }
{
    match fault {
        TypeFault::BadRegtype(unit, place) => fault_at(*unit, *place, RefusalKind::BadRegtype),
        TypeFault::UnknownProperty(unit, place) => {
            fault_at(*unit, *place, RefusalKind::UnknownProperty)
        }
        TypeFault::Ambiguous(unit, place) => fault_at(*unit, *place, RefusalKind::Ambiguous),
        TypeFault::TooManyNames | TypeFault::NoMemory => None,
    }
}

/// The fault of units that comes first, of those of their types the one that is found.
pub(crate) fn least_fault(
    names: &Names,
    units: &[Unit],
    sources: &[Source],
    settings: &[Setting],
    types: Option<Fault>,
) -> Option<Fault>
    requires sources { AreSources 0 0 (map file_of units.now) sources.now }
    requires settings { settings.now ≡ settings_of (map file_of units.now) }
    requires types { least_from None (type_faults (refused (type_modules (map file_of units.now)))) ≡ types }
    ensures { result ≡ least (all_faults names.now (map file_of units.now)) }
{
    let found = least_of_files(names, units, sources, settings);
    sooner_of_two(found, types)
}
