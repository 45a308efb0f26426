// What is wrong with the predicates that exports and imports name.
ghost use Rattle.std.specs.Prelude.{◌≡◌, Some, flat_map, slice_get};
ghost use Rattle.ciao_modules.specs.UnitRanges.{exports_of};
ghost use Rattle.program_link.specs.FaultOrder.{least_from};
ghost use Rattle.program_link.specs.HeldFaults.{held_export_faults};
ghost use Rattle.program_link.specs.NamedFaults.{is_basic_property, is_output, is_everywhere};
ghost use Rattle.program_link.specs.Offers.{source_offers, source_named_faults, source_import_faults};

use crate::fault_order::sooner_where;
use crate::faults::Fault;
use body_code::Indicator;
use ciao_modules::{Export, Exports, Import};
use prog_data::RefusalKind;
use term_core::{GROUND, LIST, NL, Names, TERM, WRITE, WRITEQ};
use unit_scopes::{Index, Source, exported};

// The first of a fault and that of an export without clauses.
fn least_of_export(found: Option<Fault>, at: u64, index: &Index, export: Export) -> Option<Fault>
    ensures { result ≡ least_from found (held_export_faults at index.now export) }
{
    let undefined = Fault {
        unit: at,
        line: export.line,
        kind: RefusalKind::Undefined,
    };
    sooner_where(found, !index.defines(exported(export)), undefined)
}

// The first of a fault and those of named exports.
fn least_of_listed(
    found: Option<Fault>,
    at: u64,
    index: &Index,
    exports: &[Export],
) -> Option<Fault>
    ensures { result ≡ least_from found (flat_map (held_export_faults at index.now) exports.now) }
{
    let mut least = found;
    for export in exports {
        least = least_of_export(least, at, index, *export);
    }
    least
}

/// The first of a fault and those of exports without clauses.
pub(crate) fn least_of_exports(
    found: Option<Fault>,
    at: u64,
    index: &Index,
    exports: &Exports,
) -> Option<Fault>
    ensures { result ≡ least_from found (flat_map (held_export_faults at index.now) (exports_of exports.now)) }
{
    match exports {
        Exports::All(named) => least_of_listed(found, at, index, named.as_slice()),
        Exports::Listed(named) => least_of_listed(found, at, index, named.as_slice()),
    }
}

fn is_basic_property(indicator: Indicator) -> bool
    ensures { result ≡ is_basic_property indicator }
{
    (indicator.arity == 1 && (TERM <= indicator.name && indicator.name <= GROUND))
        || (indicator.arity == 2 && indicator.name == LIST)
}

fn is_output(indicator: Indicator) -> bool
    ensures { result ≡ is_output indicator }
{
    (indicator.arity == 1 && (indicator.name == WRITE || indicator.name == WRITEQ))
        || (indicator.arity == 0 && indicator.name == NL)
}

// Whether a predicate is seen everywhere, and may be named of this library all the same.
fn is_everywhere(file: &str, indicator: Indicator) -> bool
    ensures { result ≡ is_everywhere file.now indicator }
{
    (file == "library(basic_props)" && is_basic_property(indicator))
        || (file == "library(write)" && is_output(indicator))
}

// Whether a unit has a predicate for those that name it.
fn offers(names: &Names, source: &Source, indicator: Indicator) -> bool
    ensures { result ≡ source_offers names.now indicator (Some source.now) }
{
    source.index.exports(indicator) || is_everywhere(names.text_or_empty(source.file), indicator)
}

// Whether the unit at a place, if it is there, has a predicate for those that name it.
fn is_offered(names: &Names, sources: &[Source], at: u64, indicator: Indicator) -> bool
    ensures { result ≡ source_offers names.now indicator (slice_get sources.now at) }
{
    match sources.get(at as usize) {
        None => false,
        Some(source) => offers(names, source, indicator),
    }
}

// The first of a fault and that of a predicate that an import at a line names and the unit does not have.
fn least_of_missing(
    names: &Names,
    found: Option<Fault>,
    at: u64,
    sources: &[Source],
    unit: u64,
    line: u64,
    named: Export,
) -> Option<Fault>
    ensures { result ≡ least_from found (source_named_faults names.now sources.now at unit line named) }
{
    let missing = Fault {
        unit: at,
        line,
        kind: RefusalKind::NotExported,
    };
    sooner_where(
        found,
        !is_offered(names, sources, unit, exported(named)),
        missing,
    )
}

// The first of a fault and those of predicates that an import names.
fn least_of_named(
    names: &Names,
    found: Option<Fault>,
    at: u64,
    sources: &[Source],
    unit: u64,
    line: u64,
    only: &[Export],
) -> Option<Fault>
    ensures { result ≡ least_from found (flat_map (source_named_faults names.now sources.now at unit line) only.now) }
{
    let mut least = found;
    for named in only {
        least = least_of_missing(names, least, at, sources, unit, line, *named);
    }
    least
}

// The same of an import, which may name none.
fn least_of_import(
    names: &Names,
    found: Option<Fault>,
    at: u64,
    sources: &[Source],
    import: &Import,
) -> Option<Fault>
    ensures { result ≡ least_from found (source_import_faults names.now sources.now at import.now) }
{
    match &import.only {
        None => found,
        Some(only) => least_of_named(
            names,
            found,
            at,
            sources,
            import.unit,
            import.line,
            only.as_slice(),
        ),
    }
}

/// The first of a fault and those of imports.
pub(crate) fn least_of_imports(
    names: &Names,
    found: Option<Fault>,
    at: u64,
    sources: &[Source],
    imports: &[Import],
) -> Option<Fault>
    ensures { result ≡ least_from found (flat_map (source_import_faults names.now sources.now at) imports.now) }
{
    let mut least = found;
    for import in imports {
        least = least_of_import(names, least, at, sources, import);
    }
    least
}
