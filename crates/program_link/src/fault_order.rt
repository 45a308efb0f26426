// The fault that comes first.
ghost use Rattle.std.specs.Prelude.{◌≡◌, Some};
ghost use Rattle.program_link.specs.FaultOrder.{rank, is_before, sooner, least_from};
ghost use Rattle.program_link.specs.NamedFaults.{fault_where, fault_of};

use crate::faults::Fault;
use prog_data::RefusalKind;

// The order of kinds in one line.
fn rank(kind: RefusalKind) -> u64
    ensures { result ≡ rank kind }
{
    match kind {
        RefusalKind::BadExpansion => 0,
        RefusalKind::BadRegtype => 1,
        RefusalKind::UnknownProperty => 2,
        RefusalKind::BadAssertion => 3,
        RefusalKind::BadClause => 4,
        RefusalKind::NotExported => 5,
        RefusalKind::Ambiguous => 6,
        RefusalKind::Undefined => 7,
        RefusalKind::NoFile
        | RefusalKind::FileTooLarge
        | RefusalKind::NotUtf8
        | RefusalKind::BadToken
        | RefusalKind::IntRange
        | RefusalKind::Syntax
        | RefusalKind::TooDeep
        | RefusalKind::OpRefused
        | RefusalKind::NoEnd
        | RefusalKind::BadModule
        | RefusalKind::UnknownDirective
        | RefusalKind::UnknownPackage
        | RefusalKind::UnknownLibrary
        | RefusalKind::TooManyFiles
        | RefusalKind::TooManyNames => 8,
    }
}

// Whether a fault comes before another: by file in load order, then by line, then by kind.
fn is_before(a: Fault, b: Fault) -> bool
    ensures { result ≡ is_before a b }
{
    a.unit < b.unit
        || (a.unit == b.unit
            && (a.line < b.line || (a.line == b.line && rank(a.kind) < rank(b.kind))))
}

/// Of two faults the one that comes first; the first of two alike.
pub(crate) fn sooner(a: Option<Fault>, b: Fault) -> Option<Fault>
    ensures { result ≡ sooner a (Some b) }
{
    match a {
        None => Some(b),
        Some(first) => {
            if is_before(b, first) {
                Some(b)
            } else {
                Some(first)
            }
        }
    }
}

/// The same, where there may be no second one.
pub(crate) fn sooner_of_two(a: Option<Fault>, b: Option<Fault>) -> Option<Fault>
    ensures { result ≡ sooner a b }
{
    match b {
        None => a,
        Some(second) => sooner(a, second),
    }
}

/// The first of a fault and one at a line, where something is wrong.
pub(crate) fn sooner_where(found: Option<Fault>, wrong: bool, fault: Fault) -> Option<Fault>
    ensures { result ≡ least_from found (fault_where wrong fault.unit fault.line fault.kind) }
{
    if wrong { sooner(found, fault) } else { found }
}

/// The same, where there is a kind.
pub(crate) fn sooner_of_kind(
    found: Option<Fault>,
    unit: u64,
    line: u64,
    kind: Option<RefusalKind>,
) -> Option<Fault>
    ensures { result ≡ least_from found (fault_of unit line kind) }
{
    match kind {
        None => found,
        Some(kind) => sooner(found, Fault { unit, line, kind }),
    }
}
