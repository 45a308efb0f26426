// What is wrong with sentences.
ghost use Rattle.std.specs.Prelude.{◌≡◌, map, flat_map};
ghost use Rattle.unit_scopes.specs.Numbering.{asserted};
ghost use Rattle.program_link.specs.FaultOrder.{least_from};
ghost use Rattle.program_link.specs.Faults.{trouble_kind, problem_kind, clause_faults};
ghost use Rattle.program_link.specs.HeldFaults.{held_assertion_faults};
ghost use Rattle.program_link.specs.NamedFaults.{broken_fault};

use crate::fault_order::{sooner, sooner_of_kind, sooner_where};
use crate::faults::Fault;
use assertion_normal::{Trouble, assertion_trouble};
use assertion_read::Assertion;
use body_code::{Indicator, Problem, Scope, clause_problem};
use ciao_reader::Sentence;
use prog_data::{RefusalKind, Seen};
use term_core::Names;
use unit_scopes::{Broken, Index};

/// The first of a fault and those of sentences that break a rule by themselves.
pub(crate) fn least_of_broken(found: Option<Fault>, at: u64, broken: &[Broken]) -> Option<Fault>
    ensures { result ≡ least_from found (map (broken_fault at) broken.now) }
{
    let mut least = found;
    for one in broken {
        let fault = Fault {
            unit: at,
            line: one.line,
            kind: one.kind,
        };
        least = sooner(least, fault);
    }
    least
}

fn trouble_kind(trouble: Option<Trouble>) -> Option<RefusalKind>
    ensures { result ≡ trouble_kind trouble }
{
    match trouble {
        None => None,
        Some(Trouble::Unknown) => Some(RefusalKind::UnknownProperty),
        Some(Trouble::Several) => Some(RefusalKind::Ambiguous),
    }
}

// The predicate that an assertion is about.
fn asserted(assertion: &Assertion) -> Indicator
    ensures { result ≡ asserted assertion.now }
{
    Indicator {
        name: assertion.name,
        arity: assertion.arity,
    }
}

// The first of a fault and those of an assertion, by the types that are seen.
fn least_of_assertion(
    names: &Names,
    found: Option<Fault>,
    at: u64,
    types: &[Seen],
    index: &Index,
    assertion: &Assertion,
) -> Option<Fault>
    ensures { result ≡ least_from found (held_assertion_faults names.now types.now at index.now assertion.now) }
{
    let undefined = Fault {
        unit: at,
        line: assertion.line,
        kind: RefusalKind::Undefined,
    };
    let least = sooner_where(found, !index.defines(asserted(assertion)), undefined);
    let kind = trouble_kind(assertion_trouble(names, types, assertion));
    sooner_of_kind(least, at, assertion.line, kind)
}

/// The first of a fault and those of assertions.
pub(crate) fn least_of_assertions(
    names: &Names,
    found: Option<Fault>,
    at: u64,
    types: &[Seen],
    index: &Index,
    assertions: &[Assertion],
) -> Option<Fault>
    ensures { result ≡ least_from found (flat_map (held_assertion_faults names.now types.now at index.now) assertions.now) }
{
    let mut least = found;
    for assertion in assertions {
        least = least_of_assertion(names, least, at, types, index, assertion);
    }
    least
}

fn problem_kind(problem: Option<Problem>) -> Option<RefusalKind>
    ensures { result ≡ problem_kind problem }
{
    match problem {
        None => None,
        Some(Problem::UnknownProperty) => Some(RefusalKind::UnknownProperty),
        Some(Problem::BadClause) => Some(RefusalKind::BadClause),
        Some(Problem::Ambiguous) => Some(RefusalKind::Ambiguous),
        Some(Problem::Undefined) => Some(RefusalKind::Undefined),
    }
}

// The first of a fault and that of a clause, by what is seen.
fn least_of_clause(found: Option<Fault>, at: u64, scope: &Scope, clause: &Sentence) -> Option<Fault>
    ensures { result ≡ least_from found (clause_faults scope.now at clause.now) }
{
    let kind = problem_kind(clause_problem(scope, &clause.term));
    sooner_of_kind(found, at, clause.line, kind)
}

/// The first of a fault and those of clauses.
pub(crate) fn least_of_clauses(
    found: Option<Fault>,
    at: u64,
    scope: &Scope,
    clauses: &[Sentence],
) -> Option<Fault>
    ensures { result ≡ least_from found (flat_map (clause_faults scope.now at) clauses.now) }
{
    let mut least = found;
    for clause in clauses {
        least = least_of_clause(least, at, scope, clause);
    }
    least
}
