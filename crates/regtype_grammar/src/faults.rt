// Why types have no grammar.
ghost use Rattle.std.specs.Prelude.{◌≡◌, ◌||◌, ◌==◌, [], map, None, IfOk};
ghost use Rattle.std.specs.List.{list_any};
ghost use Rattle.regtype_grammar.specs.TypeNames.{is_basic_name, meaning};
ghost use Rattle.regtype_grammar.specs.TypeClauses.{clause_of};
ghost use Rattle.regtype_grammar.specs.TypeFaults.{rank, is_before, lesser, least_from, is_unknown, is_several, literals_kind, clause_kind, fault_at, clause_fault, has_none, is_bad, declaration_fault, type_faults, faults_after, module_fault, first_fault, refused, told};

use crate::clauses::clause_of;
use crate::literals::Literal;
use crate::meanings::{Meaning, type_meant};
use crate::seen::unnumbered;
use crate::{RegType, TypeFault, TypeModule};
use ciao_reader::Sentence;
use prog_data::{Place, Seen};
use std::alloc::Global;
use term_core::{GROUND, NoMemory, TERM};

/// What is wrong: a shape, a name that means no type, or one that means several.
#[derive(Clone, Copy, Drop)]
pub(crate) enum Kind {
    Shape,
    Name,
    Choice,
}

/// What is wrong at a place.
#[derive(Clone, Copy, Drop)]
pub(crate) struct Fault {
    pub(crate) place: Place,
    pub(crate) kind: Kind,
}

fn rank(kind: Kind) -> u64
    ensures { result ≡ rank kind }
{
    match kind {
        Kind::Shape => 0,
        Kind::Name => 1,
        Kind::Choice => 2,
    }
}

// Whether a fault comes before another.
fn is_before(a: Fault, b: Fault) -> bool
    ensures { result ≡ is_before a b }
{
    a.place.line < b.place.line || (a.place.line == b.place.line && rank(a.kind) < rank(b.kind))
}

// Of two faults the one that comes first.
fn lesser(a: Option<Fault>, b: Option<Fault>) -> Option<Fault>
    ensures { result ≡ lesser a b }
{
    match a {
        None => b,
        Some(first) => match b {
            None => Some(first),
            Some(second) => {
                if is_before(second, first) {
                    Some(second)
                } else {
                    Some(first)
                }
            }
        },
    }
}

fn is_unknown(meaning: Meaning) -> bool
    ensures { result ≡ is_unknown meaning }
{
    match meaning {
        Meaning::Unknown => true,
        Meaning::One(_) | Meaning::Several => false,
    }
}

fn is_several(meaning: Meaning) -> bool
    ensures { result ≡ is_several meaning }
{
    match meaning {
        Meaning::Several => true,
        Meaning::One(_) | Meaning::Unknown => false,
    }
}

fn some_unknown(seen: &[Seen], literals: &[Literal]) -> bool
    ensures { result ≡ list_any (λ l. is_unknown (meaning seen.now l.name)) literals.now }
{
    for literal in literals {
        if is_unknown(type_meant(seen, literal.name)) {
            return true;
        }
    }
    false
}

fn some_several(seen: &[Seen], literals: &[Literal]) -> bool
    ensures { result ≡ list_any (λ l. is_several (meaning seen.now l.name)) literals.now }
{
    for literal in literals {
        if is_several(type_meant(seen, literal.name)) {
            return true;
        }
    }
    false
}

// What is wrong with literals.
fn literals_kind(seen: &[Seen], literals: &[Literal]) -> Option<Kind>
    ensures { result ≡ literals_kind (meaning seen.now) literals.now }
{
    if some_unknown(seen, literals) {
        return Some(Kind::Name);
    }
    if some_several(seen, literals) {
        return Some(Kind::Choice);
    }
    None
}

// What is wrong with a clause of the type of this name.
fn clause_kind(
    alloc: Global,
    seen: &[Seen],
    name: u64,
    sentence: &Sentence,
) -> Result<Option<Kind>, NoMemory>
    ensures { IfOk result (λ kind. kind ≡ clause_kind (meaning seen.now) (clause_of name sentence.now)) }
{
    match clause_of(alloc, name, sentence)? {
        None => Ok(Some(Kind::Shape)),
        Some((_, literals)) => Ok(literals_kind(seen, literals.as_slice())),
    }
}

fn fault_at(place: Place, kind: Option<Kind>) -> Option<Fault>
    ensures { result ≡ fault_at place kind }
{
    match kind {
        None => None,
        Some(kind) => Some(Fault { place, kind }),
    }
}

// The fault of a clause, at its own line.
fn clause_fault(
    alloc: Global,
    seen: &[Seen],
    file: u64,
    name: u64,
    sentence: &Sentence,
) -> Result<Option<Fault>, NoMemory>
    ensures { IfOk result (λ fault. fault ≡ clause_fault (meaning seen.now) file name sentence.now) }
{
    let place = Place {
        file,
        line: sentence.line,
    };
    let kind = clause_kind(alloc, seen, name, sentence)?;
    Ok(fault_at(place, kind))
}

// The first of a fault and those of clauses.
fn least_of_clauses(
    alloc: Global,
    seen: &[Seen],
    file: u64,
    name: u64,
    clauses: &[Sentence],
    found: Option<Fault>,
) -> Result<Option<Fault>, NoMemory>
    ensures { IfOk result (λ fault. fault ≡ least_from found (map (clause_fault (meaning seen.now) file name) clauses.now)) }
{
    let mut least = found;
    for clause in clauses {
        least = lesser(least, clause_fault(alloc, seen, file, name, clause)?);
    }
    Ok(least)
}

// Whether one of the types has the name.
fn is_declared(types: &[RegType], name: u64) -> bool
    ensures { result ≡ list_any (λ u. u.name == name) types.now }
{
    for other in types {
        if other.name == name {
            return true;
        }
    }
    false
}

fn is_basic_name(name: u64) -> bool
    ensures { result ≡ is_basic_name name }
{
    matches!(name, TERM..=GROUND)
}

fn has_none(clauses: &[Sentence]) -> bool
    ensures { result ≡ has_none clauses.now }
{
    match clauses {
        [] => true,
        _ => false,
    }
}

// Whether the declaration of a type is wrong, behind those before it.
fn is_bad(before: &[RegType], regtype: &RegType) -> bool
    ensures { result ≡ is_bad before.now regtype.now }
{
    is_basic_name(regtype.name)
        || (is_declared(before, regtype.name) || has_none(regtype.clauses.as_slice()))
}

fn declaration_fault(before: &[RegType], regtype: &RegType) -> Option<Fault>
    ensures { result ≡ declaration_fault before.now regtype.now }
{
    if is_bad(before, regtype) {
        return Some(Fault {
            place: regtype.place,
            kind: Kind::Shape,
        });
    }
    None
}

// The first of a fault and those of a type, behind the types before it.
fn least_of_type(
    alloc: Global,
    seen: &[Seen],
    file: u64,
    before: &[RegType],
    regtype: &RegType,
    found: Option<Fault>,
) -> Result<Option<Fault>, NoMemory>
    ensures { IfOk result (λ fault. fault ≡ least_from found (type_faults (meaning seen.now) file before.now regtype.now)) }
{
    let declared = lesser(found, declaration_fault(before, regtype));
    least_of_clauses(
        alloc,
        seen,
        file,
        regtype.name,
        regtype.clauses.as_slice(),
        declared,
    )
}

// The first fault of types.
fn least_of_types(
    alloc: Global,
    seen: &[Seen],
    file: u64,
    types: &[RegType],
) -> Result<Option<Fault>, NoMemory>
    ensures { IfOk result (λ fault. fault ≡ least_from None (faults_after (meaning seen.now) file [] types.now)) }
{
    let mut least = None;
    let mut at = 0;
    while at < types.len() {
        least = least_of_type(alloc, seen, file, &types[..at], &types[at], least)?;
        at += 1;
    }
    Ok(least)
}

fn module_fault(alloc: Global, one: &TypeModule) -> Result<Option<Fault>, NoMemory>
    ensures { IfOk result (λ fault. fault ≡ module_fault one.now) }
{
    let seen = unnumbered(alloc, one.visible.as_slice())?;
    least_of_types(alloc, seen.as_slice(), one.file, one.types.as_slice())
}

// A fault as it is told, with the position of its module.
fn told(position: u64, fault: Fault) -> TypeFault
    ensures { result ≡ told position fault }
{
    match fault.kind {
        Kind::Shape => TypeFault::BadRegtype(position, fault.place),
        Kind::Name => TypeFault::UnknownProperty(position, fault.place),
        Kind::Choice => TypeFault::Ambiguous(position, fault.place),
    }
}

/// The fault of the first module that has one.
pub(crate) fn refused(alloc: Global, modules: &[TypeModule]) -> Result<Option<TypeFault>, NoMemory>
    ensures { IfOk result (λ fault. fault ≡ refused modules.now) }
{
    for (position, one) in modules.iter().enumerate() {
        match module_fault(alloc, one)? {
            None => {}
            Some(fault) => return Ok(Some(told(position as u64, fault))),
        }
    }
    Ok(None)
}
