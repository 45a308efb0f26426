// F/N, lists of them, and lists of names, as terms.
ghost use Rattle.std.specs.Prelude.{◌≡◌, ℕ, IfOk};
ghost use Rattle.ciao_reader.specs.Changes.{alone, listed};
ghost use Rattle.ciao_modules.specs.Listings.{listing, export_with, export_of, exports_in, one_or_more};

use crate::units::Export;
use sqlite_items::Items;
use std::alloc::Global;
use term_core::{NoMemory, SLASH, Term};

/// The name that an atom is.
pub(crate) fn atom_of(term: &Term) -> Option<u64>
    ensures name { (line : ℕ) → result ≡ (listing line term.now).name }
    ensures alone { result ≡ alone term.now }
{
    match term {
        Term::Atom(name) => Some(*name),
        Term::Var(_) | Term::Int(_) | Term::Node(_, _) => None,
    }
}

// The number from 0 on that a term is.
fn natural_of(term: &Term) -> Option<u64>
    ensures { (line : ℕ) → result ≡ (listing line term.now).count }
{
    match term {
        Term::Int(number) => {
            if *number >= 0 {
                Some(*number as u64)
            } else {
                None
            }
        }
        Term::Var(_) | Term::Atom(_) | Term::Node(_, _) => None,
    }
}

// F/N of these.
fn export_with(line: u64, name: Option<u64>, arity: Option<u64>) -> Option<Export>
    ensures { result ≡ export_with line name arity }
{
    match name {
        None => None,
        Some(name) => match arity {
            None => None,
            Some(arity) => Some(Export { name, arity, line }),
        },
    }
}

/// The export F/N that a term is.
pub(crate) fn export_of(line: u64, term: &Term) -> Option<Export>
    ensures { result ≡ export_of line term.now }
{
    match term.operands(SLASH) {
        None => None,
        Some((name, arity)) => export_with(line, atom_of(name), natural_of(arity)),
    }
}

/// The exports of a proper list of F/N.
pub(crate) fn exports_in(
    alloc: Global,
    line: u64,
    term: &Term,
) -> Result<Option<Items<Export>>, NoMemory>
    ensures { IfOk result (λ exports. exports ≡ exports_in line term.now) }
{
    let mut exports = Items::new(alloc);
    let mut left = term;
    while let Some((item, tail)) = left.list_cell() {
        match export_of(line, item) {
            None => return Ok(None),
            Some(export) => exports.push(export)?,
        }
        left = tail;
    }
    if left.is_empty_list() {
        Ok(Some(exports))
    } else {
        Ok(None)
    }
}

/// The exports of F/N, or of a proper list of them.
pub(crate) fn one_or_more(
    alloc: Global,
    line: u64,
    term: &Term,
) -> Result<Option<Items<Export>>, NoMemory>
    ensures { IfOk result (λ exports. exports ≡ one_or_more line term.now) }
{
    match export_of(line, term) {
        Some(export) => {
            let mut exports = Items::new(alloc);
            exports.push(export)?;
            Ok(Some(exports))
        }
        None => exports_in(alloc, line, term),
    }
}

/// The names of a proper list of atoms.
pub(crate) fn names_in(alloc: Global, term: &Term) -> Result<Option<Items<u64>>, NoMemory>
    ensures { IfOk result (λ names. names ≡ listed term.now) }
{
    let mut names = Items::new(alloc);
    let mut left = term;
    while let Some((item, tail)) = left.list_cell() {
        match atom_of(item) {
            None => return Ok(None),
            Some(name) => names.push(name)?,
        }
        left = tail;
    }
    if left.is_empty_list() {
        Ok(Some(names))
    } else {
        Ok(None)
    }
}
