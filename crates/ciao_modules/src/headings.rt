// The module directive at the start of a file.
ghost use Rattle.std.specs.Prelude.{◌≡◌, IfOk, Option, Some, List, ℕ};
ghost use Rattle.term_core.specs.declared.terms.Term.{out-Term};
ghost use Rattle.ciao_modules.specs.Headings.{is_own, exported, with_packages, heading_of, heading_at, heading};

use crate::listings::{exports_in, names_in};
use crate::units::Export;
use sqlite_items::Items;
use std::alloc::Global;
use term_core::{NECK, Names, NoMemory, Term};

/// What a module directive exports: those of a list, or besides them all that the file defines.
#[derive(Drop)]
pub(crate) struct Exported {
    pub(crate) all: bool,
    pub(crate) exports: Items<Export>,
}

/// A module directive.
#[derive(Drop)]
pub(crate) struct Heading {
    pub(crate) exported: Exported,
    pub(crate) packages: Items<u64>,
}

// Whether a term is the module's name or a variable.
fn is_own(names: &Names, own: &str, term: &Term) -> bool
    ensures { result ≡ is_own names.now own.now (out-Term term.now) }
{
    match term {
        Term::Atom(name) => names.text_or_empty(*name) == own,
        Term::Var(_) => true,
        Term::Int(_) | Term::Node(_, _) => false,
    }
}

// What the second argument exports.
fn exports_of(alloc: Global, line: u64, term: &Term) -> Result<Option<Exported>, NoMemory>
    ensures { IfOk result (λ exports. exports ≡ exported line (out-Term term.now) term.now) }
{
    match term {
        Term::Var(_) => Ok(Some(Exported {
            all: true,
            exports: Items::new(alloc),
        })),
        Term::Int(_) | Term::Atom(_) | Term::Node(_, _) => match exports_in(alloc, line, term)? {
            None => Ok(None),
            Some(exports) => Ok(Some(Exported {
                all: false,
                exports,
            })),
        },
    }
}

// The directive of these.
fn with_packages(exported: Option<Exported>, packages: Option<Items<u64>>) -> Option<Heading>
    ensures { result ≡ with_packages exported packages }
{
    match exported {
        None => None,
        Some(exported) => match packages {
            None => None,
            Some(packages) => Some(Heading { exported, packages }),
        },
    }
}

// The directive with these arguments.
fn heading_of(
    alloc: Global,
    names: &Names,
    own: &str,
    line: u64,
    arguments: &[Term],
) -> Result<Option<Heading>, NoMemory>
    ensures { IfOk result (λ found. found ≡ heading_of names.now own.now line arguments.now) }
{
    match arguments {
        [name, exports] => {
            if is_own(names, own, name) {
                Ok(with_packages(exports_of(alloc, line, exports)?, Some(Items::new(alloc))))
            } else {
                Ok(None)
            }
        }
        [name, exports, packages] => {
            if is_own(names, own, name) {
                let exported = exports_of(alloc, line, exports)?;
                Ok(with_packages(exported, names_in(alloc, packages)?))
            } else {
                Ok(None)
            }
        }
        _ => Ok(None),
    }
}

// The directive `:- D`.
fn heading_at(
    alloc: Global,
    names: &Names,
    own: &str,
    line: u64,
    directive: &Term,
) -> Result<Option<Heading>, NoMemory>
    ensures { IfOk result (λ found. found ≡ heading_at names.now own.now line (out-Term directive.now)) }
{
    match directive {
        Term::Node(name, parts) => {
            if names.text_or_empty(*name) == "module" {
                heading_of(alloc, names, own, line, parts.as_slice())
            } else {
                Ok(None)
            }
        }
        Term::Var(_) | Term::Int(_) | Term::Atom(_) => Ok(None),
    }
}

/// The module directive that a sentence in this line is, of a module with this name.
///
/// # Errors
/// Want of memory.
pub(crate) fn heading_in(
    alloc: Global,
    names: &Names,
    own: &str,
    line: u64,
    term: &Term,
) -> Result<Option<Heading>, NoMemory>
    ensures { IfOk result (λ found. found ≡ heading names.now own.now line term.now) }
{
    match term.single(NECK) {
        None => Ok(None),
        Some(directive) => heading_at(alloc, names, own, line, directive),
    }
}
