// What a directive asks of the load.
ghost use Rattle.std.specs.Prelude.{◌≡◌, ◌∷◌, [], List, Some, None, false, length, IfOk, MatchOption, bytes_eq};
ghost use Rattle.std.specs.Option.{option_map_or};
ghost use Rattle.ciao_modules.specs.Listings.{one_name};
ghost use Rattle.std.specs.List.{list_all};
ghost use Rattle.term_core.specs.Names.{name_text};
ghost use Rattle.term_core.specs.Characters.{is_lower_word};
ghost use Rattle.term_core.specs.declared.terms.Term.{out-Term};
ghost use Rattle.ciao_modules.specs.Directives.{is_declaration, is_module_directive, is_passed_over, is_package, names_text, packages_of, use_package, uses_library, uses, use_module, export, asked_named, asked_at, asked};

use crate::libraries::library_named;
use crate::listings::{atom_of, exports_in, names_in, one_or_more};
use crate::queue::Module;
use crate::units::Export;
use prog_data::RefusalKind;
use sqlite_items::Items;
use std::alloc::Global;
use term_core::{
    CALLS, CHECK, CHECKED, COMP, ENTRY, FALSE, LIBRARY, NECK, Names, NoMemory, PRED, REGTYPE,
    SUCCESS, TRUE, TRUST, Term, is_lower_word,
};

/// The packages that change how a file is read.
#[derive(Clone, Copy, Drop)]
pub(crate) struct Packages {
    pub(crate) dcg: bool,
    pub(crate) fsyntax: bool,
}

/// What a sentence asks of the load.
#[derive(Drop)]
pub(crate) enum Asked {
    /// Nothing: it is no directive, or one that speaks of other things.
    Nothing,
    Exports(Items<Export>),
    Packages(Packages),
    /// A module, and of it the predicates of a list alone.
    Uses(Module, Option<Items<Export>>),
    Refused(RefusalKind),
}

// Whether a directive of one argument with this name is an assertion or declares a regular type.
fn is_declaration(name: u64) -> bool
    ensures { result ≡ is_declaration name }
{
    matches!(
        name,
        TRUE | FALSE | CHECK | TRUST | CHECKED | PRED | CALLS | SUCCESS | COMP | ENTRY | REGTYPE
    )
}

/// Whether a directive is a module directive.
pub(crate) fn is_module_directive(text: &str, count: usize) -> bool
    ensures { result ≡ is_module_directive text.now count }
{
    text == "module" && (count == 2 || count == 3)
}

// Whether a directive has no effect on the load.
fn is_passed_over(text: &str, count: usize) -> bool
    ensures { result ≡ is_passed_over text.now count }
{
    (text == "op" && count == 3) || ((text == "doc" || text == "comment") && count == 2)
}

fn is_package(text: &str) -> bool
    ensures { result ≡ is_package text.now }
{
    text == "assertions"
        || text == "regtypes"
        || text == "fsyntax"
        || text == "dcg"
        || text == "nativeprops"
        || text == "rtchecks"
}

// Whether all names are those of packages.
fn are_packages(names: &Names, packages: &[u64]) -> bool
    ensures { result ≡ list_all (λ n. is_package (name_text names.now n)) packages.now }
{
    for name in packages {
        if !is_package(names.text_or_empty(*name)) {
            return false;
        }
    }
    true
}

// Whether one of the names is this text.
fn names_text(names: &Names, text: &str, numbers: &[u64]) -> bool
    ensures { result ≡ names_text names.now text.now numbers.now }
{
    for number in numbers {
        if names.text_or_empty(*number) == text {
            return true;
        }
    }
    false
}

/// What the names of packages ask.
pub(crate) fn packages_of(names: &Names, packages: &[u64]) -> Asked
    ensures { result ≡ packages_of names.now packages.now }
{
    if are_packages(names, packages) {
        Asked::Packages(Packages {
            dcg: names_text(names, "dcg", packages),
            fsyntax: names_text(names, "fsyntax", packages),
        })
    } else {
        Asked::Refused(RefusalKind::UnknownPackage)
    }
}

// What an atom, which is no list, asks as a package.
fn uses_package(alloc: Global, names: &Names, name: Option<u64>) -> Result<Asked, NoMemory>
    ensures { IfOk result (λ asked. asked ≡ option_map_or (packages_of names.now) (one_name name) (Asked.Refused RefusalKind.UnknownDirective)) }
{
    match name {
        None => Ok(Asked::Refused(RefusalKind::UnknownDirective)),
        Some(name) => {
            let mut packages = Items::new(alloc);
            packages.push(name)?;
            Ok(packages_of(names, packages.as_slice()))
        }
    }
}

// `use_package(P)`.
fn use_package(alloc: Global, names: &Names, arguments: &[Term]) -> Result<Asked, NoMemory>
    ensures { IfOk result (λ asked. asked ≡ use_package names.now arguments.now) }
{
    match arguments {
        [packages] => match names_in(alloc, packages)? {
            Some(listed) => Ok(packages_of(names, listed.as_slice())),
            None => uses_package(alloc, names, atom_of(packages)),
        },
        _ => Ok(Asked::Refused(RefusalKind::UnknownDirective)),
    }
}

// The library that a term names.
fn uses_library(names: &Names, only: Option<Items<Export>>, library: &Term) -> Asked
    ensures { result ≡ uses_library names.now only (out-Term library.now) }
{
    match library {
        Term::Atom(name) => match library_named(names.text_or_empty(*name)) {
            None => Asked::Refused(RefusalKind::UnknownLibrary),
            Some(library) => Asked::Uses(Module::Library(library), only),
        },
        Term::Var(_) | Term::Int(_) | Term::Node(_, _) => {
            Asked::Refused(RefusalKind::UnknownLibrary)
        }
    }
}

// The module that a term names.
fn uses(names: &Names, only: Option<Items<Export>>, used: &Term) -> Asked
    ensures { result ≡ uses names.now only (out-Term used.now) }
{
    match used {
        Term::Atom(name) => {
            if is_lower_word(names.text_or_empty(*name).as_bytes()) {
                Asked::Uses(Module::File(*name), only)
            } else {
                Asked::Refused(RefusalKind::UnknownDirective)
            }
        }
        Term::Node(name, parts) => match parts.as_slice() {
            [library] => {
                if *name == LIBRARY {
                    uses_library(names, only, library)
                } else {
                    Asked::Refused(RefusalKind::UnknownDirective)
                }
            }
            _ => Asked::Refused(RefusalKind::UnknownDirective),
        },
        Term::Var(_) | Term::Int(_) => Asked::Refused(RefusalKind::UnknownDirective),
    }
}

// `use_module(M)`, `use_module(M,List)`.
fn use_module(
    alloc: Global,
    names: &Names,
    line: u64,
    arguments: &[Term],
) -> Result<Asked, NoMemory>
    ensures { IfOk result (λ asked. asked ≡ use_module names.now line arguments.now) }
{
    match arguments {
        [used] => Ok(uses(names, None, used)),
        [used, list] => match exports_in(alloc, line, list)? {
            None => Ok(Asked::Refused(RefusalKind::UnknownDirective)),
            Some(only) => Ok(uses(names, Some(only), used)),
        },
        _ => Ok(Asked::Refused(RefusalKind::UnknownDirective)),
    }
}

// `export(F/N)`, `export([F/N,..])`.
fn export(alloc: Global, line: u64, arguments: &[Term]) -> Result<Asked, NoMemory>
    ensures { IfOk result (λ asked. asked ≡ export line arguments.now) }
{
    match arguments {
        [exports] => match one_or_more(alloc, line, exports)? {
            None => Ok(Asked::Refused(RefusalKind::UnknownDirective)),
            Some(exports) => Ok(Asked::Exports(exports)),
        },
        _ => Ok(Asked::Refused(RefusalKind::UnknownDirective)),
    }
}

// What a directive asks, by the text of its name, the name and the arguments.
fn asked_named(
    alloc: Global,
    names: &Names,
    line: u64,
    text: &str,
    name: u64,
    arguments: &[Term],
) -> Result<Asked, NoMemory>
    ensures { IfOk result (λ asked. asked ≡ asked_named names.now line text.now name arguments.now) }
{
    if is_declaration(name) && arguments.len() == 1 {
        return Ok(Asked::Nothing);
    }
    if is_module_directive(text, arguments.len()) {
        return Ok(Asked::Refused(RefusalKind::BadModule));
    }
    if is_passed_over(text, arguments.len()) {
        return Ok(Asked::Nothing);
    }
    if text == "export" {
        return export(alloc, line, arguments);
    }
    if text == "use_package" {
        return use_package(alloc, names, arguments);
    }
    if text == "use_module" {
        return use_module(alloc, names, line, arguments);
    }
    Ok(Asked::Refused(RefusalKind::UnknownDirective))
}

// What the directive `:- D` asks.
fn asked_at(alloc: Global, names: &Names, line: u64, directive: &Term) -> Result<Asked, NoMemory>
    ensures { IfOk result (λ asked. asked ≡ asked_at names.now line (out-Term directive.now)) }
{
    match directive {
        Term::Node(name, parts) => asked_named(
            alloc,
            names,
            line,
            names.text_or_empty(*name),
            *name,
            parts.as_slice(),
        ),
        Term::Var(_) | Term::Int(_) | Term::Atom(_) => {
            Ok(Asked::Refused(RefusalKind::UnknownDirective))
        }
    }
}

/// What a sentence in this line asks.
///
/// # Errors
/// Want of memory.
pub(crate) fn asked_of(
    alloc: Global,
    names: &Names,
    line: u64,
    term: &Term,
) -> Result<Asked, NoMemory>
    ensures { IfOk result (λ request. request ≡ asked names.now line term.now) }
{
    match term.single(NECK) {
        None => Ok(Asked::Nothing),
        Some(directive) => asked_at(alloc, names, line, directive),
    }
}
