// Modules as they stand before a goal.
ghost use Rattle.std.specs.Prelude.{◌≡◌, ◌++◌, List, ℕ, false, IfOk, MatchOption, bytes_eq, codes};
ghost use Rattle.term_core.specs.Names.{find_text};
ghost use Rattle.run_report.specs.ClauseTerms.{library_text, library_of, module_term};

use std::alloc::Global;
use term_core::{LIBRARY, Names, NoMemory, Term, one};

// What stands behind `library(`.
fn behind_front(text: &[u8]) -> Option<&[u8]>
    ensures { MatchOption result ((name : List ℕ) → bytes_eq (library_text name) text.now ≡ false) (λ rest. text.now ≡ codes "library(" ++ rest.now) }
{
    match text.strip_prefix(b"library(") {
        None => None,
        Some(rest) => Some(rest),
    }
}

// What stands before a last `)`.
fn before_close(text: &[u8]) -> Option<&[u8]>
    ensures { MatchOption result ((name : List ℕ) → bytes_eq (name ++ codes ")") text.now ≡ false) (λ name. text.now ≡ name.now ++ codes ")") }
{
    match text.strip_suffix(b")") {
        None => None,
        Some(name) => Some(name),
    }
}

// The name in `library(..)`.
#[tactic(auto, using(crate::proofs::LibraryNames::no_name, crate::proofs::LibraryNames::named))]
fn name_in(text: &[u8]) -> Option<&[u8]>
    ensures { MatchOption result ((name : List ℕ) → bytes_eq (library_text name) text.now ≡ false) (λ name. text.now ≡ library_text name.now) }
{
    match behind_front(text) {
        None => None,
        Some(rest) => match before_close(rest) {
            None => None,
            Some(name) => Some(name),
        },
    }
}

// The number of a name, if it is there.
fn number_of(names: &Names, name: &[u8]) -> Option<u64>
    ensures { result ≡ find_text name.now names.now }
{
    match str::from_utf8(name) {
        Ok(text) => names.find(text),
        Err(_) => {
            // Names are texts, so it is none of them.
            let _ = names.len(); // for the proof
            None
        }
    }
}

// The library that has this text as a module.
fn library_of(names: &Names, text: &str) -> Option<u64>
    ensures { result ≡ library_of names.now text.now }
{
    match name_in(text.as_bytes()) {
        None => None,
        Some(name) => number_of(names, name),
    }
}

/// A module as it stands before a goal.
pub(crate) fn module_term(alloc: Global, names: &Names, module_name: u64) -> Result<Term, NoMemory>
    ensures { IfOk result (λ t. t ≡ module_term names.now module_name) }
{
    match library_of(names, names.text_or_empty(module_name)) {
        None => Ok(Term::Atom(module_name)),
        Some(library) => Ok(Term::Node(LIBRARY, one(alloc, Term::Atom(library))?)),
    }
}
