// By what terms are told from one another before they are unified.
ghost use Rattle.std.specs.Prelude.{◌≡◌, map, IfOk};
ghost use Rattle.term_core.specs.declared.terms.Term.{out-Term};
ghost use Rattle.clause_index.specs.Keys.{key_at, first_key, head_key, is_free};

use prog_data::Clause;
use sqlite_items::Items;
use std::alloc::Global;
use term_core::{NoMemory, Term};

/// What a term is outermost: a variable, an integer, an atom, or a compound with a name and so many arguments.
#[derive(Clone, Copy, Drop, Debug, PartialEq, Eq, Hash)]
pub enum Key {
    Free,
    Int(i64),
    Atom(u64),
    Node(u64, u64),
}

/// The key of a term.
pub fn key_of(term: &Term) -> Key
    ensures { result ≡ key_at (out-Term term.now) }
{
    match term {
        Term::Var(_) => Key::Free,
        Term::Int(number) => Key::Int(*number),
        Term::Atom(name) => Key::Atom(*name),
        Term::Node(name, parts) => Key::Node(*name, parts.len() as u64),
    }
}

// The key of the first of some terms.
fn first_key(terms: &[Term]) -> Key
    ensures { result ≡ first_key terms.now }
{
    match terms.first() {
        Some(term) => key_of(term),
        None => Key::Free,
    }
}

/// The keys of the heads of some clauses.
pub(crate) fn head_keys(alloc: Global, clauses: &[Clause]) -> Result<Items<Key>, NoMemory>
    ensures { IfOk result (λ keys. keys ≡ map head_key clauses.now) }
{
    let mut keys = Items::new(alloc);
    for clause in clauses {
        keys.push(first_key(clause.head.as_slice()))?;
    }
    Ok(keys)
}

/// Whether a key is that of a variable.
pub(crate) fn is_free(key: Key) -> bool
    ensures { result ≡ is_free key }
{
    match key {
        Key::Free => true,
        Key::Int(_) => false,
        Key::Atom(_) => false,
        Key::Node(_, _) => false,
    }
}
