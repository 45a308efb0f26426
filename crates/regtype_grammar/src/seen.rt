// The types that are seen in a module.
ghost use Rattle.std.specs.Prelude.{◌≡◌, ◌≤◌, map, slice_index_or, true, IfOk, IfErr};
ghost use Rattle.std.specs.List.{list_all};
ghost use Rattle.regtype_grammar.specs.TypeNames.{number_of, are_few, numbered, seen_types, unnumbered, is_seen_in, are_seen, IsSeenFault};

use crate::starts::first_names;
use crate::{SeenType, TypeFault, TypeModule};
use prog_data::Seen;
use sqlite_items::Items;
use std::alloc::Global;
use term_core::NoMemory;

// Whether a type that is seen is a type of a module, and has its name.
fn is_seen_in(modules: &[TypeModule], seen: SeenType) -> bool
    ensures { result ≡ is_seen_in modules.now seen }
{
    match modules.get(seen.module as usize) {
        None => false,
        Some(one) => match one.types.as_slice().get(seen.position as usize) {
            None => false,
            Some(declared) => declared.name == seen.name,
        },
    }
}

// Whether each type that is seen is one.
fn all_seen(modules: &[TypeModule], visible: &[SeenType]) -> bool
    ensures { result ≡ list_all (is_seen_in modules.now) visible.now }
{
    for one in visible {
        if !is_seen_in(modules, *one) {
            return false;
        }
    }
    true
}

/// Whether each type that is seen in a module is a type of one of the modules, and has its name.
pub fn are_seen(modules: &[TypeModule]) -> bool
    ensures { result ≡ are_seen modules.now }
{
    for one in modules {
        if !all_seen(modules, one.visible.as_slice()) {
            return false;
        }
    }
    true
}

// The number in a place, 0 where there is none.
fn first_of(firsts: &[u64], at: u64) -> u64
    ensures { result ≡ slice_index_or firsts.now at 0 }
{
    match firsts.get(at as usize) {
        Some(first) => *first,
        None => 0,
    }
}

// The grammar name of a type that is seen.
fn number_of(firsts: &[u64], seen: SeenType) -> u64
    requires { number_of firsts.now seen ≤ 512 }
    ensures { result ≡ number_of firsts.now seen }
{
    first_of(firsts, seen.module) + seen.position
}

/// The types that are seen, each by its grammar name.
pub(crate) fn numbered(
    alloc: Global,
    firsts: &[u64],
    visible: &[SeenType],
) -> Result<Items<Seen>, NoMemory>
    requires { are_few firsts.now visible.now ≡ true }
    ensures { IfOk result (λ seen. seen ≡ numbered firsts.now visible.now) }
{
    let mut seen = Items::new(alloc);
    for one in visible {
        seen.push(Seen {
            name: one.name,
            kind: number_of(firsts, *one),
        })?;
    }
    Ok(seen)
}

// The types that each module sees, by the grammar names of the first types of all modules.
fn all_numbered(
    alloc: Global,
    firsts: &[u64],
    modules: &[TypeModule],
) -> Result<Items<Items<Seen>>, NoMemory>
    requires { list_all (λ m. are_few firsts.now m.visible) modules.now ≡ true }
    ensures { IfOk result (λ seen. seen ≡ map (λ m. numbered firsts.now m.visible) modules.now) }
{
    let mut seen = Items::new(alloc);
    for one in modules {
        let own = numbered(alloc, firsts, one.visible.as_slice())?;
        seen.push(own)?;
    }
    Ok(seen)
}

/// The types that each module sees, each by its grammar name, in the order of the modules.
///
/// # Errors
/// That there are more types than a grammar has names for, which `grammar_of` refuses too; want of memory.
pub fn seen_types(alloc: Global, modules: &[TypeModule]) -> Result<Items<Items<Seen>>, TypeFault>
    requires { are_seen modules.now ≡ true }
    ensures ok { IfOk result (λ seen. seen ≡ seen_types modules.now) }
    ensures err { IfErr result (IsSeenFault modules.now) }
{
    match first_names(alloc, modules)? {
        None => Err(TypeFault::TooManyNames),
        Some((firsts, _behind)) => {
            let seen = all_numbered(alloc, firsts.as_slice(), modules)?;
            Ok(seen)
        }
    }
}

/// The names that are seen, without their types.
pub(crate) fn unnumbered(alloc: Global, visible: &[SeenType]) -> Result<Items<Seen>, NoMemory>
    ensures { IfOk result (λ seen. seen ≡ unnumbered visible.now) }
{
    let mut seen = Items::new(alloc);
    for one in visible {
        seen.push(Seen {
            name: one.name,
            kind: 0,
        })?;
    }
    Ok(seen)
}
