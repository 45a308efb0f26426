// The grammar names of the first types of modules.
ghost use Rattle.std.specs.Prelude.{◌≡◌, ◌≤◌, ◌<◌, ◌+◌, MatchOption, IfOk};
ghost use Rattle.regtype_grammar.specs.TypeNames.{count_types, first_names};

use crate::TypeModule;
use sqlite_items::Items;
use std::alloc::Global;
use term_core::NoMemory;

// The name behind so many types, none where that is above 512.
fn behind(next: u64, count: u64) -> Option<u64>
    requires { next ≤ 512 }
    ensures { MatchOption result (512 < next + count) (λ after. (after ≡ next + count) × (after ≤ 512)) }
{
    if count > 512 - next {
        None
    } else {
        Some(next + count)
    }
}

/// The grammar name of each module's first type, and the name behind all types; none where there are more than 502 types.
pub(crate) fn first_names(
    alloc: Global,
    modules: &[TypeModule],
) -> Result<Option<(Items<u64>, u64)>, NoMemory>
    ensures { IfOk result (λ o. MatchOption o (512 < count_types modules.now + 10) (λ s. (s.0 ≡ first_names modules.now) × (s.1 ≡ count_types modules.now + 10) × (s.1 ≤ 512))) }
{
    let mut firsts = Items::new(alloc);
    let mut next = 10;
    for one in modules {
        firsts.push(next)?;
        match behind(next, one.types.len() as u64) {
            None => return Ok(None),
            Some(after) => next = after,
        }
    }
    Ok(Some((firsts, next)))
}
