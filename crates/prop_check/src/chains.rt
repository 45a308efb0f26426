// The names to which the parts of a compound belong, as a chain on the stack.
ghost use Rattle.std.specs.Prelude.{◌≡◌, ◌&&◌, ◌∷◌, [], option_copied};
ghost use Rattle.std.specs.List.{list_all};
ghost use Rattle.prog_data.specs.Values.{bit_at};
ghost use Rattle.prog_data.specs.declared.basic_names.TheConstants.{GND_TYPE};
ghost use Rattle.prop_check.specs.Sets.{each_has, last_name};
ghost use Rattle.prop_check.specs.Chains.{sets_of, sets_behind};

use crate::sets::has;
use prog_data::GND_TYPE;

/// The names to which a part of a compound belongs, and the parts behind it.
#[derive(Clone, Copy)]
pub(crate) struct Known<'a> {
    pub(crate) names: &'a [u64; 8],
    pub(crate) behind: Option<&'a Known<'a>>,
}

/// A part, before those behind it.
pub(crate) fn link<'a>(names: &'a [u64; 8], behind: Option<&'a Known<'a>>) -> Known<'a>
    ensures { sets_of result ≡ bit_at names.now ∷ sets_behind (option_copied behind.entry) }
{
    Known { names, behind }
}

// Whether there is no part.
fn is_end(behind: Option<&Known>) -> bool
    ensures { result ≡ each_has (sets_behind (option_copied behind.entry)) [] }
{
    match behind {
        None => true,
        Some(_) => false,
    }
}

// Whether the first part has the first name, and the parts behind it have the other names in their places.
#[cycle(chain)]
fn first_has(known: &Known, first: u64, rest: &[u64]) -> bool
    ensures { result ≡ each_has (sets_of known.now) (first ∷ rest.now) }
{
    if !has(known.names, first) {
        return false;
    }
    all_have(known.behind, rest)
}

/// Whether each part has the name in its place, and there are as many.
#[cycle(chain)]
pub(crate) fn all_have(behind: Option<&Known>, names: &[u64]) -> bool
    ensures { result ≡ each_has (sets_behind (option_copied behind.entry)) names.now }
{
    match names {
        [] => is_end(behind),
        [first, rest @ ..] => match behind {
            None => false,
            Some(known) => first_has(known, *first, rest),
        },
    }
}

// The name, where there is no other.
fn alone(name: u64, others: &[u64]) -> Option<u64>
    ensures { result ≡ last_name [] (name ∷ others.now) }
{
    match others {
        [] => Some(name),
        _ => None,
    }
}

// The last of the names, where the first part and those behind it have the names before it.
#[cycle(last)]
fn last_behind(known: &Known, first: u64, rest: &[u64]) -> Option<u64>
    ensures { result ≡ last_name (sets_of known.now) (first ∷ rest.now) }
{
    if !has(known.names, first) {
        return None;
    }
    last_name(known.behind, rest)
}

/// The last of the names, where each part has the name in its place, and there is one name more.
#[cycle(last)]
pub(crate) fn last_name(behind: Option<&Known>, names: &[u64]) -> Option<u64>
    ensures { result ≡ last_name (sets_behind (option_copied behind.entry)) names.now }
{
    match names {
        [] => None,
        [first, rest @ ..] => match behind {
            None => alone(*first, rest),
            Some(known) => last_behind(known, *first, rest),
        },
    }
}

// Whether a part and those behind it have the name gnd.
fn from_ground(known: &Known) -> bool
    ensures { result ≡ list_all (λ has. has GND_TYPE) (sets_of known.now) }
{
    if !has(known.names, GND_TYPE) {
        return false;
    }
    match known.behind {
        None => true,
        Some(next) => from_ground(next),
    }
}

/// Whether each part has the name gnd.
pub(crate) fn all_ground(behind: Option<&Known>) -> bool
    ensures { result ≡ list_all (λ has. has GND_TYPE) (sets_behind (option_copied behind.entry)) }
{
    match behind {
        None => true,
        Some(known) => from_ground(known),
    }
}
