// What names mean as types.
ghost use Rattle.std.specs.Prelude.{◌≡◌, ◌∷◌, filter};
ghost use Rattle.regtype_grammar.specs.TypeNames.{is_named, is_basic_name, is_basic_type, meaning_of, meaning, MeaningsStayInRange};

use prog_data::Seen;
use term_core::{GROUND, LIST, TERM, VAR};

/// What a name means as a type: a grammar name, nothing, or several.
#[derive(Clone, Copy, Drop, Debug)]
pub enum Meaning {
    One(u64),
    Unknown,
    Several,
}

// What a type of the name means, where a second one may be among others.
fn one_of(kind: u64, name: u64, others: &[Seen]) -> Meaning
    ensures { result ≡ meaning_of (record { name = name; kind = kind } ∷ filter (is_named name) others.now) }
{
    for other in others {
        if other.name == name {
            return Meaning::Several;
        }
    }
    Meaning::One(kind)
}

// What the types of a name mean.
fn meaning_of(seen: &[Seen], name: u64) -> Meaning
    ensures { result ≡ meaning_of (filter (is_named name) seen.now) }
{
    let mut at = 0;
    while at < seen.len() {
        if seen[at].name == name {
            return one_of(seen[at].kind, name, &seen[at + 1..]);
        }
        at += 1;
    }
    Meaning::Unknown
}

/// What a name means as a type: a basic type, else a type that is seen.
pub fn type_meant(seen: &[Seen], name: u64) -> Meaning
    ensures { result ≡ meaning seen.now name }
{
    match name {
        TERM..=LIST => Meaning::One(name - TERM),
        VAR..=GROUND => Meaning::Unknown,
        _ => meaning_of(seen, name),
    }
}

/// What a name means stays among the grammar names.
pub fn meanings_law()
    ensures { MeaningsStayInRange }
{}
