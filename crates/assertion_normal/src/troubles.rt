// What is wrong with the names of properties.
ghost use Rattle.std.specs.Prelude.{◌≡◌, map};
ghost use Rattle.assertion_normal.specs.Troubles.{meaning_trouble, property_trouble, comp_trouble, rank, worse, worst_from, written_in, own_trouble, trouble_of, is_before, sooner, troubled, least_trouble, told};

use crate::NormalFault;
use crate::properties::{comp_prop, needs_no_type, type_name};
use crate::settling::counts;
use assertion_read::{Assertion, Written};
use prog_data::Seen;
use regtype_grammar::{Meaning, type_meant};
use sqlite_items::Items;
use term_core::Names;

/// What is wrong with a name that is to be a property.
#[derive(Clone, Copy, Drop, Debug)]
pub enum Trouble {
    /// It means nothing.
    Unknown,
    /// It means several types.
    Several,
}

/// A trouble, and the line of its assertion.
#[derive(Clone, Copy, Drop)]
pub(crate) struct Troubled {
    pub(crate) line: u64,
    pub(crate) trouble: Trouble,
}

fn meaning_trouble(meaning: Meaning) -> Option<Trouble>
    ensures { result ≡ meaning_trouble meaning }
{
    match meaning {
        Meaning::One(_) => None,
        Meaning::Unknown => Some(Trouble::Unknown),
        Meaning::Several => Some(Trouble::Several),
    }
}

// What is wrong with a property of an argument.
fn property_trouble(visible: &[Seen], written: Written) -> Option<Trouble>
    ensures { result ≡ property_trouble visible.now written }
{
    if needs_no_type(written) {
        return None;
    }
    meaning_trouble(type_meant(visible, type_name(written)))
}

// What is wrong with a name that is to be a property of the computation.
fn comp_trouble(names: &Names, name: u64) -> Option<Trouble>
    ensures { result ≡ comp_trouble names.now name }
{
    match comp_prop(names, name) {
        Some(_) => None,
        None => Some(Trouble::Unknown),
    }
}

fn rank(trouble: Trouble) -> u64
    ensures { result ≡ rank trouble }
{
    match trouble {
        Trouble::Unknown => 0,
        Trouble::Several => 1,
    }
}

// Of two troubles at one line the one that comes first.
fn worse(a: Option<Trouble>, b: Option<Trouble>) -> Option<Trouble>
    ensures { result ≡ worse a b }
{
    match a {
        None => b,
        Some(first) => match b {
            None => Some(first),
            Some(second) => {
                if rank(second) < rank(first) {
                    Some(second)
                } else {
                    Some(first)
                }
            }
        },
    }
}

// The first of a trouble and those of properties.
fn worst_of(visible: &[Seen], found: Option<Trouble>, list: &[Written]) -> Option<Trouble>
    ensures { result ≡ worst_from found (map (property_trouble visible.now) list.now) }
{
    let mut worst = found;
    for written in list {
        worst = worse(worst, property_trouble(visible, *written));
    }
    worst
}

// The same, where there is a postcondition.
fn worst_of_post(
    visible: &[Seen],
    found: Option<Trouble>,
    post: &Option<Items<Written>>,
) -> Option<Trouble>
    ensures { result ≡ worst_from found (map (property_trouble visible.now) (written_in post.now)) }
{
    match post {
        None => found,
        Some(list) => worst_of(visible, found, list.as_slice()),
    }
}

// The first of a trouble and those of names of the computation.
fn worst_of_comp(names: &Names, found: Option<Trouble>, list: &[u64]) -> Option<Trouble>
    ensures { result ≡ worst_from found (map (comp_trouble names.now) list.now) }
{
    let mut worst = found;
    for name in list {
        worst = worse(worst, comp_trouble(names, *name));
    }
    worst
}

fn own_trouble(names: &Names, visible: &[Seen], assertion: &Assertion) -> Option<Trouble>
    ensures { result ≡ own_trouble names.now visible.now assertion.now }
{
    let pre = worst_of(visible, None, assertion.pre.as_slice());
    let post = worst_of_post(visible, pre, &assertion.post);
    worst_of_comp(names, post, assertion.comp.as_slice())
}

/// What is wrong with the names of an assertion, if something is: of several troubles the first, where a name that means nothing comes before one that means several types. The names of an assertion without effect are not looked up.
pub fn assertion_trouble(names: &Names, visible: &[Seen], assertion: &Assertion) -> Option<Trouble>
    ensures { result ≡ trouble_of names.now visible.now assertion.now }
{
    if !counts(assertion.mark) {
        return None;
    }
    own_trouble(names, visible, assertion)
}

// Whether a trouble comes before another.
fn is_before(a: Troubled, b: Troubled) -> bool
    ensures { result ≡ is_before a b }
{
    a.line < b.line || (a.line == b.line && rank(a.trouble) < rank(b.trouble))
}

// Of two troubles the one that comes first.
fn sooner(a: Option<Troubled>, b: Option<Troubled>) -> Option<Troubled>
    ensures { result ≡ sooner a b }
{
    match a {
        None => b,
        Some(first) => match b {
            None => Some(first),
            Some(second) => {
                if is_before(second, first) {
                    Some(second)
                } else {
                    Some(first)
                }
            }
        },
    }
}

// The trouble of an assertion at its line.
fn trouble_with_line(names: &Names, visible: &[Seen], assertion: &Assertion) -> Option<Troubled>
    ensures { result ≡ troubled names.now visible.now assertion.now }
{
    match assertion_trouble(names, visible, assertion) {
        None => None,
        Some(trouble) => Some(Troubled {
            line: assertion.line,
            trouble,
        }),
    }
}

/// The trouble of assertions that comes first.
pub(crate) fn least_trouble(names: &Names, visible: &[Seen], list: &[Assertion]) -> Option<Troubled>
    ensures { result ≡ least_trouble names.now visible.now list.now }
{
    let mut least = None;
    for assertion in list {
        least = sooner(least, trouble_with_line(names, visible, assertion));
    }
    least
}

/// A trouble as it is told.
pub(crate) fn told(troubled: Troubled) -> NormalFault
    ensures { result ≡ told troubled }
{
    match troubled.trouble {
        Trouble::Unknown => NormalFault::UnknownProperty(troubled.line),
        Trouble::Several => NormalFault::Ambiguous(troubled.line),
    }
}
