// Assertions with their properties looked up.
ghost use Rattle.std.specs.Prelude.{◌≡◌, ◌∷◌, Some, List, IfOk, IfErr};
ghost use Rattle.assertion_read.specs.declared.assertions.Assertion.{Assertion as AssertionValue};
ghost use Rattle.assertion_normal.specs.Settling.{counts, counting, keyword_of, in_order, all_asked, post_asked, comp_props, settled, all_settled, IsNoRoom};
ghost use Rattle.assertion_normal.specs.Ranges.{IsGrown};

use crate::NormalFault;
use crate::properties::{asked, comp_prop};
use assertion_read::{Assertion, Mark, Word, Written};
use prog_data::{CompProp, Grammar, Keyword, Prop, Seen};
use sqlite_items::Items;
use std::alloc::Global;
use term_core::{Names, NoMemory};

/// An assertion by what its properties ask. An entry has no keyword.
#[derive(Drop)]
pub(crate) struct Settled {
    pub(crate) keyword: Option<Keyword>,
    pub(crate) pre: Items<Prop>,
    pub(crate) post: Option<Items<Prop>>,
    pub(crate) comp: Items<CompProp>,
    pub(crate) line: u64,
}

/// Whether an assertion of this status has an effect.
pub(crate) fn counts(mark: Mark) -> bool
    ensures { result ≡ counts mark }
{
    match mark {
        Mark::Check | Mark::Trust => true,
        Mark::True | Mark::Checked | Mark::False => false,
    }
}

// The keyword by which an assertion is reported.
fn keyword_of(word: Word) -> Option<Keyword>
    ensures { result ≡ keyword_of word }
{
    match word {
        Word::Pred => Some(Keyword::Pred),
        Word::Calls => Some(Keyword::Calls),
        Word::Success => Some(Keyword::Success),
        Word::Comp => Some(Keyword::Comp),
        Word::Entry => None,
    }
}

// What properties ask, from left to right.
fn all_asked(
    alloc: Global,
    visible: &[Seen],
    grammar: &mut Grammar,
    list: &[Written],
) -> Result<Items<Prop>, NormalFault>
    ensures ok { IfOk result (λ props. all_asked visible.now grammar.old list.now ≡ Some (grammar.new, props)) }
    ensures err { IfErr result (IsNoRoom (all_asked visible.now grammar.old list.now)) }
    ensures grown { IsGrown visible.now grammar.old grammar.new }
{
    let mut props = Items::new(alloc);
    for written in list {
        let prop = asked(alloc, visible, grammar, *written)?;
        props.push(prop)?;
    }
    Ok(props)
}

// What a postcondition asks, if there is one.
fn post_asked(
    alloc: Global,
    visible: &[Seen],
    grammar: &mut Grammar,
    post: &Option<Items<Written>>,
) -> Result<Option<Items<Prop>>, NormalFault>
    ensures ok { IfOk result (λ props. post_asked visible.now grammar.old post.now ≡ Some (grammar.new, props)) }
    ensures err { IfErr result (IsNoRoom (post_asked visible.now grammar.old post.now)) }
    ensures grown { IsGrown visible.now grammar.old grammar.new }
{
    match post {
        None => Ok(None),
        Some(list) => {
            let props = all_asked(alloc, visible, grammar, list.as_slice())?;
            Ok(Some(props))
        }
    }
}

// The properties of the computation that names are.
fn comp_props(alloc: Global, names: &Names, list: &[u64]) -> Result<Items<CompProp>, NoMemory>
    ensures { IfOk result (λ props. props ≡ comp_props names.now list.now) }
{
    let mut props = Items::new(alloc);
    for name in list {
        match comp_prop(names, *name) {
            None => {}
            Some(prop) => props.push(prop)?,
        }
    }
    Ok(props)
}

// An assertion by what its properties ask; its precondition stands before its postcondition.
fn settle(
    alloc: Global,
    names: &Names,
    visible: &[Seen],
    grammar: &mut Grammar,
    assertion: &Assertion,
) -> Result<Settled, NormalFault>
    ensures ok { IfOk result (λ one. settled names.now visible.now grammar.old assertion.now ≡ Some (grammar.new, one)) }
    ensures err { IfErr result (IsNoRoom (settled names.now visible.now grammar.old assertion.now)) }
    ensures grown { IsGrown visible.now grammar.old grammar.new }
{
    let pre = all_asked(alloc, visible, grammar, assertion.pre.as_slice())?;
    let post = post_asked(alloc, visible, grammar, &assertion.post)?;
    let comp = comp_props(alloc, names, assertion.comp.as_slice())?;
    Ok(Settled {
        keyword: keyword_of(assertion.keyword),
        pre,
        post,
        comp,
        line: assertion.line,
    })
}

// With one assertion more, if it has an effect.
fn with_next(
    alloc: Global,
    names: &Names,
    visible: &[Seen],
    grammar: &mut Grammar,
    mut so_far: Items<Settled>,
    assertion: &Assertion,
) -> Result<Items<Settled>, NormalFault>
    ensures ok { IfOk result (λ all. (rest : List AssertionValue) → in_order (settled names.now visible.now) (grammar.old, so_far) (counting (assertion.now ∷ rest)) ≡ in_order (settled names.now visible.now) (grammar.new, all) (counting rest)) }
    ensures err { IfErr result (λ fault. (rest : List AssertionValue) → IsNoRoom (in_order (settled names.now visible.now) (grammar.old, so_far) (counting (assertion.now ∷ rest))) fault) }
    ensures grown { IsGrown visible.now grammar.old grammar.new }
{
    if !counts(assertion.mark) {
        return Ok(so_far);
    }
    let one = settle(alloc, names, visible, grammar, assertion)?;
    so_far.push(one)?;
    Ok(so_far)
}

/// The assertions that have an effect, in order, by what their properties ask.
pub(crate) fn all_settled(
    alloc: Global,
    names: &Names,
    visible: &[Seen],
    grammar: &mut Grammar,
    list: &[Assertion],
) -> Result<Items<Settled>, NormalFault>
    ensures ok { IfOk result (λ all. all_settled names.now visible.now grammar.old list.now ≡ Some (grammar.new, all)) }
    ensures err { IfErr result (IsNoRoom (all_settled names.now visible.now grammar.old list.now)) }
    ensures grown { IsGrown visible.now grammar.old grammar.new }
{
    let mut all = Items::new(alloc);
    for assertion in list {
        all = with_next(alloc, names, visible, grammar, all, assertion)?;
    }
    Ok(all)
}
