// The assertion that a sentence is.
ghost use Rattle.std.specs.Prelude.{◌≡◌, Some, option_copied, IfOk, IfErr};
ghost use Rattle.assertion_read.specs.Parts.{asserted, fields_of, with_comp, with_pre, with_post};
ghost use Rattle.assertion_read.specs.Readings.{assembled, about_head, of_fields, of_asserted, fields_are, kind_of, assertion_of};
ghost use Rattle.assertion_read.specs.Heads.{head_at};
ghost use Rattle.assertion_read.specs.Ranges.{StaysInRange, AssertionsStayInRange};
ghost use Rattle.assertion_read.specs.Written.{IsAssertion, IsNoAssertion, AssertionsAreWritten};

use crate::heads::{Head, head_of};
use crate::parts::{asserted, may_have};
use crate::properties::{comp_said, post_said, pre_said};
use crate::{AssertFault, Assertion, Mark, Word};
use ciao_reader::Sentence;
use std::alloc::Global;
use term_core::{COLON, HASH, IMPLIES, Names, NoMemory, PLUS, Term};

// A status, a keyword and the line of an assertion.
#[derive(Clone, Copy, Drop)]
pub(crate) struct Kind {
    pub(crate) mark: Mark,
    pub(crate) word: Word,
    pub(crate) line: u64,
}

// The assertion about a head.
fn about_head(
    alloc: Global,
    kind: Kind,
    head: Head,
    arguments: &[Term],
    pre: Option<&Term>,
    post: Option<&Term>,
    comp: Option<&Term>,
) -> Result<Option<Assertion>, NoMemory>
    ensures { IfOk result (λ a. a ≡ about_head kind arguments.now (option_copied pre.entry) (option_copied post.entry) (option_copied comp.entry) (Some head)) }
{
    match pre_said(alloc, head, arguments, pre)? {
        None => Ok(None),
        Some(pre) => match post_said(alloc, head, arguments, post)? {
            None => Ok(None),
            Some(post) => match comp_said(alloc, comp)? {
                None => Ok(None),
                Some(comp) => Ok(Some(Assertion {
                    keyword: kind.word,
                    mark: kind.mark,
                    name: head.name,
                    arity: head.arity,
                    pre,
                    post,
                    comp,
                    line: kind.line,
                })),
            },
        },
    }
}

// The assertion of a head and fields, where the keyword may have them.
fn of_fields(
    alloc: Global,
    kind: Kind,
    head: &Term,
    pre: Option<&Term>,
    post: Option<&Term>,
    comp: Option<&Term>,
) -> Result<Option<Assertion>, NoMemory>
    ensures { IfOk result (λ a. a ≡ of_fields kind (fields_are head.now (option_copied pre.entry) (option_copied post.entry) (option_copied comp.entry))) }
{
    if !may_have(kind.word, pre.is_some(), post.is_some(), comp.is_some()) {
        return Ok(None);
    }
    match head_of(head) {
        None => Ok(None),
        Some(about) => about_head(alloc, kind, about, head.parts(), pre, post, comp),
    }
}

// The assertion of a term with its fields: that of `#` is split off first, then that of `=>`, then that of `:`, and that of `+` is split off the last of the others.
fn read_fields(alloc: Global, kind: Kind, term: &Term) -> Result<Option<Assertion>, NoMemory>
    ensures { IfOk result (λ a. a ≡ of_fields kind (fields_of term.now)) }
{
    let (rest, _comment) = term.split(HASH);
    let (rest, post) = rest.split(IMPLIES);
    let (head, pre) = rest.split(COLON);
    match post {
        Some(post) => {
            let (post, comp) = post.split(PLUS);
            of_fields(alloc, kind, head, pre, Some(post), comp)
        }
        None => match pre {
            Some(pre) => {
                let (pre, comp) = pre.split(PLUS);
                of_fields(alloc, kind, head, Some(pre), None, comp)
            }
            None => {
                let (head, comp) = head.split(PLUS);
                of_fields(alloc, kind, head, None, None, comp)
            }
        },
    }
}

// The assertion that a sentence is, none where it has no shape of one.
fn assertion_of(alloc: Global, sentence: &Sentence) -> Result<Option<Assertion>, NoMemory>
    ensures { IfOk result (λ a. a ≡ assertion_of sentence.now) }
{
    match asserted(&sentence.term) {
        None => Ok(None),
        Some((mark, word, body)) => {
            let kind = Kind {
                mark,
                word,
                line: sentence.line,
            };
            read_fields(alloc, kind, body)
        }
    }
}

/// The assertion that a sentence is.
///
/// # Errors
/// That it has no shape of an assertion, with its line; want of memory.
pub fn read_assertion(
    alloc: Global,
    _names: &Names,
    sentence: &Sentence,
) -> Result<Assertion, AssertFault>
    ensures found { IfOk result (λ a. assertion_of sentence.now ≡ Some a) }
    ensures written { IfOk result (λ a. IsAssertion sentence.now a) }
    ensures range { IfOk result (λ a. StaysInRange sentence.now a) }
    ensures none { IfErr result (IsNoAssertion sentence.now) }
{
    assertion_law();
    match assertion_of(alloc, sentence)? {
        None => Err(AssertFault::BadAssertion(sentence.line)),
        Some(assertion) => Ok(assertion),
    }
}

/// The assertion that is computed of a sentence is the one that it is written as.
pub fn assertion_law()
    ensures { AssertionsAreWritten }
{}

/// The assertion of a sentence in range is in range of the same names.
pub fn assertions_in_range_law()
    ensures { AssertionsStayInRange }
{
    assertion_law();
}
