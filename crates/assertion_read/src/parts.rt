// The parts of a sentence that is an assertion.
ghost use Rattle.std.specs.Prelude.{◌≡◌, Some, None, option_copied, MatchOption};
ghost use Rattle.term_core.specs.declared.terms.Term.{out-Term};
ghost use Rattle.term_core.specs.declared.fixed.TheConstants.{NECK};
ghost use Rattle.term_core.specs.Shapes.{single_of};
ghost use Rattle.assertion_read.specs.Words.{word_at, mark_at, may_have};
ghost use Rattle.assertion_read.specs.Parts.{asserted, keyword_at, behind_mark, directive_at, behind_neck};
ghost use Rattle.assertion_read.specs.declared.assertions.Word.TheVariants as words;

use crate::{Mark, Word};
use term_core::{
    CALLS, CHECK, CHECKED, COMP, ENTRY, FALSE, NECK, PRED, SUCCESS, TRUE, TRUST, Term,
};

fn word_at(name: u64) -> Option<Word>
    ensures { result ≡ word_at name }
{
    match name {
        PRED => Some(Word::Pred),
        CALLS => Some(Word::Calls),
        SUCCESS => Some(Word::Success),
        COMP => Some(Word::Comp),
        ENTRY => Some(Word::Entry),
        _ => None,
    }
}

fn mark_at(name: u64) -> Option<Mark>
    ensures { result ≡ mark_at name }
{
    match name {
        TRUE => Some(Mark::True),
        FALSE => Some(Mark::False),
        CHECK => Some(Mark::Check),
        TRUST => Some(Mark::Trust),
        CHECKED => Some(Mark::Checked),
        _ => None,
    }
}

/// Whether a keyword may stand with these fields: a precondition, a postcondition and properties of the computation.
pub(crate) fn may_have(word: Word, pre: bool, post: bool, comp: bool) -> bool
    ensures { result ≡ may_have word pre post comp }
{
    match word {
        Word::Pred => true,
        Word::Calls => pre && !post && !comp,
        Word::Success => post && !comp,
        Word::Comp => !post,
        Word::Entry => !post && !comp,
    }
}

// A keyword with what stands behind it, behind a status.
fn keyword_at(mark: Mark, term: &Term) -> Option<(Mark, Word, &Term)>
    ensures { MatchOption result (keyword_at mark (out-Term term.now) ≡ None) (λ a. keyword_at mark (out-Term term.now) ≡ Some (asserted a.0 a.2.now a.1)) }
{
    match term {
        Term::Var(_) | Term::Int(_) | Term::Atom(_) => None,
        Term::Node(name, parts) => match parts.as_slice() {
            [body] => match word_at(*name) {
                None => None,
                Some(word) => Some((mark, word, body)),
            },
            _ => None,
        },
    }
}

// What stands behind a name, if that is a status.
fn behind_mark(name: u64, term: &Term) -> Option<(Mark, Word, &Term)>
    ensures { MatchOption result (behind_mark (mark_at name) term.now ≡ None) (λ a. behind_mark (mark_at name) term.now ≡ Some (asserted a.0 a.2.now a.1)) }
{
    match mark_at(name) {
        None => None,
        Some(mark) => keyword_at(mark, term),
    }
}

// A directive's status, keyword and what stands behind them.
fn directive_at(term: &Term) -> Option<(Mark, Word, &Term)>
    ensures { MatchOption result (directive_at (out-Term term.now) ≡ None) (λ a. directive_at (out-Term term.now) ≡ Some (asserted a.0 a.2.now a.1)) }
{
    match term {
        Term::Var(_) | Term::Int(_) | Term::Atom(_) => None,
        Term::Node(name, parts) => match parts.as_slice() {
            [body] => match word_at(*name) {
                None => behind_mark(*name, body),
                Some(word) => Some((Mark::Check, word, body)),
            },
            _ => None,
        },
    }
}

/// The status, the keyword and what stands behind them in a sentence.
pub(crate) fn asserted(term: &Term) -> Option<(Mark, Word, &Term)>
    ensures { MatchOption result (behind_neck (single_of NECK (out-Term term.now)) ≡ None) (λ a. behind_neck (single_of NECK (out-Term term.now)) ≡ Some (asserted a.0 a.2.now a.1)) }
{
    match term.single(NECK) {
        None => None,
        Some(directive) => directive_at(directive),
    }
}
