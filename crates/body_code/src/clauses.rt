// Heads of clauses, and what is wrong with a sentence as a clause.
ghost use Rattle.std.specs.Prelude.{◌≡◌};
ghost use Rattle.term_core.specs.declared.terms.Term.{out-Term};
ghost use Rattle.body_code.specs.Clauses.{is_sentence_name, may_be_head, indicator_where, indicator_at, indicator_of, body_term, body_problem, problem_of};

use crate::problems::problem_in;
use crate::{Indicator, Problem, Scope};
use prog_data::meaning_of;
use term_core::{DEFINES, GRAMMAR_ARROW, NECK, QUERY, Term};

// Whether no head has the name, since a sentence of it is no clause.
fn is_sentence_name(name: u64) -> bool
    ensures { result ≡ is_sentence_name name }
{
    matches!(name, NECK | GRAMMAR_ARROW | QUERY | DEFINES)
}

// Whether a clause may have a head of this name with so many arguments.
fn may_be_head(name: u64, arity: u64) -> bool
    ensures { result ≡ may_be_head name arity }
{
    match meaning_of(name, arity) {
        Some(_) => false,
        None => !is_sentence_name(name),
    }
}

// The name and the number of arguments, where they may be those of a head.
fn indicator_where(name: u64, arity: u64) -> Option<Indicator>
    ensures { result ≡ indicator_where (may_be_head name arity) name arity }
{
    if may_be_head(name, arity) {
        Some(Indicator { name, arity })
    } else {
        None
    }
}

// The name and the number of arguments of a head.
fn head_indicator(head: &Term) -> Option<Indicator>
    ensures { result ≡ indicator_at (out-Term head.now) }
{
    match head {
        Term::Var(_) | Term::Int(_) => None,
        Term::Atom(name) => indicator_where(*name, 0),
        Term::Node(name, arguments) => indicator_where(*name, arguments.len() as u64),
    }
}

/// The predicate of which a sentence is a clause, whatever its body is; None where its head is no head of a clause: a variable, a number, control, a built-in, or a name of other sentences.
pub fn clause_indicator(sentence: &Term) -> Option<Indicator>
    ensures { result ≡ indicator_of sentence.now }
{
    head_indicator(sentence.split(NECK).0)
}

/// The problem of the body of a sentence, where there is one.
pub(crate) fn body_problem(scope: &Scope, sentence: &Term) -> Option<Problem>
    ensures { result ≡ body_problem scope.now (body_term sentence.now) }
{
    match sentence.split(NECK).1 {
        None => None,
        Some(body) => problem_in(scope, body),
    }
}

/// What is wrong with a sentence as a clause: its head, else of the problems of its goals the one that comes first.
pub fn clause_problem(scope: &Scope, sentence: &Term) -> Option<Problem>
    ensures { result ≡ problem_of scope.now sentence.now }
{
    match clause_indicator(sentence) {
        None => Some(Problem::BadClause),
        Some(_) => body_problem(scope, sentence),
    }
}
