// What is wrong with a body: the problem that comes first. A conjunction is taken apart by a loop, since functional notation makes them longer than source is deep.
ghost use Rattle.std.specs.Prelude.{◌≡◌, map, length};
ghost use Rattle.term_core.specs.declared.terms.Term.{out-Term};
ghost use Rattle.prog_data.specs.Control.{meaning_of};
ghost use Rattle.body_code.specs.Problems.{rank, sooner, first_of, callee_problem, type_problem};
ghost use Rattle.body_code.specs.Bodies.{type_at, element_type, named_problem, body_of};

use crate::{Callee, Problem, Scope};
use prog_data::{Meaning, meaning_of};
use regtype_grammar::Meaning as TypeMeaning;
use term_core::{COMMA, Term};

fn rank(problem: Problem) -> u64
    ensures { result ≡ rank problem }
{
    match problem {
        Problem::UnknownProperty => 0,
        Problem::BadClause => 1,
        Problem::Ambiguous => 2,
        Problem::Undefined => 3,
    }
}

// Of two problems the one that comes first.
fn sooner(first: Option<Problem>, second: Option<Problem>) -> Option<Problem>
    ensures { result ≡ sooner first second }
{
    match first {
        None => second,
        Some(left) => match second {
            None => Some(left),
            Some(right) => {
                if rank(right) < rank(left) {
                    Some(right)
                } else {
                    Some(left)
                }
            }
        },
    }
}

fn callee_problem(callee: Callee) -> Option<Problem>
    ensures { result ≡ callee_problem callee }
{
    match callee {
        Callee::One(_) => None,
        Callee::Unknown => Some(Problem::Undefined),
        Callee::Several => Some(Problem::Ambiguous),
    }
}

fn type_problem(meaning: TypeMeaning) -> Option<Problem>
    ensures { result ≡ type_problem meaning }
{
    match meaning {
        TypeMeaning::One(_) => None,
        TypeMeaning::Unknown => Some(Problem::UnknownProperty),
        TypeMeaning::Several => Some(Problem::Ambiguous),
    }
}

// The type that a term names.
fn type_at(scope: &Scope, term: &Term) -> TypeMeaning
    ensures { result ≡ type_at scope.now (out-Term term.now) }
{
    match term {
        Term::Atom(name) => scope.type_of(*name),
        Term::Var(_) | Term::Int(_) | Term::Node(_, _) => TypeMeaning::Unknown,
    }
}

/// The type T of a goal `list(X,T)`.
pub(crate) fn element_type(scope: &Scope, arguments: &[Term]) -> TypeMeaning
    ensures { result ≡ element_type scope.now arguments.now }
{
    match arguments {
        [] => TypeMeaning::Unknown,
        [_only] => TypeMeaning::Unknown,
        [_tested, named] => type_at(scope, named),
        [_first, _second, _third, ..] => TypeMeaning::Unknown,
    }
}

// The problem of a name with arguments.
#[cycle(problems)]
fn named_problem(scope: &Scope, name: u64, arguments: &[Term]) -> Option<Problem>
    ensures { result ≡ named_problem scope.now (meaning_of name (length arguments.now)) name arguments.now (map (body_of scope.now) arguments.now) }
{
    match meaning_of(name, arguments.len() as u64) {
        None => callee_problem(scope.callee(name, arguments.len() as u64)),
        Some(meaning) => match meaning {
            Meaning::Control(_) => parts_problem(scope, arguments),
            Meaning::Builtin(_) => None,
            Meaning::ListTest => type_problem(element_type(scope, arguments)),
        },
    }
}

// The problem that comes first in the parts of control.
#[cycle(problems)]
fn parts_problem(scope: &Scope, parts: &[Term]) -> Option<Problem>
    ensures { result ≡ first_of (map (λ part. part.problem) (map (body_of scope.now) parts.now)) }
{
    let mut first = None;
    for part in parts {
        first = sooner(first, problem_in(scope, part));
    }
    first
}

// The problem of a term by its outermost.
#[cycle(problems)]
fn term_problem(scope: &Scope, term: &Term) -> Option<Problem>
    ensures { result ≡ (body_of scope.now term.now).problem }
{
    match term {
        Term::Var(_) | Term::Int(_) => Some(Problem::BadClause),
        Term::Atom(name) => named_problem(scope, *name, &[]),
        Term::Node(name, parts) => named_problem(scope, *name, parts.as_slice()),
    }
}

/// The problem that comes first in a body.
#[cycle(problems)]
pub(crate) fn problem_in(scope: &Scope, body: &Term) -> Option<Problem>
    ensures { result ≡ (body_of scope.now body.now).problem }
{
    let mut first = None;
    let mut left = body;
    while let Some((part, rest)) = left.operands(COMMA) {
        first = sooner(first, problem_in(scope, part));
        left = rest;
    }
    sooner(first, term_problem(scope, left))
}
