// The predicate that an assertion is about.
ghost use Rattle.std.specs.Prelude.{◌≡◌, ◌&&◌, ◌==◌, not};
ghost use Rattle.std.specs.List.{list_any, position_or_len};
ghost use Rattle.term_core.specs.declared.terms.Term.{out-Term};
ghost use Rattle.term_core.specs.Terms.{is_variable};
ghost use Rattle.assertion_read.specs.Heads.{is_same_variable, are_distinct_variables, argument_of, is_field, number_form, by_number_at, compound_head, head_at};

use term_core::{COLON, HASH, IMPLIES, PLUS, SLASH, Term};

/// The name and the number of arguments of a predicate, which stands as `p/N` or with its arguments.
#[derive(Clone, Copy, Drop)]
pub(crate) struct Head {
    pub(crate) name: u64,
    pub(crate) arity: u64,
    pub(crate) by_number: bool,
}

fn is_same_variable(left: &Term, right: &Term) -> bool
    ensures { result ≡ is_same_variable (out-Term left.now) (out-Term right.now) }
{
    match left {
        Term::Var(variable) => match right {
            Term::Var(other) => variable == other,
            Term::Int(_) | Term::Atom(_) | Term::Node(_, _) => false,
        },
        Term::Int(_) | Term::Atom(_) | Term::Node(_, _) => false,
    }
}

// The number of arguments before a variable.
fn before(arguments: &[Term], term: &Term) -> u64
    ensures { result ≡ position_or_len (λ u. is_same_variable (out-Term term.now) (out-Term u)) arguments.now }
{
    for (at, other) in arguments.iter().enumerate() {
        if is_same_variable(term, other) {
            return at as u64;
        }
    }
    arguments.len() as u64
}

/// The place of a variable among the arguments of a head.
pub(crate) fn argument_of(arguments: &[Term], term: &Term) -> Option<u64>
    ensures { result ≡ argument_of arguments.now term.now }
{
    let at = before(arguments, term);
    if at < arguments.len() as u64 {
        Some(at)
    } else {
        None
    }
}

// Whether a term is the same variable as one of others.
fn is_among(term: &Term, others: &[Term]) -> bool
    ensures { result ≡ list_any (λ u. is_same_variable (out-Term term.now) (out-Term u)) others.now }
{
    others.iter().any(|other| is_same_variable(term, other))
}

// Whether a term is a variable that is none of others.
fn is_new_variable(term: &Term, others: &[Term]) -> bool
    ensures { result ≡ (is_variable (out-Term term.now) && not (list_any (λ u. is_same_variable (out-Term term.now) (out-Term u)) others.now)) }
{
    term.is_variable() && !is_among(term, others)
}

fn are_distinct_variables(terms: &[Term]) -> bool
    ensures { result ≡ are_distinct_variables terms.now }
{
    let mut at = 0;
    while at < terms.len() {
        if !is_new_variable(&terms[at], &terms[at + 1..]) {
            return false;
        }
        at += 1;
    }
    true
}

// Whether a name with so many arguments stands before a field of an assertion.
fn is_field(name: u64, arity: u64) -> bool
    ensures { result ≡ is_field name arity }
{
    arity == 2 && matches!(name, HASH | IMPLIES | COLON | PLUS)
}

// The head `p/N` of a name and a number.
fn number_form(name: &Term, number: &Term) -> Option<Head>
    ensures { result ≡ number_form (out-Term name.now) (out-Term number.now) }
{
    match name {
        Term::Atom(name) => match number {
            Term::Int(arity) => {
                if *arity >= 0 {
                    Some(Head {
                        name: *name,
                        arity: *arity as u64,
                        by_number: true,
                    })
                } else {
                    None
                }
            }
            Term::Var(_) | Term::Atom(_) | Term::Node(_, _) => None,
        },
        Term::Var(_) | Term::Int(_) | Term::Node(_, _) => None,
    }
}

// The head `p/N` of a compound.
fn by_number(name: u64, arguments: &[Term]) -> Option<Head>
    ensures { result ≡ by_number_at name arguments.now }
{
    match arguments {
        [left, right] => {
            if name == SLASH {
                number_form(left, right)
            } else {
                None
            }
        }
        _ => None,
    }
}

fn compound_head(name: u64, arguments: &[Term]) -> Option<Head>
    ensures { result ≡ compound_head name arguments.now }
{
    let arity = arguments.len() as u64;
    if !are_distinct_variables(arguments) {
        return by_number(name, arguments);
    }
    if is_field(name, arity) {
        return None;
    }
    Some(Head {
        name,
        arity,
        by_number: false,
    })
}

/// What a term is as a head.
pub(crate) fn head_of(term: &Term) -> Option<Head>
    ensures { result ≡ head_at (out-Term term.now) }
{
    match term {
        Term::Var(_) | Term::Int(_) => None,
        Term::Atom(name) => Some(Head {
            name: *name,
            arity: 0,
            by_number: false,
        }),
        Term::Node(name, parts) => compound_head(*name, parts.as_slice()),
    }
}
