// The literals in the bodies of types' clauses.
ghost use Rattle.std.specs.Prelude.{◌≡◌, map, Some, IfOk, option_copied};
ghost use Rattle.term_core.specs.declared.terms.Term.{out-Term};
ghost use Rattle.term_core.specs.declared.fixed.TheConstants.{TRUE};
ghost use Rattle.term_core.specs.Terms.{is_atom_of};
ghost use Rattle.term_core.specs.Operands.{all_said, joined_said};
ghost use Rattle.regtype_grammar.specs.TypeClauses.{plain_literal, list_literal, literal_at, body_literals};

use sqlite_items::Items;
use std::alloc::Global;
use term_core::{LIST, NoMemory, TRUE, Term, conjuncts};

/// A variable, and the name of its type or of the type of its elements.
#[derive(Clone, Copy, Drop)]
pub(crate) struct Literal {
    pub(crate) variable: u64,
    pub(crate) name: u64,
    pub(crate) in_list: bool,
}

fn plain_literal(name: u64, term: &Term) -> Option<Literal>
    ensures { result ≡ plain_literal name (out-Term term.now) }
{
    match term {
        Term::Var(variable) => Some(Literal {
            variable: *variable,
            name,
            in_list: false,
        }),
        Term::Int(_) | Term::Atom(_) | Term::Node(_, _) => None,
    }
}

fn list_literal(term: &Term, name: Option<u64>) -> Option<Literal>
    ensures { result ≡ list_literal (out-Term term.now) name }
{
    match term {
        Term::Var(variable) => match name {
            None => None,
            Some(name) => Some(Literal {
                variable: *variable,
                name,
                in_list: true,
            }),
        },
        Term::Int(_) | Term::Atom(_) | Term::Node(_, _) => None,
    }
}

fn literal_at(term: &Term) -> Option<Literal>
    ensures { result ≡ literal_at (out-Term term.now) }
{
    match term {
        Term::Var(_) | Term::Int(_) | Term::Atom(_) => None,
        Term::Node(name, parts) => match parts.as_slice() {
            [variable] => plain_literal(*name, variable),
            [variable, element] => {
                if *name == LIST {
                    list_literal(variable, element.atom())
                } else {
                    None
                }
            }
            _ => None,
        },
    }
}

// Whether a body is the atom `true`, the empty conjunction.
fn is_true(term: &Term) -> bool
    ensures { result ≡ is_atom_of TRUE (out-Term term.now) }
{
    match term {
        Term::Atom(name) => *name == TRUE,
        Term::Var(_) | Term::Int(_) | Term::Node(_, _) => false,
    }
}

// The literals that terms are, none where one of them is no literal.
fn literals_of(alloc: Global, terms: &[&Term]) -> Result<Option<Items<Literal>>, NoMemory>
    ensures { IfOk result (λ literals. literals ≡ all_said (λ t. literal_at (out-Term t)) (map (λ t. t.now) terms.now)) }
{
    let mut literals = Items::new(alloc);
    for term in terms {
        match literal_at(term) {
            None => return Ok(None),
            Some(literal) => literals.push(literal)?,
        }
    }
    Ok(Some(literals))
}

// The literals that commas join.
fn joined_literals(alloc: Global, term: &Term) -> Result<Option<Items<Literal>>, NoMemory>
    ensures { IfOk result (λ literals. literals ≡ joined_said literal_at term.now) }
{
    let terms = conjuncts(alloc, term)?;
    let literals = literals_of(alloc, terms.as_slice())?;
    Ok(literals)
}

/// The literals of a body, none where it is absent or `true`.
pub(crate) fn body_literals(
    alloc: Global,
    body: Option<&Term>,
) -> Result<Option<Items<Literal>>, NoMemory>
    ensures { IfOk result (λ literals. literals ≡ body_literals (option_copied body.entry)) }
{
    match body {
        None => Ok(Some(Items::new(alloc))),
        Some(term) => {
            if is_true(term) {
                return Ok(Some(Items::new(alloc)));
            }
            joined_literals(alloc, term)
        }
    }
}
