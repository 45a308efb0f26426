// What the fields of an assertion say.
ghost use Rattle.std.specs.Prelude.{◌≡◌, ◌+◌, suc, List, Option, Some, None, length, option_and_then, option_copied, option_map, IfOk};
ghost use Rattle.term_core.specs.declared.terms.Term.{out-Term};
ghost use Rattle.term_core.specs.declared.fixed.TheConstants.{TIMES, TRUE};
ghost use Rattle.term_core.specs.Terms.{is_atom_of};
ghost use Rattle.term_core.specs.Operands.{joined_said};
ghost use Rattle.assertion_read.specs.Heads.{argument_of};
ghost use Rattle.assertion_read.specs.Properties.{plain, listed, property_at, placed_at, said_of_variables, said_in_order, said, computation_said};
ghost use Rattle.assertion_read.specs.Readings.{pre_said, post_said, comp_said};

use crate::Written;
use crate::heads::{Head, argument_of};
use sqlite_items::Items;
use std::alloc::Global;
use term_core::{COMMA, LIST, NoMemory, TIMES, TRUE, Term, both, one, with_last};

// Whether a field is the atom `true`, the empty conjunction.
fn is_true(term: &Term) -> bool
    ensures { result ≡ is_atom_of TRUE (out-Term term.now) }
{
    match term {
        Term::Atom(name) => *name == TRUE,
        Term::Var(_) | Term::Int(_) | Term::Node(_, _) => false,
    }
}

// Lists of an element, whose type an atom names.
fn listed(element: &Term, argument: u64) -> Option<Written>
    ensures { result ≡ listed (out-Term element.now) argument }
{
    match element {
        Term::Atom(name) => Some(Written {
            property: LIST,
            arg: argument,
            element: Some(*name),
        }),
        Term::Var(_) | Term::Int(_) | Term::Node(_, _) => None,
    }
}

fn plain(name: u64, argument: u64) -> Written
    ensures { result ≡ plain name argument }
{
    Written {
        property: name,
        arg: argument,
        element: None,
    }
}

// `N(V)`, with a variable of the head.
fn plain_property(arguments: &[Term], name: u64, variable: &Term) -> Option<Written>
    ensures { result ≡ option_map (plain name) (argument_of arguments.now variable.now) }
{
    match argument_of(arguments, variable) {
        None => None,
        Some(argument) => Some(plain(name, argument)),
    }
}

// `list(V,E)`, with a variable of the head.
fn listed_property(arguments: &[Term], variable: &Term, element: &Term) -> Option<Written>
    ensures { result ≡ option_and_then (listed (out-Term element.now)) (argument_of arguments.now variable.now) }
{
    match argument_of(arguments, variable) {
        None => None,
        Some(argument) => listed(element, argument),
    }
}

fn property_at(arguments: &[Term], term: &Term) -> Option<Written>
    ensures { result ≡ property_at arguments.now (out-Term term.now) }
{
    match term {
        Term::Var(_) | Term::Int(_) | Term::Atom(_) => None,
        Term::Node(name, parts) => match parts.as_slice() {
            [variable] => plain_property(arguments, *name, variable),
            [variable, element] => {
                if *name == LIST {
                    listed_property(arguments, variable, element)
                } else {
                    None
                }
            }
            _ => None,
        },
    }
}

fn placed_at(argument: u64, term: &Term) -> Option<Written>
    ensures { result ≡ placed_at argument (out-Term term.now) }
{
    match term {
        Term::Var(_) | Term::Int(_) => None,
        Term::Atom(name) => Some(plain(*name, argument)),
        Term::Node(name, parts) => match parts.as_slice() {
            [element] => {
                if *name == LIST {
                    listed(element, argument)
                } else {
                    None
                }
            }
            _ => None,
        },
    }
}

// The properties that terms joined by commas say.
fn joined_properties(
    alloc: Global,
    arguments: &[Term],
    term: &Term,
) -> Result<Option<Items<Written>>, NoMemory>
    ensures { IfOk result (λ properties. properties ≡ joined_said (property_at arguments.now) term.now) }
{
    match term.operands(COMMA) {
        None => match property_at(arguments, term) {
            None => Ok(None),
            Some(property) => Ok(Some(one(alloc, property)?)),
        },
        Some((left, right)) => match joined_properties(alloc, arguments, left)? {
            None => Ok(None),
            Some(properties) => match joined_properties(alloc, arguments, right)? {
                None => Ok(None),
                Some(more) => Ok(Some(both(properties, more)?)),
            },
        },
    }
}

// Properties of the variables of a head.
fn said_of_variables(
    alloc: Global,
    arguments: &[Term],
    term: &Term,
) -> Result<Option<Items<Written>>, NoMemory>
    ensures { IfOk result (λ properties. properties ≡ said_of_variables arguments.now term.now) }
{
    if is_true(term) {
        return Ok(Some(Items::new(alloc)));
    }
    joined_properties(alloc, arguments, term)
}

// A property for each of so many arguments, in order.
fn said_in_order(alloc: Global, arity: u64, term: &Term) -> Result<Option<Items<Written>>, NoMemory>
    ensures { IfOk result (λ properties. properties ≡ said_in_order arity term.now) }
{
    if arity == 0 {
        return Ok(None);
    }
    match term.operands(TIMES) {
        None => {
            if arity != 1 {
                return Ok(None);
            }
            match placed_at(0, term) {
                None => Ok(None),
                Some(property) => Ok(Some(one(alloc, property)?)),
            }
        }
        Some((left, right)) => match said_in_order(alloc, arity - 1, left)? {
            None => Ok(None),
            Some(properties) => match placed_at(arity - 1, right) {
                None => Ok(None),
                Some(property) => Ok(Some(with_last(properties, property)?)),
            },
        },
    }
}

// What a field says of the arguments of a head.
fn said(
    alloc: Global,
    head: Head,
    arguments: &[Term],
    term: &Term,
) -> Result<Option<Items<Written>>, NoMemory>
    ensures { IfOk result (λ properties. properties ≡ said head arguments.now term.now) }
{
    if head.by_number {
        said_in_order(alloc, head.arity, term)
    } else {
        said_of_variables(alloc, arguments, term)
    }
}

/// What a precondition says, nothing where it is not there.
pub(crate) fn pre_said(
    alloc: Global,
    head: Head,
    arguments: &[Term],
    pre: Option<&Term>,
) -> Result<Option<Items<Written>>, NoMemory>
    ensures { IfOk result (λ properties. properties ≡ pre_said head arguments.now (option_copied pre.entry)) }
{
    match pre {
        None => Ok(Some(Items::new(alloc))),
        Some(term) => said(alloc, head, arguments, term),
    }
}

/// What a postcondition says, if there is one.
pub(crate) fn post_said(
    alloc: Global,
    head: Head,
    arguments: &[Term],
    post: Option<&Term>,
) -> Result<Option<Option<Items<Written>>>, NoMemory>
    ensures { IfOk result (λ properties. properties ≡ post_said head arguments.now (option_copied post.entry)) }
{
    match post {
        None => Ok(Some(None)),
        Some(term) => match said(alloc, head, arguments, term)? {
            None => Ok(None),
            Some(properties) => Ok(Some(Some(properties))),
        },
    }
}

// The names of atoms joined by commas.
fn joined_atoms(alloc: Global, term: &Term) -> Result<Option<Items<u64>>, NoMemory>
    ensures { IfOk result (λ names. names ≡ computation_said term.now) }
{
    match term.operands(COMMA) {
        None => match term.atom() {
            None => Ok(None),
            Some(name) => Ok(Some(one(alloc, name)?)),
        },
        Some((left, right)) => match joined_atoms(alloc, left)? {
            None => Ok(None),
            Some(names) => match joined_atoms(alloc, right)? {
                None => Ok(None),
                Some(more) => Ok(Some(both(names, more)?)),
            },
        },
    }
}

/// The names of properties of the computation, none where the field is not there.
pub(crate) fn comp_said(alloc: Global, comp: Option<&Term>) -> Result<Option<Items<u64>>, NoMemory>
    ensures { IfOk result (λ names. names ≡ comp_said (option_copied comp.entry)) }
{
    match comp {
        None => Ok(Some(Items::new(alloc))),
        Some(term) => joined_atoms(alloc, term),
    }
}
