// The clauses of a regular type.
ghost use Rattle.std.specs.Prelude.{◌≡◌, ◌&&◌, true, false, map, nat_eq, IfOk, OnOk, ◌++◌, ◌∷◌, [], MatchOption, Some, None};
ghost use Rattle.std.specs.List.{list_any};
ghost use Rattle.term_core.specs.declared.terms.Term.{out-Term};
ghost use Rattle.term_core.specs.Terms.{occurrences};
ghost use Rattle.ciao_reader.specs.declared.sentences.Sentence.{Sentence as SentenceValue};
ghost use Rattle.regtype_grammar.specs.TypeClauses.{are_once, are_among, is_regular, with_argument, clause_of, ClausesAreWritten};

use crate::literals::{Literal, body_literals};
use ciao_reader::Sentence;
use indexmap::IndexSet;
use sqlite_items::Items;
use std::alloc::Global;
use term_core::{NECK, NoMemory, Term};

// Adds the variables of a term, each as often as it stands there.
fn add_occurrences(variables: &mut Items<u64>, term: &Term) -> Result<(), NoMemory>
    ensures { OnOk result (variables.new ≡ variables.old ++ occurrences term.now) }
{
    match term {
        Term::Var(variable) => {
            variables.push(*variable)?;
            Ok(())
        }
        Term::Int(_) | Term::Atom(_) => Ok(()),
        Term::Node(_, parts) => {
            for part in parts.as_slice() {
                add_occurrences(variables, part)?;
            }
            Ok(())
        }
    }
}

fn occurrences(alloc: Global, term: &Term) -> Result<Items<u64>, NoMemory>
    ensures { IfOk result (λ variables. variables ≡ occurrences term.now) }
{
    let mut variables = Items::new(alloc);
    add_occurrences(&mut variables, term)?;
    Ok(variables)
}

// Adds a number that is not there.
fn add_new(set: &mut IndexSet<u64>, number: u64) -> Result<(), NoMemory>
    requires { list_any (nat_eq number) set.old.keys ≡ false }
    ensures { OnOk result ((set.new.keys ≡ set.old.keys ++ number ∷ []) × (list_any (nat_eq number) set.old.keys ≡ false)) }
{
    set.insert(number)?;
    Ok(())
}

// The numbers as a set, none where one of them stands twice.
fn distinct(alloc: Global, numbers: &[u64]) -> Result<Option<IndexSet<u64>>, NoMemory>
    ensures { IfOk result (λ set. MatchOption set (are_once numbers.now ≡ false) (λ s. (s.keys ≡ numbers.now) × (are_once numbers.now ≡ true))) }
{
    let mut set = IndexSet::new(alloc);
    for number in numbers {
        if set.contains(number) {
            return Ok(None);
        }
        add_new(&mut set, *number)?;
    }
    Ok(Some(set))
}

// Whether each number is one of others.
fn are_among(others: &IndexSet<u64>, numbers: &[u64]) -> bool
    ensures { result ≡ are_among others.now.keys numbers.now }
{
    for number in numbers {
        if !others.contains(number) {
            return false;
        }
    }
    true
}

// Whether no number stands twice.
fn are_once(alloc: Global, numbers: &[u64]) -> Result<bool, NoMemory>
    ensures { IfOk result (λ test. test ≡ are_once numbers.now) }
{
    let set = distinct(alloc, numbers)?;
    Ok(set.is_some())
}

// Whether each number is one of others, and none stands twice.
fn are_bound(alloc: Global, variables: &IndexSet<u64>, bound: &[u64]) -> Result<bool, NoMemory>
    ensures { IfOk result (λ test. test ≡ (are_among variables.now.keys bound.now && are_once bound.now)) }
{
    if !are_among(variables, bound) {
        return Ok(false);
    }
    let once = are_once(alloc, bound)?;
    Ok(once)
}

// The same where there are others.
fn is_bound(
    alloc: Global,
    variables: Option<IndexSet<u64>>,
    bound: &[u64],
) -> Result<bool, NoMemory>
    ensures { IfOk result (λ test. MatchOption variables (test ≡ false) (λ s. test ≡ (are_among s.keys bound.now && are_once bound.now))) }
{
    match variables {
        None => Ok(false),
        Some(set) => {
            let test = are_bound(alloc, &set, bound)?;
            Ok(test)
        }
    }
}

fn variables_of(alloc: Global, literals: &[Literal]) -> Result<Items<u64>, NoMemory>
    ensures { IfOk result (λ variables. variables ≡ map (λ l. l.variable) literals.now) }
{
    let mut variables = Items::new(alloc);
    for literal in literals {
        variables.push(literal.variable)?;
    }
    Ok(variables)
}

fn is_regular(alloc: Global, argument: &Term, literals: &[Literal]) -> Result<bool, NoMemory>
    ensures { IfOk result (λ test. test ≡ is_regular argument.now literals.now) }
{
    let variables = occurrences(alloc, argument)?;
    let bound = variables_of(alloc, literals)?;
    let set = distinct(alloc, variables.as_slice())?;
    let test = is_bound(alloc, set, bound.as_slice())?;
    Ok(test)
}

/// The head's argument and the literals of a sentence that is a clause of the type of this name.
pub(crate) fn clause_of<'a>(
    alloc: Global,
    name: u64,
    sentence: &'a Sentence,
) -> Result<Option<(&'a Term, Items<Literal>)>, NoMemory>
    ensures { IfOk result (λ clause. MatchOption clause (clause_of name sentence.now ≡ None) (λ c. clause_of name sentence.now ≡ Some (record { argument = c.0.now; literals = c.1 }))) }
{
    let (head, body) = sentence.term.split(NECK);
    match head.single(name) {
        None => Ok(None),
        Some(argument) => match body_literals(alloc, body)? {
            None => Ok(None),
            Some(literals) => {
                if is_regular(alloc, argument, literals.as_slice())? {
                    Ok(Some((argument, literals)))
                } else {
                    Ok(None)
                }
            }
        },
    }
}

/// The clause that is computed of a sentence is the one that it is written as.
pub fn clause_law()
    ensures { ClausesAreWritten }
{}
