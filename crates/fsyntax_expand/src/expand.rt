// Sentences.
ghost use Rattle.std.specs.Prelude.{◌≡◌, ◌∷◌, ◌++◌, ◌||◌, not, [], MatchOption, OnOk, IfOk, option_copied, ℕ, ◌≤◌, length};
ghost use Rattle.std.specs.List.{AllByRecursion};
ghost use Rattle.term_core.specs.Names.{fixed_names};
ghost use Rattle.term_core.specs.Shapes.{pair_of};
ghost use Rattle.term_core.specs.declared.fixed.TheConstants.{BAR, NECK, DEFINES};
ghost use Rattle.term_core.specs.declared.terms.Term.{out-Term};
ghost use Rattle.term_core.specs.declared.terms.Term as Term;
ghost use Rattle.ciao_reader.specs.Ranges.{IsSentenceInRange};
ghost use Rattle.dcg_expand.specs.Making.{Expands};
ghost use Rattle.fsyntax_expand.specs.Expansion.{uses, all_made, plain_clause, definition_clause, definition_clauses, rule_clauses, clause_clauses, term_clauses, FunctionalExpanded, Adds};
ghost use Rattle.fsyntax_expand.specs.Ranges.{ClausesStayInRange};

use crate::definitions::{definition_clause, has_conditional, is_conditional, plain_clause};
use ciao_reader::Sentence;
use dcg_expand::ExpandFault;
use sqlite_items::Items;
use std::alloc::Global;
use term_core::{BAR, DEFINES, NECK, NIL, NoMemory, Term, discard};

// Lets a sentence go.
fn discard_sentence(sentence: Sentence) {
    let Sentence { term, .. } = sentence;
    discard(term);
}

// Lets sentences go.
fn discard_sentences(sentences: Items<Sentence>) {
    let mut left = sentences;
    while let Some(sentence) = left.pop() {
        discard_sentence(sentence);
    }
}

// Adds a sentence at the end. What was expanded may be of any depth.
#[tactic(auto, using(crate::proofs::Joining::set_last))]
fn add_sentence(clauses: &mut Items<Sentence>, sentence: Sentence) -> Result<(), NoMemory>
    ensures { OnOk result (clauses.new ≡ clauses.old ++ sentence ∷ []) }
{
    let place = clauses.len();
    let empty = Sentence {
        term: Term::Atom(NIL),
        line: 0,
        vars: 0,
    };
    match clauses.push(empty) {
        Err(_) => {
            discard_sentence(sentence);
            Err(NoMemory)
        }
        Ok(()) => {
            clauses.set(place, sentence);
            Ok(())
        }
    }
}

// Adds the clause of a definition whose result has one clause.
fn add_definition(
    alloc: Global,
    sentence: &Sentence,
    head: &Term,
    body: Option<&Term>,
    value: &Term,
    clauses: &mut Items<Sentence>,
) -> Result<(), ExpandFault>
    ensures { Adds result clauses.new (all_made sentence.now.line sentence.now.vars clauses.old (definition_clause head.now (option_copied body.entry) value.now ∷ [])) }
{
    let mut vars = sentence.vars;
    let term = definition_clause(alloc, head, body, value, &mut vars)?;
    let made = Sentence {
        term,
        line: sentence.line,
        vars,
    };
    Ok(add_sentence(clauses, made)?)
}

// Adds a clause that defines nothing.
fn add_plain(
    alloc: Global,
    sentence: &Sentence,
    head: &Term,
    body: Option<&Term>,
    clauses: &mut Items<Sentence>,
) -> Result<(), ExpandFault>
    ensures { Adds result clauses.new (all_made sentence.now.line sentence.now.vars clauses.old (plain_clause head.now (option_copied body.entry) ∷ [])) }
{
    let mut vars = sentence.vars;
    let term = plain_clause(alloc, head, body, &mut vars)?;
    let made = Sentence {
        term,
        line: sentence.line,
        vars,
    };
    Ok(add_sentence(clauses, made)?)
}

// Whether two results that a bar joins have clauses of their own.
fn are_apart(left: &Term, right: &Term) -> bool
    ensures { result ≡ not ((uses left.now).is_conditional || (uses right.now).has_conditional) }
{
    if is_conditional(left) {
        false
    } else {
        !has_conditional(right)
    }
}

// The two results that a bar joins, where each has clauses of its own.
fn apart(value: &Term) -> Option<(&Term, &Term)>
    ensures { MatchOption result ((uses value.now).alternatives ≡ value.now ∷ []) (λ parts. (value.now ≡ Term.Node BAR (parts.0.now ∷ parts.1.now ∷ [])) × ((uses value.now).alternatives ≡ (uses parts.0.now).alternatives ++ (uses parts.1.now).alternatives)) }
{
    match value.operands(BAR) {
        None => None,
        Some((left, right)) => {
            if are_apart(left, right) {
                Some((left, right))
            } else {
                None
            }
        }
    }
}

// Adds the clauses of a definition.
fn add_definitions(
    alloc: Global,
    sentence: &Sentence,
    head: &Term,
    body: Option<&Term>,
    value: &Term,
    clauses: &mut Items<Sentence>,
) -> Result<(), ExpandFault>
    ensures { Adds result clauses.new (all_made sentence.now.line sentence.now.vars clauses.old (definition_clauses head.now (option_copied body.entry) value.now)) }
{
    match apart(value) {
        None => add_definition(alloc, sentence, head, body, value, clauses),
        Some((left, right)) => {
            add_definitions(alloc, sentence, head, body, left, clauses)?;
            add_definitions(alloc, sentence, head, body, right, clauses)?;
            Ok(())
        }
    }
}

// Adds the clauses of a clause `Head :- Body`.
fn add_rule(
    alloc: Global,
    sentence: &Sentence,
    head: &Term,
    body: &Term,
    clauses: &mut Items<Sentence>,
) -> Result<(), ExpandFault>
    ensures { Adds result clauses.new (all_made sentence.now.line sentence.now.vars clauses.old (rule_clauses head.now body.now (pair_of DEFINES (out-Term head.now)))) }
{
    match head.operands(DEFINES) {
        None => add_plain(alloc, sentence, head, Some(body), clauses),
        Some((name, value)) => add_definitions(alloc, sentence, name, Some(body), value, clauses),
    }
}

// Adds the clauses of a clause that is no definition without a body.
fn add_clause(
    alloc: Global,
    sentence: &Sentence,
    clauses: &mut Items<Sentence>,
) -> Result<(), ExpandFault>
    ensures { Adds result clauses.new (all_made sentence.now.line sentence.now.vars clauses.old (clause_clauses sentence.now.term (pair_of NECK (out-Term sentence.now.term)))) }
{
    match sentence.term.operands(NECK) {
        None => add_plain(alloc, sentence, &sentence.term, None, clauses),
        Some((head, body)) => add_rule(alloc, sentence, head, body, clauses),
    }
}

// Adds the clauses of a clause.
fn add_all(
    alloc: Global,
    sentence: &Sentence,
    clauses: &mut Items<Sentence>,
) -> Result<(), ExpandFault>
    ensures { Adds result clauses.new (all_made sentence.now.line sentence.now.vars clauses.old (term_clauses sentence.now.term)) }
{
    match sentence.term.operands(DEFINES) {
        None => add_clause(alloc, sentence, clauses),
        Some((name, value)) => add_definitions(alloc, sentence, name, None, value, clauses),
    }
}

// The clauses that a clause stands for.
fn clauses_of(alloc: Global, clause: &Sentence) -> Result<Items<Sentence>, ExpandFault>
    ensures { Expands result (FunctionalExpanded clause.now) }
{
    let mut clauses = Items::new(alloc);
    match add_all(alloc, clause, &mut clauses) {
        Ok(()) => Ok(clauses),
        Err(fault) => {
            discard_sentences(clauses);
            Err(fault)
        }
    }
}

/// The clauses that a clause stands for, in order. The new variables of each are numbered behind its own.
///
/// # Errors
/// Where the tables have no line for it, and where memory is refused or no variable number is left.
pub fn expand_clause(alloc: Global, clause: &Sentence) -> Result<Items<Sentence>, ExpandFault>
    ensures expanded { Expands result (FunctionalExpanded clause.now) }
    ensures in_range { IfOk result (λ clauses. (names : ℕ) → length fixed_names ≤ names → IsSentenceInRange names clause.now → AllByRecursion (IsSentenceInRange names) clauses) }
{
    clauses_of(alloc, clause)
}

/// Where a clause is in range, so are the clauses that it stands for.
pub fn clauses_in_range_law()
    ensures { ClausesStayInRange }
{}
