// Rules.
ghost use Rattle.std.specs.Prelude.{◌≡◌, ◌≤◌, ℕ, length, IfOk};
ghost use Rattle.term_core.specs.Names.{fixed_names};
ghost use Rattle.term_core.specs.Shapes.{pair_of};
ghost use Rattle.term_core.specs.declared.fixed.TheConstants.{GRAMMAR_ARROW};
ghost use Rattle.term_core.specs.declared.terms.Term.{out-Term};
ghost use Rattle.ciao_reader.specs.Ranges.{IsSentenceInRange};
ghost use Rattle.dcg_expand.specs.Making.{Makes, Expands};
ghost use Rattle.dcg_expand.specs.Expansion.{called_between, head_between, rule_clause, clause_of_rule, DcgExpanded};
ghost use Rattle.dcg_expand.specs.Ranges.{RulesStayInRange};

use crate::ExpandFault;
use crate::bodies::{translate, with_two_variables};
use crate::making::{new_variable, pair};
use ciao_reader::Sentence;
use std::alloc::Global;
use term_core::{COMMA, GRAMMAR_ARROW, NECK, Term};

// An atom or a compound with both variables.
fn called_between(
    alloc: Global,
    term: &Term,
    from: u64,
    to: u64,
    next: u64,
) -> Result<Term, ExpandFault>
    ensures { Makes result next (called_between (out-Term term.now) from to next) }
{
    match term {
        Term::Var(_) | Term::Int(_) => Err(ExpandFault::BadExpansion),
        Term::Atom(name) => with_two_variables(alloc, *name, &[], from, to, next),
        Term::Node(name, arguments) => {
            with_two_variables(alloc, *name, arguments.as_slice(), from, to, next)
        }
    }
}

// A head with both variables.
fn head_between(
    alloc: Global,
    head: &Term,
    from: u64,
    to: u64,
    next: u64,
) -> Result<Term, ExpandFault>
    ensures { Makes result next (head_between head.now from to next) }
{
    match head.operands(COMMA) {
        Some(_) => Err(ExpandFault::BadExpansion),
        None => called_between(alloc, head, from, to, next),
    }
}

// The clause of a rule.
fn rule_clause(alloc: Global, head: &Term, body: &Term, next: &mut u64) -> Result<Term, ExpandFault>
    ensures { Makes result next.new (rule_clause head.now body.now next.old) }
{
    let from = new_variable(next)?;
    let to = new_variable(next)?;
    let new_head = head_between(alloc, head, from, to, *next)?;
    let goal = translate(alloc, body, from, to, next)?;
    Ok(pair(alloc, NECK, new_head, goal)?)
}

// The clause of a term `Head --> Body`.
fn term_clause(alloc: Global, term: &Term, next: &mut u64) -> Result<Term, ExpandFault>
    ensures { Makes result next.new (clause_of_rule (pair_of GRAMMAR_ARROW (out-Term term.now)) next.old) }
{
    match term.operands(GRAMMAR_ARROW) {
        None => Err(ExpandFault::BadExpansion),
        Some((head, body)) => rule_clause(alloc, head, body, next),
    }
}

// The clause that a rule stands for.
fn clause_of(alloc: Global, rule: &Sentence) -> Result<Sentence, ExpandFault>
    ensures { Expands result (DcgExpanded rule.now) }
{
    let mut vars = rule.vars;
    let term = term_clause(alloc, &rule.term, &mut vars)?;
    Ok(Sentence {
        term,
        line: rule.line,
        vars,
    })
}

/// The clause that a rule `Head --> Body` stands for. Its new variables are numbered behind its own.
///
/// # Errors
/// Where the table has no line for it, and where memory is refused or no variable number is left.
pub fn expand_rule(alloc: Global, rule: &Sentence) -> Result<Sentence, ExpandFault>
    ensures expanded { Expands result (DcgExpanded rule.now) }
    ensures in_range { IfOk result (λ clause. (names : ℕ) → length fixed_names ≤ names → IsSentenceInRange names rule.now → IsSentenceInRange names clause) }
{
    clause_of(alloc, rule)
}

/// Where a rule is in range, so is its clause.
pub fn rules_in_range_law()
    ensures { RulesStayInRange }
{}
