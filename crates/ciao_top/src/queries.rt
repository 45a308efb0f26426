// How a query is read, and whether it meets an entry.
ghost use Rattle.std.specs.Prelude.{◌≡◌, ◌==◌, ◌&&◌, true, List, ℕ, length, IfOk, IfSome, IfNone};
ghost use Rattle.term_core.specs.Lists.{IsPrefix};
ghost use Rattle.term_core.specs.Ranges.{has_names};
ghost use Rattle.term_core.specs.Shapes.{parts_of};
ghost use Rattle.term_core.specs.declared.terms.Term.{Term as TermValue, out-Term};
ghost use Rattle.prog_data.specs.Conditions.{all_hold};
ghost use Rattle.ciao_top.specs.Queries.{IsQuery, MeetsEntry, query_meets_entry};
ghost use Rattle.ciao_top.specs.InnerAnswers.{wants_memory, CallFaults};

use crate::stops::Reason;
use ciao_reader::{ReadFault, one_goal_law, read_goal};
use prog_data::{Entry, Program, called_by};
use prop_check::all_hold;
use std::alloc::Global;
use term_core::{Names, NoMemory, OpTable, Term};

// Whether memory was refused.
fn wants_memory(fault: &ReadFault) -> bool
    ensures { result ≡ wants_memory fault.now }
{
    matches!(fault, ReadFault::NoMemory)
}

/// The query that the text is by these operators, or `None` where it is none. Its new names are added.
///
/// # Errors
/// Want of memory.
pub(crate) fn read_query(
    alloc: Global,
    names: &mut Names,
    ops: &OpTable,
    text: &str,
) -> Result<Option<Term>, NoMemory>
    ensures some { IfOk result (λ answer. IfSome answer (λ query. IsQuery ops.now names.old text.now names.new query)) }
    ensures none { IfOk result (λ answer. IfNone answer ((more : List (List ℕ)) (query : TermValue) → IsQuery ops.now names.old text.now more query → ⊥)) }
    ensures in_range { IfOk result (λ answer. IfSome answer (λ query. has_names (length names.new) query ≡ true)) }
    ensures kept { IsPrefix names.old names.new }
{
    ops.made();
    one_goal_law(); // for the proof
    match read_goal(alloc, names, ops, text) {
        Err(fault) => {
            if wants_memory(&fault) {
                Err(NoMemory)
            } else {
                Ok(None)
            }
        }
        Ok(goal) => Ok(Some(goal.term)),
    }
}

// The arguments of a query.
fn arguments(query: &Term) -> &[Term]
    ensures { result.now ≡ parts_of (out-Term query.now) }
{
    match query {
        Term::Node(_, args) => args.as_slice(),
        Term::Var(_) | Term::Int(_) | Term::Atom(_) => &[],
    }
}

// Whether an entry is of the predicate with this number, and its precondition holds of the arguments.
fn is_met(program: &Program, entry: &Entry, pred: u64, args: &[Term]) -> bool
    ensures { result ≡ ((entry.now.pred == pred) && all_hold program.now.grammar args.now entry.now.pre) }
{
    entry.pred == pred && all_hold(&program.grammar, entry.pre.as_slice(), args)
}

// Whether a query, which calls the predicate with this number, meets an entry of that.
fn query_meets_entry(program: &Program, pred: u64, query: &Term) -> bool
    ensures { result ≡ query_meets_entry program.now pred query.now }
{
    let args = arguments(query);
    for entry in program.entries.as_slice() {
        if is_met(program, entry, pred, args) {
            return true;
        }
    }
    false
}

/// Why a query is not to be run, if it is not: it calls no exported predicate of the main module, or it meets no entry.
pub(crate) fn call_fault(program: &Program, query: &Term) -> Option<Reason>
    ensures met { IfNone result (MeetsEntry program.now query.now) }
    ensures fault { IfSome result (CallFaults program.now query.now) }
{
    match called_by(program, query) {
        None => Some(Reason::QueryNotExported),
        Some(pred) => {
            if query_meets_entry(program, pred, query) {
                None
            } else {
                Some(Reason::QueryNoEntry)
            }
        }
    }
}
