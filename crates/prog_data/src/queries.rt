// Which predicate a query calls.
ghost use Rattle.std.specs.Prelude.{◌≡◌};
ghost use Rattle.term_core.specs.declared.terms.Term.{out-Term};
ghost use Rattle.prog_data.specs.Goals.{calls_pred, is_called, called_by};

use crate::{Pred, Program};
use term_core::Term;

fn is_call_of(query: &Term, pred: &Pred) -> bool
    ensures { result ≡ calls_pred pred.now (out-Term query.now) }
{
    match query {
        Term::Atom(name) => *name == pred.name && pred.arity == 0,
        Term::Node(name, args) => *name == pred.name && pred.arity == args.len() as u64,
        Term::Var(_) | Term::Int(_) => false,
    }
}

fn is_called(program: &Program, query: &Term, number: u64) -> bool
    ensures { result ≡ is_called program.now query.now number }
{
    match program.preds.get(number as usize) {
        Some(pred) => is_call_of(query, pred),
        None => false,
    }
}

/// The exported predicate that a query calls: it has the query's name and as many arguments.
pub fn called_by(program: &Program, query: &Term) -> Option<u64>
    ensures { result ≡ called_by program.now query.now }
{
    for number in program.exports.as_slice() {
        if is_called(program, query, *number) {
            return Some(*number);
        }
    }
    None
}
