// Clauses as terms.
ghost use Rattle.std.specs.Prelude.{◌≡◌, ◌∷◌, [], IfOk};
ghost use Rattle.term_core.specs.declared.terms.Term as term;
ghost use Rattle.term_core.specs.declared.fixed.TheConstants.{COLON};
ghost use Rattle.prog_data.specs.Goals.{pred_of};
ghost use Rattle.prog_data.specs.declared.goals.Goal.{out-Goal};
ghost use Rattle.run_report.specs.ClauseTerms.{applied, builtin_name, module_term, call_term, goal_term, rule_term, clause_term};
ghost use Rattle.run_report.specs.TermLaws.{BuiltinNamesMean};

use crate::modules::module_term;
use prog_data::{Builtin, Clause, Goal, LIST_TYPE, Pred, Program, control_law};
use sqlite_items::Items;
use std::alloc::Global;
use term_core::{
    ARROW, ATOM, COLON, COMMA, CUT, EQUALS, EXIT, FAIL, GREATER, GREATER_OR_EQUAL, GROUND, INTEGER,
    IS, LESS, LESS_OR_EQUAL, NECK, NEGATION, NIL, NL, NONVAR, NOT_EQUALS, NOT_SAME, NUMBER_EQUALS,
    NUMBER_NOT_EQUALS, Names, NoMemory, SAME, SEMICOLON, TERM, TRUE, Term, VAR, WRITE, WRITEQ,
    copy, one,
};

fn copies(alloc: Global, terms: &[Term]) -> Result<Items<Term>, NoMemory>
    ensures { IfOk result (λ ts. ts ≡ terms.now) }
{
    let mut made = Items::new(alloc);
    for term in terms {
        made.push(copy(alloc, term)?)?;
    }
    Ok(made)
}

fn two_parts(alloc: Global, name: u64, first: Term, second: Term) -> Result<Term, NoMemory>
    ensures { IfOk result (λ t. t ≡ term.Node name (first ∷ second ∷ [])) }
{
    let mut parts = one(alloc, first)?;
    parts.push(second)?;
    Ok(Term::Node(name, parts))
}

// A name with arguments: an atom where there are none.
fn applied(alloc: Global, name: u64, args: &[Term]) -> Result<Term, NoMemory>
    ensures { IfOk result (λ t. t ≡ applied name args.now) }
{
    if args.is_empty() {
        Ok(Term::Atom(name))
    } else {
        Ok(Term::Node(name, copies(alloc, args)?))
    }
}

// The name of a built-in.
fn builtin_name(builtin: Builtin) -> u64
    ensures { result ≡ builtin_name builtin }
{
    match builtin {
        Builtin::Unify => EQUALS,
        Builtin::NotUnify => NOT_EQUALS,
        Builtin::Same => SAME,
        Builtin::NotSame => NOT_SAME,
        Builtin::Is => IS,
        Builtin::Less => LESS,
        Builtin::Greater => GREATER,
        Builtin::LessEq => LESS_OR_EQUAL,
        Builtin::GreaterEq => GREATER_OR_EQUAL,
        Builtin::NumEq => NUMBER_EQUALS,
        Builtin::NumNotEq => NUMBER_NOT_EQUALS,
        Builtin::Integer => INTEGER,
        Builtin::Atom => ATOM,
        Builtin::Write => WRITE,
        Builtin::Writeq => WRITEQ,
        Builtin::Nl => NL,
        Builtin::Belongs(type_name) => TERM + type_name.min(LIST_TYPE),
        Builtin::IsVar => VAR,
        Builtin::IsNonvar => NONVAR,
        Builtin::IsGround => GROUND,
    }
}

/// The name that is written for a built-in means that built-in when it is read (Ciao manual, "Basic data types and
/// properties"; ISO/IEC 13211-1, 8).
pub fn builtin_names_law()
    ensures { BuiltinNamesMean }
{
    control_law();
}

// A call of a predicate, behind its module.
fn call_term(
    alloc: Global,
    names: &Names,
    module_name: u64,
    name: u64,
    args: &[Term],
) -> Result<Term, NoMemory>
    ensures { IfOk result (λ t. t ≡ term.Node COLON (module_term names.now module_name ∷ applied name args.now ∷ [])) }
{
    let home = module_term(alloc, names, module_name)?;
    let goal = applied(alloc, name, args)?;
    two_parts(alloc, COLON, home, goal)
}

// A call of the predicate with a number.
fn numbered_call(
    alloc: Global,
    program: &Program,
    pred: u64,
    args: &[Term],
) -> Result<Term, NoMemory>
    ensures { IfOk result (λ t. t ≡ call_term program.now (pred_of program.now pred) args.now) }
{
    match program.preds.get(pred as usize) {
        Some(pred) => call_term(alloc, &program.names, pred.module, pred.name, args),
        None => call_term(alloc, &program.names, NIL, NIL, args),
    }
}

// A goal as a term.
fn goal_term(alloc: Global, program: &Program, goal: &Goal) -> Result<Term, NoMemory>
    ensures { IfOk result (λ t. t ≡ goal_term program.now goal.now) }
{
    match goal {
        Goal::True => Ok(Term::Atom(TRUE)),
        Goal::Fail => Ok(Term::Atom(FAIL)),
        Goal::Cut => Ok(Term::Atom(CUT)),
        Goal::Call(pred, args) => numbered_call(alloc, program, *pred, args.as_slice()),
        Goal::Builtin(builtin, args) => applied(alloc, builtin_name(*builtin), args.as_slice()),
        Goal::Conj(first, second) => {
            let first = goal_term(alloc, program, first.get())?;
            let second = goal_term(alloc, program, second.get())?;
            two_parts(alloc, COMMA, first, second)
        }
        Goal::Disj(first, second) => {
            let first = goal_term(alloc, program, first.get())?;
            let second = goal_term(alloc, program, second.get())?;
            two_parts(alloc, SEMICOLON, first, second)
        }
        Goal::IfElse(condition, first, second) => {
            let condition = goal_term(alloc, program, condition.get())?;
            let first = goal_term(alloc, program, first.get())?;
            let second = goal_term(alloc, program, second.get())?;
            let chosen = two_parts(alloc, ARROW, condition, first)?;
            two_parts(alloc, SEMICOLON, chosen, second)
        }
        Goal::Not(denied) => {
            let denied = goal_term(alloc, program, denied.get())?;
            Ok(Term::Node(NEGATION, one(alloc, denied)?))
        }
        Goal::Exit => Ok(Term::Atom(EXIT)),
    }
}

// A head alone where the body is `true`, else before the body.
fn rule_term(alloc: Global, program: &Program, head: Term, body: &Goal) -> Result<Term, NoMemory>
    ensures { IfOk result (λ t. t ≡ rule_term program.now head body.now (out-Goal body.now)) }
{
    match body {
        Goal::True => Ok(head),
        _ => {
            let body = goal_term(alloc, program, body)?;
            two_parts(alloc, NECK, head, body)
        }
    }
}

/// A clause as a term, its variables under their own numbers.
pub(crate) fn clause_term(
    alloc: Global,
    program: &Program,
    pred: &Pred,
    clause: &Clause,
) -> Result<Term, NoMemory>
    ensures { IfOk result (λ t. t ≡ clause_term program.now pred.now clause.now) }
{
    let head = applied(alloc, pred.name, clause.head.as_slice())?;
    rule_term(alloc, program, head, &clause.body)
}
