// The value of a term.
ghost use Rattle.std.specs.Prelude.{◌≡◌, List, [], ◌∷◌, map};
ghost use Rattle.term_core.specs.declared.fixed.TheConstants.{MINUS};
ghost use Rattle.prog_data.specs.Arithmetic.{value, apply};
ghost use Rattle.arith_core.specs.Operations.{operation, combined, kind_of};

use crate::{ArithFault, ArithOp, apply};
use prog_data::ArithKind;
use term_core::{MINUS, MODULO, PLUS, QUOTIENT, REMAINDER, TIMES, Term};

// The operation of two operands that a name stands for.
fn operation(name: u64) -> Option<ArithOp>
    ensures { result ≡ operation name }
{
    match name {
        PLUS => Some(ArithOp::Add),
        MINUS => Some(ArithOp::Sub),
        TIMES => Some(ArithOp::Mul),
        QUOTIENT => Some(ArithOp::Quot),
        REMAINDER => Some(ArithOp::Rem),
        MODULO => Some(ArithOp::Mod),
        _ => None,
    }
}

// The fault as one of a term.
fn kind_of(fault: ArithFault) -> ArithKind
    ensures { result ≡ kind_of fault }
{
    match fault {
        ArithFault::Overflow => ArithKind::Overflow,
        ArithFault::ZeroDivisor => ArithKind::ZeroDivisor,
    }
}

// The value of `-` of one operand.
#[cycle(values)]
fn negated(part: &Term) -> Result<i64, ArithKind>
    ensures { result ≡ apply MINUS (value part.now ∷ []) }
{
    match eval(part) {
        Err(kind) => Err(kind),
        Ok(n) => match n.checked_neg() {
            Some(negative) => Ok(negative),
            None => Err(ArithKind::Overflow),
        },
    }
}

// The result of an operation on the values of its operands.
fn operated(op: ArithOp, left: i64, right: i64) -> Result<i64, ArithKind>
    ensures { result ≡ combined op left right }
{
    match apply(op, left, right) {
        Ok(n) => Ok(n),
        Err(fault) => Err(kind_of(fault)),
    }
}

// The value of a compound. The name is looked at first, then the operands from the left.
#[cycle(values)]
fn eval_compound(name: u64, parts: &[Term]) -> Result<i64, ArithKind>
    ensures { result ≡ apply name (map value parts.now) }
{
    match parts {
        [part] => {
            if name == MINUS {
                negated(part)
            } else {
                Err(ArithKind::NotNumber)
            }
        }
        [left, right] => match operation(name) {
            None => Err(ArithKind::NotNumber),
            Some(op) => match eval(left) {
                Err(kind) => Err(kind),
                Ok(x) => match eval(right) {
                    Err(kind) => Err(kind),
                    Ok(y) => operated(op, x, y),
                },
            },
        },
        _ => Err(ArithKind::NotNumber),
    }
}

/// The value of a term, or its first fault. An operation evaluates its operands from left to right. It follows the term by recursion,
/// and so takes stack for its depth.
#[cycle(values)]
pub fn eval(term: &Term) -> Result<i64, ArithKind>
    ensures { result ≡ value term.now }
{
    match term {
        Term::Var(_) => Err(ArithKind::Unbound),
        Term::Int(n) => Ok(*n),
        Term::Atom(_) => Err(ArithKind::NotNumber),
        Term::Node(name, parts) => eval_compound(*name, parts.as_slice()),
    }
}
