// Equations of terms, and what solving them gives.
ghost use Rattle.std.specs.Prelude.{List};
ghost use Rattle.term_core.specs.declared.equations.Equation.{Equation as EquationValue};
ghost use Rattle.term_core.specs.Solutions.{HasOneOutcome};

use crate::Term;
use sqlite_items::Items;

/// Two terms that are to become the same.
#[derive(Drop, Debug)]
pub struct Equation {
    pub left: Term,
    pub right: Term,
}

/// A variable and what stands for it.
#[derive(Drop, Debug)]
pub struct Binding {
    pub variable: u64,
    pub value: Term,
}

/// How the solving of equations ends.
#[derive(Drop, Debug)]
pub enum Outcome {
    /// By bindings, each made after those before it.
    Solved(Items<Binding>),
    Clash,
    Cyclic,
}

/// Equations have exactly one outcome: bindings that solve them, and of which all solutions are made, or an end where
/// nothing solves them.
pub fn unification_law()
    ensures { (es : List EquationValue) → HasOneOutcome es }
{}
