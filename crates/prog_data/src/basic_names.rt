// The grammar names that every program has.
ghost use Rattle.std.specs.Prelude.{◌≡◌, [], ◌∷◌, IfOk};
ghost use Rattle.prog_data.specs.BasicNames.{basic_grammar};
ghost use Rattle.prog_data.specs.GrammarRange.{IsGrammar};

use crate::{Basic, Grammar, Rule};
use sqlite_items::Items;
use std::alloc::Global;
use term_core::{CELL, NIL, NoMemory};

/// The grammar name term.
pub const TERM_TYPE: u64 = 0;

/// The grammar name int.
pub const INT_TYPE: u64 = 1;

/// The grammar name nnegint.
pub const NNEGINT_TYPE: u64 = 2;

/// The grammar name num.
pub const NUM_TYPE: u64 = 3;

/// The grammar name atm.
pub const ATM_TYPE: u64 = 4;

/// The grammar name gnd.
pub const GND_TYPE: u64 = 5;

/// The grammar name constant.
pub const CONSTANT_TYPE: u64 = 6;

/// The grammar name struct.
pub const STRUCT_TYPE: u64 = 7;

/// The grammar name callable.
pub const CALLABLE_TYPE: u64 = 8;

/// The grammar name list.
pub const LIST_TYPE: u64 = 9;

// A name with one rule.
fn one_rule(alloc: Global, rule: Rule) -> Result<Items<Rule>, NoMemory>
    ensures { IfOk result (λ rules. rules ≡ rule ∷ []) }
{
    let mut rules = Items::new(alloc);
    rules.push(rule)?;
    Ok(rules)
}

// A name with two rules.
fn two_rules(alloc: Global, first: Rule, second: Rule) -> Result<Items<Rule>, NoMemory>
    ensures { IfOk result (λ rules. rules ≡ first ∷ second ∷ []) }
{
    let mut rules = one_rule(alloc, first)?;
    rules.push(second)?;
    Ok(rules)
}

// The cells whose first argument is any term and whose second one is a list.
fn cell_rule(alloc: Global) -> Result<Rule, NoMemory>
    ensures { IfOk result (λ rule. rule ≡ Rule.Node CELL (TERM_TYPE ∷ LIST_TYPE ∷ [])) }
{
    let names = Items::from_slice(alloc, &[TERM_TYPE, LIST_TYPE])?;
    Ok(Rule::Node(CELL, names))
}

// The names 0 to 4: term, int, nnegint, num and atm.
fn first_names(alloc: Global) -> Result<Items<Items<Rule>>, NoMemory>
    ensures { IfOk result (λ rules. rules ≡ (Rule.Basic Basic.Term ∷ []) ∷ (Rule.Basic Basic.Int ∷ []) ∷ (Rule.Basic Basic.Nnegint ∷ []) ∷ (Rule.Unit INT_TYPE ∷ []) ∷ (Rule.Basic Basic.Atm ∷ []) ∷ []) }
{
    let mut rules = Items::new(alloc);
    rules.push(one_rule(alloc, Rule::Basic(Basic::Term))?)?;
    rules.push(one_rule(alloc, Rule::Basic(Basic::Int))?)?;
    rules.push(one_rule(alloc, Rule::Basic(Basic::Nnegint))?)?;
    rules.push(one_rule(alloc, Rule::Unit(INT_TYPE))?)?;
    rules.push(one_rule(alloc, Rule::Basic(Basic::Atm))?)?;
    Ok(rules)
}

/// The grammar of the basic names, which are term, int, nnegint, num, atm, gnd, constant, struct,
/// callable and list, numbered from 0 (Ciao manual, "Basic data types and properties").
pub fn basic_grammar(alloc: Global) -> Result<Grammar, NoMemory>
    ensures is { IfOk result (λ grammar. grammar ≡ basic_grammar) }
    ensures range { IfOk result (λ grammar. IsGrammar grammar) }
{
    let mut rules = first_names(alloc)?;
    rules.push(one_rule(alloc, Rule::Basic(Basic::Gnd))?)?;
    rules.push(two_rules(alloc, Rule::Basic(Basic::Int), Rule::Basic(Basic::Atm))?)?;
    rules.push(one_rule(alloc, Rule::Basic(Basic::Struct))?)?;
    rules.push(two_rules(alloc, Rule::Basic(Basic::Atm), Rule::Basic(Basic::Struct))?)?;
    let list = two_rules(alloc, Rule::Atom(NIL), cell_rule(alloc)?)?;
    rules.push(list)?;
    Ok(Grammar { rules })
}
