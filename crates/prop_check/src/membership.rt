// Whether a term belongs to a grammar name.
ghost use Rattle.std.specs.Prelude.{◌≡◌, ◌∷◌, [], true, map};
ghost use Rattle.std.specs.List.{list_any};
ghost use Rattle.term_core.specs.Terms.{is_ground};
ghost use Rattle.prog_data.specs.Membership.{rules_of, leaves_within, admits, admit_each, belongs};
ghost use Rattle.prog_data.specs.declared.grammars.Grammar.{Grammar as GrammarValue};
ghost use Rattle.prog_data.specs.declared.grammars.Rule.TheVariants as rules;
ghost use Rattle.prop_check.specs.Belonging.{passes};
ghost use Rattle.prop_check.specs.Sets.{Fits};

use crate::narrowing::narrow;
use crate::sets::{has, put};
use prog_data::{Basic, GND_TYPE, Grammar, Rule};
use term_core::Term;

/// The rules of a name, none where it is not there.
pub(crate) fn rules_of(grammar: &Grammar, name: u64) -> &[Rule]
    ensures { result.now ≡ rules_of grammar.now name }
{
    match grammar.rules.get(name as usize) {
        Some(rules) => rules.as_slice(),
        None => &[],
    }
}

/// Whether the term has no variable.
pub(crate) fn is_ground(term: &Term) -> bool
    ensures { result ≡ is_ground term.now }
{
    match term {
        Term::Var(_) => false,
        Term::Int(_) | Term::Atom(_) => true,
        Term::Node(_, parts) => {
            for part in parts.as_slice() {
                if !is_ground(part) {
                    return false;
                }
            }
            true
        }
    }
}

// Whether a term is one of a basic set.
fn is_basic(basic: Basic, term: &Term) -> bool
    ensures { (g : GrammarValue) → result ≡ admits g term.now (rules.Basic basic) }
{
    match basic {
        Basic::Gnd => is_ground(term),
        Basic::Term => true,
        Basic::Int => match term {
            Term::Int(_) => true,
            Term::Var(_) | Term::Atom(_) | Term::Node(_, _) => false,
        },
        Basic::Nnegint => match term {
            Term::Int(number) => *number >= 0,
            Term::Var(_) | Term::Atom(_) | Term::Node(_, _) => false,
        },
        Basic::Atm => match term {
            Term::Atom(_) => true,
            Term::Var(_) | Term::Int(_) | Term::Node(_, _) => false,
        },
        Basic::Struct => match term {
            Term::Node(_, _) => true,
            Term::Var(_) | Term::Int(_) | Term::Atom(_) => false,
        },
    }
}

// Whether the terms belong to the names in their places, and there are as many.
#[cycle(membership)]
fn belong_each(grammar: &Grammar, terms: &[Term], names: &[u64]) -> bool
    ensures { result ≡ admit_each grammar.now (map (admits grammar.now) terms.now) names.now }
{
    if terms.len() != names.len() {
        return false;
    }
    for index in 0..terms.len() {
        if !belongs_within(grammar, &terms[index], names[index], grammar.rules.len()) {
            return false;
        }
    }
    true
}

// Whether a rule that is no unit admits the term.
#[cycle(membership)]
fn admits(grammar: &Grammar, term: &Term, rule: &Rule) -> bool
    ensures { result ≡ admits grammar.now term.now rule.now }
{
    match rule {
        Rule::Basic(basic) => is_basic(*basic, term),
        Rule::Int(wanted) => match term {
            Term::Int(number) => *number == *wanted,
            Term::Var(_) | Term::Atom(_) | Term::Node(_, _) => false,
        },
        Rule::Atom(wanted) => match term {
            Term::Atom(name) => *name == *wanted,
            Term::Var(_) | Term::Int(_) | Term::Node(_, _) => false,
        },
        Rule::Node(wanted, names) => match term {
            Term::Node(name, parts) => {
                *name == *wanted && belong_each(grammar, parts.as_slice(), names.as_slice())
            }
            Term::Var(_) | Term::Int(_) | Term::Atom(_) => false,
        },
        Rule::Unit(_) => false,
    }
}

// Whether a rule admits the term, by at most so many unit rules.
#[cycle(membership)]
fn passes(grammar: &Grammar, term: &Term, rule: &Rule, steps: usize) -> bool
    ensures { result ≡ passes (admits grammar.now term.now) steps grammar.now rule.now }
{
    match rule {
        Rule::Unit(name) => {
            if steps == 0 {
                return false;
            }
            belongs_within(grammar, term, *name, steps - 1)
        }
        Rule::Basic(_) | Rule::Int(_) | Rule::Atom(_) | Rule::Node(_, _) => {
            admits(grammar, term, rule)
        }
    }
}

// Whether the term belongs to the name, by at most so many unit rules.
#[cycle(membership)]
fn belongs_within(grammar: &Grammar, term: &Term, name: u64, steps: usize) -> bool
    ensures { result ≡ list_any (admits grammar.now term.now) (leaves_within steps grammar.now name) }
{
    for rule in rules_of(grammar, name) {
        if passes(grammar, term, rule, steps) {
            return true;
        }
    }
    false
}

// Whether it is the rule gnd.
fn is_gnd(rule: &Rule) -> bool
    ensures { result ≡ true → rule.now ≡ Rule.Basic Basic.Gnd }
{
    match rule {
        Rule::Basic(basic) => match basic {
            Basic::Gnd => true,
            Basic::Term | Basic::Int | Basic::Nnegint | Basic::Atm | Basic::Struct => false,
        },
        Rule::Int(_) | Rule::Atom(_) | Rule::Node(_, _) | Rule::Unit(_) => false,
    }
}

// Whether the rule gnd is the only one.
fn is_gnd_alone(rules: &[Rule]) -> bool
    ensures { result ≡ true → rules.now ≡ Rule.Basic Basic.Gnd ∷ [] }
{
    match rules {
        [rule] => is_gnd(rule),
        _ => false,
    }
}

// Whether names are few enough for sets, and gnd has its own rule alone: so it is in the grammar of each program.
fn fits(grammar: &Grammar) -> bool
    ensures { result ≡ true → Fits grammar.now }
{
    if grammar.rules.len() > 512 {
        return false;
    }
    is_gnd_alone(rules_of(grammar, GND_TYPE))
}

/// Whether the term belongs to the name. No variable is bound.
pub fn belongs(grammar: &Grammar, name: u64, term: &Term) -> bool
    ensures { result ≡ belongs grammar.now term.now name }
{
    if !fits(grammar) {
        return belongs_within(grammar, term, name, grammar.rules.len());
    }
    let mut names = [0; 8];
    put(&mut names, name);
    narrow(grammar, &mut names, term);
    has(&names, name)
}
