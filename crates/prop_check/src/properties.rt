// When properties hold of arguments.
ghost use Rattle.std.specs.Prelude.{◌≡◌};
ghost use Rattle.prog_data.specs.Conditions.{holds, all_hold};

use crate::membership::{belongs, is_ground};
use prog_data::{Grammar, Prop};
use term_core::Term;

/// Whether the property holds of the arguments. No variable is bound.
pub fn holds(grammar: &Grammar, property: &Prop, args: &[Term]) -> bool
    ensures { result ≡ holds grammar.now args.now property.now }
{
    match property {
        Prop::Belongs(argument, name) => match args.get(*argument as usize) {
            Some(term) => belongs(grammar, *name, term),
            None => false,
        },
        Prop::IsVar(argument) => match args.get(*argument as usize) {
            Some(term) => term.is_variable(),
            None => false,
        },
        Prop::IsNonvar(argument) => match args.get(*argument as usize) {
            Some(term) => !term.is_variable(),
            None => false,
        },
        Prop::IsGround(argument) => match args.get(*argument as usize) {
            Some(term) => is_ground(term),
            None => false,
        },
    }
}

/// Whether each of the properties holds of the arguments.
pub fn all_hold(grammar: &Grammar, properties: &[Prop], args: &[Term]) -> bool
    ensures { result ≡ all_hold grammar.now args.now properties.now }
{
    for property in properties {
        if !holds(grammar, property, args) {
            return false;
        }
    }
    true
}
