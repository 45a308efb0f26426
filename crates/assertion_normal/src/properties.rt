// What the properties of assertions ask.
ghost use Rattle.std.specs.Prelude.{◌≡◌, ◌<◌, length, Some, option_map, IfOk, IfErr};
ghost use Rattle.prog_data.specs.GrammarRange.{IsGrammar};
ghost use Rattle.regtype_grammar.specs.Grammars.{number};
ghost use Rattle.regtype_grammar.specs.Lists.{list_of};
ghost use Rattle.regtype_grammar.specs.RuleNames.{RulesStayNamed};
ghost use Rattle.assertion_normal.specs.Properties.{is_mode, mode, needs_no_type, type_name, as_type, asked, comp_named, comp_prop};
ghost use Rattle.assertion_normal.specs.Settling.{IsNoRoom};
ghost use Rattle.assertion_normal.specs.Ranges.{GrowsByLists, IsGrown};

use crate::NormalFault;
use assertion_read::Written;
use prog_data::{CompProp, Grammar, Prop, Seen, TERM_TYPE};
use regtype_grammar::{Meaning, TypeFault, list_of, meanings_law, type_meant};
use std::alloc::Global;
use term_core::{GROUND, NONVAR, Names, VAR};

fn is_mode(name: u64) -> bool
    ensures { result ≡ is_mode name }
{
    matches!(name, VAR..=GROUND)
}

// What `var`, `nonvar` or `ground` asks of an argument.
fn mode(name: u64, argument: u64) -> Prop
    ensures { result ≡ mode name argument }
{
    match name {
        VAR => Prop::IsVar(argument),
        NONVAR => Prop::IsNonvar(argument),
        _ => Prop::IsGround(argument),
    }
}

/// Whether a property looks up no type.
pub(crate) fn needs_no_type(written: Written) -> bool
    ensures { result ≡ needs_no_type written }
{
    match written.element {
        Some(_) => false,
        None => is_mode(written.property),
    }
}

/// The name that a property looks up as a type.
pub(crate) fn type_name(written: Written) -> u64
    ensures { result ≡ type_name written }
{
    match written.element {
        Some(element) => element,
        None => written.property,
    }
}

fn number(meaning: Meaning) -> u64
    ensures { result ≡ number meaning }
{
    match meaning {
        Meaning::One(name) => name,
        Meaning::Unknown | Meaning::Several => TERM_TYPE,
    }
}

// That an argument belongs to the lists of a type.
fn asked_list(
    alloc: Global,
    grammar: &mut Grammar,
    argument: u64,
    kind: u64,
) -> Result<Prop, NormalFault>
    ensures ok { IfOk result (λ prop. option_map (as_type argument) (list_of grammar.old kind) ≡ Some (grammar.new, prop)) }
    ensures err { IfErr result (IsNoRoom (option_map (as_type argument) (list_of grammar.old kind))) }
    ensures grows { GrowsByLists grammar.old grammar.new }
    ensures named { RulesStayNamed grammar.old grammar.new }
    ensures range { IsGrammar grammar.old → kind < length grammar.old.rules → IsGrammar grammar.new }
{
    match list_of(alloc, grammar, kind) {
        Ok(name) => Ok(Prop::Belongs(argument, name)),
        Err(fault) => match fault {
            TypeFault::TooManyNames => Err(NormalFault::TooManyNames),
            // No other fault comes of a list.
            TypeFault::BadRegtype(_, _)
            | TypeFault::UnknownProperty(_, _)
            | TypeFault::Ambiguous(_, _)
            | TypeFault::NoMemory => Err(NormalFault::NoMemory),
        },
    }
}

/// What a property asks.
pub(crate) fn asked(
    alloc: Global,
    visible: &[Seen],
    grammar: &mut Grammar,
    written: Written,
) -> Result<Prop, NormalFault>
    ensures ok { IfOk result (λ prop. asked visible.now grammar.old written ≡ Some (grammar.new, prop)) }
    ensures err { IfErr result (IsNoRoom (asked visible.now grammar.old written)) }
    ensures grown { IsGrown visible.now grammar.old grammar.new }
{
    meanings_law();
    if needs_no_type(written) {
        return Ok(mode(written.property, written.arg));
    }
    let kind = number(type_meant(visible, type_name(written)));
    match written.element {
        None => Ok(Prop::Belongs(written.arg, kind)),
        Some(_) => {
            let prop = asked_list(alloc, grammar, written.arg, kind)?;
            Ok(prop)
        }
    }
}

// The property of the computation that has a text.
fn comp_named(text: &str) -> Option<CompProp>
    ensures { result ≡ comp_named text.now }
{
    if text == "not_fails" {
        return Some(CompProp::NotFails);
    }
    if text == "fails" {
        return Some(CompProp::Fails);
    }
    if text == "is_det" {
        return Some(CompProp::IsDet);
    }
    None
}

/// The property of the computation that a name is.
pub(crate) fn comp_prop(names: &Names, name: u64) -> Option<CompProp>
    ensures { result ≡ comp_prop names.now name }
{
    comp_named(names.text_or_empty(name))
}
