// When the conditions of a program hold at a call, at an exit and at a failure.
ghost use Rattle.std.specs.Prelude.{◌≡◌};
ghost use Rattle.std.specs.List.{list_any};
ghost use Rattle.prog_data.specs.Conditions.{all_hold, kind_of, is_success, is_comp, calls_hold, pre_holds, post_holds, exit_breaks, failure_breaks};

use crate::properties::all_hold;
use prog_data::{CompProp, CondKind, Grammar, Program, Prop};
use sqlite_items::Items;
use term_core::Term;

/// Whether the condition with this number is a success condition.
pub fn is_success(program: &Program, condition: u64) -> bool
    ensures { result ≡ is_success (kind_of program.now condition) }
{
    match program.conds.get(condition as usize) {
        Some(found) => match &found.kind {
            CondKind::Success(_, _) => true,
            CondKind::Calls(_) | CondKind::Comp(_, _) => false,
        },
        None => false,
    }
}

/// Whether the condition with this number is one on the computation.
pub fn is_comp(program: &Program, condition: u64) -> bool
    ensures { result ≡ is_comp (kind_of program.now condition) }
{
    match program.conds.get(condition as usize) {
        Some(found) => match &found.kind {
            CondKind::Comp(_, _) => true,
            CondKind::Calls(_) | CondKind::Success(_, _) => false,
        },
        None => false,
    }
}

// Whether one of the disjuncts holds of the arguments.
fn any_holds(grammar: &Grammar, disjuncts: &[Items<Prop>], args: &[Term]) -> bool
    ensures { result ≡ list_any (all_hold grammar.now args.now) disjuncts.now }
{
    for disjunct in disjuncts {
        if all_hold(grammar, disjunct.as_slice(), args) {
            return true;
        }
    }
    false
}

/// Whether one of the disjuncts of the condition holds at a call, where it is a calls condition.
pub fn calls_hold(program: &Program, condition: u64, args: &[Term]) -> bool
    ensures { result ≡ calls_hold program.now.grammar args.now (kind_of program.now condition) }
{
    match program.conds.get(condition as usize) {
        Some(found) => match &found.kind {
            CondKind::Calls(disjuncts) => any_holds(&program.grammar, disjuncts.as_slice(), args),
            CondKind::Success(_, _) | CondKind::Comp(_, _) => true,
        },
        None => true,
    }
}

/// Whether the condition has a precondition, and that holds at a call.
pub fn pre_holds(program: &Program, condition: u64, args: &[Term]) -> bool
    ensures { result ≡ pre_holds program.now.grammar args.now (kind_of program.now condition) }
{
    match program.conds.get(condition as usize) {
        Some(found) => match &found.kind {
            CondKind::Success(pre, _) => all_hold(&program.grammar, pre.as_slice(), args),
            CondKind::Comp(pre, _) => all_hold(&program.grammar, pre.as_slice(), args),
            CondKind::Calls(_) => false,
        },
        None => false,
    }
}

/// Whether the postcondition of the condition holds at an exit, where it has one.
pub fn post_holds(program: &Program, condition: u64, args: &[Term]) -> bool
    ensures { result ≡ post_holds program.now.grammar args.now (kind_of program.now condition) }
{
    match program.conds.get(condition as usize) {
        Some(found) => match &found.kind {
            CondKind::Success(_, post) => all_hold(&program.grammar, post.as_slice(), args),
            CondKind::Calls(_) | CondKind::Comp(_, _) => true,
        },
        None => true,
    }
}

/// Whether an exit of a computation breaks the condition on it; `exited` says whether there was an exit before.
pub fn exit_breaks(program: &Program, condition: u64, exited: bool) -> bool
    ensures { result ≡ exit_breaks exited (kind_of program.now condition) }
{
    match program.conds.get(condition as usize) {
        Some(found) => match &found.kind {
            CondKind::Comp(_, CompProp::Fails) => true,
            CondKind::Comp(_, CompProp::IsDet) => exited,
            CondKind::Comp(_, CompProp::NotFails) => false,
            CondKind::Calls(_) | CondKind::Success(_, _) => false,
        },
        None => false,
    }
}

/// Whether the failure of a computation breaks the condition on it; `exited` says whether there was an exit before.
pub fn failure_breaks(program: &Program, condition: u64, exited: bool) -> bool
    ensures { result ≡ failure_breaks exited (kind_of program.now condition) }
{
    match program.conds.get(condition as usize) {
        Some(found) => match &found.kind {
            CondKind::Comp(_, CompProp::NotFails) => !exited,
            CondKind::Comp(_, CompProp::Fails | CompProp::IsDet) => false,
            CondKind::Calls(_) | CondKind::Success(_, _) => false,
        },
        None => false,
    }
}
