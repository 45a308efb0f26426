// What is to be done for a built-in.
ghost use Rattle.std.specs.Prelude.{◌≤◌, ◌+◌, List, IfOk};
ghost use Rattle.term_heap.specs.Changes.{Change, size_of, value_of};
ghost use Rattle.prog_data.specs.Ranges.{arity_of};
ghost use Rattle.prog_data.specs.GrammarRange.{IsGrammar};
ghost use Rattle.machine_model.specs.Step.{truth, effect};
ghost use Rattle.engine_moves.specs.BuiltinEffects.{HasEffect};

use super::comparing::{differs_effect, same_effect};
use super::kinds::{
    atom_effect, bound_effect, ground_effect, integer_effect, type_effect, variable_effect,
};
use super::numbers::{Comparison, compared, evaluated};
use super::writing::{newline, written};
use prog_data::{ArithKind, Builtin, Program, Text};
use std::alloc::Global;
use term_core::NoMemory;
use term_heap::Heap;

/// What is to be done for a built-in.
#[derive(Drop)]
pub(crate) enum Effect {
    Succeeds,
    Fails,
    Writes(Text),
    /// The terms of two places become the same.
    Equates(u64, u64),
    /// The term of a place becomes the same as a number.
    EquatesNumber(u64, i64),
    /// The terms of two places can not become the same.
    Differs(u64, u64),
    Faults(ArithKind),
}

/// A test succeeds where it holds.
pub(crate) fn tested(holds: bool) -> Effect
    ensures { (h : List Change) → HasEffect h (truth holds) result }
{
    if holds {
        Effect::Succeeds
    } else {
        Effect::Fails
    }
}

/// What is to be done for a built-in whose arguments are the terms of places from one on.
///
/// # Errors
///
/// Only for want of memory.
pub(crate) fn effect_of(
    alloc: Global,
    program: &Program,
    heap: &Heap,
    builtin: Builtin,
    first: u64,
) -> Result<Effect, NoMemory>
    requires grammar { IsGrammar program.now.grammar }
    requires places { first + arity_of builtin ≤ size_of heap.now.changes }
    ensures { IfOk result (HasEffect heap.now.changes (effect program.now builtin (value_of heap.now.changes first) (value_of heap.now.changes (first + 1)))) }
{
    let _size = heap.len();
    match builtin {
        Builtin::Unify => Ok(Effect::Equates(first, first + 1)),
        Builtin::NotUnify => Ok(Effect::Differs(first, first + 1)),
        Builtin::Same => same_effect(alloc, heap, first),
        Builtin::NotSame => differs_effect(alloc, heap, first),
        Builtin::Is => evaluated(alloc, heap, first),
        Builtin::Less => compared(alloc, heap, Comparison::Less, first),
        Builtin::Greater => compared(alloc, heap, Comparison::Greater, first),
        Builtin::LessEq => compared(alloc, heap, Comparison::LessEq, first),
        Builtin::GreaterEq => compared(alloc, heap, Comparison::GreaterEq, first),
        Builtin::NumEq => compared(alloc, heap, Comparison::Equal, first),
        Builtin::NumNotEq => compared(alloc, heap, Comparison::NotEqual, first),
        Builtin::Integer => Ok(integer_effect(heap, first)),
        Builtin::Atom => Ok(atom_effect(heap, first)),
        Builtin::Write => written(alloc, program, heap, first, false),
        Builtin::Writeq => written(alloc, program, heap, first, true),
        Builtin::Nl => newline(alloc),
        Builtin::Belongs(name) => Ok(type_effect(&program.grammar, heap, name, first)),
        Builtin::IsVar => Ok(variable_effect(heap, first)),
        Builtin::IsNonvar => Ok(bound_effect(heap, first)),
        Builtin::IsGround => Ok(ground_effect(heap, first)),
    }
}
