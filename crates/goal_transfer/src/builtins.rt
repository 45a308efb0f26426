// The effects of built-ins.
ghost use Rattle.std.specs.Prelude.{◌≡◌, ◌≤◌, ◌<◌, ℕ, length, IfOk};
ghost use Rattle.term_core.specs.Terms.{above};
ghost use Rattle.prog_data.specs.declared.goals.Builtin.TheVariants as builtins;
ghost use Rattle.name_order.specs.Relations.{order};
ghost use Rattle.goal_transfer.specs.Transfer.{known_where, ground, compare_values, builtin_effect};
ghost use Rattle.goal_transfer.specs.States.{values_seen};

use crate::pushing::push;
use crate::unifying::unify;
use crate::values::{set, value_at};
use name_order::Relations;
use prog_data::{ATM_TYPE, Builtin, GND_TYPE, Grammar, INT_TYPE, Value};
use std::alloc::Global;
use term_core::{NoMemory, Term};
use type_domain::{meet, of_name};

/// Each variable of a term meets gnd; whether the values are still not none.
pub(crate) fn ground(rel: &Relations, term: &Term, values: &mut [Value]) -> bool
    requires { above term.now ≤ length values.old }
    ensures { known_where result (values_seen (order rel.now) values.new) ≡ ground (order rel.now) term.now (values_seen (order rel.now) values.old) }
{
    rel.range();
    match term {
        Term::Var(variable) => {
            let met = meet(
                rel,
                &value_at(rel, values, *variable),
                &of_name(rel, GND_TYPE),
            );
            set(rel, values, *variable, met)
        }
        Term::Int(_) | Term::Atom(_) => true,
        Term::Node(_, parts) => {
            for part in parts.as_slice() {
                if !ground(rel, part, values) {
                    return false;
                }
            }
            true
        }
    }
}

/// The variables of two terms meet gnd.
pub(crate) fn ground_both(rel: &Relations, left: &Term, right: &Term, values: &mut [Value]) -> bool
    requires left { above left.now ≤ length values.old }
    requires right { above right.now ≤ length values.old }
    ensures { known_where result (values_seen (order rel.now) values.new) ≡ compare_values (order rel.now) left.now right.now (values_seen (order rel.now) values.old) }
{
    if !ground(rel, left, values) {
        return false;
    }
    ground(rel, right, values)
}

/// The variables of an expression meet gnd, and the term meets int.
pub(crate) fn evaluated(
    grammar: &Grammar,
    rel: &Relations,
    term: &Term,
    expression: &Term,
    values: &mut [Value],
) -> bool
    requires grammar { rel.now ≡ grammar.now }
    requires left { above term.now ≤ length values.old }
    requires right { above expression.now ≤ length values.old }
    ensures { known_where result (values_seen (order rel.now) values.new) ≡ builtin_effect (order rel.now) builtins.Is term.now expression.now (values_seen (order rel.now) values.old) }
{
    rel.range();
    if !ground(rel, expression, values) {
        return false;
    }
    push(grammar, rel, term, &of_name(rel, INT_TYPE), values)
}

/// The effect of a built-in by its first two arguments; whether the values are still not none.
pub(crate) fn builtin_effect(
    alloc: Global,
    grammar: &Grammar,
    rel: &Relations,
    builtin: Builtin,
    left: &Term,
    right: &Term,
    values: &mut [Value],
) -> Result<bool, NoMemory>
    requires grammar { rel.now ≡ grammar.now }
    requires left { above left.now ≤ length values.old }
    requires right { above right.now ≤ length values.old }
    requires name { (n : ℕ) → builtin ≡ builtins.Belongs n → n < length rel.now.rules }
    ensures { IfOk result (λ kept. known_where kept (values_seen (order rel.now) values.new) ≡ builtin_effect (order rel.now) builtin left.now right.now (values_seen (order rel.now) values.old)) }
{
    rel.range();
    match builtin {
        Builtin::Unify => unify(alloc, grammar, rel, left, right, values),
        Builtin::Is => Ok(evaluated(grammar, rel, left, right, values)),
        Builtin::Less => Ok(ground_both(rel, left, right, values)),
        Builtin::Greater => Ok(ground_both(rel, left, right, values)),
        Builtin::LessEq => Ok(ground_both(rel, left, right, values)),
        Builtin::GreaterEq => Ok(ground_both(rel, left, right, values)),
        Builtin::NumEq => Ok(ground_both(rel, left, right, values)),
        Builtin::NumNotEq => Ok(ground_both(rel, left, right, values)),
        Builtin::Integer => Ok(push(grammar, rel, left, &of_name(rel, INT_TYPE), values)),
        Builtin::Atom => Ok(push(grammar, rel, left, &of_name(rel, ATM_TYPE), values)),
        Builtin::Belongs(name) => Ok(push(grammar, rel, left, &of_name(rel, name), values)),
        Builtin::IsGround => Ok(push(grammar, rel, left, &of_name(rel, GND_TYPE), values)),
        Builtin::NotUnify => Ok(true),
        Builtin::Same => Ok(true),
        Builtin::NotSame => Ok(true),
        Builtin::Write => Ok(true),
        Builtin::Writeq => Ok(true),
        Builtin::Nl => Ok(true),
        Builtin::IsVar => Ok(true),
        Builtin::IsNonvar => Ok(true),
    }
}
