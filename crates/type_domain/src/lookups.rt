// The relations of a grammar, in the words of the order that values are computed with.
ghost use Rattle.std.specs.Prelude.{◌≡◌, ◌<◌, length, true};
ghost use Rattle.std.specs.List.{list_all};
ghost use Rattle.prog_data.specs.GrammarRange.{is_rule_of};
ghost use Rattle.name_order.specs.Relations.{order};
ghost use Rattle.name_order.specs.Held.{SameLeaves};
ghost use Rattle.type_domain.specs.Values.{is_inhabited};

use name_order::{Relations, member_law, order_law};
use prog_data::Rule;

/// Whether the names meet.
pub fn do_meet(rel: &Relations, first: u64, second: u64) -> bool
    requires first { first < length rel.now.rules }
    requires second { second < length rel.now.rules }
    ensures { result ≡ (order rel.now).meets first second }
{
    order_law(); // for the proof
    rel.meets(first, second)
}

/// Whether the name has a leaf with members.
pub(crate) fn is_inhabited(rel: &Relations, name: u64) -> bool
    requires { name < length rel.now.rules }
    ensures { result ≡ is_inhabited ((order rel.now).leaves name) }
{
    order_law(); // for the proof
    member_law(); // for the proof
    rel.has_member(name)
}

/// The leaves of the name that have members, in some order.
pub(crate) fn leaves(rel: &Relations, name: u64) -> &[Rule]
    requires { name < length rel.now.rules }
    ensures same { SameLeaves result.now ((order rel.now).leaves name) }
    ensures range { list_all (is_rule_of (length rel.now.rules)) result.now ≡ true }
    ensures few { list_all (is_rule_of 512) result.now ≡ true }
{
    rel.range();
    order_law(); // for the proof
    rel.leaves(name)
}
