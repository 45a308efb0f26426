// The laws of the crates below on which uniqueness rests, together.
ghost use Rattle.ciao_top.specs.Relied.{Relied};

use ciao_modules::{one_load_law, refusal_name_law, unit_operators_law};
use ciao_reader::one_goal_law;

/// A load has one outcome, and a text is one goal by the operators of a unit.
pub(crate) fn relied_law()
    ensures { Relied }
{
    one_load_law();
    refusal_name_law();
    unit_operators_law();
    one_goal_law();
}
