// What is so of values.
ghost use Rattle.prog_data.specs.declared.grammars.Grammar.{Grammar as GrammarValue};
ghost use Rattle.prog_data.specs.GrammarRange.{IsGrammar};
ghost use Rattle.name_order.specs.Relations.{Order, order};
ghost use Rattle.type_domain.specs.Relied.{Relied};
ghost use Rattle.type_domain.specs.Laws.{KeepTerms, GiveValues, AreOrdered, AreMonotone, NamesMonotone};

use name_order::{
    basic_rules_law, belongs_meet_law, below_belongs_law, below_order_law, member_law,
    members_belong_law,
};
use prog_data::membership_law;

/// What is relied on of names, by the laws of the crates below.
pub(crate) fn relied_law()
    ensures { (g : GrammarValue) → IsGrammar g → Relied g }
{
    membership_law();
    name_order::order_law();
    member_law();
    below_order_law();
    below_belongs_law();
    belongs_meet_law();
    members_belong_law();
    basic_rules_law();
}

/// Terms in values are in what comes of them, and the value of a constant has all its names.
pub fn terms_law()
    ensures { (g : GrammarValue) → IsGrammar g → KeepTerms g }
{
    relied_law();
}

/// To say at least as much is an order; the join is the least value above two, and the meet the greatest below two of those
/// values whose names have members and meet.
pub fn order_law()
    ensures { (o : Order) → AreOrdered o }
{}

/// Each call that takes values keeps that order, and a name below another has a value that says at least as much.
pub fn monotone_law()
    ensures values { (o : Order) → AreMonotone o }
    ensures names { (g : GrammarValue) → NamesMonotone (order g) }
{
    name_order::order_law();
    below_order_law();
}

/// Each call gives a value of the analysis.
pub fn given_law()
    ensures { (g : GrammarValue) → IsGrammar g → GiveValues (order g) }
{
    relied_law();
}
