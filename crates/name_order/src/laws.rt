// What the relations of names mean for terms, and how they are ordered.
ghost use Rattle.std.specs.Prelude.{◌≡◌, ◌↔◌, ℕ, true};
ghost use Rattle.prog_data.specs.BasicNames.{basic_grammar};
ghost use Rattle.prog_data.specs.GrammarRange.{IsGrammar};
ghost use Rattle.prog_data.specs.declared.grammars.Grammar.{Grammar as GrammarValue};
ghost use Rattle.name_order.specs.Relations.{HasMember, Below, Meets, has_member, below, meets, HasGnd, HasTerm, order, IsOrder};
ghost use Rattle.name_order.specs.Laws.{AreFixpoints, BelowKeepsTerms, SharedMeet, MembersBelong, BelowReflexive, BelowTransitive, MeetsSymmetric, EmptyBelowAll};

/// The grammar of the basic names is a program's, and in each such grammar the names term and gnd have their basic rules.
pub fn basic_rules_law()
    ensures basic { IsGrammar basic_grammar }
    ensures term { (g : GrammarValue) → IsGrammar g → HasTerm g }
    ensures gnd { (g : GrammarValue) → IsGrammar g → HasGnd g }
{}

/// What is computed is the least relation: the names that have members.
pub fn member_law()
    ensures { (g : GrammarValue) (n : ℕ) → (has_member g n ≡ true) ↔ HasMember g n }
{}

/// What is computed is the greatest relation.
pub fn below_law()
    ensures { (g : GrammarValue) (n m : ℕ) → (below g n m ≡ true) ↔ Below g n m }
{}

/// What is computed is the least relation.
pub fn meets_law()
    ensures { (g : GrammarValue) (n m : ℕ) → (meets g n m ≡ true) ↔ Meets g n m }
{}

/// Each computed test is closed or consistent itself, and the least or the greatest that is.
pub fn fixpoints_law()
    ensures { (g : GrammarValue) → AreFixpoints g }
{}

/// What values are computed with has the leaves and the relations of its grammar.
pub fn order_law()
    ensures { (g : GrammarValue) → IsOrder g (order g) }
{}

/// What belongs to a name belongs to each name that it is below.
pub fn below_belongs_law()
    ensures program { (g : GrammarValue) → IsGrammar g → BelowKeepsTerms g }
    ensures gnd { (g : GrammarValue) → HasGnd g → BelowKeepsTerms g }
{}

/// Two names that a term belongs to meet.
pub fn belongs_meet_law()
    ensures program { (g : GrammarValue) → IsGrammar g → SharedMeet g }
    ensures gnd { (g : GrammarValue) → HasGnd g → SharedMeet g }
{}

/// A name has a member exactly where some term belongs to it.
pub fn members_belong_law()
    ensures { (g : GrammarValue) → MembersBelong g }
{}

/// Below is an order up to names that are below each other.
pub fn below_order_law()
    ensures reflexive { (g : GrammarValue) → BelowReflexive g }
    ensures transitive { (g : GrammarValue) → BelowTransitive g }
    ensures empty { (g : GrammarValue) → EmptyBelowAll g }
{}

/// Names meet each other.
pub fn meets_symmetric_law()
    ensures { (g : GrammarValue) → MeetsSymmetric g }
{}
