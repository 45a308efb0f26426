// What assertions ask of calls and exits.
ghost use Rattle.prog_data.specs.declared.grammars.Grammar.{Grammar};
ghost use Rattle.prog_data.specs.Laws.{PropertiesPersist, ConjunctionsPersist};

use crate::Place;
use sqlite_items::Items;

/// What is asked of an argument, as it stands.
#[derive(Clone, Copy, Drop, Debug)]
pub enum Prop {
    /// The argument, then the grammar name.
    Belongs(u64, u64),
    IsVar(u64),
    IsNonvar(u64),
    IsGround(u64),
}

/// A property of the computation of a call.
#[derive(Clone, Copy, Drop, Debug)]
pub enum CompProp {
    NotFails,
    Fails,
    IsDet,
}

/// A condition by its kind. Each list of properties is a conjunction.
#[derive(Drop)]
pub enum CondKind {
    /// One of these holds at a call.
    Calls(Items<Items<Prop>>),
    /// Where the first holds at a call, the second holds at each exit.
    Success(Items<Prop>, Items<Prop>),
    /// Where the conjunction holds at a call, its computation has the property.
    Comp(Items<Prop>, CompProp),
}

/// A condition of a predicate, with its own number and the place of its assertion.
#[derive(Drop)]
pub struct Cond {
    pub id: u64,
    pub pred: u64,
    pub place: Place,
    pub kind: CondKind,
}

/// The properties that still hold when variables of the arguments are bound are those that do not ask for a variable.
pub fn property_persistence_law()
    ensures { (g : Grammar) → PropertiesPersist g }
{}

/// A conjunction of which no property asks for a variable still holds when variables of the arguments are bound.
pub fn conjunction_persistence_law()
    ensures { (g : Grammar) → ConjunctionsPersist g }
{}
