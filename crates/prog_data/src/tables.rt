// What an analysis knows.
ghost use Rattle.prog_data.specs.declared.grammars.Grammar.{Grammar};
ghost use Rattle.prog_data.specs.Laws.{ValuesPersist};

use sqlite_items::Items;

/// A set of grammar names, or none: the name n is in it where bit n % 64 of word n / 64 is 1.
#[derive(Clone, Copy, Drop)]
pub struct Value {
    pub names: Option<[u64; 8]>,
}

/// What is known of the calls and the exits of a predicate.
#[derive(Drop)]
pub struct Row {
    pub reached: bool,
    pub entry: Items<Value>,
    pub exits: bool,
    pub exit: Items<Value>,
}

/// A row for each predicate, in order of number.
#[derive(Drop)]
pub struct Table {
    pub rows: Items<Row>,
}

/// What a table tells of a condition.
#[derive(Clone, Copy, Drop, Debug)]
pub enum Status {
    Checked,
    Check,
    False,
}

/// Arguments are still in their values when variables of them are bound.
pub fn value_persistence_law()
    ensures { (g : Grammar) → ValuesPersist g }
{}
