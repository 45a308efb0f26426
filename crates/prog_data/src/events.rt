// What a run tells.
ghost use Rattle.std.specs.Prelude.{◌≡◌, string_bytes};

use crate::Place;
use std::marker::Model;
use term_core::Term;

/// A text that contracts see as its bytes.
#[derive(Drop)]
pub struct Text {
    string: String,
}

impl Model for Text {
    ghost use Rattle.std.specs.Prelude.{List, ℕ, string_bytes};

    ghost Value = { List ℕ };

    ghost view = { λ t. string_bytes t.string };
}

impl Text {
    /// The text of a string.
    pub fn new(string: String) -> Text
        ensures { result ≡ string_bytes string }
    {
        Text { string }
    }

    /// The text as a slice.
    pub fn as_str(&self) -> &str
        ensures { result.now ≡ self.now }
    {
        self.string.as_str()
    }
}

/// A fault of arithmetic.
#[derive(Clone, Copy, Drop, Debug)]
pub enum ArithKind {
    Overflow,
    ZeroDivisor,
    Unbound,
    NotNumber,
}

/// How a run ends.
#[derive(Clone, Copy, Drop, Debug)]
pub enum Ending {
    NoMore,
    /// A call of a user predicate was due, and as many as the bound were made.
    Bound,
    /// By the condition with this number.
    Violated(u64),
    /// At the clause whose head was unified, or whose body holds the goal.
    Cyclic(Place),
    Arithmetic(ArithKind, Place),
}

/// What a run tells, one after the other.
#[derive(Drop)]
pub enum Event {
    Out(Text),
    /// The query's instance, its variables numbered from 1 by first appearance.
    Answer(Term),
    End(Ending),
    /// The condition with this number is broken, and the run goes on.
    Broken(u64),
}
