// Control and built-ins: what a name with so many arguments means as a goal.
ghost use Rattle.std.specs.Prelude.{◌≡◌};
ghost use Rattle.prog_data.specs.Control.{meaning_among, meaning_of};
ghost use Rattle.prog_data.specs.ControlLaws.{IsOneTable};

use crate::Builtin;
use crate::basic_names::{
    ATM_TYPE, CALLABLE_TYPE, CONSTANT_TYPE, GND_TYPE, INT_TYPE, LIST_TYPE, NNEGINT_TYPE, NUM_TYPE,
    STRUCT_TYPE, TERM_TYPE,
};
use term_core::{
    ARROW, ATM, ATOM, BAR, CALLABLE, COMMA, CONSTANT, CUT, EQUALS, FAIL, GND, GREATER,
    GREATER_OR_EQUAL, GROUND, INT, INTEGER, IS, LESS, LESS_OR_EQUAL, LIST, NEGATION, NL, NNEGINT,
    NONVAR, NOT_EQUALS, NOT_SAME, NUM, NUMBER_EQUALS, NUMBER_NOT_EQUALS, SAME, SEMICOLON, STRUCT,
    TERM, TRUE, VAR, WRITE, WRITEQ,
};

/// A construct of control.
#[derive(Clone, Copy, Drop, Debug)]
pub enum Control {
    Conjunction,
    /// Also the bar.
    Disjunction,
    /// As the first part of a disjunction, which then has its other branch.
    IfThen,
    Negation,
    Cut,
    True,
    Fail,
}

/// What a name with so many arguments means as a goal, where it is no predicate of the user.
#[derive(Clone, Copy, Drop, Debug)]
pub enum Meaning {
    Control(Control),
    Builtin(Builtin),
    /// A test by the lists of the type that the second argument names.
    ListTest,
}

// Each construct of control and each built-in: its name, its number of arguments and its meaning.
const PREDEFINED: [(u64, u64, Meaning); 38] = [
    (COMMA, 2, Meaning::Control(Control::Conjunction)),
    (SEMICOLON, 2, Meaning::Control(Control::Disjunction)),
    (BAR, 2, Meaning::Control(Control::Disjunction)),
    (ARROW, 2, Meaning::Control(Control::IfThen)),
    (NEGATION, 1, Meaning::Control(Control::Negation)),
    (CUT, 0, Meaning::Control(Control::Cut)),
    (TRUE, 0, Meaning::Control(Control::True)),
    (FAIL, 0, Meaning::Control(Control::Fail)),
    (EQUALS, 2, Meaning::Builtin(Builtin::Unify)),
    (NOT_EQUALS, 2, Meaning::Builtin(Builtin::NotUnify)),
    (SAME, 2, Meaning::Builtin(Builtin::Same)),
    (NOT_SAME, 2, Meaning::Builtin(Builtin::NotSame)),
    (IS, 2, Meaning::Builtin(Builtin::Is)),
    (LESS, 2, Meaning::Builtin(Builtin::Less)),
    (GREATER, 2, Meaning::Builtin(Builtin::Greater)),
    (LESS_OR_EQUAL, 2, Meaning::Builtin(Builtin::LessEq)),
    (GREATER_OR_EQUAL, 2, Meaning::Builtin(Builtin::GreaterEq)),
    (NUMBER_EQUALS, 2, Meaning::Builtin(Builtin::NumEq)),
    (NUMBER_NOT_EQUALS, 2, Meaning::Builtin(Builtin::NumNotEq)),
    (INTEGER, 1, Meaning::Builtin(Builtin::Integer)),
    (ATOM, 1, Meaning::Builtin(Builtin::Atom)),
    (WRITE, 1, Meaning::Builtin(Builtin::Write)),
    (WRITEQ, 1, Meaning::Builtin(Builtin::Writeq)),
    (NL, 0, Meaning::Builtin(Builtin::Nl)),
    (TERM, 1, Meaning::Builtin(Builtin::Belongs(TERM_TYPE))),
    (INT, 1, Meaning::Builtin(Builtin::Belongs(INT_TYPE))),
    (NNEGINT, 1, Meaning::Builtin(Builtin::Belongs(NNEGINT_TYPE))),
    (NUM, 1, Meaning::Builtin(Builtin::Belongs(NUM_TYPE))),
    (ATM, 1, Meaning::Builtin(Builtin::Belongs(ATM_TYPE))),
    (GND, 1, Meaning::Builtin(Builtin::Belongs(GND_TYPE))),
    (
        CONSTANT,
        1,
        Meaning::Builtin(Builtin::Belongs(CONSTANT_TYPE)),
    ),
    (STRUCT, 1, Meaning::Builtin(Builtin::Belongs(STRUCT_TYPE))),
    (
        CALLABLE,
        1,
        Meaning::Builtin(Builtin::Belongs(CALLABLE_TYPE)),
    ),
    (LIST, 1, Meaning::Builtin(Builtin::Belongs(LIST_TYPE))),
    (VAR, 1, Meaning::Builtin(Builtin::IsVar)),
    (NONVAR, 1, Meaning::Builtin(Builtin::IsNonvar)),
    (GROUND, 1, Meaning::Builtin(Builtin::IsGround)),
    (LIST, 2, Meaning::ListTest),
];

// The meaning of a name with so many arguments in a table.
fn meaning_among(table: &[(u64, u64, Meaning)], name: u64, arity: u64) -> Option<Meaning>
    ensures { result ≡ meaning_among table.now name arity }
{
    for row in table {
        if row.0 == name && row.1 == arity {
            return Some(row.2);
        }
    }
    None
}

/// What a name with so many arguments means, none where it is no control and no built-in.
pub fn meaning_of(name: u64, arity: u64) -> Option<Meaning>
    ensures { result ≡ meaning_of name arity }
{
    meaning_among(&PREDEFINED, name, arity)
}

/// The table has each name with its number of arguments once, and the number that its meaning takes.
pub fn control_law()
    ensures { IsOneTable }
{}
