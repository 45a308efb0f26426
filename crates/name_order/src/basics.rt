// What constants and basic leaves have to do with leaves.
ghost use Rattle.std.specs.Prelude.{◌≡◌};
ghost use Rattle.prog_data.specs.Membership.{admits_int, admits_atom};
ghost use Rattle.name_order.specs.Relations.{basic_below, basic_meets};

use prog_data::{Basic, Rule};

/// Whether a leaf admits the integer.
pub fn admits_int(number: i64, leaf: &Rule) -> bool
    ensures { result ≡ admits_int number leaf.now }
{
    match leaf {
        Rule::Basic(basic) => match basic {
            Basic::Term | Basic::Int | Basic::Gnd => true,
            Basic::Nnegint => number >= 0,
            Basic::Atm | Basic::Struct => false,
        },
        Rule::Int(other) => number == *other,
        Rule::Atom(_) | Rule::Node(_, _) | Rule::Unit(_) => false,
    }
}

/// Whether a leaf admits the atom.
pub fn admits_atom(name: u64, leaf: &Rule) -> bool
    ensures { result ≡ admits_atom name leaf.now }
{
    match leaf {
        Rule::Basic(basic) => match basic {
            Basic::Term | Basic::Atm | Basic::Gnd => true,
            Basic::Int | Basic::Nnegint | Basic::Struct => false,
        },
        Rule::Atom(other) => name == *other,
        Rule::Int(_) | Rule::Node(_, _) | Rule::Unit(_) => false,
    }
}

/// Whether a basic leaf is below a basic leaf.
pub(crate) fn basic_below(low: Basic, high: Basic) -> bool
    ensures { result ≡ basic_below low high }
{
    match high {
        Basic::Term => true,
        Basic::Int => matches!(low, Basic::Int | Basic::Nnegint),
        Basic::Nnegint => matches!(low, Basic::Nnegint),
        Basic::Atm => matches!(low, Basic::Atm),
        Basic::Gnd => matches!(low, Basic::Int | Basic::Nnegint | Basic::Atm | Basic::Gnd),
        Basic::Struct => matches!(low, Basic::Struct),
    }
}

/// Whether a basic leaf meets a basic leaf.
pub(crate) fn basic_meets(left: Basic, right: Basic) -> bool
    ensures { result ≡ basic_meets left right }
{
    match left {
        Basic::Term | Basic::Gnd => true,
        Basic::Int | Basic::Nnegint => {
            matches!(
                right,
                Basic::Term | Basic::Gnd | Basic::Int | Basic::Nnegint
            )
        }
        Basic::Atm => matches!(right, Basic::Term | Basic::Gnd | Basic::Atm),
        Basic::Struct => matches!(right, Basic::Term | Basic::Gnd | Basic::Struct),
    }
}
