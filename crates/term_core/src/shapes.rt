// What a term is at its outermost.
ghost use Rattle.std.specs.Prelude.{◌≡◌, ◌∷◌, [], false, Some, None, MatchOption, option_copied};
ghost use Rattle.term_core.specs.declared.fixed.TheConstants.{NIL, CELL};
ghost use Rattle.term_core.specs.declared.terms.Term.{out-Term};
ghost use Rattle.term_core.specs.Terms.{is_variable, is_atom_of};
ghost use Rattle.term_core.specs.Shapes.{atom_at, parts_of, is_compound, is_single, single_of, is_pair, pair_of, split, with_mark};

use crate::{CELL, NIL, Term};

impl Term {
    /// Whether it is a variable.
    pub fn is_variable(&self) -> bool
        ensures { result ≡ is_variable (out-Term self.now) }
    {
        match self {
            Term::Var(_) => true,
            Term::Int(_) | Term::Atom(_) | Term::Node(_, _) => false,
        }
    }

    /// The name of an atom.
    pub fn atom(&self) -> Option<u64>
        ensures { result ≡ atom_at (out-Term self.now) }
    {
        match self {
            Term::Atom(name) => Some(*name),
            Term::Var(_) | Term::Int(_) | Term::Node(_, _) => None,
        }
    }

    /// Whether it is the atom `[]`.
    pub fn is_empty_list(&self) -> bool
        ensures { result ≡ is_atom_of NIL (out-Term self.now) }
    {
        match self {
            Term::Atom(name) => *name == NIL,
            Term::Var(_) | Term::Int(_) | Term::Node(_, _) => false,
        }
    }

    /// The item and the rest of a list cell.
    pub fn list_cell(&self) -> Option<(&Term, &Term)>
        ensures { MatchOption result (is_pair CELL (out-Term self.now) ≡ false) (λ parts. self.now ≡ Term.Node CELL (parts.0.now ∷ parts.1.now ∷ [])) }
    {
        self.operands(CELL)
    }

    /// The name and the arguments of a compound.
    pub fn compound(&self) -> Option<(u64, &[Term])>
        ensures { MatchOption result (is_compound (out-Term self.now) ≡ false) (λ parts. self.now ≡ Term.Node parts.0 parts.1.now) }
    {
        match self {
            Term::Node(name, parts) => Some((*name, parts.as_slice())),
            Term::Var(_) | Term::Int(_) | Term::Atom(_) => None,
        }
    }

    /// The arguments of a compound, none of another term.
    pub fn parts(&self) -> &[Term]
        ensures { result.now ≡ parts_of (out-Term self.now) }
    {
        match self {
            Term::Node(_, parts) => parts.as_slice(),
            Term::Var(_) | Term::Int(_) | Term::Atom(_) => &[],
        }
    }

    /// The argument of a compound of this name with one argument.
    pub fn single(&self, name: u64) -> Option<&Term>
        ensures whole { MatchOption result (is_single name (out-Term self.now) ≡ false) (λ inner. self.now ≡ Term.Node name (inner.now ∷ [])) }
        ensures shape { MatchOption result (single_of name (out-Term self.now) ≡ None) (λ inner. single_of name (out-Term self.now) ≡ Some inner.now) }
    {
        match self {
            Term::Var(_) | Term::Int(_) | Term::Atom(_) => None,
            Term::Node(found, parts) => match parts.as_slice() {
                [inner] => { if *found == name { Some(inner) } else { None } }
                _ => None,
            },
        }
    }

    /// The arguments of a compound of this name with two arguments.
    pub fn operands(&self, name: u64) -> Option<(&Term, &Term)>
        ensures whole { MatchOption result (is_pair name (out-Term self.now) ≡ false) (λ pair. self.now ≡ Term.Node name (pair.0.now ∷ pair.1.now ∷ [])) }
        ensures shape { MatchOption result (pair_of name (out-Term self.now) ≡ None) (λ pair. pair_of name (out-Term self.now) ≡ Some (pair.0.now, pair.1.now)) }
    {
        match self {
            Term::Var(_) | Term::Int(_) | Term::Atom(_) => None,
            Term::Node(found, parts) => match parts.as_slice() {
                [left, right] => {
                    if *found == name {
                        Some((left, right))
                    } else {
                        None
                    }
                }
                _ => None,
            },
        }
    }

    /// A term before a mark, and the field behind it if the mark is there.
    pub fn split(&self, mark: u64) -> (&Term, Option<&Term>)
        ensures whole { with_mark mark result.0.now (option_copied result.1) ≡ self.now }
        ensures first { result.0.now ≡ (split mark self.now).0 }
        ensures field { option_copied result.1 ≡ (split mark self.now).1 }
    {
        match self.operands(mark) {
            None => (self, None),
            Some((left, field)) => (left, Some(field)),
        }
    }
}
