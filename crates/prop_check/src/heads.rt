// What a term is at its outermost, without its parts: what rules ask of it beside the names of its parts.
ghost use Rattle.std.specs.Prelude.{◌≡◌};
ghost use Rattle.term_core.specs.declared.terms.Term.{out-Term};
ghost use Rattle.prop_check.specs.Heads.{head_of};

use term_core::Term;

/// A variable, a constant, or a compound with its name.
#[derive(Clone, Copy)]
pub(crate) enum Head {
    Var,
    Int(i64),
    Atom(u64),
    Node(u64),
}

/// The outermost of a term.
pub(crate) fn head_of(term: &Term) -> Head
    ensures { result ≡ head_of (out-Term term.now) }
{
    match term {
        Term::Var(_) => Head::Var,
        Term::Int(number) => Head::Int(*number),
        Term::Atom(name) => Head::Atom(*name),
        Term::Node(name, _) => Head::Node(*name),
    }
}
