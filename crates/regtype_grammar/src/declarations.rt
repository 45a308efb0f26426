// The directives that declare regular types.
ghost use Rattle.std.specs.Prelude.{◌≡◌};
ghost use Rattle.term_core.specs.declared.terms.Term.{out-Term};
ghost use Rattle.regtype_grammar.specs.Declarations.{numbered_name, declared_at, behind_regtype, behind_neck, declared_type, DeclarationsAreWritten};

use ciao_reader::Sentence;
use term_core::{HASH, NECK, REGTYPE, SLASH, Term};

// The name before `/1`.
fn numbered_name(name: &Term, arity: &Term) -> Option<u64>
    ensures { result ≡ numbered_name (out-Term name.now) (out-Term arity.now) }
{
    match name {
        Term::Atom(name) => match arity {
            Term::Int(arity) => { if *arity == 1 { Some(*name) } else { None } }
            Term::Var(_) | Term::Atom(_) | Term::Node(_, _) => None,
        },
        Term::Var(_) | Term::Int(_) | Term::Node(_, _) => None,
    }
}

// The name of the shape `t/1` or `t(X)`.
fn declared_at(shape: &Term) -> Option<u64>
    ensures { result ≡ declared_at (out-Term shape.now) }
{
    match shape {
        Term::Var(_) | Term::Int(_) | Term::Atom(_) => None,
        Term::Node(name, parts) => match parts.as_slice() {
            [part] => {
                if part.is_variable() {
                    Some(*name)
                } else {
                    None
                }
            }
            [left, right] => {
                if *name == SLASH {
                    numbered_name(left, right)
                } else {
                    None
                }
            }
            _ => None,
        },
    }
}

/// The type that a `regtype` directive declares, none where the sentence has no shape of one.
pub fn declared_type(sentence: &Sentence) -> Option<u64>
    ensures { result ≡ declared_type sentence.now }
{
    match sentence.term.single(NECK) {
        None => None,
        Some(directive) => match directive.single(REGTYPE) {
            None => None,
            Some(body) => {
                let (shape, _comment) = body.split(HASH);
                declared_at(shape)
            }
        },
    }
}

/// The declaration that is computed of a sentence is the one that it is written as.
pub fn declaration_law()
    ensures { DeclarationsAreWritten }
{}
