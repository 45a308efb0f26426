// Parts of a sentence as they are read: terms that are not too deep.
ghost use Rattle.std.specs.Prelude.{◌≡◌, IfOk};
ghost use Rattle.term_core.specs.declared.terms.Term as term;
ghost use Rattle.ciao_reader.specs.Parts.{capped, leaf, node_part, prefix_part, infix_part, paren_part, list_part, codes_part};

use sqlite_items::Items;
use std::alloc::Global;
use term_core::{CELL, NIL, NoMemory, Term};

// The greatest depth of a sentence.
pub(crate) const DEPTH_LIMIT: u64 = 4096;

/// What was read of a term, and its depth. Where it is too deep, the depth is one above the limit,
/// and the term says nothing: so no term is built that is too deep to be dropped.
#[derive(Drop)]
pub(crate) struct Part {
    pub(crate) term: Term,
    pub(crate) depth: u64,
}

fn capped(term: Term, depth: u64) -> Part
    ensures { result ≡ capped depth term }
{
    if depth <= DEPTH_LIMIT {
        Part { term, depth }
    } else {
        Part {
            term: Term::Atom(NIL),
            depth: DEPTH_LIMIT + 1,
        }
    }
}

/// A variable, a number or an atom.
pub(crate) fn leaf(term: Term) -> Part
    ensures { result ≡ leaf term }
{
    Part { term, depth: 1 }
}

/// A compound of terms, the deepest of which has this depth.
pub(crate) fn node(name: u64, terms: Items<Term>, deepest: u64) -> Part
    ensures { result ≡ node_part name terms deepest }
{
    capped(Term::Node(name, terms), deepest.saturating_add(1))
}

/// A compound of one argument.
pub(crate) fn prefix_term(alloc: Global, name: u64, part: Part) -> Result<Part, NoMemory>
    ensures { IfOk result (λ p. p ≡ prefix_part name part) }
{
    let depth = part.depth;
    let mut terms = Items::new(alloc);
    terms.push(part.term)?;
    Ok(node(name, terms, depth))
}

/// A compound of two arguments.
pub(crate) fn infix_term(
    alloc: Global,
    name: u64,
    left: Part,
    right: Part,
) -> Result<Part, NoMemory>
    ensures { IfOk result (λ p. p ≡ infix_part name left right) }
{
    let deepest = left.depth.max(right.depth);
    let mut terms = Items::new(alloc);
    terms.push(left.term)?;
    terms.push(right.term)?;
    Ok(node(name, terms, deepest))
}

/// A term in parentheses.
pub(crate) fn in_parens(part: Part) -> Part
    ensures { result ≡ paren_part part }
{
    capped(part.term, part.depth.saturating_add(1))
}

/// A list of these and a tail.
pub(crate) fn list(alloc: Global, parts: Items<Part>, tail: Part) -> Result<Part, NoMemory>
    ensures { IfOk result (λ p. p ≡ list_part parts tail) }
{
    let mut left = parts;
    let mut list = tail;
    while let Some(part) = left.pop() {
        list = infix_term(alloc, CELL, part, list)?;
    }
    Ok(list)
}

/// The list of these character codes.
pub(crate) fn text(alloc: Global, codes: &[u32]) -> Result<Part, NoMemory>
    ensures { IfOk result (λ p. p ≡ codes_part codes.now (leaf (term.Atom 0))) }
{
    let mut list = leaf(Term::Atom(NIL));
    let mut at = codes.len();
    while at > 0 {
        at -= 1;
        list = infix_term(alloc, CELL, leaf(Term::Int(codes[at] as i64)), list)?;
    }
    Ok(list)
}
