// Whether the term of a place belongs to a grammar name.
ghost use Rattle.std.specs.Prelude.{◌≡◌, ◌<◌};
ghost use Rattle.prog_data.specs.GrammarRange.{IsGrammar};
ghost use Rattle.prog_data.specs.Membership.{belongs};
ghost use Rattle.term_heap.specs.Changes.{size_of, value_of};
ghost use Rattle.prop_check.specs.Sets.{Fits};

use crate::narrowing_at::one_belongs;
use crate::sets::put;
use prog_data::Grammar;
use term_heap::Heap;

// A grammar in range fits into sets of names.
fn grammar_fits(grammar: &Grammar)
    requires { IsGrammar grammar.now }
    ensures { Fits grammar.now }
{}

/// Whether the term of a place belongs to the name. No variable is bound.
pub fn belongs_at(grammar: &Grammar, heap: &Heap, name: u64, place: u64) -> bool
    requires grammar { IsGrammar grammar.now }
    requires place { place < size_of heap.now.changes }
    ensures { result ≡ belongs grammar.now (value_of heap.now.changes place) name }
{
    grammar_fits(grammar);
    let mut names = [0; 8];
    put(&mut names, name);
    one_belongs(grammar, heap, &names, place, true)
}
