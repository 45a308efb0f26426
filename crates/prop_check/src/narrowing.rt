// Of the names of a set, those to which a term belongs. Each part of the term is looked at once, for all names that the
// rules ask of it.
ghost use Rattle.std.specs.Prelude.{◌≡◌, ◌&&◌, ℕ, true, option_copied};
ghost use Rattle.prog_data.specs.Values.{bit_at};
ghost use Rattle.prog_data.specs.Membership.{belongs};
ghost use Rattle.prop_check.specs.Sets.{Fits, IsTold};
ghost use Rattle.prop_check.specs.Chains.{sets_behind};

use crate::chains::{Known, link};
use crate::gathering::{Look, gather_first, reach};
use crate::heads::{Head, head_of};
use crate::sets::is_same;
use crate::settling::settle;
use prog_data::Grammar;
use term_core::Term;

// Makes a set that of the names of a closed one to which a compound belongs, where some of its first parts are left to be
// looked at, and the names of those behind them are known. The last part comes first: so a list goes down its tail before
// its items.
#[cycle(narrowing)]
fn narrowed(
    grammar: &Grammar,
    reach: &[u64; 8],
    term: &Term,
    name: u64,
    parts: &[Term],
    left: usize,
    behind: Option<&Known>,
    names: &mut [u64; 8],
)
    requires { IsTold grammar.now (bit_at reach.now) term.now name parts.now left (sets_behind (option_copied behind)) }
    ensures { (n : ℕ) → bit_at names.new n ≡ (bit_at reach.now n && belongs grammar.now term.now n) }
{
    if left == 0 {
        settle(grammar, reach, &Head::Node(name), behind, names);
        return;
    }
    let place = left - 1;
    let mut asked = [0; 8];
    gather_first(grammar, reach, Look::Part(name, place), &mut asked);
    narrow(grammar, &mut asked, &parts[place]);
    let known = link(&asked, behind);
    narrowed(
        grammar,
        reach,
        term,
        name,
        parts,
        place,
        Some(&known),
        names,
    );
}

/// Leaves in a set the names to which the term belongs, and perhaps others that were not in it.
#[cycle(narrowing)]
pub(crate) fn narrow(grammar: &Grammar, names: &mut [u64; 8], term: &Term)
    requires { Fits grammar.now }
    ensures { (n : ℕ) → bit_at names.old n ≡ true → bit_at names.new n ≡ belongs grammar.now term.now n }
{
    if is_same(names, &[0; 8]) {
        return;
    }
    let closed = reach(grammar, names);
    match term.compound() {
        None => settle(grammar, &closed, &head_of(term), None, names),
        Some((name, parts)) => {
            narrowed(
                grammar,
                &closed,
                term,
                name,
                parts,
                parts.len(),
                None,
                names,
            );
        }
    }
}
