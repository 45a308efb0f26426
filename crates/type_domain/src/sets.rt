// Sets of the names of a grammar.
ghost use Rattle.std.specs.Prelude.{◌≡◌, ◌<◌, length};
ghost use Rattle.prog_data.specs.Values.{bit_at};
ghost use Rattle.name_order.specs.Relations.{order};
ghost use Rattle.type_domain.specs.Values.{meets_all, is_fit, all_fit};

use crate::bits::{are_disjoint, has};
use crate::lookups::is_inhabited;
use name_order::{Relations, below_law, meets_law, order_law};

/// The names that a name is below.
pub(crate) fn above(rel: &Relations, name: u64) -> [u64; 8]
    requires { name < length rel.now.rules }
    ensures { bit_at result ≡ (order rel.now).below name }
{
    order_law(); // for the proof
    below_law(); // for the proof
    rel.above(name)
}

// Whether a name meets each name of the set.
fn meets_all(rel: &Relations, names: &[u64; 8], name: u64) -> bool
    requires { name < length rel.now.rules }
    ensures { result ≡ meets_all (order rel.now) (bit_at names.now) name }
{
    order_law(); // for the proof
    meets_law(); // for the proof
    are_disjoint(&rel.apart(name), names)
}

// Whether a name has a member and meets each name of the set, or is not in it.
fn fits_in(rel: &Relations, names: &[u64; 8], name: u64) -> bool
    requires { name < length rel.now.rules }
    ensures { result ≡ is_fit (order rel.now) (bit_at names.now) name }
{
    rel.range();
    if !has(names, name) {
        return true;
    }
    if !is_inhabited(rel, name) {
        return false;
    }
    meets_all(rel, names, name)
}

/// Whether each name of the set has a member and each two meet.
pub(crate) fn all_fit(rel: &Relations, names: &[u64; 8]) -> bool
    ensures { result ≡ all_fit (order rel.now) (bit_at names.now) }
{
    for name in 0..rel.len() {
        if !fits_in(rel, names, name) {
            return false;
        }
    }
    true
}
