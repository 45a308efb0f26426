// Sets of names as bits: the name n is in a set where bit n % 64 of word n / 64 is 1.
ghost use Rattle.std.specs.Prelude.{◌≡◌, ◌<◌, ◌==◌, ◌&&◌, ◌||◌, [], slice_index_or, IfOk};
ghost use Rattle.prog_data.specs.Values.{bit_at};
ghost use Rattle.name_order.specs.Tables.{lacks};
ghost use Rattle.name_order.specs.Held.{RowsLack};

use crate::pairs::Pairs;
use sqlite_items::Items;
use std::alloc::Global;
use term_core::NoMemory;

// Puts a name into a set.
fn put(words: &mut [u64; 8], name: u64)
    requires { name < 512 }
    ensures { bit_at words.new ≡ (λ n. bit_at words.old n || n == name) }
{
    words[(name / 64) as usize] |= 1 << (name % 64);
}

/// Puts a name into a set where a test says so.
pub fn put_where(words: &mut [u64; 8], name: u64, wanted: bool)
    requires { name < 512 }
    ensures { bit_at words.new ≡ (λ n. bit_at words.old n || (n == name && wanted)) }
{
    if wanted {
        put(words, name);
    }
}

// The names that a table lacks beside a name.
fn lacking(table: &Pairs, first: u64) -> [u64; 8]
    ensures { bit_at result ≡ (λ n. lacks table.now (first, n)) }
{
    let mut names = [0; 8];
    for second in 0..table.len() {
        put_where(&mut names, second, table.lacks(first, second));
    }
    names
}

/// For each name the names that a table lacks beside it.
pub(crate) fn all_lacking(alloc: Global, table: &Pairs) -> Result<Items<[u64; 8]>, NoMemory>
    ensures { IfOk result (λ rows. RowsLack table.now rows) }
{
    let mut rows = Items::new(alloc);
    for first in 0..table.len() {
        rows.push(lacking(table, first))?;
    }
    Ok(rows)
}

/// The set of a name, empty where it is not there.
pub(crate) fn set_at(rows: &[[u64; 8]], name: usize) -> [u64; 8]
    ensures { bit_at result ≡ bit_at (slice_index_or rows.now name []) }
{
    match sqlite_items::at(rows, name) {
        Some(words) => *words,
        None => [0; 8],
    }
}
