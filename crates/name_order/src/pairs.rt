// Relations on names, as bits.
ghost use Rattle.std.specs.Prelude.{◌≡◌, ◌≤◌, ◌<◌, ◌&&◌, ◌||◌, not, false, slice_index_or, IfOk};
ghost use Rattle.name_order.specs.Relations.{Pair, same_pair};
ghost use Rattle.name_order.specs.Tables.{has, lacks};

use sqlite_items::Items;
use std::alloc::Global;
use std::marker::Model;
use term_core::NoMemory;

/// A set of pairs of names: a bit for each, row by row.
#[derive(Drop)]
pub(crate) struct Pairs {
    size: usize,
    words: Items<u64>,
}

impl Model for Pairs {
    ghost use Rattle.std.specs.Prelude.{◌≤◌, ◌*◌, length};
    ghost use Rattle.name_order.specs.Tables.{Grid};

    ghost Value = { Grid };

    ghost view = { λ t. record { size = t.size; words = t.words } };

    ghost invariant = { λ t. (t.size ≤ 512) × (t.size * t.size ≤ 64 * length t.words) };
}

impl Pairs {
    /// No pairs of so many names.
    pub(crate) fn none(alloc: Global, size: usize) -> Result<Pairs, NoMemory>
        requires { size ≤ 512 }
        ensures size { IfOk result (λ t. t.size ≡ size) }
        ensures none { IfOk result (λ t. (p : Pair) → has t p ≡ false) }
    {
        let words = vec![in alloc; 0u64; size * size / 64 + 1]?;
        Ok(Pairs {
            size,
            words: Items::from_vec(words),
        })
    }

    /// How many names there are.
    pub(crate) fn len(&self) -> u64
        ensures len { result ≡ self.now.size }
        ensures few { result ≤ 512 }
    {
        self.size as u64
    }

    /// Whether the pair is in the set.
    pub(crate) fn has(&self, first: u64, second: u64) -> bool
        ensures { result ≡ has self.now (first, second) }
    {
        let size = self.size as u64;
        if first >= size || second >= size {
            return false;
        }
        let at = first * size + second;
        word_at(&self.words, (at / 64) as usize) >> (at % 64) & 1 == 1
    }

    /// Whether both are names and the pair is not in the set.
    pub(crate) fn lacks(&self, first: u64, second: u64) -> bool
        ensures { result ≡ lacks self.now (first, second) }
    {
        let size = self.size as u64;
        if first >= size || second >= size {
            return false;
        }
        !self.has(first, second)
    }

    /// Puts the pair into the set.
    pub(crate) fn add(&mut self, first: u64, second: u64)
        requires first { first < self.old.size }
        requires second { second < self.old.size }
        ensures size { self.new.size ≡ self.old.size }
        ensures has { (p : Pair) → has self.new p ≡ (same_pair p (first, second) || has self.old p) }
    {
        let at = first * (self.size as u64) + second;
        let word = word_at(&self.words, (at / 64) as usize);
        self.words.set((at / 64) as usize, word | 1 << (at % 64));
    }

    /// Takes the pair out of the set, if it is there.
    pub(crate) fn remove(&mut self, first: u64, second: u64)
        ensures size { self.new.size ≡ self.old.size }
        ensures has { (p : Pair) → has self.new p ≡ (not (same_pair p (first, second)) && has self.old p) }
    {
        if !self.has(first, second) {
            return;
        }
        let at = first * (self.size as u64) + second;
        let word = word_at(&self.words, (at / 64) as usize);
        self.words.set((at / 64) as usize, word & !(1 << (at % 64)));
    }
}

// A word, 0 where there is none.
fn word_at(words: &Items<u64>, at: usize) -> u64
    ensures { result ≡ slice_index_or words.now at 0 }
{
    match words.get(at) {
        Some(word) => *word,
        None => 0,
    }
}
