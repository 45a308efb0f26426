// Sets of names as bits: the name n is in a set where bit n % 64 of word n / 64 is 1.
ghost use Rattle.std.specs.Prelude.{◌≡◌, ◌<◌, ◌↔◌, ◌&&◌, ◌||◌, ℕ, true, false, IsTrue};
ghost use Rattle.prog_data.specs.Values.{bit_at};

/// Whether a name is in a set.
pub(crate) fn has(words: &[u64; 8], name: u64) -> bool
    requires { name < 512 }
    ensures { result ≡ bit_at words.now name }
{
    (words[(name / 64) as usize] >> (name % 64)) & 1 == 1
}

/// The names that are in both sets.
pub(crate) fn in_both(a: &[u64; 8], b: &[u64; 8]) -> [u64; 8]
    ensures { bit_at result ≡ (λ n. bit_at a.now n && bit_at b.now n) }
{
    [
        a[0] & b[0],
        a[1] & b[1],
        a[2] & b[2],
        a[3] & b[3],
        a[4] & b[4],
        a[5] & b[5],
        a[6] & b[6],
        a[7] & b[7],
    ]
}

/// The names that are in one of two sets.
pub(crate) fn in_either(a: &[u64; 8], b: &[u64; 8]) -> [u64; 8]
    ensures { bit_at result ≡ (λ n. bit_at a.now n || bit_at b.now n) }
{
    [
        a[0] | b[0],
        a[1] | b[1],
        a[2] | b[2],
        a[3] | b[3],
        a[4] | b[4],
        a[5] | b[5],
        a[6] | b[6],
        a[7] | b[7],
    ]
}

/// Whether each name of the second set is in the first.
pub(crate) fn holds_all(a: &[u64; 8], b: &[u64; 8]) -> bool
    ensures { IsTrue result ↔ ((n : ℕ) → bit_at b.now n ≡ true → bit_at a.now n ≡ true) }
{
    for index in 0..8 {
        let wanted = b[index];
        if a[index] & wanted != wanted {
            return false;
        }
    }
    true
}

/// Whether no name is in both sets.
pub(crate) fn are_disjoint(a: &[u64; 8], b: &[u64; 8]) -> bool
    ensures { IsTrue result ↔ ((n : ℕ) → bit_at b.now n ≡ true → bit_at a.now n ≡ false) }
{
    for index in 0..8 {
        if a[index] & b[index] != 0 {
            return false;
        }
    }
    true
}
