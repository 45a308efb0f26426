// Sets of names: the name n is in a set where bit n % 64 of word n / 64 is 1, so no set has a name from 512 on.
ghost use Rattle.std.specs.Prelude.{◌≡◌, ◌↔◌, ◌<◌, ◌==◌, ◌&&◌, ◌||◌, ℕ, nat_lt, IsTrue, true, false, not};
ghost use Rattle.prog_data.specs.Values.{bit_at};

/// Whether a name is in a set.
pub(crate) fn has(names: &[u64; 8], name: u64) -> bool
    ensures { result ≡ bit_at names.now name }
{
    if name >= 512 {
        return false;
    }
    (names[(name / 64) as usize] >> (name % 64)) & 1 == 1
}

/// Puts a name below 512 into a set.
pub(crate) fn put(names: &mut [u64; 8], name: u64)
    ensures { (n : ℕ) → bit_at names.new n ≡ (bit_at names.old n || (nat_lt n 512 && n == name)) }
{
    if name < 512 {
        names[(name / 64) as usize] |= 1 << (name % 64);
    }
}

/// Puts a name below 512 into a set where it is wanted.
pub(crate) fn put_where(names: &mut [u64; 8], name: u64, wanted: bool)
    ensures { (n : ℕ) → bit_at names.new n ≡ (bit_at names.old n || (nat_lt n 512 && (n == name && wanted))) }
{
    if wanted {
        put(names, name);
    }
}

/// Whether two sets are the same.
pub(crate) fn is_same(a: &[u64; 8], b: &[u64; 8]) -> bool
    ensures { IsTrue result ↔ (a.now ≡ b.now) }
{
    *a == *b
}

// Whether a name is in the first set and not in the second.
fn is_new(next: &[u64; 8], names: &[u64; 8], name: u64) -> bool
    ensures { result ≡ (bit_at next.now name && not (bit_at names.now name)) }
{
    has(next, name) && !has(names, name)
}

/// Whether the first set has a name that the second has not.
pub(crate) fn has_more(next: &[u64; 8], names: &[u64; 8]) -> bool
    ensures some { result ≡ true → (n : ℕ) × (n < 512) × (bit_at next.now n ≡ true) × (bit_at names.now n ≡ false) }
    ensures none { result ≡ false → (n : ℕ) → bit_at next.now n ≡ true → bit_at names.now n ≡ true }
{
    if is_same(next, names) {
        return false;
    }
    for name in 0..512u64 {
        if is_new(next, names, name) {
            return true;
        }
    }
    false
}

// The first name of a set, 0 where there is none.
fn first_of(names: &[u64; 8]) -> u64 {
    for name in 0..512u64 {
        if has(names, name) {
            return name;
        }
    }
    0
}

/// Whether a set has one name.
pub(crate) fn is_single(names: &[u64; 8]) -> bool
    ensures { result ≡ true → (n m : ℕ) → bit_at names.now n ≡ true → bit_at names.now m ≡ true → n ≡ m }
{
    let mut single = [0; 8];
    put(&mut single, first_of(names));
    is_same(names, &single)
}
