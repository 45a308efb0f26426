// The places of clauses, a list for each key.
ghost use Rattle.std.specs.Prelude.{◌≡◌, ◌<◌, length, cond, false, [], IfOk, OnOk, None, Some};
ghost use Rattle.std.specs.Option.{option_map};
ghost use Rattle.indexmap.specs.IndexMap.{get, index_map_len};
ghost use Rattle.clause_index.specs.declared.keys.Key.TheVariants.{Free};
ghost use Rattle.clause_index.specs.Keys.{is_free, agrees};
ghost use Rattle.clause_index.specs.Lists.{same_key, with_place, placed, placed_at, found_bound, found};

use crate::keys::{Key, is_free};
use indexmap::IndexMap;
use sqlite_items::Items;
use std::alloc::Global;
use term_core::NoMemory;

/// The places of some clauses: of all, of those with a bound key by that key, together with those whose key is free,
/// and of these alone.
#[derive(Drop)]
pub(crate) struct Lists {
    all: Items<u64>,
    unbound: Items<u64>,
    bound: IndexMap<Key, Items<u64>>,
}

// Adds a place to the list at an index.
fn push_at(lists: &mut IndexMap<Key, Items<u64>>, at: usize, place: u64) -> Result<(), NoMemory>
    requires { at < index_map_len lists.old }
    ensures { OnOk result (lists.new.entries ≡ placed_at lists.old.entries at place) }
{
    lists[at].push(place)?;
    Ok(())
}

// Adds a place to each list.
fn push_to_each(lists: &mut IndexMap<Key, Items<u64>>, place: u64) -> Result<(), NoMemory>
    ensures { OnOk result ((key : Key) → get same_key lists.new key ≡ option_map (placed place) (get same_key lists.old key)) }
{
    for at in 0..lists.len() {
        push_at(lists, at, place)?;
    }
    Ok(())
}

// The list of a key is taken out; where there is none, it begins with the places of free keys.
fn take_list(
    alloc: Global,
    lists: &mut IndexMap<Key, Items<u64>>,
    unbound: &[u64],
    key: Key,
) -> Result<Items<u64>, NoMemory>
    ensures list { IfOk result (λ list. list ≡ found_bound lists.old unbound.now key) }
    ensures others { OnOk result ((other : Key) → get same_key lists.new other ≡ cond (same_key key other) None (get same_key lists.old other)) }
{
    match lists.swap_remove(&key) {
        Some(list) => Ok(list),
        None => Ok(Items::from_slice(alloc, unbound)?),
    }
}

// Adds a place to the list of a key.
fn push_to_one(
    alloc: Global,
    lists: &mut IndexMap<Key, Items<u64>>,
    unbound: &[u64],
    key: Key,
    place: u64,
) -> Result<(), NoMemory>
    ensures { OnOk result ((other : Key) → get same_key lists.new other ≡ cond (same_key key other) (Some (placed place (found_bound lists.old unbound.now key))) (get same_key lists.old other)) }
{
    let mut list = take_list(alloc, lists, unbound, key)?;
    list.push(place)?;
    lists.insert(key, list)?;
    Ok(())
}

// Adds a place to the list of a key; to each list and to that of free keys, where the key is free.
fn push_bound(
    alloc: Global,
    lists: &mut IndexMap<Key, Items<u64>>,
    unbound: &mut Items<u64>,
    key: Key,
    place: u64,
) -> Result<(), NoMemory>
    ensures { OnOk result ((other : Key) → is_free other ≡ false → found_bound lists.new unbound.new other ≡ with_place (agrees other key) place (found_bound lists.old unbound.old other)) }
{
    if is_free(key) {
        push_to_each(lists, place)?;
        unbound.push(place)?;
        Ok(())
    } else {
        push_to_one(alloc, lists, unbound.as_slice(), key, place)?;
        Ok(())
    }
}

impl Lists {
    /// The lists of no clauses.
    pub(crate) fn new(alloc: Global) -> Lists
        ensures { (key : Key) → found result key ≡ [] }
    {
        Lists {
            all: Items::new(alloc),
            unbound: Items::new(alloc),
            bound: IndexMap::new(alloc),
        }
    }

    /// Adds a clause with this key, behind the others.
    pub(crate) fn add(&mut self, alloc: Global, key: Key) -> Result<(), NoMemory>
        ensures { OnOk result ((other : Key) → found self.new other ≡ with_place (agrees other key) (length (found self.old Free)) (found self.old other)) }
    {
        let place = self.all.len() as u64;
        push_bound(alloc, &mut self.bound, &mut self.unbound, key, place)?;
        self.all.push(place)?;
        Ok(())
    }

    /// The places of the clauses whose keys agree with this one.
    pub(crate) fn find(&self, key: Key) -> &[u64]
        ensures { result.now ≡ found self.now key }
    {
        if is_free(key) {
            return self.all.as_slice();
        }
        match self.bound.get(&key) {
            Some(list) => list.as_slice(),
            None => self.unbound.as_slice(),
        }
    }
}
