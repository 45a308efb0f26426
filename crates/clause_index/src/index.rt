// The index of a program.
ghost use Rattle.std.specs.Prelude.{◌≡◌, IfOk};
ghost use Rattle.clause_index.specs.Lists.{found};
ghost use Rattle.clause_index.specs.Selected.{program_keys, keys_at, selected};

use crate::keys::{Key, head_keys};
use crate::lists::Lists;
use prog_data::Program;
use sqlite_items::Items;
use std::alloc::Global;
use std::marker::Model;
use term_core::NoMemory;

// The lists of clauses with these keys.
fn lists_of(alloc: Global, keys: &[Key]) -> Result<Lists, NoMemory>
    ensures { IfOk result (λ lists. (key : Key) → found lists key ≡ selected keys.now key) }
{
    let mut lists = Lists::new(alloc);
    for key in keys {
        lists.add(alloc, *key)?;
    }
    Ok(lists)
}

// The index of one predicate.
#[derive(Drop)]
struct Clauses {
    keys: Items<Key>,
    lists: Lists,
}

impl Model for Clauses {
    ghost use Rattle.std.specs.Prelude.{◌≡◌, List};
    ghost use Rattle.clause_index.specs.declared.keys.Key.{Key};
    ghost use Rattle.clause_index.specs.Lists.{found};
    ghost use Rattle.clause_index.specs.Selected.{selected};

    ghost Value = { List Key };

    ghost view = { λ c. c.keys };

    ghost invariant = { λ c. (key : Key) → found c.lists key ≡ selected c.keys key };
}

impl Clauses {
    fn new(alloc: Global, keys: Items<Key>) -> Result<Clauses, NoMemory>
        ensures { IfOk result (λ clauses. clauses ≡ keys) }
    {
        let lists = lists_of(alloc, keys.as_slice())?;
        Ok(Clauses { keys, lists })
    }

    fn select(&self, key: Key) -> &[u64]
        ensures { result.now ≡ selected self.now key }
    {
        self.lists.find(key)
    }
}

/// An index of the clauses of a program, which contracts see as the keys of their heads, a list for each predicate.
#[derive(Drop)]
pub struct Index {
    preds: Items<Clauses>,
}

impl Model for Index {
    ghost use Rattle.std.specs.Prelude.{List};
    ghost use Rattle.clause_index.specs.declared.keys.Key.{Key};

    ghost Value = { List (List Key) };

    ghost view = { λ index. index.preds };
}

impl Index {
    /// The index of a program. Each key of a predicate has a list of its own, so it takes memory by the number of
    /// clauses, and by the number of a predicate's keys times that of its clauses whose first argument is a variable.
    ///
    /// # Errors
    /// Where memory is refused.
    pub fn make(alloc: Global, program: &Program) -> Result<Index, NoMemory>
        ensures { IfOk result (λ index. index ≡ program_keys program.now) }
    {
        let mut preds = Items::new(alloc);
        for pred in program.preds.as_slice() {
            let keys = head_keys(alloc, pred.clauses.as_slice())?;
            preds.push(Clauses::new(alloc, keys)?)?;
        }
        Ok(Index { preds })
    }

    /// The places, in order, of the clauses of a predicate whose first argument is a variable or agrees with the key,
    /// or which have none. It takes no memory, and looks at no clause.
    pub fn select(&self, pred: u64, key: Key) -> &[u64]
        ensures { result.now ≡ selected (keys_at self.now pred) key }
    {
        match self.preds.get(pred as usize) {
            Some(clauses) => clauses.select(key),
            None => &[],
        }
    }
}
