// What the names of goals mean in a file.
ghost use Rattle.std.specs.Prelude.{◌≡◌, ℕ, if◌then◌else◌, IfOk, OnOk};
ghost use Rattle.regtype_grammar.specs.TypeNames.{meaning};
ghost use Rattle.body_code.specs.Scopes.{is_named, callee_of};
ghost use Rattle.body_code.specs.Indexes.{one_more, looked_up, IsIndex};

use indexmap::IndexMap;
use prog_data::Seen;
use regtype_grammar::{Meaning, type_meant};
use sqlite_items::Items;
use std::alloc::Global;
use std::marker::Model;
use term_core::NoMemory;

/// A predicate that goals call by its name and its number of arguments.
#[derive(Clone, Copy, Drop, Debug)]
pub struct Named {
    pub name: u64,
    pub arity: u64,
    pub pred: u64,
}

/// The predicates and the types that are seen in a file: its own, and the imported ones that none of its own hides, each once. Two of one name are ambiguous.
#[derive(Drop)]
pub struct Visible {
    pub preds: Items<Named>,
    pub types: Items<Seen>,
}

/// What a name with so many arguments means as a predicate: its number, nothing, or several.
#[derive(Clone, Copy, Drop, Debug)]
pub enum Callee {
    One(u64),
    Unknown,
    Several,
}

// What is found, and one more predicate of the same name.
fn one_more(found: Callee, pred: u64) -> Callee
    ensures { result ≡ one_more found pred }
{
    match found {
        Callee::Unknown => Callee::One(pred),
        Callee::One(_) | Callee::Several => Callee::Several,
    }
}

fn look_up(index: &IndexMap<(u64, u64), Callee>, name: u64, arity: u64) -> Callee
    ensures { result ≡ looked_up index.now name arity }
{
    match index.get(&(name, arity)) {
        Some(found) => *found,
        None => Callee::Unknown,
    }
}

// Adds a predicate, which may be another of its name.
fn add(index: &mut IndexMap<(u64, u64), Callee>, named: Named) -> Result<(), NoMemory>
    ensures { OnOk result ((name arity : ℕ) → looked_up index.new name arity ≡ (if is_named name arity named then one_more (looked_up index.old name arity) named.pred else looked_up index.old name arity)) }
{
    let found = look_up(index, named.name, named.arity);
    index.insert((named.name, named.arity), one_more(found, named.pred))?;
    Ok(())
}

// The predicates by their names and numbers of arguments.
fn index_of(alloc: Global, preds: &[Named]) -> Result<IndexMap<(u64, u64), Callee>, NoMemory>
    ensures { IfOk result (λ index. IsIndex preds.now index) }
{
    let mut index = IndexMap::new(alloc);
    for named in preds {
        add(&mut index, *named)?;
    }
    Ok(index)
}

/// What is seen in a file, with an index of the predicates.
#[derive(Drop)]
pub struct Scope {
    visible: Visible,
    index: IndexMap<(u64, u64), Callee>,
}

impl Model for Scope {
    ghost use Rattle.body_code.specs.declared.scopes.Visible.{Visible};
    ghost use Rattle.body_code.specs.Indexes.{IsIndex};

    ghost Value = { Visible };

    ghost view = { λ s. s.visible };

    ghost invariant = { λ s. IsIndex s.visible.preds s.index };
}

impl Scope {
    /// What is seen, so that its predicates are found by name.
    ///
    /// # Errors
    /// Where memory is refused.
    pub fn new(alloc: Global, visible: Visible) -> Result<Scope, NoMemory>
        ensures { IfOk result (λ scope. scope ≡ visible) }
    {
        let index = index_of(alloc, visible.preds.as_slice())?;
        Ok(Scope { visible, index })
    }

    /// The types that are seen.
    pub fn types(&self) -> &[Seen]
        ensures { result.now ≡ self.now.types }
    {
        self.visible.types.as_slice()
    }

    /// What a name with so many arguments means as a predicate.
    pub fn callee(&self, name: u64, arity: u64) -> Callee
        ensures { result ≡ callee_of self.now name arity }
    {
        look_up(&self.index, name, arity)
    }

    /// What a name means as a type.
    pub fn type_of(&self, name: u64) -> Meaning
        ensures { result ≡ meaning self.now.types name }
    {
        type_meant(self.visible.types.as_slice(), name)
    }
}
