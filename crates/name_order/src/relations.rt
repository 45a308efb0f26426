// The relations of the names of a grammar.
ghost use Rattle.std.specs.Prelude.{◌≡◌, ◌↔◌, ◌<◌, ◌≤◌, length, IfOk, IsTrue};
ghost use Rattle.prog_data.specs.GrammarRange.{IsGrammar};
ghost use Rattle.name_order.specs.Relations.{HasMember, Below, Meets, has_member, below, meets, full_leaves};
ghost use Rattle.prog_data.specs.Values.{bit_at};
ghost use Rattle.name_order.specs.Held.{SameLeaves, apart};

use crate::leaves::{all_kept_leaves, all_leaves_led, copied_grammar, rules_at};
use crate::marking::{Kind, table};
use crate::pairs::Pairs;
use crate::sets::{all_lacking, set_at};
use prog_data::{Grammar, Rule};
use sqlite_items::Items;
use std::alloc::Global;
use std::marker::Model;
use term_core::NoMemory;

/// Which names of a grammar have members, which are below which, and which meet; seen as the grammar.
#[derive(Drop)]
pub struct Relations {
    grammar: Grammar,
    leaves: Items<Items<Rule>>,
    members: Pairs,
    outside: Pairs,
    meeting: Pairs,
    above: Items<[u64; 8]>,
    apart: Items<[u64; 8]>,
}

impl Model for Relations {
    ghost use Rattle.prog_data.specs.declared.grammars.Grammar.{Grammar};
    ghost use Rattle.name_order.specs.Held.{TablesHold};

    ghost Value = { Grammar };

    ghost view = { λ r. r.grammar };

    ghost invariant = { λ r. TablesHold r.grammar r.leaves r.members r.outside r.meeting r.above r.apart };
}

impl Relations {
    /// The relations of a grammar.
    pub fn make(alloc: Global, grammar: &Grammar) -> Result<Relations, NoMemory>
        requires { IsGrammar grammar.now }
        ensures { IfOk result (λ r. r ≡ grammar.now) }
    {
        let rules = grammar.rules.as_slice();
        let leads = table(alloc, Kind::Leads, rules)?;
        let all = all_leaves_led(alloc, rules, &leads)?;
        let members = table(alloc, Kind::Members, all.as_slice())?;
        let leaves = all_kept_leaves(alloc, &members, all.as_slice())?;
        let outside = table(alloc, Kind::Outside, leaves.as_slice())?;
        let meeting = table(alloc, Kind::Meets, leaves.as_slice())?;
        let above = all_lacking(alloc, &outside)?;
        let apart = all_lacking(alloc, &meeting)?;
        let grammar = copied_grammar(alloc, grammar)?;
        Ok(Relations {
            grammar,
            leaves,
            members,
            outside,
            meeting,
            above,
            apart,
        })
    }

    /// How many names the grammar has.
    pub fn len(&self) -> u64
        ensures len { result ≡ length self.now.rules }
        ensures few { result ≤ 512 }
    {
        self.grammar.rules.len() as u64
    }

    /// Whether the first name is below the second.
    pub fn below(&self, first: u64, second: u64) -> bool
        requires first { first < length self.now.rules }
        requires second { second < length self.now.rules }
        ensures test { result ≡ below self.now first second }
        ensures relation { IsTrue result ↔ Below self.now first second }
    {
        self.outside.lacks(first, second)
    }

    /// Whether the names meet.
    pub fn meets(&self, first: u64, second: u64) -> bool
        requires first { first < length self.now.rules }
        requires second { second < length self.now.rules }
        ensures test { result ≡ meets self.now first second }
        ensures relation { IsTrue result ↔ Meets self.now first second }
    {
        self.meeting.has(first, second)
    }

    /// The names that the name is below.
    pub fn above(&self, name: u64) -> [u64; 8]
        requires { name < length self.now.rules }
        ensures { bit_at result ≡ below self.now name }
    {
        set_at(self.above.as_slice(), name as usize)
    }

    /// The names that do not meet the name.
    pub fn apart(&self, name: u64) -> [u64; 8]
        requires { name < length self.now.rules }
        ensures { bit_at result ≡ apart self.now name }
    {
        set_at(self.apart.as_slice(), name as usize)
    }

    /// Whether the name has a member.
    pub fn has_member(&self, name: u64) -> bool
        requires { name < length self.now.rules }
        ensures test { result ≡ has_member self.now name }
        ensures relation { IsTrue result ↔ HasMember self.now name }
    {
        self.members.has(name, name)
    }

    /// The leaves of a name that have members, in some order.
    pub fn leaves(&self, name: u64) -> &[Rule]
        requires { name < length self.now.rules }
        ensures { SameLeaves result.now (full_leaves self.now name) }
    {
        rules_at(self.leaves.as_slice(), name as usize)
    }

    /// Says that the grammar is one of a program.
    pub fn range(&self)
        ensures { IsGrammar self.now }
    {
        let _ = &self.grammar; // for the proof
    }
}
