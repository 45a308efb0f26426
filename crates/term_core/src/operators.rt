// Tables of operators.
ghost use Rattle.std.specs.Prelude.{◌≡◌, Some, None, IfOk, OnOk, OnErr, IsErrOf};
ghost use Rattle.term_core.specs.Operators.{prefix_of, infix_of, defined, added, changed, redefined, is_reserved, left_limit, right_limit, is_torn_at, has_kind, is_before, is_yfx, is_xfy, is_fy};
ghost use Rattle.term_core.specs.Standard.{IsMade, standard};
ghost use Rattle.term_core.specs.OperatorLaws.{TablesAreOrderly, TablesHaveOneRoot, ChangesSetOneName};
ghost use Rattle.std.specs.Thread.{IsSend, IsSync};
ghost use Rattle.term_core.specs.contracts.operators.OpTable.{the_row as table_row};

use crate::names::crosses;
use crate::standard::{standard_infixes, standard_prefixes};
use crate::{BAR, NoMemory};
use sqlite_items::Items;
use std::alloc::Global;
use std::marker::Model;

/// Where an operator stands: `f` is the operator, `x` an argument of a lower priority, `y` one of at most its own.
#[derive(Clone, Copy, Drop, Debug, PartialEq, Eq)]
pub enum OpKind {
    Xfx,
    Xfy,
    Yfx,
    Fy,
    Fx,
}

/// What an operator is: its priority, from 1 to 1200, and its kind.
#[derive(Clone, Copy, Drop, Debug, PartialEq, Eq)]
pub struct Op {
    pub priority: u64,
    pub kind: OpKind,
}

impl Op {
    /// The greatest priority of the argument before it.
    pub fn left_limit(self) -> u64
        ensures { result ≡ left_limit self }
    {
        match self.kind {
            OpKind::Xfx | OpKind::Xfy => self.priority.saturating_sub(1),
            OpKind::Yfx => self.priority,
            OpKind::Fy | OpKind::Fx => 0,
        }
    }

    /// The greatest priority of the argument behind it.
    pub fn right_limit(self) -> u64
        ensures { result ≡ right_limit self }
    {
        match self.kind {
            OpKind::Xfy | OpKind::Fy => self.priority,
            OpKind::Xfx | OpKind::Yfx | OpKind::Fx => self.priority.saturating_sub(1),
        }
    }
}

/// A name and the operator that it is.
#[derive(Clone, Copy, Drop)]
pub struct Definition {
    pub name: u64,
    pub op: Op,
}

/// The prefix operators and the infix operators in force.
#[derive(Drop)]
pub struct Operators {
    pub prefixes: Items<Definition>,
    pub infixes: Items<Definition>,
}

/// Why a table did not change.
#[derive(Clone, Copy, Drop, Debug, PartialEq, Eq)]
pub enum OpFault {
    OpRefused,
    NoMemory,
}

impl From<NoMemory> for OpFault {
    ghost use Rattle.std.specs.Prelude.{◌≡◌};
    ghost use Rattle.term_core.specs.declared.operators.OpFault.{OpFault};

    ghost from_gives = { λ _ fault. fault ≡ OpFault.NoMemory };

    fn from(_error: NoMemory) -> OpFault {
        OpFault::NoMemory
    }
}

/// A table of operators: the standard one, or one that changes have made of it.
#[derive(Drop)]
pub struct OpTable {
    alloc: Global,
    operators: Operators,
}

impl Model for OpTable {
    ghost use Rattle.term_core.specs.declared.operators.Operators.{Operators};
    ghost use Rattle.term_core.specs.Standard.{IsMade};

    ghost Value = { Operators };

    ghost view = { λ t. t.operators };

    ghost invariant = { λ t. IsMade t.operators };
}

impl OpTable {
    /// The table that is in force from the start.
    pub fn standard(alloc: Global) -> Result<OpTable, NoMemory>
        ensures { IfOk result (λ ops. ops ≡ standard) }
    {
        let operators = Operators {
            prefixes: standard_prefixes(alloc)?,
            infixes: standard_infixes(alloc)?,
        };
        Ok(OpTable { alloc, operators })
    }

    /// An equal table.
    pub fn copy(&self) -> Result<OpTable, NoMemory>
        ensures { IfOk result (λ ops. ops ≡ self.now) }
    {
        let operators = Operators {
            prefixes: Items::from_slice(self.alloc, self.operators.prefixes.as_slice())?,
            infixes: Items::from_slice(self.alloc, self.operators.infixes.as_slice())?,
        };
        Ok(OpTable {
            alloc: self.alloc,
            operators,
        })
    }

    /// Makes a name an operator, in place of what it was of that sort, or none where the priority is 0.
    pub fn add(&mut self, priority: i64, kind: OpKind, name: u64) -> Result<(), OpFault>
        ensures ok { OnOk result (added priority kind name self.old ≡ Some self.new) }
        ensures refused { IsErrOf result OpFault.OpRefused → added priority kind name self.old ≡ None }
        ensures err { OnErr result (self.new ≡ self.old) }
    {
        if priority < 0 || 1200 < priority || is_reserved(name) {
            return Err(OpFault::OpRefused);
        }
        let op = Op {
            priority: priority as u64,
            kind,
        };
        let changed = changed(self.alloc, Definition { name, op }, &self.operators)?;
        // No other priority has come to hold what it did not hold before.
        if is_torn_at(&changed, op.priority) {
            return Err(OpFault::OpRefused);
        }
        self.operators = changed;
        Ok(())
    }

    /// Says that changes of the standard table have made this one.
    pub fn made(&self)
        ensures { IsMade self.now }
    {
        let _ = &self.operators; // for the proof
    }

    /// The prefix operator that a name is.
    pub fn prefix(&self, name: u64) -> Option<Op>
        ensures value { result ≡ prefix_of self.now name }
        ensures made { IsMade self.now }
    {
        op_of(self.operators.prefixes.as_slice(), name)
    }

    /// The infix operator that a name is.
    pub fn infix(&self, name: u64) -> Option<Op>
        ensures value { result ≡ infix_of self.now name }
        ensures made { IsMade self.now }
    {
        op_of(self.operators.infixes.as_slice(), name)
    }
}

// The names that no change takes are the first: `[]`, `.`, `{}`, the comma and the bar.
fn is_reserved(name: u64) -> bool
    ensures { result ≡ is_reserved name }
{
    name <= BAR
}

// What a name is in a list.
fn op_of(definitions: &[Definition], name: u64) -> Option<Op>
    ensures { result ≡ defined definitions.now name }
{
    for known in definitions {
        if known.name == name {
            return Some(known.op);
        }
    }
    None
}

// The operators with this definition in the list of its kind.
fn changed(alloc: Global, new: Definition, operators: &Operators) -> Result<Operators, NoMemory>
    ensures { IfOk result (λ ops. ops ≡ changed new operators.now) }
{
    let prefixes = operators.prefixes.as_slice();
    let infixes = operators.infixes.as_slice();
    if is_before(new.op.kind) {
        Ok(Operators {
            prefixes: redefined(alloc, new, prefixes)?,
            infixes: Items::from_slice(alloc, infixes)?,
        })
    } else {
        Ok(Operators {
            prefixes: Items::from_slice(alloc, prefixes)?,
            infixes: redefined(alloc, new, infixes)?,
        })
    }
}

// The definitions with this one alone for its name, or with none where its priority is 0.
fn redefined(
    alloc: Global,
    new: Definition,
    definitions: &[Definition],
) -> Result<Items<Definition>, NoMemory>
    ensures { IfOk result (λ ds. ds ≡ redefined new definitions.now) }
{
    let mut kept = Items::new(alloc);
    if new.op.priority != 0 {
        kept.push(new)?;
    }
    for known in definitions {
        if known.name != new.name {
            kept.push(*known)?;
        }
    }
    Ok(kept)
}

// Whether this priority has both a yfx and an xfy operator, or both an fy and a yfx operator.
fn is_torn_at(operators: &Operators, priority: u64) -> bool
    ensures { result ≡ is_torn_at operators.now priority }
{
    let prefixes = operators.prefixes.as_slice();
    let infixes = operators.infixes.as_slice();
    has_yfx(infixes, priority) && (has_xfy(infixes, priority) || has_fy(prefixes, priority))
}

fn has_yfx(definitions: &[Definition], priority: u64) -> bool
    ensures { result ≡ has_kind is_yfx definitions.now priority }
{
    for known in definitions {
        if known.op.priority == priority && is_yfx(known.op.kind) {
            return true;
        }
    }
    false
}

fn has_xfy(definitions: &[Definition], priority: u64) -> bool
    ensures { result ≡ has_kind is_xfy definitions.now priority }
{
    for known in definitions {
        if known.op.priority == priority && is_xfy(known.op.kind) {
            return true;
        }
    }
    false
}

fn has_fy(definitions: &[Definition], priority: u64) -> bool
    ensures { result ≡ has_kind is_fy definitions.now priority }
{
    for known in definitions {
        if known.op.priority == priority && is_fy(known.op.kind) {
            return true;
        }
    }
    false
}

// Whether the kind stands before its argument.
fn is_before(kind: OpKind) -> bool
    ensures { result ≡ is_before kind }
{
    match kind {
        OpKind::Xfx | OpKind::Xfy | OpKind::Yfx => false,
        OpKind::Fy | OpKind::Fx => true,
    }
}

fn is_yfx(kind: OpKind) -> bool
    ensures { result ≡ is_yfx kind }
{
    match kind {
        OpKind::Yfx => true,
        OpKind::Xfx | OpKind::Xfy | OpKind::Fy | OpKind::Fx => false,
    }
}

fn is_xfy(kind: OpKind) -> bool
    ensures { result ≡ is_xfy kind }
{
    match kind {
        OpKind::Xfy => true,
        OpKind::Xfx | OpKind::Yfx | OpKind::Fy | OpKind::Fx => false,
    }
}

fn is_fy(kind: OpKind) -> bool
    ensures { result ≡ is_fy kind }
{
    match kind {
        OpKind::Fy => true,
        OpKind::Xfx | OpKind::Xfy | OpKind::Yfx | OpKind::Fx => false,
    }
}

/// Of every table that changes can make: each name is at most one prefix and one infix operator, and of two operators
/// outside brackets only one can be the root. A change sets what one name is.
pub fn operators_law()
    ensures orderly { TablesAreOrderly }
    ensures one_root { TablesHaveOneRoot }
    ensures changes { ChangesSetOneName }
{}

/// Tables may go to another thread, and several threads may share them.
pub fn operators_threads_law()
    ensures send { IsSend table_row }
    ensures sync { IsSync table_row }
{
    crosses::<OpTable>();
}
