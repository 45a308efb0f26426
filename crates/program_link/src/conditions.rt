// The conditions of all predicates.
ghost use Rattle.std.specs.Prelude.{◌≡◌, ◌++◌, IfOk, OnOk};
ghost use Rattle.program_link.specs.Programs.{conditions};

use assertion_normal::Normal;
use prog_data::{Cond, CondKind, Prop};
use sqlite_items::Items;
use std::alloc::Global;
use term_core::NoMemory;

// A copy of conjunctions.
fn copied_disjuncts(alloc: Global, list: &[Items<Prop>]) -> Result<Items<Items<Prop>>, NoMemory>
    ensures { IfOk result (λ copies. copies ≡ list.now) }
{
    let mut copies = Items::new(alloc);
    for props in list {
        copies.push(Items::from_slice(alloc, props.as_slice())?)?;
    }
    Ok(copies)
}

// A copy of what a condition asks.
fn copied_kind(alloc: Global, kind: &CondKind) -> Result<CondKind, NoMemory>
    ensures { IfOk result (λ copy. copy ≡ kind.now) }
{
    match kind {
        CondKind::Calls(list) => {
            let list = copied_disjuncts(alloc, list.as_slice())?;
            Ok(CondKind::Calls(list))
        }
        CondKind::Success(pre, post) => {
            let pre = Items::from_slice(alloc, pre.as_slice())?;
            let post = Items::from_slice(alloc, post.as_slice())?;
            Ok(CondKind::Success(pre, post))
        }
        CondKind::Comp(pre, prop) => {
            let pre = Items::from_slice(alloc, pre.as_slice())?;
            Ok(CondKind::Comp(pre, *prop))
        }
    }
}

// A copy of a condition.
fn copied_cond(alloc: Global, cond: &Cond) -> Result<Cond, NoMemory>
    ensures { IfOk result (λ copy. copy ≡ cond.now) }
{
    let kind = copied_kind(alloc, &cond.kind)?;
    Ok(Cond {
        id: cond.id,
        pred: cond.pred,
        place: cond.place,
        kind,
    })
}

// Adds copies of conditions.
fn add_conds(alloc: Global, conds: &mut Items<Cond>, more: &[Cond]) -> Result<(), NoMemory>
    ensures { OnOk result (conds.new ≡ conds.old ++ more.now) }
{
    for cond in more {
        conds.push(copied_cond(alloc, cond)?)?;
    }
    Ok(())
}

/// The conditions of all predicates, by what the assertions of each give.
pub(crate) fn conditions(alloc: Global, normals: &[Normal]) -> Result<Items<Cond>, NoMemory>
    ensures { IfOk result (λ conds. conds ≡ conditions normals.now) }
{
    let mut conds = Items::new(alloc);
    for normal in normals {
        add_conds(alloc, &mut conds, normal.conds.as_slice())?;
    }
    Ok(conds)
}
