// What the assertions of predicates give.
ghost use Rattle.std.specs.Prelude.{◌≡◌, ◌+◌, [], Some, None, map, IfOk, IfErr};
ghost use Rattle.std.specs.List.{AllByRecursion};
ghost use Rattle.assertion_normal.specs.Normals.{normalised};
ghost use Rattle.assertion_normal.specs.Troubles.{least_trouble};
ghost use Rattle.program_link.specs.Programs.{in_setting, normals_behind};
ghost use Rattle.program_link.specs.HeldPrograms.{IsNoRoom, HasNoTrouble, draft_held};

use crate::drafts::{UnitPred, assertions_of};
use crate::outcomes::RoomFault;
use assertion_normal::{Normal, NormalFault, normalise};
use assertion_read::Assertion;
use prog_data::Grammar;
use sqlite_items::Items;
use std::alloc::Global;
use term_core::{Names, NoMemory};
use unit_scopes::{Setting, Source};

/// Two numbers added up.
///
/// # Errors
/// Want of numbers.
pub(crate) fn sum(first: u64, second: u64) -> Result<u64, NoMemory>
    ensures { IfOk result (λ sum. sum ≡ first + second) }
{
    match first.checked_add(second) {
        None => Err(NoMemory),
        Some(sum) => Ok(sum),
    }
}

// What assertions without trouble give, which are about the predicate of a number; conditions are numbered on from a number.
fn normal_in(
    alloc: Global,
    names: &Names,
    setting: &Setting,
    grammar: &mut Grammar,
    pred: u64,
    first: u64,
    list: &[Assertion],
) -> Result<Normal, RoomFault>
    requires sound { least_trouble names.now setting.now.scope.types list.now ≡ None }
    ensures ok { IfOk result (λ normal. normalised names.now setting.now.file setting.now.scope.types grammar.old pred first list.now ≡ Some (grammar.new, normal)) }
    ensures err { IfErr result (IsNoRoom (normalised names.now setting.now.file setting.now.scope.types grammar.old pred first list.now)) }
{
    let types = setting.scope.types();
    match normalise(
        alloc,
        names,
        setting.file,
        types,
        grammar,
        pred,
        first,
        list,
    ) {
        Ok(normal) => Ok(normal),
        Err(NormalFault::TooManyNames) => Err(RoomFault::TooManyNames),
        Err(NormalFault::NoMemory) => Err(RoomFault::NoMemory),
        Err(NormalFault::UnknownProperty(_)) => unreachable!(),
        Err(NormalFault::Ambiguous(_)) => unreachable!(),
    }
}

// The same of the assertions about a predicate; none where its unit has no setting.
fn normal_of(
    alloc: Global,
    names: &Names,
    sources: &[Source],
    settings: &[Setting],
    pred: UnitPred,
    grammar: &mut Grammar,
    number: u64,
    first: u64,
) -> Result<Normal, RoomFault>
    requires sound { HasNoTrouble names.now settings.now (draft_held sources.now pred) }
    ensures ok { IfOk result (λ normal. in_setting settings.now (draft_held sources.now pred) (λ s. normalised names.now s.file s.scope.types grammar.old number first (draft_held sources.now pred).assertions) ≡ Some (grammar.new, normal)) }
    ensures err { IfErr result (IsNoRoom (in_setting settings.now (draft_held sources.now pred) (λ s. normalised names.now s.file s.scope.types grammar.old number first (draft_held sources.now pred).assertions))) }
{
    match settings.get(pred.unit as usize) {
        None => Err(RoomFault::TooManyNames),
        Some(setting) => {
            let list = assertions_of(alloc, sources, pred)?;
            normal_in(
                alloc,
                names,
                setting,
                grammar,
                number,
                first,
                list.as_slice(),
            )
        }
    }
}

/// What the assertions of all predicates give, in order.
pub(crate) fn normals(
    alloc: Global,
    names: &Names,
    sources: &[Source],
    settings: &[Setting],
    preds: &[UnitPred],
    grammar: &mut Grammar,
) -> Result<Items<Normal>, RoomFault>
    requires sound { AllByRecursion (HasNoTrouble names.now settings.now) (map (draft_held sources.now) preds.now) }
    ensures ok { IfOk result (λ normals. normals_behind names.now settings.now (grammar.old, []) (map (draft_held sources.now) preds.now) ≡ Some (grammar.new, normals)) }
    ensures err { IfErr result (IsNoRoom (normals_behind names.now settings.now (grammar.old, []) (map (draft_held sources.now) preds.now))) }
{
    let mut normals = Items::new(alloc);
    let mut first = 0;
    for pred in preds {
        let number = normals.len() as u64;
        let normal = normal_of(
            alloc, names, sources, settings, *pred, grammar, number, first,
        )?;
        first = sum(normal.conds.len() as u64, first)?;
        normals.push(normal)?;
    }
    Ok(normals)
}
