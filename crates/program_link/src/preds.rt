// Predicates with their clauses.
ghost use Rattle.std.specs.Prelude.{◌≡◌, ◌+◌, ◌∷◌, ◌++◌, List, [], Some, None, map, drop, position, slice_get, IfOk, IfErr};
ghost use Rattle.std.specs.List.{AllByRecursion};
ghost use Rattle.ciao_reader.specs.declared.sentences.Sentence.{Sentence as SentenceValue};
ghost use Rattle.assertion_normal.specs.Settling.{in_order};
ghost use Rattle.body_code.specs.Clauses.{problem_of};
ghost use Rattle.unit_scopes.specs.Indicators.{same_indicator};
ghost use Rattle.program_link.specs.Programs.{clause_made, pred_made, beside};
ghost use Rattle.program_link.specs.HeldPrograms.{IsNoRoom, HasNoProblem, AreClauses, draft_held, clauses_held, group_of, if_there, items_at};
ghost use Rattle.program_link.specs.declared.drafts.UnitPred.{UnitPred as UnitPredValue};

use crate::drafts::{UnitPred, group_of, place_of};
use crate::outcomes::RoomFault;
use assertion_normal::Normal;
use body_code::{BodyFault, compile_clause};
use ciao_reader::Sentence;
use prog_data::{Clause, Cond, Grammar, Pred};
use sqlite_items::Items;
use std::alloc::Global;
use term_core::NoMemory;
use unit_scopes::{Setting, Source};

// The clause of a sentence without a problem.
fn clause_of(
    alloc: Global,
    setting: &Setting,
    grammar: &mut Grammar,
    sentence: &Sentence,
) -> Result<Clause, RoomFault>
    requires sound { problem_of setting.now.scope sentence.now.term ≡ None }
    ensures ok { IfOk result (λ clause. clause_made setting.now grammar.old sentence.now ≡ Some (grammar.new, clause)) }
    ensures err { IfErr result (IsNoRoom (clause_made setting.now grammar.old sentence.now)) }
{
    match compile_clause(alloc, &setting.scope, grammar, sentence, setting.file) {
        Ok(compiled) => Ok(compiled.clause),
        Err(BodyFault::TooManyNames) => Err(RoomFault::TooManyNames),
        Err(BodyFault::NoMemory) => Err(RoomFault::NoMemory),
        Err(BodyFault::UnknownProperty(_)) => unreachable!(),
        Err(BodyFault::BadClause(_)) => unreachable!(),
        Err(BodyFault::Ambiguous(_)) => unreachable!(),
        Err(BodyFault::Undefined(_)) => unreachable!(),
    }
}

// With the clause at a place, if it is there.
fn with_clause_at(
    alloc: Global,
    setting: &Setting,
    grammar: &mut Grammar,
    mut made: Items<Clause>,
    clauses: &[Sentence],
    place: u64,
) -> Result<Items<Clause>, RoomFault>
    requires sound { AreClauses setting.now (if_there (slice_get clauses.now place)) }
    ensures ok { IfOk result (λ all. (rest : List SentenceValue) → in_order (clause_made setting.now) (grammar.old, made) (if_there (slice_get clauses.now place) ++ rest) ≡ in_order (clause_made setting.now) (grammar.new, all) rest) }
    ensures err { IfErr result (λ fault. (rest : List SentenceValue) → IsNoRoom (in_order (clause_made setting.now) (grammar.old, made) (if_there (slice_get clauses.now place) ++ rest)) fault) }
{
    match clauses.get(place as usize) {
        None => Ok(made),
        Some(sentence) => {
            let clause = clause_of(alloc, setting, grammar, sentence)?;
            made.push(clause)?;
            Ok(made)
        }
    }
}

// The clauses at some places.
fn clauses_at(
    alloc: Global,
    setting: &Setting,
    grammar: &mut Grammar,
    clauses: &[Sentence],
    places: &[u64],
) -> Result<Items<Clause>, RoomFault>
    requires sound { AreClauses setting.now (items_at clauses.now places.now) }
    ensures ok { IfOk result (λ made. in_order (clause_made setting.now) (grammar.old, []) (items_at clauses.now places.now) ≡ Some (grammar.new, made)) }
    ensures err { IfErr result (IsNoRoom (in_order (clause_made setting.now) (grammar.old, []) (items_at clauses.now places.now))) }
{
    let mut made = Items::new(alloc);
    for place in places {
        made = with_clause_at(alloc, setting, grammar, made, clauses, *place)?;
    }
    Ok(made)
}

// The clauses of a predicate.
fn clauses_of(
    alloc: Global,
    setting: &Setting,
    sources: &[Source],
    pred: UnitPred,
    grammar: &mut Grammar,
) -> Result<Items<Clause>, RoomFault>
    requires sound { AreClauses setting.now (clauses_held pred.indicator (slice_get sources.now pred.unit)) }
    ensures ok { IfOk result (λ made. in_order (clause_made setting.now) (grammar.old, []) (clauses_held pred.indicator (slice_get sources.now pred.unit)) ≡ Some (grammar.new, made)) }
    ensures err { IfErr result (IsNoRoom (in_order (clause_made setting.now) (grammar.old, []) (clauses_held pred.indicator (slice_get sources.now pred.unit)))) }
{
    match sources.get(pred.unit as usize) {
        None => Ok(Items::new(alloc)),
        Some(source) => {
            let place = place_of(&source.index, pred.indicator);
            let places = group_of(source.clauses.as_slice(), place);
            let clauses = source.parts.clauses.as_slice();
            clauses_at(alloc, setting, grammar, clauses, places)
        }
    }
}

// The numbers of conditions.
fn numbers_of(alloc: Global, conds: &[Cond]) -> Result<Items<u64>, NoMemory>
    ensures { IfOk result (λ numbers. numbers ≡ map (λ c. c.id) conds.now) }
{
    let mut numbers = Items::new(alloc);
    for cond in conds {
        numbers.push(cond.id)?;
    }
    Ok(numbers)
}

// A predicate by what its assertions give; none where its unit has no setting.
fn pred_of(
    alloc: Global,
    sources: &[Source],
    settings: &[Setting],
    pred: UnitPred,
    normal: &Normal,
    grammar: &mut Grammar,
) -> Result<Pred, RoomFault>
    requires sound { HasNoProblem settings.now (draft_held sources.now pred) }
    ensures ok { IfOk result (λ made. pred_made settings.now grammar.old (draft_held sources.now pred, normal.now) ≡ Some (grammar.new, made)) }
    ensures err { IfErr result (IsNoRoom (pred_made settings.now grammar.old (draft_held sources.now pred, normal.now))) }
{
    match settings.get(pred.unit as usize) {
        None => Err(RoomFault::TooManyNames),
        Some(setting) => {
            let clauses = clauses_of(alloc, setting, sources, pred, grammar)?;
            let conds = numbers_of(alloc, normal.conds.as_slice())?;
            Ok(Pred {
                module: setting.module,
                name: pred.indicator.name,
                arity: pred.indicator.arity,
                clauses,
                conds,
                call_checks: Items::new(alloc),
            })
        }
    }
}

// With the predicate of a number, if its assertions give something.
fn with_pred(
    alloc: Global,
    sources: &[Source],
    settings: &[Setting],
    pred: UnitPred,
    normals: &[Normal],
    number: u64,
    grammar: &mut Grammar,
    mut made: Items<Pred>,
) -> Result<Items<Pred>, RoomFault>
    requires sound { HasNoProblem settings.now (draft_held sources.now pred) }
    ensures ok { IfOk result (λ all. (rest : List UnitPredValue) → in_order (pred_made settings.now) (grammar.old, made) (beside (map (draft_held sources.now) (pred ∷ rest)) (drop number normals.now)) ≡ in_order (pred_made settings.now) (grammar.new, all) (beside (map (draft_held sources.now) rest) (drop (number + 1) normals.now))) }
    ensures err { IfErr result (λ fault. (rest : List UnitPredValue) → IsNoRoom (in_order (pred_made settings.now) (grammar.old, made) (beside (map (draft_held sources.now) (pred ∷ rest)) (drop number normals.now))) fault) }
{
    match normals.get(number as usize) {
        None => Ok(made),
        Some(normal) => {
            let one = pred_of(alloc, sources, settings, pred, normal, grammar)?;
            made.push(one)?;
            Ok(made)
        }
    }
}

/// All predicates, by what their assertions give.
pub(crate) fn preds(
    alloc: Global,
    sources: &[Source],
    settings: &[Setting],
    preds: &[UnitPred],
    normals: &[Normal],
    grammar: &mut Grammar,
) -> Result<Items<Pred>, RoomFault>
    requires sound { AllByRecursion (HasNoProblem settings.now) (map (draft_held sources.now) preds.now) }
    ensures ok { IfOk result (λ made. in_order (pred_made settings.now) (grammar.old, []) (beside (map (draft_held sources.now) preds.now) normals.now) ≡ Some (grammar.new, made)) }
    ensures err { IfErr result (IsNoRoom (in_order (pred_made settings.now) (grammar.old, []) (beside (map (draft_held sources.now) preds.now) normals.now))) }
{
    let mut made = Items::new(alloc);
    for (number, pred) in preds.iter().enumerate() {
        let number = number as u64;
        made = with_pred(
            alloc, sources, settings, *pred, normals, number, grammar, made,
        )?;
    }
    Ok(made)
}
