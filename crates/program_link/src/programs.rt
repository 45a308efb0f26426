// The program of units without a fault.
ghost use Rattle.std.specs.Prelude.{◌≡◌, Some, None, map, IfOk, IfErr};
ghost use Rattle.std.specs.List.{AllByRecursion};
ghost use Rattle.regtype_grammar.specs.Grammars.{grammar_of};
ghost use Rattle.unit_scopes.specs.Sayings.{file_of};
ghost use Rattle.unit_scopes.specs.Imports.{type_modules};
ghost use Rattle.unit_scopes.specs.Settings.{settings as settings_of};
ghost use Rattle.unit_scopes.specs.Sources.{AreSources};
ghost use Rattle.program_link.specs.FaultOrder.{least};
ghost use Rattle.program_link.specs.Faults.{all_faults};
ghost use Rattle.program_link.specs.Programs.{program_of};
ghost use Rattle.program_link.specs.HeldPrograms.{IsNoRoom, IsNoProgram, HasNoTrouble, HasNoProblem, drafts_held, draft_held, unit_preds_from, parts_with, parts_held, program_held};

use crate::claims::claims;
use crate::conditions::conditions;
use crate::drafts::{UnitPred, unit_preds};
use crate::entries::{entries, exports};
use crate::normals::normals;
use crate::outcomes::RoomFault;
use crate::preds::preds;
use assertion_normal::Normal;
use ciao_modules::Unit;
use prog_data::{Claim, Cond, Entry, Grammar, Pred, Program};
use sqlite_items::Items;
use std::alloc::{AllocError, Global};
use term_core::{Names, NoMemory, OpTable};
use unit_scopes::{Setting, Source};

/// Why there is no program of units without a fault.
#[derive(Drop)]
pub(crate) enum ProgramFault {
    /// More than 512 grammar names are needed; with the names, for the text of the refusal.
    TooManyNames(Names),
    /// Memory was refused.
    NoMemory,
}

impl From<NoMemory> for ProgramFault {
    ghost use Rattle.program_link.specs.declared.programs.ProgramFault.TheVariants as ProgramFault;

    ghost from_gives = { λ _ fault. fault ≡ ProgramFault.NoMemory };

    fn from(_memory: NoMemory) -> ProgramFault {
        ProgramFault::NoMemory
    }
}

/// What a program has besides its names, its operators and its grammar.
#[derive(Drop)]
pub(crate) struct ProgramParts {
    pub(crate) files: Items<u64>,
    pub(crate) preds: Items<Pred>,
    pub(crate) conds: Items<Cond>,
    pub(crate) claims: Items<Claim>,
    pub(crate) exports: Items<u64>,
    pub(crate) entries: Items<Entry>,
}

// The names of the files of units.
fn files_of(alloc: Global, sources: &[Source]) -> Result<Items<u64>, NoMemory>
    ensures { IfOk result (λ files. files ≡ map (λ s. s.file) sources.now) }
{
    let mut files = Items::new(alloc);
    for source in sources {
        files.push(source.file)?;
    }
    Ok(files)
}

// The parts of a program by its predicates and what their assertions give.
fn parts_with(
    alloc: Global,
    sources: &[Source],
    unit_preds: &[UnitPred],
    normals: &[Normal],
    preds: Items<Pred>,
) -> Result<ProgramParts, NoMemory>
    ensures { IfOk result (λ parts. parts ≡ parts_with sources.now unit_preds.now normals.now preds) }
{
    let files = files_of(alloc, sources)?;
    let conds = conditions(alloc, normals)?;
    let claims = claims(alloc, normals, sources)?;
    let exports = exports(alloc, sources, unit_preds)?;
    let entries = entries(alloc, sources, normals, unit_preds)?;
    Ok(ProgramParts {
        files,
        preds,
        conds,
        claims,
        exports,
        entries,
    })
}

// The parts of the program of predicates, and the grammar behind them.
fn parts_of_preds(
    alloc: Global,
    names: &Names,
    sources: &[Source],
    settings: &[Setting],
    unit_preds: &[UnitPred],
    grammar: &mut Grammar,
) -> Result<ProgramParts, RoomFault>
    requires trouble { AllByRecursion (HasNoTrouble names.now settings.now) (map (draft_held sources.now) unit_preds.now) }
    requires problem { AllByRecursion (HasNoProblem settings.now) (map (draft_held sources.now) unit_preds.now) }
    ensures ok { IfOk result (λ parts. parts_held names.now sources.now settings.now unit_preds.now grammar.old ≡ Some (grammar.new, parts)) }
    ensures err { IfErr result (IsNoRoom (parts_held names.now sources.now settings.now unit_preds.now grammar.old)) }
{
    let normals = normals(alloc, names, sources, settings, unit_preds, grammar)?;
    let normals = normals.as_slice();
    let preds = preds(alloc, sources, settings, unit_preds, normals, grammar)?;
    let parts = parts_with(alloc, sources, unit_preds, normals, preds)?;
    Ok(parts)
}

// The parts of the program of units, and the grammar behind them.
fn parts_of(
    alloc: Global,
    names: &Names,
    sources: &[Source],
    settings: &[Setting],
    grammar: &mut Grammar,
) -> Result<ProgramParts, RoomFault>
    requires trouble { AllByRecursion (HasNoTrouble names.now settings.now) (drafts_held sources.now) }
    requires problem { AllByRecursion (HasNoProblem settings.now) (drafts_held sources.now) }
    ensures ok { IfOk result (λ parts. parts_held names.now sources.now settings.now (unit_preds_from 0 sources.now) grammar.old ≡ Some (grammar.new, parts)) }
    ensures err { IfErr result (IsNoRoom (parts_held names.now sources.now settings.now (unit_preds_from 0 sources.now) grammar.old)) }
{
    let unit_preds = unit_preds(alloc, sources)?;
    parts_of_preds(
        alloc,
        names,
        sources,
        settings,
        unit_preds.as_slice(),
        grammar,
    )
}

// The program of parts.
fn program_with(
    alloc: Global,
    names: Names,
    grammar: Grammar,
    parts: ProgramParts,
) -> Result<Program, NoMemory>
    ensures { IfOk result (λ program. program ≡ program_held names grammar parts) }
{
    let ops = OpTable::standard(alloc)?;
    let ProgramParts {
        files,
        preds,
        conds,
        claims,
        exports,
        entries,
    } = parts;
    Ok(Program {
        names,
        ops,
        files,
        preds,
        conds,
        claims,
        grammar,
        exports,
        entries,
    })
}

/// The program of units without a fault, from the grammar of their types.
///
/// # Errors
/// That a 513th grammar name is needed, with the names as they were; want of memory or of numbers.
pub(crate) fn program_of(
    alloc: Global,
    names: Names,
    units: &[Unit],
    sources: &[Source],
    settings: &[Setting],
    grammar: Grammar,
) -> Result<Program, ProgramFault>
    requires sources { AreSources 0 0 (map file_of units.now) sources.now }
    requires settings { settings.now ≡ settings_of (map file_of units.now) }
    requires grammar { grammar_of (type_modules (map file_of units.now)) ≡ Some grammar }
    requires untroubled { least (all_faults names (map file_of units.now)) ≡ None }
    ensures ok { IfOk result (λ program. program_of names (map file_of units.now) ≡ Some program) }
    ensures err { IfErr result (IsNoProgram names (map file_of units.now)) }
{
    let mut grammar = grammar;
    match parts_of(alloc, &names, sources, settings, &mut grammar) {
        Err(RoomFault::TooManyNames) => Err(ProgramFault::TooManyNames(names)),
        Err(RoomFault::NoMemory) => Err(ProgramFault::NoMemory),
        Ok(parts) => {
            let program = program_with(alloc, names, grammar, parts)?;
            Ok(program)
        }
    }
}
