// What the predicates of a unit have in common.
ghost use Rattle.std.specs.Prelude.{◌≡◌, map, IfOk};
ghost use Rattle.unit_scopes.specs.Sayings.{file_of};
ghost use Rattle.unit_scopes.specs.Imports.{type_modules};
ghost use Rattle.unit_scopes.specs.Settings.{settings};
ghost use Rattle.unit_scopes.specs.Sources.{AreSources};
ghost use Rattle.unit_scopes.specs.Held.{setting_held};

use crate::scopes::{first_kinds, scope_of};
use crate::sources::Source;
use body_code::Scope;
use ciao_modules::Unit;
use regtype_grammar::TypeModule;
use sqlite_items::Items;
use std::alloc::Global;
use term_core::NoMemory;

/// What the predicates of a unit have in common: the names of its file and its module, and what is seen there.
#[derive(Drop)]
pub struct Setting {
    pub file: u64,
    pub module: u64,
    pub scope: Scope,
}

// What the predicates of a unit have in common, by what is held of it.
fn setting_of(
    alloc: Global,
    firsts: &[u64],
    sources: &[Source],
    source: &Source,
) -> Result<Setting, NoMemory>
    ensures { IfOk result (λ setting. setting ≡ setting_held firsts.now sources.now source.now) }
{
    let scope = scope_of(alloc, firsts, sources, source)?;
    Ok(Setting {
        file: source.file,
        module: source.module,
        scope,
    })
}

// The same of each unit.
fn settings_held(
    alloc: Global,
    firsts: &[u64],
    sources: &[Source],
) -> Result<Items<Setting>, NoMemory>
    ensures { IfOk result (λ settings. settings ≡ map (setting_held firsts.now sources.now) sources.now) }
{
    let mut settings = Items::new(alloc);
    for source in sources {
        settings.push(setting_of(alloc, firsts, sources, source)?)?;
    }
    Ok(settings)
}

/// What the predicates of each unit have in common.
///
/// # Errors
/// Want of memory, or of numbers.
pub fn settings_of(
    alloc: Global,
    units: &[Unit],
    sources: &[Source],
    modules: &[TypeModule],
) -> Result<Items<Setting>, NoMemory>
    requires sources { AreSources 0 0 (map file_of units.now) sources.now }
    requires modules { modules.now ≡ type_modules (map file_of units.now) }
    ensures { IfOk result (λ made. made ≡ settings (map file_of units.now)) }
{
    let firsts = first_kinds(alloc, modules)?;
    let settings = settings_held(alloc, firsts.as_slice(), sources)?;
    Ok(settings)
}
