// What the main unit exports, and the calls that may be made of it.
ghost use Rattle.std.specs.Prelude.{◌≡◌, ◌++◌, ◌∷◌, [], slice_get, if◌then◌else◌, IfOk, OnOk};
ghost use Rattle.program_link.specs.Programs.{entries_or_any};
ghost use Rattle.program_link.specs.HeldPrograms.{is_main_held, exports_held, entries_by, entries_held};

use crate::drafts::UnitPred;
use assertion_normal::Normal;
use prog_data::Entry;
use sqlite_items::Items;
use std::alloc::Global;
use term_core::NoMemory;
use unit_scopes::Source;

// Whether a predicate is one that the main unit exports.
fn is_main_export(sources: &[Source], pred: UnitPred) -> bool
    ensures { result ≡ is_main_held sources.now pred }
{
    match sources.get(0) {
        None => false,
        Some(main) => pred.unit == 0 && main.index.exports(pred.indicator),
    }
}

// Adds a number, where it is wanted.
fn add_where(numbers: &mut Items<u64>, wanted: bool, number: u64) -> Result<(), NoMemory>
    ensures { OnOk result (numbers.new ≡ numbers.old ++ (if wanted then number ∷ [] else [])) }
{
    if !wanted {
        return Ok(());
    }
    numbers.push(number)?;
    Ok(())
}

/// The numbers of the predicates that the main unit exports.
pub(crate) fn exports(
    alloc: Global,
    sources: &[Source],
    preds: &[UnitPred],
) -> Result<Items<u64>, NoMemory>
    ensures { IfOk result (λ exports. exports ≡ exports_held sources.now 0 preds.now) }
{
    let mut exports = Items::new(alloc);
    for (number, pred) in preds.iter().enumerate() {
        let wanted = is_main_export(sources, *pred);
        add_where(&mut exports, wanted, number as u64)?;
    }
    Ok(exports)
}

// A copy of an entry.
fn copied_entry(alloc: Global, entry: &Entry) -> Result<Entry, NoMemory>
    ensures { IfOk result (λ copy. copy ≡ entry.now) }
{
    let pre = Items::from_slice(alloc, entry.pre.as_slice())?;
    Ok(Entry {
        pred: entry.pred,
        pre,
    })
}

// Adds copies of entries.
fn add_entries(alloc: Global, entries: &mut Items<Entry>, own: &[Entry]) -> Result<(), NoMemory>
    ensures { OnOk result (entries.new ≡ entries.old ++ own.now) }
{
    for entry in own {
        entries.push(copied_entry(alloc, entry)?)?;
    }
    Ok(())
}

// Adds the entries of an exported predicate: those that assertions give, or else any call.
fn add_entries_or_any(
    alloc: Global,
    entries: &mut Items<Entry>,
    number: u64,
    own: &[Entry],
) -> Result<(), NoMemory>
    ensures { OnOk result (entries.new ≡ entries.old ++ entries_or_any number own.now) }
{
    if own.is_empty() {
        entries.push(Entry {
            pred: number,
            pre: Items::new(alloc),
        })?;
        return Ok(());
    }
    add_entries(alloc, entries, own)
}

// Adds the entries of a predicate that is wanted, if its assertions give something.
fn add_entries_of(
    alloc: Global,
    entries: &mut Items<Entry>,
    wanted: bool,
    number: u64,
    normals: &[Normal],
) -> Result<(), NoMemory>
    ensures { OnOk result (entries.new ≡ entries.old ++ entries_by wanted number (slice_get normals.now number)) }
{
    match normals.get(number as usize) {
        None => Ok(()),
        Some(normal) => {
            if !wanted {
                return Ok(());
            }
            add_entries_or_any(alloc, entries, number, normal.entries.as_slice())
        }
    }
}

/// The entries of the predicates that the main unit exports.
pub(crate) fn entries(
    alloc: Global,
    sources: &[Source],
    normals: &[Normal],
    preds: &[UnitPred],
) -> Result<Items<Entry>, NoMemory>
    ensures { IfOk result (λ entries. entries ≡ entries_held sources.now normals.now 0 preds.now) }
{
    let mut entries = Items::new(alloc);
    for (number, pred) in preds.iter().enumerate() {
        let wanted = is_main_export(sources, *pred);
        add_entries_of(alloc, &mut entries, wanted, number as u64, normals)?;
    }
    Ok(entries)
}
