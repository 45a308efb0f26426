// From a command to the program and the query that are run, or to why there are none.
ghost use Rattle.std.specs.Prelude.{◌≡◌, true, IfOk, IfErr, length};
ghost use Rattle.byte_io.specs.Outside.{Held, Rose};
ghost use Rattle.term_core.specs.Names.{name_text};
ghost use Rattle.prog_data.specs.Programs.{IsProgram, IsLinked};
ghost use Rattle.ciao_modules.specs.FileNames.{is_main_file};
ghost use Rattle.ciao_modules.specs.LoadReads.{Agree, new_reads};
ghost use Rattle.ciao_modules.specs.UnitRanges.{AreUnitsInRange};
ghost use Rattle.program_link.specs.Linked.{Linked, linked};
ghost use Rattle.ciao_top.specs.Queries.{main_operators, MeetsEntry};
ghost use Rattle.ciao_top.specs.FileSets.{HasQuery};
ghost use Rattle.ciao_top.specs.InnerAnswers.{run_words, DeviceGoesOn, RefusalStops, FailedStops, LoadStops, LinkStops, HasQueryOf, QueryStops, HasQueryIn, UnitStops, Stops, IsPrepared, CommandReads};

use crate::queries::{call_fault, read_query};
use crate::stops::{Reason, Stop};
use crate::words::RunCommand;
use byte_io::Files;
use ciao_modules::{LoadFault, Unit, load_set};
use prog_data::{Program, Refusal, Text, program_ranges_law};
use program_link::{LinkFault, link};
use run_report::refusal_text;
use std::alloc::Global;
use term_core::{Names, NoMemory, OpTable, Term};

/// A program and its query.
#[derive(Drop)]
pub(crate) struct Prepared {
    pub(crate) program: Program,
    pub(crate) query: Term,
}

// The files are refused.
fn refused(alloc: Global, names: &Names, refusal: &Refusal) -> Stop
    ensures { RefusalStops names.now refusal.now result }
{
    match refusal_text(alloc, names, refusal) {
        Ok(line) => Stop::Refused(Reason::OfFiles(Text::new(line))),
        Err(_) => Stop::NoMemory,
    }
}

// A file as it is printed.
fn printed(alloc: Global, names: &Names, file: u64) -> Result<Text, NoMemory>
    ensures { IfOk result (λ text. text ≡ name_text names.now file) }
{
    Ok(Text::new(String::from_str(alloc, names.text_or_empty(file))?))
}

// A file could not be read.
fn unreadable(alloc: Global, names: &Names, file: u64) -> Stop
    ensures { FailedStops names.now file result }
{
    match printed(alloc, names, file) {
        Ok(name) => Stop::Unreadable(name),
        Err(_) => Stop::NoMemory,
    }
}

// Why files are not loaded.
fn load_stop(alloc: Global, names: &Names, fault: &LoadFault) -> Stop
    ensures { LoadStops names.now fault.now result }
{
    match fault {
        LoadFault::Refused(refusal) => refused(alloc, names, refusal),
        LoadFault::Failed(file) => unreadable(alloc, names, *file),
        LoadFault::NoMemory => Stop::NoMemory,
    }
}

// The program of units, or why there is none.
fn link_units(alloc: Global, names: Names, units: &[Unit]) -> Result<Program, Stop>
    requires units { AreUnitsInRange (length names) units.now }
    ensures linked { IfOk result (λ program. linked names units.now ≡ Linked program) }
    ensures range { IfOk result IsProgram }
    ensures as_linked { IfOk result IsLinked }
    ensures err { IfErr result (LinkStops names units.now) }
{
    match link(alloc, names, units) {
        Ok(program) => Ok(program),
        Err(LinkFault::Refused(refusal, names)) => Err(refused(alloc, &names, &refusal)),
        Err(LinkFault::NoMemory) => Err(Stop::NoMemory),
    }
}

// The program with the query that a text is by these operators.
fn with_query_by(
    alloc: Global,
    program: Program,
    ops: &OpTable,
    text: &str,
) -> Result<Prepared, Stop>
    requires range { IsProgram program }
    requires as_linked { IsLinked program }
    ensures ok { IfOk result (λ prepared. HasQueryOf program ops.now text.now prepared.program prepared.query) }
    ensures met { IfOk result (λ prepared. MeetsEntry prepared.program prepared.query) }
    ensures range { IfOk result (λ prepared. IsPrepared prepared.program prepared.query) }
    ensures err { IfErr result (QueryStops program ops.now text.now) }
{
    program_ranges_law(); // for the proof
    let mut program = program;
    match read_query(alloc, &mut program.names, ops, text)? {
        None => Err(Stop::Refused(Reason::QueryUnread)),
        Some(query) => match call_fault(&program, &query) {
            Some(reason) => Err(Stop::Refused(reason)),
            None => Ok(Prepared { program, query }),
        },
    }
}

// The program with the query that a text is by the operators of the main file.
fn with_query(alloc: Global, program: Program, units: &[Unit], text: &str) -> Result<Prepared, Stop>
    requires range { IsProgram program }
    requires as_linked { IsLinked program }
    ensures ok { IfOk result (λ prepared. HasQueryOf program (main_operators units.now) text.now prepared.program prepared.query) }
    ensures met { IfOk result (λ prepared. MeetsEntry prepared.program prepared.query) }
    ensures range { IfOk result (λ prepared. IsPrepared prepared.program prepared.query) }
    ensures err { IfErr result (QueryStops program (main_operators units.now) text.now) }
{
    match units.split_first() {
        Some((main, _)) => with_query_by(alloc, program, &main.ops, text),
        None => {
            let ops = OpTable::standard(alloc)?;
            with_query_by(alloc, program, &ops, text)
        }
    }
}

// The program of units and the query that a text is.
fn prepare_units(alloc: Global, names: Names, units: &[Unit], text: &str) -> Result<Prepared, Stop>
    requires units { AreUnitsInRange (length names) units.now }
    ensures ok { IfOk result (λ prepared. HasQueryIn names units.now text.now prepared.program prepared.query) }
    ensures met { IfOk result (λ prepared. MeetsEntry prepared.program prepared.query) }
    ensures range { IfOk result (λ prepared. IsPrepared prepared.program prepared.query) }
    ensures err { IfErr result (UnitStops names units.now text.now) }
{
    match link_units(alloc, names, units) {
        Ok(program) => with_query(alloc, program, units, text),
        Err(stop) => Err(stop),
    }
}

/// The program and the query of a command.
///
/// # Errors
/// Why there are none.
pub(crate) fn prepare<F: Files>(
    alloc: Global,
    command: &RunCommand<'_>,
    files: &mut F,
) -> Result<Prepared, Stop>
    requires { is_main_file command.now.file.now ≡ true }
    ensures reads { CommandReads (F.held files.old) (run_words command.now) (F.reads files.old) (F.reads files.new) }
    ensures ok { IfOk result (λ prepared. (held : Held) → Agree (new_reads (F.reads files.old) (F.reads files.new)) held → HasQuery held (run_words command.now) prepared.program prepared.query) }
    ensures met { IfOk result (λ prepared. MeetsEntry prepared.program prepared.query) }
    ensures range { IfOk result (λ prepared. IsPrepared prepared.program prepared.query) }
    ensures err { IfErr result (Stops (run_words command.now) (new_reads (F.reads files.old) (F.reads files.new)) (Rose (F.faults files.old) (F.faults files.new))) }
    ensures kept { F.held files.new ≡ F.held files.old }
    ensures files { DeviceGoesOn (F.steady files.old) (F.steady files.new) (F.faults files.old) (F.faults files.new) }
{
    match Names::new(alloc) {
        Err(_) => Err(Stop::NoMemory),
        Ok(names) => {
            let mut names = names;
            match load_set(alloc, &mut names, files, command.file) {
                Err(fault) => Err(load_stop(alloc, &names, &fault)),
                Ok(units) => prepare_units(alloc, names, units.as_slice(), command.query),
            }
        }
    }
}
