// The top call.
ghost use Rattle.std.specs.Prelude.{◌≡◌, ◌≤◌, ◌++◌, map, string_bytes};
ghost use Rattle.byte_io.specs.Outside.{Rose, StaysSteady};
ghost use Rattle.ciao_modules.specs.LoadReads.{new_reads};
ghost use Rattle.ciao_top.specs.Lines.{stop_text, stop_status};
ghost use Rattle.ciao_top.specs.Answers.{Answered, Complete, OneAnswer, SomeAnswer, Completeness, output_of};
ghost use Rattle.ciao_top.specs.InnerAnswers.{DeviceGoesOn, Comes, Only};

use crate::prepare::prepare;
use crate::relied::relied_law;
use crate::runs::{write_text, write_whole};
use crate::stops::{Reason, Stop, stop_status, stop_text};
use crate::words::read_words;
use byte_io::{Files, Sink};
use ciao_modules::some_load_law;
use machine_model::{ends_law, one_run_law};
use std::alloc::Global;
use std::thread::Threads;

// Tells why there is nothing to run, and gives the status.
fn write_stop<S: Sink>(alloc: Global, stop: &Stop, out: &mut S) -> u8
    ensures comes { Comes (Only (stop_text stop.now) (stop_status stop.now)) (Rose (S.faults out.old) (S.faults out.new))
        (output_of (S.written out.old) (S.taken out.old)) (output_of (S.written out.new) (S.taken out.new)) result }
    ensures sink { DeviceGoesOn (S.steady out.old) (S.steady out.new) (S.faults out.old) (S.faults out.new) }
{
    match stop_text(alloc, stop) {
        Err(_) => 9,
        Ok(text) => match write_text(out, text.as_str()) {
            Ok(()) => stop_status(stop),
            Err(status) => status,
        },
    }
}

/// Runs the command that the words are, and gives the status.
///
/// The words are `run FILE QUERY --steps N`, perhaps with `--answers K`. The files that are reached from FILE are read, and
/// linked to a program. Each event of the run is written as one piece, and then its ending, or the line of the answer limit.
/// The status is 0 to 6 by the ending or the fault that is told, 7 where a file could not be read, 8 where the
/// sink refused, and 9 for want of memory.
pub fn run_tool<R: Threads + Sync, F: Files, S: Sink>(
    _rt: &R,
    alloc: Global,
    words: &[String],
    files: &mut F,
    out: &mut S,
) -> u8
    ensures answered { Answered (F.held files.old) (map string_bytes words.now) (new_reads (F.reads files.old) (F.reads files.new))
        (Rose (F.faults files.old) (F.faults files.new)) (Rose (S.faults out.old) (S.faults out.new))
        (output_of (S.written out.old) (S.taken out.old)) (output_of (S.written out.new) (S.taken out.new)) result }
    ensures complete { Complete (map string_bytes words.now) (new_reads (F.reads files.old) (F.reads files.new))
        (Rose (F.faults files.old) (F.faults files.new)) (Rose (S.faults out.old) (S.faults out.new))
        (output_of (S.written out.old) (S.taken out.old)) (output_of (S.written out.new) (S.taken out.new)) result }
    ensures reads { F.reads files.new ≡ F.reads files.old ++ new_reads (F.reads files.old) (F.reads files.new) }
    ensures kept { F.held files.new ≡ F.held files.old }
    ensures later { (F.faults files.old ≤ F.faults files.new) × (S.faults out.old ≤ S.faults out.new) }
    ensures steady { StaysSteady (F.steady files.old) (F.steady files.new) (F.faults files.old) (F.faults files.new)
        × StaysSteady (S.steady out.old) (S.steady out.new) (S.faults out.old) (S.faults out.new) }
{
    relied_law(); // for the proof
    match read_words(words) {
        None => write_stop(alloc, &Stop::Refused(Reason::NoCommand), out),
        Some(command) => match prepare(alloc, &command, files) {
            Err(stop) => write_stop(alloc, &stop, out),
            Ok(prepared) => write_whole(alloc, &prepared, command.steps, command.answers, out),
        },
    }
}

/// For files and words there is one text and one status.
pub fn one_answer_law()
    ensures { OneAnswer }
{
    relied_law();
    one_run_law();
}

/// For files and words it cannot be that there is no text and no status.
pub fn some_answer_law()
    ensures { SomeAnswer }
{
    ends_law();
    some_load_law();
}

/// Without a rise of a count the text and the status are the defined ones, or memory was wanted.
pub fn completeness_law()
    ensures { Completeness }
{}
