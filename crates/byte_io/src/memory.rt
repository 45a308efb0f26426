// Files and a sink in memory, which fail at the calls that they are told.
ghost use Rattle.std.specs.Prelude.{◌≡◌, ◌↔◌, ℕ, ◌<◌, ◌≤◌, ◌+◌, List, [], ◌∷◌, ◌++◌, take, Option, Some, None, option_map, OnOk, OnErr, IfOk, IfSome, IfNone, IsErrOf, min, max, true, false, length, vec_items, ◌^◌, ◌-◌};
ghost use Rattle.byte_io.specs.Outside.{Rose, HasCause, grown, answer_of, StaysSteady};
ghost use Rattle.byte_io.specs.Memory.{content_in};

use crate::history::{AnsweredRead, Reads};
use crate::{Files, FilesFault, Sink, SinkFault};
use std::alloc::Global;

/// Memory was refused.
#[derive(Clone, Copy, Drop, Debug, PartialEq, Eq)]
pub struct NoMemory;

// A count of faults, one higher, or at its last value.
pub(crate) fn raised(count: u64) -> u64
    ensures next { result ≡ min (count + 1) (2 ^ 64 - 1) }
    ensures rose { Rose count result }
    ensures later { count ≤ result }
{
    if count < u64::MAX { count + 1 } else { count }
}

/// A file's name and bytes.
#[derive(Drop, Debug)]
pub struct Stored {
    name: Vec<u8>,
    bytes: Vec<u8>,
}

/// Files in memory. Their reads are counted from 0, and those whose numbers were listed fail.
#[derive(Drop, Debug)]
pub struct MemFiles {
    alloc: Global,
    stored: Vec<Stored>,
    failing: Vec<u64>,
    calls: u64,
    faults: u64,
    reads: Reads,
}

// The bytes of the last entry of that name.
fn find<'a>(stored: &'a [Stored], name: &[u8]) -> Option<&'a [u8]>
    ensures { option_map (λ bytes. bytes.now) result ≡ content_in stored.now name.now }
{
    let mut found = None;
    for entry in stored {
        if entry.name.as_slice() == name {
            found = Some(entry.bytes.as_slice());
        }
    }
    found
}

impl MemFiles {
    ghost use Rattle.byte_io.specs.Memory.{files_held, files_faults, files_failing, files_calls, files_reads, is_listed, with_file};

    /// No file, and no call that fails.
    pub fn new(alloc: Global) -> Self
        ensures held { (name : List ℕ) → files_held result name ≡ None }
        ensures faults { files_faults result ≡ 0 }
        ensures failing { files_failing result ≡ [] }
        ensures calls { files_calls result ≡ 0 }
        ensures reads { files_reads result ≡ [] }
    {
        MemFiles {
            alloc,
            stored: Vec::new(alloc),
            failing: Vec::new(alloc),
            calls: 0,
            faults: 0,
            reads: Reads::new(),
        }
    }

    /// Adds a file. A name that is added again has the later bytes. After an error the files are as before.
    pub fn add(&mut self, name: &str, bytes: &[u8]) -> Result<(), NoMemory>
        ensures ok { OnOk result ((asked : List ℕ) →
            files_held self.new asked ≡ with_file (files_held self.old) name.now bytes.now asked) }
        ensures refused { OnErr result ((asked : List ℕ) → files_held self.new asked ≡ files_held self.old asked) }
        ensures faults { files_faults self.new ≡ files_faults self.old }
        ensures failing { files_failing self.new ≡ files_failing self.old }
        ensures calls { files_calls self.new ≡ files_calls self.old }
        ensures reads { files_reads self.new ≡ files_reads self.old }
    {
        let Ok(name) = name.as_bytes().to_vec(self.alloc) else {
            return Err(NoMemory);
        };
        let Ok(bytes) = bytes.to_vec(self.alloc) else {
            return Err(NoMemory);
        };
        let Ok(()) = self.stored.push(Stored { name, bytes }) else {
            return Err(NoMemory);
        };
        Ok(())
    }

    /// The read with that number, counted from 0, fails. After an error no other read fails than before.
    pub fn fail_at(&mut self, call: u64) -> Result<(), NoMemory>
        ensures ok { OnOk result (files_failing self.new ≡ files_failing self.old ++ call ∷ []) }
        ensures refused { OnErr result (files_failing self.new ≡ files_failing self.old) }
        ensures held { files_held self.new ≡ files_held self.old }
        ensures faults { files_faults self.new ≡ files_faults self.old }
        ensures calls { files_calls self.new ≡ files_calls self.old }
        ensures reads { files_reads self.new ≡ files_reads self.old }
    {
        match self.failing.push(call) {
            Ok(()) => Ok(()),
            Err(_) => Err(NoMemory),
        }
    }

    // The answer of the next read.
    fn answer(&self, name: &str, most: u64) -> Result<Option<Vec<u8>>, FilesFault>
        ensures bytes { IfOk result (λ answer. option_map (λ bytes. bytes.items) answer ≡ option_map (take most) (files_held self.now name.now)) }
        ensures most { IfOk result (λ answer. IfSome answer (λ bytes. length bytes.items ≤ most)) }
        ensures listed { IsErrOf result FilesFault.Failed ↔ (is_listed (files_failing self.now) (files_calls self.now) ≡ true) }
    {
        if self.failing.contains(&self.calls) {
            return Err(FilesFault::Failed);
        }
        let Some(bytes) = find(&self.stored, name.as_bytes()) else {
            return Ok(None);
        };
        let front = first(bytes, most);
        match front.to_vec(self.alloc) {
            Ok(copy) => Ok(Some(copy)),
            Err(_) => Err(FilesFault::NoMemory),
        }
    }
}

impl Files for MemFiles {
    ghost use Rattle.byte_io.specs.Memory.{files_held, files_faults, files_failing, files_calls, files_reads, is_listed, none_fails};

    ghost held = { λ m. Some (files_held m) };

    ghost reads = { λ m. m.reads.list };

    ghost faults = { λ m. m.faults };

    ghost steady = { λ m. none_fails m.failing.items };

    // The trait's clauses, and: the reads that fail are those that were listed.
    fn read(&mut self, name: &str, most: u64) -> Result<Option<Vec<u8>>, FilesFault>
        ensures bytes { IfOk result (λ answer. option_map (λ bytes. bytes.items) answer ≡ option_map (take most) (files_held self.old name.now)) }
        ensures most { IfOk result (λ answer. IfSome answer (λ bytes. length bytes.items ≤ most)) }
        ensures told { files_reads self.new ≡ files_reads self.old ++ record { name = name.now; most = most; answer = answer_of vec_items result } ∷ [] }
        ensures same { files_held self.new ≡ files_held self.old }
        ensures cause { HasCause FilesFault.Failed (files_faults self.old) (files_faults self.new) result }
        ensures steady { StaysSteady (none_fails (files_failing self.old)) (none_fails (files_failing self.new)) (files_faults self.old) (files_faults self.new) }
        ensures listed { IsErrOf result FilesFault.Failed ↔ (is_listed (files_failing self.old) (files_calls self.old) ≡ true) }
        ensures counted { is_listed (files_failing self.old) (files_calls self.old) ≡ true → files_faults self.new ≡ min (files_faults self.old + 1) (2 ^ 64 - 1) }
        ensures quiet { is_listed (files_failing self.old) (files_calls self.old) ≡ false → files_faults self.new ≡ files_faults self.old }
        ensures failing { files_failing self.new ≡ files_failing self.old }
        ensures calls { files_calls self.new ≡ min (files_calls self.old + 1) (2 ^ 64 - 1) }
    {
        let answer = self.answer(name, most);
        self.reads = self.reads.then(&AnsweredRead {
            name,
            most,
            answer: &answer,
        });
        self.calls = self.calls.saturating_add(1);
        match answer {
            Err(FilesFault::Failed) => {
                self.faults = raised(self.faults);
                Err(FilesFault::Failed)
            }
            Err(FilesFault::NoMemory) => Err(FilesFault::NoMemory),
            Ok(given) => Ok(given),
        }
    }
}

// The first `most` bytes, or all where they are fewer.
fn first(bytes: &[u8], most: u64) -> &[u8]
    ensures { result.now ≡ take most bytes.now }
{
    if (bytes.len() as u64) <= most {
        bytes
    } else {
        &bytes[..most as usize]
    }
}

/// A sink in memory. Its writes are counted from 0, and those whose numbers were listed fail.
#[derive(Drop, Debug)]
pub struct MemSink {
    taken: Vec<u8>,
    piece_limit: usize,
    failing: Vec<u64>,
    calls: u64,
    faults: u64,
}

impl MemSink {
    ghost use Rattle.byte_io.specs.Memory.{sink_taken, sink_limit, sink_faults, sink_failing, sink_calls};

    /// Nothing written, and no call that fails. One write takes at most so many bytes.
    pub fn new(alloc: Global, piece_limit: usize) -> Self
        requires { 0 < piece_limit }
        ensures taken { sink_taken result ≡ [] }
        ensures limit { sink_limit result ≡ piece_limit }
        ensures faults { sink_faults result ≡ 0 }
        ensures failing { sink_failing result ≡ [] }
        ensures calls { sink_calls result ≡ 0 }
    {
        MemSink {
            taken: Vec::new(alloc),
            piece_limit,
            failing: Vec::new(alloc),
            calls: 0,
            faults: 0,
        }
    }

    /// The write with that number, counted from 0, fails. After an error no other write fails than before.
    pub fn fail_at(&mut self, call: u64) -> Result<(), NoMemory>
        ensures ok { OnOk result (sink_failing self.new ≡ sink_failing self.old ++ call ∷ []) }
        ensures refused { OnErr result (sink_failing self.new ≡ sink_failing self.old) }
        ensures taken { sink_taken self.new ≡ sink_taken self.old }
        ensures limit { sink_limit self.new ≡ sink_limit self.old }
        ensures faults { sink_faults self.new ≡ sink_faults self.old }
        ensures calls { sink_calls self.new ≡ sink_calls self.old }
    {
        match self.failing.push(call) {
            Ok(()) => Ok(()),
            Err(_) => Err(NoMemory),
        }
    }

    /// What was written.
    pub fn bytes(&self) -> &[u8]
        ensures { result.now ≡ sink_taken self.now }
    {
        &self.taken
    }
}

impl Sink for MemSink {
    ghost use Rattle.byte_io.specs.Memory.{sink_taken, sink_limit, sink_faults, sink_failing, sink_calls, is_listed, none_fails};

    ghost written = { λ m. Some m.taken.items };

    ghost taken = { λ m. m.taken.items };

    ghost faults = { λ m. m.faults };

    ghost steady = { λ m. none_fails m.failing.items };

    // The trait's clauses, and: the writes that fail are those that were listed.
    fn write(&mut self, piece: &[u8]) -> Result<usize, SinkFault>
        requires { 0 < length piece.now }
        ensures some { IfOk result (λ count. 0 < count) }
        ensures within { IfOk result (λ count. count ≤ length piece.now) }
        ensures taken { IfOk result (λ count. sink_taken self.new ≡ sink_taken self.old ++ take count piece.now) }
        ensures untaken { OnErr result (sink_taken self.new ≡ sink_taken self.old) }
        ensures written { IfOk result (λ count. Some (sink_taken self.new) ≡ grown (Some (sink_taken self.old)) (take count piece.now)) }
        ensures count { IfOk result (λ count. count ≡ min (max (sink_limit self.old) 1) (length piece.now)) }
        ensures refused { OnErr result (Some (sink_taken self.new) ≡ Some (sink_taken self.old)) }
        ensures cause { HasCause SinkFault.Failed (sink_faults self.old) (sink_faults self.new) result }
        ensures steady { StaysSteady (none_fails (sink_failing self.old)) (none_fails (sink_failing self.new)) (sink_faults self.old) (sink_faults self.new) }
        ensures listed { IsErrOf result SinkFault.Failed ↔ (is_listed (sink_failing self.old) (sink_calls self.old) ≡ true) }
        ensures counted { is_listed (sink_failing self.old) (sink_calls self.old) ≡ true → sink_faults self.new ≡ min (sink_faults self.old + 1) (2 ^ 64 - 1) }
        ensures quiet { is_listed (sink_failing self.old) (sink_calls self.old) ≡ false → sink_faults self.new ≡ sink_faults self.old }
        ensures failing { sink_failing self.new ≡ sink_failing self.old }
        ensures limit { sink_limit self.new ≡ sink_limit self.old }
        ensures calls { sink_calls self.new ≡ min (sink_calls self.old + 1) (2 ^ 64 - 1) }
    {
        let call = self.calls;
        self.calls = call.saturating_add(1);
        if self.failing.contains(&call) {
            self.faults = raised(self.faults);
            return Err(SinkFault::Failed);
        }
        let count = self.piece_limit.max(1).min(piece.len());
        match self.taken.extend_from_slice(&piece[..count]) {
            Ok(()) => Ok(count),
            Err(_) => Err(SinkFault::NoMemory),
        }
    }
}
