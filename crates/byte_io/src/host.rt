// The real files and the standard output.
ghost use Rattle.std.specs.Prelude.{◌≡◌, ℕ, Bool, false, ◌<◌, ◌≤◌, ◌-◌, [], length, Option, Some, None, IfOk, IfSome};

use crate::history::{AnsweredRead, Front, Reads, Taken};
use crate::memory::raised;
use crate::{Files, FilesFault, Sink, SinkFault};
use std::io::{ErrorKind, Print, Read};
use std::{fs, io, rt};

/// The files of the system. A name is a path, and the bytes of no file are told before it is read.
#[derive(Drop)]
pub struct HostFiles<'a, R> {
    rt: &'a R,
    faults: u64,
    reads: Reads,
}

impl<'a, R: rt::Files + AllocGlobal> HostFiles<'a, R> {
    /// No read was made.
    pub fn new(rt: &'a R) -> Self
        ensures faults { result.faults ≡ 0 }
        ensures reads { result.reads.list ≡ [] }
    {
        HostFiles {
            rt,
            faults: 0,
            reads: Reads::new(),
        }
    }
}

// How often a call is made again that a signal cut short.
const RETRIES: usize = 64;

// Memory was refused, or the call failed.
fn fault_of(error: &io::Error) -> FilesFault {
    match error.kind() {
        ErrorKind::OutOfMemory => FilesFault::NoMemory,
        _ => FilesFault::Failed,
    }
}

// Some bytes of a file, none at its end.
fn read_some<T: Read>(file: &mut T, buffer: &mut [u8]) -> Result<usize, FilesFault>
    ensures { IfOk result (λ count. count ≤ length buffer.new) }
{
    for _ in 0..RETRIES {
        match file.read(buffer) {
            Ok(count) => return Ok(count),
            Err(error) => {
                if error.kind() != ErrorKind::Interrupted {
                    return Err(fault_of(&error));
                }
            }
        }
    }
    Err(FilesFault::Failed)
}

// The bytes of an open file, to its end or until they are `most`.
fn read_front<T: Read>(
    alloc: std::alloc::Global,
    file: &mut T,
    most: u64,
) -> Result<Vec<u8>, FilesFault>
    ensures { IfOk result (λ bytes. length bytes.items ≤ most) }
{
    let mut bytes = Vec::new(alloc);
    let mut buffer = [0u8; 4096];
    while (bytes.len() as u64) < most {
        let room = (most - bytes.len() as u64).min(4096) as usize;
        let count = read_some(file, &mut buffer[..room])?;
        if count == 0 {
            return Ok(bytes);
        }
        if bytes.extend_from_slice(&buffer[..count]).is_err() {
            return Err(FilesFault::NoMemory);
        }
    }
    Ok(bytes)
}

// None: there is no such file.
fn read_file<R: rt::Files + AllocGlobal>(
    rt: &R,
    name: &str,
    most: u64,
) -> Result<Option<Vec<u8>>, FilesFault>
    ensures { IfOk result (λ answer. IfSome answer (λ bytes. length bytes.items ≤ most)) }
{
    match fs::open(rt, name) {
        Ok(mut file) => Ok(Some(read_front(rt.alloc(), &mut file, most)?)),
        Err(error) => match error.kind() {
            ErrorKind::NotFound => Ok(None),
            ErrorKind::NotADirectory => Ok(None),
            _ => Err(fault_of(&error)),
        },
    }
}

impl<'a, R: rt::Files + AllocGlobal> Files for HostFiles<'a, R> {
    ghost held = { λ _. None };

    ghost reads = { λ f. f.reads.list };

    ghost faults = { λ f. f.faults };

    ghost steady = { λ _. false };

    fn read(&mut self, name: &str, most: u64) -> Result<Option<Vec<u8>>, FilesFault> {
        let answer = read_file(self.rt, name, most);
        self.reads = self.reads.then(&AnsweredRead {
            name,
            most,
            answer: &answer,
        });
        match answer {
            Err(FilesFault::Failed) => {
                self.faults = raised(self.faults);
                Err(FilesFault::Failed)
            }
            Err(FilesFault::NoMemory) => Err(FilesFault::NoMemory),
            Ok(given) => Ok(given),
        }
    }
}

/// The standard output. What it holds is not told.
#[derive(Drop)]
pub struct HostSink<'a, R> {
    rt: &'a R,
    faults: u64,
    taken: Taken,
}

impl<'a, R: Print> HostSink<'a, R> {
    /// Nothing was written.
    pub fn new(rt: &'a R) -> Self
        ensures faults { result.faults ≡ 0 }
        ensures taken { result.taken.bytes ≡ [] }
    {
        HostSink {
            rt,
            faults: 0,
            taken: Taken::new(),
        }
    }
}

// The number of bytes written, at least one of those that there are.
fn write_some<R: Print>(rt: &R, piece: &[u8]) -> Result<usize, SinkFault>
    ensures some { IfOk result (λ count. 0 < count) }
    ensures within { IfOk result (λ count. count ≤ length piece.now) }
{
    for _ in 0..RETRIES {
        match rt.write_some(piece) {
            Ok(0) => return Err(SinkFault::Failed),
            Ok(count) => return Ok(count),
            Err(error) => match error.kind() {
                ErrorKind::Interrupted => {}
                ErrorKind::OutOfMemory => return Err(SinkFault::NoMemory),
                _ => return Err(SinkFault::Failed),
            },
        }
    }
    Err(SinkFault::Failed)
}

impl<'a, R: Print> Sink for HostSink<'a, R> {
    ghost written = { λ _. None };

    ghost taken = { λ s. s.taken.bytes };

    ghost faults = { λ s. s.faults };

    ghost steady = { λ _. false };

    fn write(&mut self, piece: &[u8]) -> Result<usize, SinkFault> {
        match write_some(self.rt, piece) {
            Ok(count) => {
                self.taken = self.taken.then(&Front { piece, count });
                Ok(count)
            }
            Err(SinkFault::NoMemory) => Err(SinkFault::NoMemory),
            Err(SinkFault::Failed) => {
                self.faults = raised(self.faults);
                Err(SinkFault::Failed)
            }
        }
    }
}
