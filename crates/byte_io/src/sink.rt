// Where a program writes.
ghost use Rattle.std.specs.Prelude.{◌≡◌, ℕ, Bool, ◌<◌, ◌≤◌, List, ◌++◌, length, take, Option, IfOk, OnOk, OnErr};
ghost use Rattle.byte_io.specs.Outside.{HasCause, grown, TookFront, StaysSteady};

/// Why a piece was not written.
#[derive(Clone, Copy, Drop, Debug, PartialEq, Eq)]
pub enum SinkFault {
    /// The piece could not be written.
    Failed,
    /// Memory was refused.
    NoMemory,
}

/// What takes bytes.
pub trait Sink {
    /// What the sink holds, where the object tells it.
    ghost written: { Self → Option (List ℕ) };

    /// The bytes that the writes took, in order.
    ghost taken: { Self → List ℕ };

    /// How often a write has failed. It stays at 2^64 - 1.
    ghost faults: { Self → ℕ };

    /// Whether no write fails but for want of memory.
    ghost steady: { Self → Bool };

    /// Takes the front of a piece that is not empty, at least one byte of it, and tells how many.
    /// After an error nothing was taken. Failed comes only where the count of faults rose or stands at its last value,
    /// and the count rises only where Failed comes.
    fn write(&mut self, piece: &[u8]) -> Result<usize, SinkFault>
        requires { 0 < length piece.now }
        ensures some { IfOk result (λ count. 0 < count) }
        ensures within { IfOk result (λ count. count ≤ length piece.now) }
        ensures taken { IfOk result (λ count. taken self.new ≡ taken self.old ++ take count piece.now) }
        ensures untaken { OnErr result (taken self.new ≡ taken self.old) }
        ensures written { IfOk result (λ count. written self.new ≡ grown (written self.old) (take count piece.now)) }
        ensures refused { OnErr result (written self.new ≡ written self.old) }
        ensures cause { HasCause SinkFault.Failed (faults self.old) (faults self.new) result }
        ensures steady { StaysSteady (steady self.old) (steady self.new) (faults self.old) (faults self.new) };
}

/// Writes a text by as many calls as the sink needs, none for an empty text. The error is that of the
/// call that failed, and a prefix of the text was written before it.
pub fn write_all<S: Sink>(out: &mut S, text: &[u8]) -> Result<(), SinkFault>
    ensures taken { OnOk result (S.taken out.new ≡ S.taken out.old ++ text.now) }
    ensures all { OnOk result (S.written out.new ≡ grown (S.written out.old) text.now) }
    ensures front { OnErr result (TookFront (S.taken out.old) (S.taken out.new) (S.written out.old) (S.written out.new) text.now) }
    ensures cause { HasCause SinkFault.Failed (S.faults out.old) (S.faults out.new) result }
    ensures steady { StaysSteady (S.steady out.old) (S.steady out.new) (S.faults out.old) (S.faults out.new) }
{
    let mut done = 0;
    while done < text.len() {
        done += out.write(&text[done..])?;
    }
    Ok(())
}
