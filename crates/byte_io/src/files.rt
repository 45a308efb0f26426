// Files as a program sees them: names with bytes.
ghost use Rattle.std.specs.Prelude.{◌≡◌, ◌≤◌, ℕ, Bool, List, [], ◌∷◌, ◌++◌, length, take, Option, option_map, IfOk, IfSome, vec_items};
ghost use Rattle.byte_io.specs.Outside.{HasCause, Held, FileRead, answer_of, StaysSteady};

/// Why a file was not read.
#[derive(Clone, Copy, Drop, Debug, PartialEq, Eq)]
pub enum FilesFault {
    /// The file is there and could not be read, or it could not be told whether it is there.
    Failed,
    /// Memory was refused.
    NoMemory,
}

/// What gives the bytes of files by name.
pub trait Files {
    /// The files that are there, where the object tells it.
    ghost held: { Self → Option Held };

    /// The reads that were made, in order, each with its answer.
    ghost reads: { Self → List FileRead };

    /// How often a read has failed. It stays at 2^64 - 1.
    ghost faults: { Self → ℕ };

    /// Whether no read fails but for want of memory.
    ghost steady: { Self → Bool };

    /// The bytes of a file, or the first `most` of them where they are more. None: there is no such file.
    /// Failed comes only where the count of faults rose or stands at its last value, and the count rises only where
    /// Failed comes. The files stay the same.
    fn read(&mut self, name: &str, most: u64) -> Result<Option<Vec<u8>>, FilesFault>
        ensures bytes { IfOk result (λ answer. IfSome (held self.old) (λ files.
            option_map (λ bytes. bytes.items) answer ≡ option_map (take most) (files name.now))) }
        ensures most { IfOk result (λ answer. IfSome answer (λ bytes. length bytes.items ≤ most)) }
        ensures told { reads self.new ≡ reads self.old ++ record { name = name.now; most = most; answer = answer_of vec_items result } ∷ [] }
        ensures same { held self.new ≡ held self.old }
        ensures cause { HasCause FilesFault.Failed (faults self.old) (faults self.new) result }
        ensures steady { StaysSteady (steady self.old) (steady self.new) (faults self.old) (faults self.new) };
}
