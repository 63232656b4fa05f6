//! Files that are read and written by name.

ghost use Rattle.std.specs.Prelude.{◌≡◌, ℕ, Bool, List, IsTrue, MatchResult, OnOk, OnErr, Some};
ghost use Rattle.std.specs.Prelude.{Option};
ghost use Rattle.outer_io.specs.Counts.{IsCount, IsFaultless, Faulted};

use crate::sinks::Failed;

/// Why a file was not read.
#[derive(Clone, Copy, Debug, PartialEq, Eq)]
pub enum FileFault {
    /// A fault, which the count of reads tells. It alone is one where contents are told.
    Failed,
    /// No such name is there.
    Missing,
    /// The file has more bytes than the limit. Where contents are not told, it is a fault too.
    TooLong,
    /// Memory ran out.
    NoMemory,
}

/// Files by name. A name is its bytes.
pub trait Files {
    ghost use Rattle.outer_io.specs.Files.{ReadsWhole, HasReadCause, OthersStay};

    // How many reads met a fault, at most 2^64 - 1.
    ghost read_faults: { Self → ℕ };

    // How many writes met a fault, at most 2^64 - 1.
    ghost write_faults: { Self → ℕ };

    // Whether the contents of the names are told.
    ghost told: { Self → Bool };

    // What each name has, where told: None where it is not there.
    ghost contents: { Self → List ℕ → Option (List ℕ) };

    /// Appends the whole file to `into`, where it has at most `limit` bytes.
    fn read(&mut self, name: &str, limit: usize, into: &mut Vec<u8>) -> Result<(), FileFault>
        ensures cases { MatchResult result
            (λ _. ReadsWhole (told self.old) (contents self.old name.now) limit into.old.items into.new.items)
            (λ fault. HasReadCause fault (told self.old) (contents self.old name.now) limit
            (read_faults self.old) (read_faults self.new)) }
        ensures faultless { OnOk result (IsFaultless (read_faults self.old) (read_faults self.new)) }
        ensures refused { OnErr result (into.new.items ≡ into.old.items) }
        ensures count { IsCount (read_faults self.old) (read_faults self.new) }
        ensures writes { write_faults self.new ≡ write_faults self.old }
        ensures still_told { told self.new ≡ told self.old }
        ensures unchanged { contents self.new ≡ contents self.old };

    /// Makes the contents of the name these bytes.
    fn write(&mut self, name: &str, bytes: &[u8]) -> Result<(), Failed>
        ensures cases { MatchResult result
            (λ _. IsTrue (told self.old) → contents self.new name.now ≡ Some bytes.now)
            (λ _. Faulted (write_faults self.old) (write_faults self.new)) }
        ensures faultless { OnOk result (IsFaultless (write_faults self.old) (write_faults self.new)) }
        ensures others { OthersStay (told self.old) (contents self.old) (contents self.new) name.now }
        ensures count { IsCount (write_faults self.old) (write_faults self.new) }
        ensures reads { read_faults self.new ≡ read_faults self.old }
        ensures still_told { told self.new ≡ told self.old };
}
