//! Files and a sink in memory, for tests: the calls that are to fail are given by their numbers.

ghost use Rattle.std.specs.Prelude.{◌≡◌, [], ◌∷◌, ◌++◌, ◌↔◌, ℕ, List, Bool, true, map, length, Some, None};
ghost use Rattle.std.specs.Prelude.{IsTrue, IsErr, IsErrOf, OnOk, OnErr, MatchResult};
ghost use Rattle.std.specs.List.{concat};
ghost use Rattle.std.specs.Option.{option_copied};
ghost use Rattle.std.specs.Prelude.{Option};
ghost use Rattle.outer_io.specs.Calls.{is_listed};
ghost use Rattle.outer_io.specs.Counts.{next, IsCount, IsFaultless, Faulted};
ghost use Rattle.outer_io.specs.Pieces.{one_piece, split, AreLengthsOf};
ghost use Rattle.outer_io.specs.Sinks.{Gained, StoppedAtFault};
ghost use Rattle.outer_io.specs.Files.{ReadsWhole, HasReadCause, OthersStay};
ghost use Rattle.outer_io.specs.Memory.{MemSinkValue, held_in, file_bytes, reads_of, writes_of};

use crate::calls::Calls;
use crate::files::{FileFault, Files};
use crate::sinks::{Failed, Sink};
use std::alloc::{AllocError, Global};
use std::collections::BTreeMap;
use std::marker::Model;

/// A sink that keeps its bytes and tells its pieces.
#[derive(Drop)]
pub struct MemSink {
    held: Vec<u8>,
    piece_lengths: Vec<usize>,
    puts: Calls,
}

impl Model for MemSink {
    ghost Value = { MemSinkValue };

    ghost view = { λ s. record { pieces = split s.piece_lengths.items s.held.items; puts = s.puts } };

    ghost invariant = { λ s. AreLengthsOf s.piece_lengths.items s.held.items };
}

impl MemSink {
    /// A sink with no bytes. The calls of `put` with these numbers, from 1, fail.
    pub fn new(alloc: Global, puts: Vec<u64>) -> MemSink
        ensures { result ≡ record { pieces = []; puts = record { to_fail = puts; made = 0; faults = 0 } } }
    {
        MemSink {
            held: Vec::new(alloc),
            piece_lengths: Vec::new(alloc),
            puts: Calls::new(puts),
        }
    }

    /// What was put.
    pub fn bytes(&self) -> &[u8]
        ensures { result.now ≡ concat self.now.pieces }
    {
        self.held.as_slice()
    }

    /// How many bytes each piece has.
    pub fn piece_lengths(&self) -> &[usize]
        ensures { result.now ≡ map (λ piece. length piece) self.now.pieces }
    {
        self.piece_lengths.as_slice()
    }
}

impl Sink for MemSink {
    ghost faults = { λ s. s.puts.faults };

    ghost pieces = { λ s. Some s.pieces };

    /// A call that is to fail, or that finds no memory, puts nothing.
    fn put(&mut self, bytes: &[u8]) -> Result<(), Failed>
        ensures cases { MatchResult result
            (λ _. Gained (Some self.old.pieces) (Some self.new.pieces) (bytes.now ∷ []))
            (λ _. StoppedAtFault one_piece (Some self.old.pieces) (Some self.new.pieces) bytes.now
            self.old.puts.faults self.new.puts.faults) }
        ensures faultless { OnOk result (IsFaultless self.old.puts.faults self.new.puts.faults) }
        ensures count { IsCount self.old.puts.faults self.new.puts.faults }
        ensures listed { IsTrue (is_listed self.old.puts.to_fail.items (next self.old.puts.made)) → IsErr result }
        ensures failed { OnErr result (self.new.pieces ≡ self.old.pieces) }
        ensures made { self.new.puts.made ≡ next self.old.puts.made }
        ensures to_fail { self.new.puts.to_fail ≡ self.old.puts.to_fail }
    {
        let _faults = self.puts.faults;
        if self.puts.next_is_to_fail()
            || append_piece(&mut self.held, &mut self.piece_lengths, bytes).is_err()
        {
            self.puts.fault();
            return Err(Failed);
        }
        Ok(())
    }
}

// Appends the bytes and their number.
fn append_piece(
    held: &mut Vec<u8>,
    piece_lengths: &mut Vec<usize>,
    bytes: &[u8],
) -> Result<(), AllocError>
    ensures bytes { OnOk result (held.new.items ≡ held.old.items ++ bytes.now) }
    ensures number { OnOk result (piece_lengths.new.items ≡ piece_lengths.old.items ++ length bytes.now ∷ []) }
    ensures same_bytes { OnErr result (held.new.items ≡ held.old.items) }
    ensures same_lengths { OnErr result (piece_lengths.new.items ≡ piece_lengths.old.items) }
{
    piece_lengths.push(bytes.len())?;
    if let Err(error) = held.extend_from_slice(bytes) {
        piece_lengths.pop();
        return Err(error);
    }
    Ok(())
}

/// Files in memory, which tell their contents.
#[derive(Drop)]
pub struct MemFiles {
    alloc: Global,
    files: BTreeMap<String, Vec<u8>>,
    reads: Calls,
    writes: Calls,
}

impl MemFiles {
    /// No name is there. The calls of `read` and of `write` with these numbers, from 1, fail.
    pub fn new(alloc: Global, reads: Vec<u64>, writes: Vec<u64>) -> MemFiles
        ensures empty { (name : List ℕ) → file_bytes result name ≡ None }
        ensures reads { reads_of result ≡ record { to_fail = reads; made = 0; faults = 0 } }
        ensures writes { writes_of result ≡ record { to_fail = writes; made = 0; faults = 0 } }
    {
        MemFiles {
            alloc,
            files: BTreeMap::new(alloc),
            reads: Calls::new(reads),
            writes: Calls::new(writes),
        }
    }

    /// Makes the contents of the name these bytes. The error is `NoMemory` alone, and changes nothing.
    pub fn add(&mut self, name: &str, bytes: &[u8]) -> Result<(), FileFault>
        ensures cases { MatchResult result
            (λ _. file_bytes self.new name.now ≡ Some bytes.now)
            (λ fault. (fault ≡ FileFault.NoMemory) × (file_bytes self.new ≡ file_bytes self.old)) }
        ensures others { OthersStay true (file_bytes self.old) (file_bytes self.new) name.now }
        ensures reads { reads_of self.new ≡ reads_of self.old }
        ensures writes { writes_of self.new ≡ writes_of self.old }
    {
        match put_file(&mut self.files, self.alloc, name, bytes) {
            Ok(()) => Ok(()),
            Err(_) => Err(FileFault::NoMemory),
        }
    }

    /// What the name has; None exactly where it is not there.
    pub fn contents(&self, name: &str) -> Option<&[u8]>
        ensures { option_copied result ≡ file_bytes self.now name.now }
    {
        match self.files.get(name) {
            Some(held) => Some(held.as_slice()),
            None => None,
        }
    }
}

impl Files for MemFiles {
    ghost read_faults = { λ f. (reads_of f).faults };

    ghost write_faults = { λ f. (writes_of f).faults };

    ghost told = { λ _. true };

    ghost contents = { file_bytes };

    /// A call that is to fail is a fault.
    fn read(&mut self, name: &str, limit: usize, into: &mut Vec<u8>) -> Result<(), FileFault>
        ensures cases { MatchResult result
            (λ _. ReadsWhole true (file_bytes self.old name.now) limit into.old.items into.new.items)
            (λ fault. HasReadCause fault true (file_bytes self.old name.now) limit
            (reads_of self.old).faults (reads_of self.new).faults) }
        ensures faultless { OnOk result (IsFaultless (reads_of self.old).faults (reads_of self.new).faults) }
        ensures refused { OnErr result (into.new.items ≡ into.old.items) }
        ensures count { IsCount (reads_of self.old).faults (reads_of self.new).faults }
        ensures writes { (writes_of self.new).faults ≡ (writes_of self.old).faults }
        ensures still_told { true ≡ true }
        ensures unchanged { file_bytes self.new ≡ file_bytes self.old }
        ensures listed { IsTrue (is_listed (reads_of self.old).to_fail.items (next (reads_of self.old).made))
            ↔ IsErrOf result FileFault.Failed }
        ensures made { (reads_of self.new).made ≡ next (reads_of self.old).made }
        ensures to_fail { (reads_of self.new).to_fail ≡ (reads_of self.old).to_fail }
        ensures same_writes { writes_of self.new ≡ writes_of self.old }
    {
        let _faults = self.reads.faults;
        if self.reads.next_is_to_fail() {
            self.reads.fault();
            return Err(FileFault::Failed);
        }
        let Some(held) = self.files.get(name) else {
            return Err(FileFault::Missing);
        };
        if held.len() > limit {
            return Err(FileFault::TooLong);
        }
        match into.extend_from_slice(held.as_slice()) {
            Ok(()) => Ok(()),
            Err(_) => Err(FileFault::NoMemory),
        }
    }

    /// A call that is to fail, or that finds no memory, changes no content.
    fn write(&mut self, name: &str, bytes: &[u8]) -> Result<(), Failed>
        ensures cases { MatchResult result
            (λ _. IsTrue true → file_bytes self.new name.now ≡ Some bytes.now)
            (λ _. Faulted (writes_of self.old).faults (writes_of self.new).faults) }
        ensures faultless { OnOk result (IsFaultless (writes_of self.old).faults (writes_of self.new).faults) }
        ensures others { OthersStay true (file_bytes self.old) (file_bytes self.new) name.now }
        ensures count { IsCount (writes_of self.old).faults (writes_of self.new).faults }
        ensures reads { (reads_of self.new).faults ≡ (reads_of self.old).faults }
        ensures still_told { true ≡ true }
        ensures listed { IsTrue (is_listed (writes_of self.old).to_fail.items (next (writes_of self.old).made))
            → IsErr result }
        ensures failed { OnErr result (file_bytes self.new ≡ file_bytes self.old) }
        ensures made { (writes_of self.new).made ≡ next (writes_of self.old).made }
        ensures to_fail { (writes_of self.new).to_fail ≡ (writes_of self.old).to_fail }
        ensures same_reads { reads_of self.new ≡ reads_of self.old }
    {
        let _faults = self.writes.faults;
        if self.writes.next_is_to_fail()
            || put_file(&mut self.files, self.alloc, name, bytes).is_err()
        {
            self.writes.fault();
            return Err(Failed);
        }
        Ok(())
    }
}

// Makes the contents of the name these bytes.
fn put_file(
    files: &mut BTreeMap<String, Vec<u8>>,
    alloc: Global,
    name: &str,
    bytes: &[u8],
) -> Result<(), AllocError>
    ensures ok { OnOk result (held_in files.new name.now ≡ Some bytes.now) }
    ensures others { OthersStay true (held_in files.old) (held_in files.new) name.now }
    ensures err { OnErr result (held_in files.new ≡ held_in files.old) }
{
    let held = Vec::from_slice(alloc, bytes)?;
    let key = String::from_str(alloc, name)?;
    files.insert(key, held)?;
    Ok(())
}
