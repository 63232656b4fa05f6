//! Files and streams of the system, over std. They tell no contents.

ghost use Rattle.std.specs.Prelude.{◌≡◌, ◌≢◌, ◌↔◌, ◌<◌, ◌∷◌, [], ℕ, None, false, is_some, length};
ghost use Rattle.std.specs.Prelude.{MatchResult, IfOk, IfErr, IfSome, IsOkAnd, OnOk, OnErr, IsErr};
ghost use Rattle.std.specs.Io.KnownBytes.{Appends};
ghost use Rattle.std.specs.IoError.{error_kind};
ghost use Rattle.outer_io.specs.Counts.{IsCount, IsFaultless};
ghost use Rattle.outer_io.specs.Files.{ReadsWhole, HasReadCause};
ghost use Rattle.outer_io.specs.Pieces.{one_piece};
ghost use Rattle.outer_io.specs.Real.{stream_of, faults_of, read_faults_of, write_faults_of};
ghost use Rattle.outer_io.specs.Sinks.{Gained, StoppedAtFault};

use crate::files::{FileFault, Files};
use crate::sinks::{Failed, Sink};
use std::io::{ErrorKind, Read, Write};
use std::{fs, io, rt};

/// A sink over a stream of std. Each `put` writes the whole piece and flushes it.
#[derive(Drop)]
pub struct RealSink<W> {
    stream: W,
    faults: u64,
}

impl<W: Write> RealSink<W> {
    /// A sink that has met no fault.
    pub fn new(stream: W) -> RealSink<W>
        ensures stream { stream_of result ≡ stream }
        ensures faultless { faults_of result ≡ 0 }
    {
        RealSink { stream, faults: 0 }
    }
}

impl<W: Write> Sink for RealSink<W> {
    ghost faults = { λ s. faults_of s };

    ghost pieces = { λ _. None };

    fn put(&mut self, bytes: &[u8]) -> Result<(), Failed>
        ensures cases { MatchResult result
            (λ _. Gained None None (bytes.now ∷ []))
            (λ _. StoppedAtFault one_piece None None bytes.now (faults_of self.old) (faults_of self.new)) }
        ensures faultless { OnOk result (IsFaultless (faults_of self.old) (faults_of self.new)) }
        ensures count { IsCount (faults_of self.old) (faults_of self.new) }

        // What the stream holds, where it tells that.
        ensures stream { OnOk result (Appends (W.contents (stream_of self.old)) (W.contents (stream_of self.new)) bytes.now) }
    {
        let faults = self.faults;
        if write_whole(&mut self.stream, bytes).is_err() {
            self.faults = faults.saturating_add(1);
            return Err(Failed);
        }
        Ok(())
    }
}

/// Files of the system. A name that is not there is a fault, as any other error.
#[derive(Drop)]
pub struct RealFiles<'r, R> {
    rt: &'r R,
    read_faults: u64,
    write_faults: u64,
}

impl<'r, R: rt::Files> RealFiles<'r, R> {
    /// Files that have met no fault.
    pub fn new(rt: &'r R) -> RealFiles<'r, R>
        ensures reads { read_faults_of result ≡ 0 }
        ensures writes { write_faults_of result ≡ 0 }
    {
        RealFiles {
            rt,
            read_faults: 0,
            write_faults: 0,
        }
    }
}

impl<R: rt::Files> Files for RealFiles<'_, R> {
    ghost read_faults = { λ f. read_faults_of f };

    ghost write_faults = { λ f. write_faults_of f };

    ghost told = { λ _. false };

    ghost contents = { λ _ _. None };

    fn read(&mut self, name: &str, limit: usize, into: &mut Vec<u8>) -> Result<(), FileFault> {
        let answer = read_file(fs::open(self.rt, name), limit, into);
        self.read_faults = faults_after_read(self.read_faults, &answer);
        answer
    }

    fn write(&mut self, name: &str, bytes: &[u8]) -> Result<(), Failed> {
        let faults = self.write_faults;
        if write_file(fs::create(self.rt, name), bytes).is_err() {
            self.write_faults = faults.saturating_add(1);
            return Err(Failed);
        }
        Ok(())
    }
}

// How many reads met a fault, once one gave this answer: where no contents are told, all errors but want of memory are faults.
fn faults_after_read(faults: u64, answer: &Result<(), FileFault>) -> u64
    requires never_missing { answer.now ≢ Err FileFault.Missing }
    ensures faultless { OnOk answer.now (IsFaultless faults result) }
    ensures refused { (limit : ℕ) → IfErr answer.now (λ fault. HasReadCause fault false None limit faults result) }
    ensures count { IsCount faults result }
{
    match answer {
        Ok(()) | Err(FileFault::NoMemory) => faults,
        Err(_) => faults.saturating_add(1),
    }
}

// Reads a file that was opened. One that was not is a fault, as any other error but want of memory.
fn read_file<R: Read + Drop>(
    opened: io::Result<R>,
    limit: usize,
    into: &mut Vec<u8>,
) -> Result<(), FileFault>
    ensures ok { OnOk result (IsOkAnd opened
        (λ file. ReadsWhole (is_some (R.remaining file)) (R.remaining file) limit into.old.items into.new.items)) }
    ensures too_long { result ≡ Err FileFault.TooLong
        → IsOkAnd opened (λ file. IfSome (R.remaining file) (λ bytes. limit < length bytes)) }
    ensures refused { OnErr result (into.new.items ≡ into.old.items) }
    ensures never_missing { result ≢ Err FileFault.Missing }
{
    match opened {
        Ok(file) => read_whole(file, limit, into),
        Err(error) => Err(fault_of(&error)),
    }
}

/// Appends all that the reader has left, where that is at most `limit` bytes. An error of the reader is `NoMemory` or `Failed`.
pub fn read_whole<R: Read + Drop>(
    from: R,
    limit: usize,
    into: &mut Vec<u8>,
) -> Result<(), FileFault>
    ensures ok { OnOk result
        (ReadsWhole (is_some (R.remaining from)) (R.remaining from) limit into.old.items into.new.items) }
    ensures too_long { result ≡ Err FileFault.TooLong → IfSome (R.remaining from) (λ bytes. limit < length bytes) }
    ensures refused { OnErr result (into.new.items ≡ into.old.items) }
    ensures never_missing { result ≢ Err FileFault.Missing }
{
    let before = into.len();
    let most = (limit as u64).saturating_add(1);
    match from.take(most).read_to_end(into) {
        Ok(taken) if taken <= limit => Ok(()),
        Ok(_) => {
            into.truncate(before);
            Err(FileFault::TooLong)
        }
        Err(error) => {
            into.truncate(before);
            Err(fault_of(&error))
        }
    }
}

fn fault_of(error: &io::Error) -> FileFault
    ensures memory { (result ≡ FileFault.NoMemory) ↔ (error_kind error.now ≡ ErrorKind.OutOfMemory) }
    ensures other { error_kind error.now ≢ ErrorKind.OutOfMemory → result ≡ FileFault.Failed }
{
    match error.kind() {
        ErrorKind::OutOfMemory => FileFault::NoMemory,
        _ => FileFault::Failed,
    }
}

// Writes the bytes to a file that was created, and hands it back.
fn write_file<W: Write + Drop>(created: io::Result<W>, bytes: &[u8]) -> io::Result<W>
    ensures ok { IfOk result (λ written. IfOk created (λ file. Appends (W.contents file) (W.contents written) bytes.now)) }
    ensures created { OnErr created (IsErr result) }
{
    let mut file = created?;
    write_whole(&mut file, bytes)?;
    Ok(file)
}

/// Writes the whole piece and flushes it. A write that takes nothing of a piece that is not empty is an error.
pub fn write_whole<W: Write>(to: &mut W, bytes: &[u8]) -> io::Result<()>
    ensures { OnOk result (Appends (W.contents to.old) (W.contents to.new) bytes.now) }
{
    to.write_all(bytes)?;
    to.flush()
}
