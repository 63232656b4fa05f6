//! Calls of the program on files and sinks in memory.

ghost use Rattle.std.specs.Prelude.{◌≤◌, vec_len};
ghost use Rattle.flat_model.specs.declared.limits.TheConstants.{PLUGINS_MOST, RACK_BOXES};

use host_cli::host;
use outer_io::{MemFiles, MemSink};
use std::alloc::{AllocError, Global};
use std::sync::Wait;
use std::test::Fail;
use std::thread::Threads;
use stock_watchers::stock_rack;
use watcher_api::{Closer, Held, Rack, Watcher};

/// The words of a call.
pub fn texts(alloc: Global, words: &[&str]) -> Result<Vec<String>, AllocError> {
    let mut texts = Vec::new(alloc);
    for word in words {
        texts.push(String::from_str(alloc, word)?)?;
    }
    Ok(texts)
}

/// Files of which `F` alone is there.
pub fn only_file(alloc: Global, file: &[u8]) -> MemFiles {
    let mut files = MemFiles::new(alloc, Vec::new(alloc), Vec::new(alloc));
    let _ = files.add("F", file);
    files
}

/// A sink whose puts all succeed.
pub fn good_sink(alloc: Global) -> MemSink {
    MemSink::new(alloc, Vec::new(alloc))
}

/// A sink whose put of this number, from 1, fails.
pub fn failing_sink(alloc: Global, put: u64) -> Result<MemSink, AllocError> {
    let mut puts = Vec::new(alloc);
    puts.push(put)?;
    Ok(MemSink::new(alloc, puts))
}

/// What a call answers, and what it leaves.
#[derive(Drop)]
pub struct Finished {
    pub status: u8,
    /// Whether it answers the state of a whole run.
    pub has_run: bool,
    pub out: MemSink,
    pub report: MemSink,
}

/// Calls the program with these words, files, sinks and boxes.
pub fn called_with<W: Watcher + Send, C: Closer<Held<W>> + Send, R: Threads + Wait + Sync>(
    rt: &R,
    alloc: Global,
    words: &[&str],
    files: &mut MemFiles,
    out: MemSink,
    report: MemSink,
    rack: Rack<W, C>,
) -> Result<Finished, AllocError>
    requires boxes { RACK_BOXES ≤ vec_len rack.watchers }
    requires closers { PLUGINS_MOST ≤ vec_len rack.closers }
{
    let mut out = out;
    let mut report = report;
    let words = texts(alloc, words)?;
    let ended = host(rt, alloc, &words, files, &mut out, &mut report, rack);
    Ok(Finished {
        status: ended.status,
        has_run: ended.state.is_some(),
        out,
        report,
    })
}

/// Calls the program with these words, files and sinks, and the stock boxes.
pub fn called<R: Threads + Wait + Sync>(
    rt: &R,
    alloc: Global,
    words: &[&str],
    files: &mut MemFiles,
    out: MemSink,
    report: MemSink,
) -> Result<Finished, Fail> {
    let rack = stock_rack(alloc)?;
    let finished = called_with(rt, alloc, words, files, out, report, rack)?;
    Ok(finished)
}

/// What these words answer and leave where `F` is this file, with good sinks.
pub fn asked<R: Threads + Wait + Sync>(
    rt: &R,
    alloc: Global,
    words: &[&str],
    file: &[u8],
) -> Result<Finished, Fail> {
    let mut files = only_file(alloc, file);
    called(
        rt,
        alloc,
        words,
        &mut files,
        good_sink(alloc),
        good_sink(alloc),
    )
}
