//! `tcg_host`: runs a static RV64 ELF file on the proved machine.
#![tactic(auto)]

use host_cli::{OUT_OF_MEMORY, host};
use outer_io::{RealFiles, RealSink, Sink};
use std::io::ErrorKind;
use std::process::ExitCode;
use std::rt::{Env, Files};
use std::sync::Wait;
use std::thread::Threads;
use std::{env, io};
use stock_watchers::stock_rack;

/// The words without the program's own name. Words that are no text aren't in the grammar, as no words at all aren't.
fn words(rt: &(impl Env + AllocGlobal)) -> io::Result<Vec<String>> {
    match env::args(rt) {
        Ok(args) => Ok(args.skip(1).collect(rt.alloc())?),
        Err(error) if error.kind() == ErrorKind::InvalidData => Ok(Vec::new(rt.alloc())),
        Err(error) => Err(error),
    }
}

/// Makes the top call over the real files, with the stock boxes: a run takes as many as its words name, and its harts are threads of
/// this process. Without memory for the call itself there is no status.
fn call<R: Env + Files + AllocGlobal + Threads + Wait + Sync>(
    rt: &R,
    out: &mut impl Sink,
    report: &mut impl Sink,
) -> Option<u8> {
    let words = words(rt).ok()?;
    let rack = stock_rack(rt.alloc()).ok()?;
    let mut files = RealFiles::new(rt);
    let ended = host(
        rt,
        rt.alloc(),
        words.as_slice(),
        &mut files,
        out,
        report,
        rack,
    );
    Some(ended.status)
}

fn main(rt: HostRuntime) -> ExitCode {
    let mut out = RealSink::new(rt.stdout());
    let mut report = RealSink::new(rt.stderr());
    match call(&rt, &mut out, &mut report) {
        Some(status) => ExitCode::from(status),
        None => {
            let _ = report.put(OUT_OF_MEMORY);
            ExitCode::from(7)
        }
    }
}
