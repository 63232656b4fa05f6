use host_cli::host_plain;
use outer_io::{MemFiles, MemSink};
use small_files::{CODE, EXIT_0, elf};
use std::alloc::Global;
use std::test::Fail;
use stock_watchers::stock_rack;
use test_calls::{asked, good_sink, only_file, texts};

#[test]
fn generated_programs_are_run_and_summed_up(rt: HostRuntime) -> Result<(), Fail> {
    let alloc = rt.alloc();
    for (number, want) in [
        ("1", "self 1\nsum 3\nsteps 37\nblocks 9\natomics 4\n"),
        (
            "1000",
            "self 1000\nsum 1501500\nsteps 8029\nblocks 2007\natomics 2002\n",
        ),
    ] {
        let run = asked(&rt, alloc, &["self", number], &[])?;
        assert_eq!(rt; run.out.bytes(), want.as_bytes(), "the summary of {number}");
        assert_eq!(rt; run.status, 0, "the status of {number}");
        assert_eq!(rt; run.report.bytes().len(), 0, "the report of {number}");
        assert!(rt; run.has_run, "the run of {number}");
    }
    Ok(())
}

/// What the call that waits for nobody answers and puts for these words, where `F` is this file: its status, its output and its report.
fn asked_plainly(
    alloc: Global,
    words: &[&str],
    file: &[u8],
) -> Result<(u8, MemSink, MemSink), Fail> {
    let words = texts(alloc, words)?;
    let mut files: MemFiles = only_file(alloc, file);
    let mut out = good_sink(alloc);
    let mut report = good_sink(alloc);
    let rack = stock_rack(alloc)?;
    let ended = host_plain(alloc, &words, &mut files, &mut out, &mut report, rack);
    Ok((ended.status, out, report))
}

#[test]
fn listings_wait_for_nobody_and_runs_are_refused_there(rt: HostRuntime) -> Result<(), Fail> {
    let alloc = rt.alloc();
    let usage = "usage: tcg_host run, replay, blocks, disas or self\n";
    let exit = elf(alloc, CODE, &EXIT_0)?;
    for (words, status, put, reported) in [
        (["blocks", "F"].as_slice(), 0, "0000000000010000 3\n", ""),
        (["run", "F"].as_slice(), 2, "", usage),
        (["self", "1"].as_slice(), 2, "", usage),
    ] {
        let (got, out, report) = asked_plainly(alloc, words, exit.as_slice())?;
        assert_eq!(rt; got, status, "the status with {status}");
        assert_eq!(rt; out.bytes(), put.as_bytes(), "the output with {status}");
        assert_eq!(rt;
            report.bytes(),
            reported.as_bytes(),
            "the report with {status}"
        );
    }
    Ok(())
}
