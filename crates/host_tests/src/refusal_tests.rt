use outer_io::MemFiles;
use small_files::{CODE, EXIT_0, elf};
use std::test::Fail;
use test_calls::{called, failing_sink, good_sink, only_file};

const TEXT: &[u8] =
    b"#!/bin/sh\necho this is a text file and no ELF file, though it is long enough\n";

#[test]
fn each_refusal_has_its_status_and_line(rt: HostRuntime) -> Result<(), Fail> {
    let alloc = rt.alloc();
    let mut files = only_file(alloc, &elf(alloc, CODE, &EXIT_0)?);
    let _ = files.add("EMPTY", b"");
    let _ = files.add("BAD", TEXT);
    for (words, status, line) in [
        (
            ["run", "none"].as_slice(),
            3,
            "tcg_host: cannot read none\n",
        ),
        (
            ["run", "EMPTY"].as_slice(),
            4,
            "tcg_host: image: file too short: need 64, got 0\n",
        ),
        (["run", "BAD"].as_slice(), 4, "tcg_host: image: not ELF\n"),
        (
            ["run"].as_slice(),
            2,
            "usage: tcg_host run, replay, blocks, disas or self\n",
        ),
        (
            ["run", "--harts", "33", "F"].as_slice(),
            2,
            "usage: tcg_host run, replay, blocks, disas or self\n",
        ),
        (
            ["run", "-F"].as_slice(),
            2,
            "usage: tcg_host run, replay, blocks, disas or self\n",
        ),
        (
            ["walk", "F"].as_slice(),
            2,
            "usage: tcg_host run, replay, blocks, disas or self\n",
        ),
        (
            ["walk", "none"].as_slice(),
            2,
            "usage: tcg_host run, replay, blocks, disas or self\n",
        ),
        (
            ["walk", "BAD"].as_slice(),
            2,
            "usage: tcg_host run, replay, blocks, disas or self\n",
        ),
        (
            [].as_slice(),
            2,
            "usage: tcg_host run, replay, blocks, disas or self\n",
        ),
    ] {
        let call = called(
            &rt,
            alloc,
            words,
            &mut files,
            good_sink(alloc),
            good_sink(alloc),
        )?;
        assert_eq!(rt; call.report.bytes(), line.as_bytes());
        assert_eq!(rt; call.report.piece_lengths().len(), 1);
        assert_eq!(rt; call.status, status);
        assert!(rt; !call.has_run);
    }
    Ok(())
}

#[test]
fn failing_calls_of_files_and_sinks_have_their_statuses(rt: HostRuntime) -> Result<(), Fail> {
    let alloc = rt.alloc();
    let run = ["run", "F"];
    let mut first = Vec::new(alloc);
    first.push(1)?;
    let mut files = MemFiles::new(alloc, first, Vec::new(alloc));
    let _ = files.add("F", &elf(alloc, CODE, &EXIT_0)?);
    let unread = called(
        &rt,
        alloc,
        &run,
        &mut files,
        good_sink(alloc),
        good_sink(alloc),
    )?;
    assert_eq!(rt; unread.status, 3);
    assert_eq!(rt;
        unread.report.bytes(),
        b"tcg_host: cannot read F\n".as_slice()
    );

    // The report's one put fails: after a run, and after a refusal.
    for (words, status) in [(run.as_slice(), 6), (["walk"].as_slice(), 2)] {
        let report = failing_sink(alloc, 1)?;
        let call = called(&rt, alloc, words, &mut files, good_sink(alloc), report)?;
        assert_eq!(rt; call.status, status);
        assert_eq!(rt; call.report.bytes(), b"".as_slice());
    }
    Ok(())
}
