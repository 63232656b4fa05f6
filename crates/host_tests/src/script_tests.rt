use small_files::{CODE, elf};
use std::alloc::Global;
use std::process::Abort;
use std::sync::Wait;
use std::test::Fail;
use std::thread::Threads;
use test_calls::{Finished, called, good_sink, only_file};

// `jal x0, 0`: one block of one word, for ever.
const LOOP: [u32; 1] = [0x0000_006F];

/// What these words answer and leave where `F` is that loop and `S` this script, with good sinks.
fn scripted<R: Threads + Wait + Sync>(
    rt: &R,
    alloc: Global,
    words: &[&str],
    script: &[u8],
) -> Result<Finished, Fail> {
    let mut files = only_file(alloc, &elf(alloc, CODE, &LOOP)?);
    let _ = files.add("S", script);
    called(
        rt,
        alloc,
        words,
        &mut files,
        good_sink(alloc),
        good_sink(alloc),
    )
}

/// Asserts what a call with this script reports and answers.
fn assert_scripted<R: Abort + Threads + Wait + Sync>(
    rt: &R,
    alloc: Global,
    words: &[&str],
    script: &[u8],
    status: u8,
    report: &str,
) -> Result<(), Fail> {
    let call = scripted(rt, alloc, words, script)?;
    assert_eq!(rt;
        call.report.bytes(),
        report.as_bytes(),
        "the report {report}"
    );
    assert_eq!(rt; call.status, status, "the status of {report}");
    assert_eq!(rt; call.out.bytes().len(), 0, "the output of {report}");
    Ok(())
}

#[test]
fn lines_are_placed_at_their_steps(rt: HostRuntime) -> Result<(), Fail> {
    let alloc = rt.alloc();
    let words = ["run", "--limit=30", "--script=S", "F", "counts,kinds=insn"];
    for (script, report) in [
        // Nothing is asked for.
        (
            b"".as_slice(),
            "hart 0 steps 30 blocks 30 limit\nplugin 1 set 1 live\nsub 0 counts\ninsn 30\n",
        ),
        (
            b"at 10 uninstall 1\nat 20 install hot\n".as_slice(),
            "hart 0 steps 30 blocks 30 limit\nplugin 1 set 1 gone\nsub 0 counts\ninsn 10\nplugin 2 set 1 live\nsub 0 hot\nblock 0x0000000000010000 runs 10 insns 10\n",
        ),
        // Before the first step: the plug-in of the words is the first all the same.
        (
            b"at 0 install counts,kinds=block\nat 0 reset 1\n".as_slice(),
            "hart 0 steps 30 blocks 30 limit\nplugin 1 set 1 reset\nsub 0 counts\nplugin 2 set 1 live\nsub 0 counts\nblock 30\n",
        ),
        // No plug-in 9 is there, and the hart never comes to the last line.
        (
            b"at 10 uninstall 9\nat 99999999 uninstall 1\n".as_slice(),
            "hart 0 steps 30 blocks 30 limit\nplugin 1 set 1 live\nsub 0 counts\ninsn 30\n",
        ),
    ] {
        assert_scripted(&rt, alloc, &words, script, 9, report)?;
    }
    Ok(())
}

#[test]
fn scripts_are_refused_by_their_first_broken_rule(rt: HostRuntime) -> Result<(), Fail> {
    let alloc = rt.alloc();
    for (words, script, status, line) in [
        (
            ["run", "--script", "S", "F"].as_slice(),
            b"at 10 reset 1\nat 5 reset 1\n".as_slice(),
            5,
            "tcg_host: script 2:4: backwards\n",
        ),
        (
            ["run", "--script", "none", "F"].as_slice(),
            b"".as_slice(),
            3,
            "tcg_host: cannot read none\n",
        ),
        (
            ["run", "--script", "S", "F"].as_slice(),
            [b'\n'; 65537].as_slice(),
            3,
            "tcg_host: S is longer than 65536 bytes\n",
        ),
        // The words of plug-ins are judged first.
        (
            ["run", "--script", "none", "F", "count"].as_slice(),
            b"".as_slice(),
            5,
            "tcg_host: plug-in 1: column 1: name\n",
        ),
    ] {
        assert_scripted(&rt, alloc, words, script, status, line)?;
    }
    Ok(())
}
