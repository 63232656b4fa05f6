use outer_io::MemFiles;
use small_files::{CODE, ECALL, EXIT_0, elf, with_data};
use std::alloc::{AllocError, Global};
use std::process::Abort;
use std::sync::Wait;
use std::test::Fail;
use std::thread::Threads;
use test_calls::{Finished, called, good_sink, only_file};

// LR.D and SC.D at 0x20000 by hart 0, which exits with what SC.D answers; hart 1 stores a byte at 0x20001 and exits with 0.
const RESERVED: [u32; 10] = [
    0x0002_02B7,
    0x0005_1A63,
    0x1002_B32F,
    0x1862_B52F,
    0x05D0_0893,
    ECALL,
    0x0052_80A3,
    0x0000_0513,
    0x05D0_0893,
    ECALL,
];

// The group's end, with 0.
const GROUP_0: [u32; 3] = [0x05E0_0893, 0x0000_0513, ECALL];

// `jal x0, 0`.
const LOOP: [u32; 1] = [0x0000_006F];

// Starts hart 1 at 0x10020 with the argument 7, and exits with 0; hart 1 exits with its argument.
const STARTER: [u32; 11] = [
    0x0010_0513,
    0x0001_05B7,
    0x0205_8593,
    0x0070_0613,
    0x0000_18B7,
    ECALL,
    0x05D0_0893,
    ECALL,
    0x0006_0513,
    0x05D0_0893,
    ECALL,
];

/// Turns of two harts of three steps each, in which hart 1 stores between hart 0's LR.D and its SC.D: a file of version 1.
const BETWEEN: [u8; 44] = [
    0x54, 0x43, 0x47, 0x4a, 0x01, 0x00, 0x00, 0x00, 0x06, 0x00, 0x00, 0x00, 0x00, 0x00, 0x00, 0x00,
    0x01, 0x00, 0x03, 0x00, 0x00, 0x00, 0x01, 0x01, 0x03, 0x00, 0x00, 0x00, 0x01, 0x00, 0x03, 0x00,
    0x00, 0x00, 0x04, 0x00, 0x01, 0x01, 0x03, 0x00, 0x00, 0x00, 0x04, 0x01,
];

/// The header of version 2 of the same journal: two harts, all from the first, a limit of 1,000,000.
const HEADER: [u8; 26] = [
    0x54, 0x43, 0x47, 0x4a, 0x02, 0x00, 0x00, 0x00, 0x06, 0x00, 0x00, 0x00, 0x00, 0x00, 0x00, 0x00,
    0x02, 0x00, 0x40, 0x42, 0x0f, 0x00, 0x00, 0x00, 0x00, 0x00,
];

// The start orders of `mem` and of `counts,kinds=insn,quota=5,ask=uninstall`.
const INSTALL_MEM: &[u8] =
    b"\x02\0\0\0\x01\x08\0\0\0\0\0\0\0\0\xff\xff\xff\xff\xff\xff\xff\xff\xff\x01\x03\0\x02\0\0\0\0\0\0\0\0\0";

const INSTALL_FIVE: &[u8] =
    b"\x02\0\0\0\x01\x04\0\0\0\0\0\0\0\0\xff\xff\xff\xff\xff\xff\xff\xff\xff\x01\x03\0\0\x05\0\0\0\0\0\0\0\x02";

// What a box of hart 0 asked for: plug-in 1 is uninstalled.
const UNINSTALL: &[u8] = b"\x02\x02\0\x01\x03\x01";

const BACK_0: &[u8] = b"\x03\0\x01";

const BACK_1: &[u8] = b"\x03\x01\x01";

const DONE_0: &[u8] = b"\x05\0\x01";

const DONE_1: &[u8] = b"\x05\x01\x01";

const LEAVE_0: &[u8] = b"\x04\0";

const LEAVE_1: &[u8] = b"\x04\x01";

// Turns by hart and number of steps.
const TURN_0_3: &[u8] = b"\x01\0\x03\0\0\0";

const TURN_0_4: &[u8] = b"\x01\0\x04\0\0\0";

const TURN_0_5: &[u8] = b"\x01\0\x05\0\0\0";

const TURN_0_6: &[u8] = b"\x01\0\x06\0\0\0";

const TURN_1_1: &[u8] = b"\x01\x01\x01\0\0\0";

const TURN_1_3: &[u8] = b"\x01\x01\x03\0\0\0";

const TURN_1_6: &[u8] = b"\x01\x01\x06\0\0\0";

const TURN_1_7: &[u8] = b"\x01\x01\x07\0\0\0";

// A controller's install of a set without subscriptions.
const INSTALL_NOTHING: &[u8] = b"\x02\x03\0\0\0\0";

/// A file of version 1 with these entries, each given by its bytes.
fn journal_of(alloc: Global, entries: &[&[u8]]) -> Result<Vec<u8>, AllocError> {
    let mut file = Vec::new(alloc);
    file.extend_from_slice(b"TCGJ\x01\0\0\0")?;
    file.extend_from_slice(&(entries.len() as u64).to_le_bytes())?;
    for entry in entries {
        file.extend_from_slice(entry)?;
    }
    Ok(file)
}

/// What these words answer and leave where `F` is this file and `J` this journal, with good sinks.
fn replayed<R: Threads + Wait + Sync>(
    rt: &R,
    alloc: Global,
    words: &[&str],
    file: &[u8],
    journal: &[u8],
) -> Result<Finished, Fail> {
    let mut files = only_file(alloc, file);
    let _ = files.add("J", journal);
    called(
        rt,
        alloc,
        words,
        &mut files,
        good_sink(alloc),
        good_sink(alloc),
    )
}

/// Asserts that these words replay the journal of a file that puts nothing out, with this report.
fn assert_replay<R: Abort + Threads + Wait + Sync>(
    rt: &R,
    alloc: Global,
    words: &[&str],
    file: &[u8],
    journal: &[u8],
    status: u8,
    report: &str,
) -> Result<(), Fail> {
    let replay = replayed(rt, alloc, words, file, journal)?;
    assert_eq!(rt;
        replay.report.bytes(),
        report.as_bytes(),
        "the report {report}"
    );
    assert_eq!(rt; replay.status, status, "the status of {report}");
    assert_eq!(rt; replay.out.bytes().len(), 0, "the output of {report}");
    assert!(rt; replay.has_run);
    Ok(())
}

/// Asserts that these words are refused with this line.
fn assert_refused<R: Abort + Threads + Wait + Sync>(
    rt: &R,
    alloc: Global,
    words: &[&str],
    file: &[u8],
    journal: &[u8],
    status: u8,
    line: &str,
) -> Result<(), Fail> {
    let call = replayed(rt, alloc, words, file, journal)?;
    assert_eq!(rt; call.report.bytes(), line.as_bytes(), "the line {line}");
    assert_eq!(rt; call.report.piece_lengths().len(), 1);
    assert_eq!(rt; call.status, status, "the status of {line}");
    assert_eq!(rt; call.out.piece_lengths().len(), 0);
    assert!(rt; !call.has_run);
    Ok(())
}

#[test]
fn a_replay_interleaves_harts_as_the_journal_says(rt: HostRuntime) -> Result<(), Fail> {
    let alloc = rt.alloc();
    let file = with_data(alloc, &RESERVED)?;
    let words = ["replay", "--harts", "2", "F", "J"];
    // SC.D fails.
    assert_replay(
        &rt,
        alloc,
        &words,
        &file,
        &BETWEEN,
        1,
        "hart 0 steps 6 blocks 2 exit 1\nhart 1 steps 6 blocks 2 exit 0\n",
    )?;
    // And it succeeds where hart 1 comes later.
    let later = journal_of(alloc, &[TURN_0_6, LEAVE_0, TURN_1_6, LEAVE_1])?;
    assert_replay(
        &rt,
        alloc,
        &words,
        &file,
        &later,
        0,
        "hart 0 steps 6 blocks 2 exit 0\nhart 1 steps 6 blocks 2 exit 0\n",
    )?;
    // With the boxes of `mem`, which hear the load and the store, and no store of SC.D.
    let heard = journal_of(
        alloc,
        &[
            INSTALL_MEM,
            TURN_0_3,
            TURN_1_3,
            TURN_0_3,
            LEAVE_0,
            TURN_1_3,
            LEAVE_1,
        ],
    )?;
    assert_replay(
        &rt,
        alloc,
        &["replay", "--harts=2", "F", "J", "mem"],
        &file,
        &heard,
        1,
        "hart 0 steps 6 blocks 2 exit 1\nhart 1 steps 6 blocks 2 exit 0\nplugin 1 set 1 live\nsub 0 mem\nhart 0 pc 0x0000000000010008 load addr 0x0000000000020000 size 8 value 0x0000000000000000\nhart 1 pc 0x0000000000010018 store addr 0x0000000000020001 size 1 value 0x0000000000000000\n",
    )
}

#[test]
fn a_replay_withdraws_what_its_boxes_asked_for(rt: HostRuntime) -> Result<(), Fail> {
    let alloc = rt.alloc();
    let file = elf(alloc, CODE, &LOOP)?;
    let words = [
        "replay",
        "--harts",
        "2",
        "--limit",
        "10",
        "F",
        "J",
        "counts,kinds=insn,quota=5,ask=uninstall",
    ];
    let whole = journal_of(
        alloc,
        &[
            INSTALL_FIVE,
            TURN_0_5,
            TURN_1_7,
            UNINSTALL,
            BACK_0,
            BACK_1,
            DONE_1,
            TURN_0_5,
            LEAVE_0,
            TURN_1_3,
            LEAVE_1,
        ],
    )?;
    assert_replay(
        &rt,
        alloc,
        &words,
        &file,
        &whole,
        9,
        "hart 0 steps 10 blocks 10 limit\nhart 1 steps 10 blocks 10 limit\nplugin 1 set 1 gone\nsub 0 counts\ninsn 12\n",
    )?;
    // Hart 1 leaves before its end.
    let broken = journal_of(
        alloc,
        &[
            INSTALL_FIVE,
            TURN_0_5,
            TURN_1_7,
            UNINSTALL,
            BACK_0,
            BACK_1,
            DONE_1,
            TURN_0_5,
            LEAVE_0,
            LEAVE_1,
        ],
    )?;
    assert_refused(
        &rt,
        alloc,
        &words,
        &file,
        &broken,
        5,
        "tcg_host: journal: not a run of this image at entry 9\n",
    )
}

// The start order of `counts`, and what lines 0 and 1 of a script ordered behind a Turn of hart 0: reset 1, and register 1 with `hot`.
const INSTALL_COUNTS: &[u8] =
    b"\x02\0\0\0\x01\x7f\0\0\0\0\0\0\0\0\xff\xff\xff\xff\xff\xff\xff\xff\xff\x01\x03\0\0\0\0\0\0\0\0\0\0\0";

const LINE_0: &[u8] = b"\x02\x01\0\0\0\0\0\x02\x01";

const LINE_1: &[u8] =
    b"\x02\x01\x01\0\0\0\0\x01\x01\0\x01\x02\0\0\0\0\0\0\0\0\xff\xff\xff\xff\xff\xff\xff\xff\xff\x01\x03\0\x01\0\0\0\0\0\0\0\0\0";

const TURN_0_10: &[u8] = b"\x01\0\x0a\0\0\0";

const TURN_0_20: &[u8] = b"\x01\0\x14\0\0\0";

// The last line never comes, and no plug-in 9 is there.
const SCRIPT: &[u8] =
    b"at 10 reset 1\nat 20 register 1 hot\nat 20 uninstall 9\nat 99999999 uninstall 1\n";

/// What `replay --limit 30 --script S F J counts` answers and leaves where `F` is a loop, `S` that script and `J` this journal.
fn scripted<R: Threads + Wait + Sync>(
    rt: &R,
    alloc: Global,
    journal: &[u8],
) -> Result<Finished, Fail> {
    let mut files = only_file(alloc, &elf(alloc, CODE, &LOOP)?);
    let _ = files.add("S", SCRIPT);
    let _ = files.add("J", journal);
    called(
        rt,
        alloc,
        &["replay", "--limit=30", "--script=S", "F", "J", "counts"],
        &mut files,
        good_sink(alloc),
        good_sink(alloc),
    )
}

#[test]
fn lines_of_a_script_stand_where_they_fall_due(rt: HostRuntime) -> Result<(), Fail> {
    let alloc = rt.alloc();
    for (entries, status, report) in [
        (
            [
                INSTALL_COUNTS,
                TURN_0_10,
                LINE_0,
                BACK_0,
                DONE_0,
                TURN_0_10,
                LINE_1,
                TURN_0_10,
                LEAVE_0,
            ]
            .as_slice(),
            9,
            "hart 0 steps 30 blocks 30 limit\nplugin 1 set 1 reset\nsub 0 counts\ninit 1\nblock 10\ninsn 10\nplugin 1 set 2 live\nsub 0 hot\nblock 0x0000000000010000 runs 10 insns 10\n",
        ),
        // A Turn may go on behind the place at which a line falls due; the line stands behind it.
        (
            [
                INSTALL_COUNTS,
                TURN_0_10,
                LINE_0,
                BACK_0,
                DONE_0,
                TURN_0_20,
                LINE_1,
                LEAVE_0,
            ]
            .as_slice(),
            9,
            "hart 0 steps 30 blocks 30 limit\nplugin 1 set 1 reset\nsub 0 counts\ninit 1\nblock 10\ninsn 10\nplugin 1 set 2 live\nsub 0 hot\n",
        ),
        // A line is left out.
        (
            [
                INSTALL_COUNTS,
                TURN_0_10,
                LINE_0,
                BACK_0,
                DONE_0,
                TURN_0_20,
                LEAVE_0,
            ]
            .as_slice(),
            5,
            "tcg_host: journal: not a run of this image at entry 6\n",
        ),
        // A line stands before it falls due.
        (
            [INSTALL_COUNTS, TURN_0_10, LINE_0, LINE_1].as_slice(),
            5,
            "tcg_host: journal: not a run of this image at entry 3\n",
        ),
        // The plug-in isn't idle yet when line 1 falls due, so that the line is passed over.
        (
            [
                INSTALL_COUNTS,
                TURN_0_10,
                LINE_0,
                BACK_0,
                TURN_0_20,
                DONE_0,
                LEAVE_0,
            ]
            .as_slice(),
            9,
            "hart 0 steps 30 blocks 30 limit\nplugin 1 set 1 reset\nsub 0 counts\ninit 1\nblock 10\ninsn 10\n",
        ),
    ] {
        let call = scripted(&rt, alloc, &journal_of(alloc, entries)?)?;
        assert_eq!(rt;
            call.report.bytes(),
            report.as_bytes(),
            "the report {report}"
        );
        assert_eq!(rt; call.status, status, "the status of {report}");
        assert_eq!(rt; call.out.bytes().len(), 0, "the output of {report}");
    }
    Ok(())
}

#[test]
fn harts_stop_where_the_group_ends(rt: HostRuntime) -> Result<(), Fail> {
    let alloc = rt.alloc();
    let file = elf(alloc, CODE, &GROUP_0)?;
    let words = ["replay", "--harts", "2", "F", "J"];
    assert_replay(
        &rt,
        alloc,
        &words,
        &file,
        &journal_of(alloc, &[TURN_0_3, LEAVE_0, LEAVE_1])?,
        0,
        "hart 0 steps 3 blocks 1 group 0\nhart 1 steps 0 blocks 0 stopped\n",
    )?;
    assert_refused(
        &rt,
        alloc,
        &words,
        &file,
        &journal_of(alloc, &[TURN_0_3, TURN_1_1])?,
        5,
        "tcg_host: journal: not a run of this image at entry 1\n",
    )
}

#[test]
fn journals_that_are_not_whole_are_refused_at_their_places(rt: HostRuntime) -> Result<(), Fail> {
    let alloc = rt.alloc();
    let file = elf(alloc, CODE, &EXIT_0)?;
    let words = ["replay", "F", "J"];
    for (entries, line) in [
        (
            [LEAVE_0].as_slice(),
            "tcg_host: journal: not a run of this image at entry 0\n",
        ),
        (
            [TURN_0_4, LEAVE_0].as_slice(),
            "tcg_host: journal: not a run of this image at entry 0\n",
        ),
        (
            [TURN_0_3].as_slice(),
            "tcg_host: journal: not a run of this image at entry 1\n",
        ),
        (
            [TURN_0_3, DONE_0, LEAVE_0].as_slice(),
            "tcg_host: journal: not a run of this image at entry 1\n",
        ),
        (
            [TURN_0_3, LEAVE_0, LEAVE_0].as_slice(),
            "tcg_host: journal: not a run of this image at entry 2\n",
        ),
        (
            [INSTALL_NOTHING, TURN_0_3, LEAVE_0].as_slice(),
            "tcg_host: journal: not a run of this image at entry 0\n",
        ),
        (
            [].as_slice(),
            "tcg_host: journal: not a run of this image at entry 0\n",
        ),
    ] {
        assert_refused(
            &rt,
            alloc,
            &words,
            &file,
            &journal_of(alloc, entries)?,
            5,
            line,
        )?;
    }
    assert_replay(
        &rt,
        alloc,
        &words,
        &file,
        &journal_of(alloc, &[TURN_0_3, LEAVE_0])?,
        0,
        "hart 0 steps 3 blocks 1 exit 0\n",
    )
}

#[test]
fn journal_files_are_refused_by_their_first_broken_rule(rt: HostRuntime) -> Result<(), Fail> {
    let alloc = rt.alloc();
    let file = with_data(alloc, &RESERVED)?;
    let two = ["replay", "--harts", "2", "F", "J"];
    let mut longer = [0; 45];
    longer[..44].copy_from_slice(&BETWEEN);
    let mut bad = BETWEEN;
    bad[16] = 9;
    let mut headed = [0; 54];
    headed[..26].copy_from_slice(&HEADER);
    headed[26..].copy_from_slice(&BETWEEN[16..]);
    for (words, journal, line) in [
        (
            two.as_slice(),
            &BETWEEN[..43],
            "tcg_host: journal: too short at entry 5\n",
        ),
        (
            two.as_slice(),
            longer.as_slice(),
            "tcg_host: journal: 1 bytes too many\n",
        ),
        (
            two.as_slice(),
            bad.as_slice(),
            "tcg_host: journal: bad byte 9 at entry 0\n",
        ),
        // Two harts made it, from the first, with the default limit.
        (
            ["replay", "F", "J"].as_slice(),
            headed.as_slice(),
            "tcg_host: journal: made with harts 2 limit 1000000 start all\n",
        ),
        (
            ["replay", "--harts", "2", "--limit", "10", "F", "J"].as_slice(),
            headed.as_slice(),
            "tcg_host: journal: made with harts 2 limit 1000000 start all\n",
        ),
        (
            ["replay", "--harts", "2", "--start", "first", "F", "J"].as_slice(),
            headed.as_slice(),
            "tcg_host: journal: made with harts 2 limit 1000000 start all\n",
        ),
        // The words are judged first.
        (
            ["replay", "F", "J", "counts,kinds=foo"].as_slice(),
            headed.as_slice(),
            "tcg_host: plug-in 1: column 8: name\n",
        ),
    ] {
        assert_refused(&rt, alloc, words, &file, journal, 5, line)?;
    }
    assert_replay(
        &rt,
        alloc,
        &two,
        &file,
        &headed,
        1,
        "hart 0 steps 6 blocks 2 exit 1\nhart 1 steps 6 blocks 2 exit 0\n",
    )
}

#[test]
fn a_replay_names_the_input_that_it_could_not_read(rt: HostRuntime) -> Result<(), Fail> {
    let alloc = rt.alloc();
    let file = elf(alloc, CODE, &EXIT_0)?;
    let journal = journal_of(alloc, &[TURN_0_3, LEAVE_0])?;
    for (words, status, line) in [
        (
            ["replay", "none", "J"].as_slice(),
            3,
            "tcg_host: cannot read none\n",
        ),
        (
            ["replay", "F", "none"].as_slice(),
            3,
            "tcg_host: cannot read none\n",
        ),
        (
            ["replay", "F"].as_slice(),
            2,
            "usage: tcg_host run, replay, blocks, disas or self\n",
        ),
    ] {
        assert_refused(&rt, alloc, words, &file, &journal, status, line)?;
    }
    // The second read fails.
    let mut second = Vec::new(alloc);
    second.push(2)?;
    let mut files = MemFiles::new(alloc, second, Vec::new(alloc));
    let _ = files.add("F", &file);
    let _ = files.add("J", &journal);
    let unread = called(
        &rt,
        alloc,
        &["replay", "F", "J"],
        &mut files,
        good_sink(alloc),
        good_sink(alloc),
    )?;
    assert_eq!(rt;
        unread.report.bytes(),
        b"tcg_host: cannot read J\n".as_slice()
    );
    assert_eq!(rt; unread.status, 3);
    assert!(rt; !unread.has_run);
    Ok(())
}

#[test]
fn the_journal_of_a_run_is_replayed(rt: HostRuntime) -> Result<(), Fail> {
    let alloc = rt.alloc();
    for (run, replay, words) in [
        (
            [
                "run",
                "--harts",
                "2",
                "--journal",
                "J",
                "F",
                "mem",
                "counts",
            ]
            .as_slice(),
            ["replay", "--harts", "2", "F", "J", "mem", "counts"].as_slice(),
            RESERVED.as_slice(),
        ),
        (
            [
                "run",
                "--harts",
                "2",
                "--start",
                "first",
                "--journal",
                "J",
                "F",
                "exec",
            ]
            .as_slice(),
            [
                "replay", "--harts", "2", "--start", "first", "F", "J", "exec",
            ]
            .as_slice(),
            STARTER.as_slice(),
        ),
        (
            [
                "run",
                "--harts=3",
                "--limit=2000",
                "--journal=J",
                "F",
                "counts,kinds=insn,quota=5,ask=reset",
            ]
            .as_slice(),
            [
                "replay",
                "--harts=3",
                "--limit=2000",
                "F",
                "J",
                "counts,kinds=insn,quota=5,ask=reset",
            ]
            .as_slice(),
            LOOP.as_slice(),
        ),
    ] {
        let mut files = only_file(alloc, &with_data(alloc, words)?);
        let ran = called(
            &rt,
            alloc,
            run,
            &mut files,
            good_sink(alloc),
            good_sink(alloc),
        )?;
        assert!(rt; ran.has_run);
        let again = called(
            &rt,
            alloc,
            replay,
            &mut files,
            good_sink(alloc),
            good_sink(alloc),
        )?;
        assert_eq!(rt; again.report.bytes(), ran.report.bytes());
        assert_eq!(rt; again.out.bytes(), ran.out.bytes());
        assert_eq!(rt; again.status, ran.status);
        assert!(rt; again.has_run);
    }
    Ok(())
}
