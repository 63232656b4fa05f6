use flat_model::Mode;
use journal_file::{RunHead, read};
use small_files::{CODE, EXIT_0, EXIT_3, elf};
use std::test::Fail;
use test_calls::{asked, called, called_with, good_sink, only_file};

#[test]
fn each_hart_has_its_line(rt: HostRuntime) -> Result<(), Fail> {
    let alloc = rt.alloc();
    for (words, code, status, report) in [
        (
            ["run", "--harts", "3", "F"].as_slice(),
            EXIT_0.as_slice(),
            0,
            "hart 0 steps 3 blocks 1 exit 0\nhart 1 steps 3 blocks 1 exit 0\nhart 2 steps 3 blocks 1 exit 0\n",
        ),
        (
            ["run", "--harts=2", "F"].as_slice(),
            EXIT_3.as_slice(),
            1,
            "hart 0 steps 3 blocks 1 exit 3\nhart 1 steps 3 blocks 1 exit 3\n",
        ),
        // Nobody starts hart 1.
        (
            ["run", "--harts", "2", "--start", "first", "F"].as_slice(),
            EXIT_0.as_slice(),
            0,
            "hart 0 steps 3 blocks 1 exit 0\nhart 1 steps 0 blocks 0 unstarted\n",
        ),
        // Each hart has the limit for itself.
        (
            ["run", "F", "--limit", "1000", "--harts", "2"].as_slice(),
            [0x0000_006F].as_slice(),
            9,
            "hart 0 steps 1000 blocks 1000 limit\nhart 1 steps 1000 blocks 1000 limit\n",
        ),
    ] {
        let run = asked(&rt, alloc, words, &elf(alloc, CODE, code)?)?;
        assert_eq!(rt;
            run.report.bytes(),
            report.as_bytes(),
            "the report {report}"
        );
        assert_eq!(rt; run.status, status);
        assert!(rt; run.has_run);
    }
    Ok(())
}

#[test]
fn the_journal_of_a_run_is_written(rt: HostRuntime) -> Result<(), Fail> {
    let alloc = rt.alloc();
    let mut files = only_file(alloc, &elf(alloc, CODE, &EXIT_0)?);
    let words = ["run", "--harts", "2", "--limit=7", "--journal", "J", "F"];
    let run = called(
        &rt,
        alloc,
        &words,
        &mut files,
        good_sink(alloc),
        good_sink(alloc),
    )?;
    assert_eq!(rt; run.status, 0);
    let bytes = files.contents("J").ok_or("no journal was written")?;
    let file = read(alloc, bytes).ok().ok_or("no journal file")?;
    assert_eq!(rt; file.journal.total(), 6);
    assert!(rt; file.head == RunHead::new(2, Mode::All, 7));
    Ok(())
}
