use crate::meeters::{Meeting, meeters, refusers};
use small_files::{CODE, EXIT_0, elf};
use std::sync::Arc;
use std::test::Fail;
use test_calls::{called_with, good_sink, only_file};

#[test]
fn boxes_of_two_harts_are_called_at_the_same_time(rt: HostRuntime) -> Result<(), Fail> {
    let alloc = rt.alloc();
    let mut files = only_file(alloc, &elf(alloc, CODE, &EXIT_0)?);
    let meeting = Arc::new(alloc, Meeting::new())?;
    let ran = called_with(
        &rt,
        alloc,
        &["run", "--harts", "2", "F", "exec"],
        &mut files,
        good_sink(alloc),
        good_sink(alloc),
        meeters(alloc, &meeting)?,
    )?;
    assert_eq!(rt; ran.status, 0);
    assert_eq!(rt; meeting.met(), 2);
    Ok(())
}

#[test]
fn a_box_without_memory_ends_the_run(rt: HostRuntime) -> Result<(), Fail> {
    let alloc = rt.alloc();
    let mut files = only_file(alloc, &elf(alloc, CODE, &EXIT_0)?);
    let ran = called_with(
        &rt,
        alloc,
        &["run", "--harts=2", "--journal", "J", "F", "exec"],
        &mut files,
        good_sink(alloc),
        good_sink(alloc),
        refusers(alloc, 3)?,
    )?;
    assert_eq!(rt; ran.status, 7);
    assert_eq!(rt; ran.report.bytes(), b"tcg_host: out of memory\n".as_slice());
    assert!(rt; !ran.has_run);
    assert!(rt; files.contents("J").is_none());
    Ok(())
}
