use small_files::{CODE, EXIT_0, all_words, elf, file_of, in_four_segments, nops_and_exit};
use std::test::Fail;
use test_calls::{called, failing_sink, good_sink, only_file};

#[test]
fn code_is_listed_by_words_and_by_blocks(rt: HostRuntime) -> Result<(), Fail> {
    let alloc = rt.alloc();
    let exit = elf(alloc, CODE, &EXIT_0)?;
    let across = elf(alloc, 0x10FF8, &nops_and_exit(alloc, 2)?)?;
    let scattered = in_four_segments(alloc, &EXIT_0)?;
    let adjoining = file_of(
        alloc,
        CODE,
        &[
            all_words(5, CODE, &EXIT_0[..2]),
            all_words(5, CODE + 8, &EXIT_0[2..]),
        ],
        &EXIT_0,
    )?;
    for (verb, file, want) in [
        (
            "disas",
            exit.as_slice(),
            "0000000000010000 05d00893 addi x17, x0, 93\n0000000000010004 00000513 addi x10, x0, 0\n0000000000010008 00000073 ecall\n",
        ),
        (
            "blocks",
            across.as_slice(),
            "0000000000010ff8 2\n0000000000011000 3\n",
        ),
        (
            "blocks",
            scattered.as_slice(),
            "0000000000010000 3\n0000000000030000 3\n",
        ),
        // A region's list goes on into the next region, which has its own list.
        (
            "blocks",
            adjoining.as_slice(),
            "0000000000010000 3\n0000000000010008 1\n",
        ),
    ] {
        let mut files = only_file(alloc, file);
        let call = called(
            &rt,
            alloc,
            &[verb, "F"],
            &mut files,
            good_sink(alloc),
            good_sink(alloc),
        )?;
        assert_eq!(rt; call.out.bytes(), want.as_bytes(), "the lines {want}");
        assert_eq!(rt; call.report.bytes(), b"".as_slice());
        assert_eq!(rt; call.status, 0);
        assert!(rt; !call.has_run);
    }
    Ok(())
}

#[test]
fn a_listing_that_is_not_put_out_is_a_fault(rt: HostRuntime) -> Result<(), Fail> {
    let alloc = rt.alloc();
    let mut files = only_file(alloc, &elf(alloc, CODE, &EXIT_0)?);
    for verb in ["disas", "blocks"] {
        let out = failing_sink(alloc, 1)?;
        let call = called(&rt, alloc, &[verb, "F"], &mut files, out, good_sink(alloc))?;
        assert_eq!(rt; call.status, 6);
        assert_eq!(rt; call.out.bytes(), b"".as_slice());
        assert_eq!(rt; call.report.bytes(), b"".as_slice());
    }
    Ok(())
}
