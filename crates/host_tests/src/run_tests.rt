use small_files::{CODE, ECALL, EXIT_0, EXIT_3, NOP, elf, nops_and_exit, with_data};
use std::alloc::Global;
use std::process::Abort;
use std::sync::Wait;
use std::test::Fail;
use std::thread::Threads;
use test_calls::asked;

/// Asserts what `run F` answers and reports for a file that puts nothing out.
fn assert_run<R: Abort + Threads + Wait + Sync>(
    rt: &R,
    alloc: Global,
    file: &[u8],
    status: u8,
    line: &str,
) -> Result<(), Fail> {
    let run = asked(rt, alloc, &["run", "F"], file)?;
    assert_eq!(rt; run.report.bytes(), line.as_bytes(), "the line {line}");
    assert_eq!(rt; run.status, status, "the status of {line}");
    assert_eq!(rt; run.out.bytes().len(), 0, "the output of {line}");
    Ok(())
}

#[test]
fn exits_faults_and_the_limit_are_reported(rt: HostRuntime) -> Result<(), Fail> {
    let alloc = rt.alloc();
    for (words, status, line) in [
        (EXIT_0.as_slice(), 0, "hart 0 steps 3 blocks 1 exit 0\n"),
        (EXIT_3.as_slice(), 1, "hart 0 steps 3 blocks 1 exit 3\n"),
        // The service `exit_group`, with 3 and with 0.
        (
            [0x05E0_0893, 0x0030_0513, ECALL].as_slice(),
            1,
            "hart 0 steps 3 blocks 1 group 3\n",
        ),
        (
            [0x05E0_0893, 0x0000_0513, ECALL].as_slice(),
            0,
            "hart 0 steps 3 blocks 1 group 0\n",
        ),
        // EBREAK, a word that is no instruction, a jump by 6, and nothing behind a NOP.
        (
            [0x0010_0073].as_slice(),
            8,
            "hart 0 steps 1 blocks 1 fault break at 0x0000000000010000\n",
        ),
        (
            [0x0000_0000].as_slice(),
            8,
            "hart 0 steps 1 blocks 1 fault illegal at 0x0000000000010000\n",
        ),
        (
            [0x0060_006F].as_slice(),
            8,
            "hart 0 steps 1 blocks 1 fault jump at 0x0000000000010000\n",
        ),
        (
            [NOP].as_slice(),
            8,
            "hart 0 steps 2 blocks 1 fault fetch at 0x0000000000010004\n",
        ),
        // JAL x0, 0 goes round until the limit.
        (
            [0x0000_006F].as_slice(),
            9,
            "hart 0 steps 1000000 blocks 1000000 limit\n",
        ),
    ] {
        assert_run(&rt, alloc, &elf(alloc, CODE, words)?, status, line)?;
    }
    Ok(())
}

#[test]
fn blocks_end_at_512_words_pages_branches_and_jumps(rt: HostRuntime) -> Result<(), Fail> {
    let alloc = rt.alloc();
    let long = nops_and_exit(alloc, 513)?;
    let across = nops_and_exit(alloc, 2)?;
    for (address, words, status, line) in [
        (
            CODE,
            long.as_slice(),
            0,
            "hart 0 steps 516 blocks 2 exit 0\n",
        ),
        (
            0x10FF8,
            across.as_slice(),
            0,
            "hart 0 steps 5 blocks 2 exit 0\n",
        ),
        // JALR clears bit 0 of its target, 0x1000D.
        (
            CODE,
            [
                0x0001_02B7,
                0x00D2_8067,
                0x0010_0073,
                0x05D0_0893,
                0x0000_0513,
                ECALL,
            ]
            .as_slice(),
            0,
            "hart 0 steps 5 blocks 2 exit 0\n",
        ),
        // BEQ x0, x0, 6 is taken, and BNE x0, x0, 6 is not.
        (
            CODE,
            [0x0000_0363].as_slice(),
            8,
            "hart 0 steps 1 blocks 1 fault jump at 0x0000000000010000\n",
        ),
        (
            CODE,
            [0x0000_1363, 0x05D0_0893, 0x0000_0513, ECALL].as_slice(),
            0,
            "hart 0 steps 4 blocks 2 exit 0\n",
        ),
    ] {
        assert_run(&rt, alloc, &elf(alloc, address, words)?, status, line)?;
    }
    Ok(())
}

#[test]
fn misaligned_atomics_and_calls_of_services_are_reported(rt: HostRuntime) -> Result<(), Fail> {
    let alloc = rt.alloc();
    // What a service answers is the exit code.
    for (words, status, line) in [
        // AMOADD.W at 0x20002.
        (
            [0x0002_02B7, 0x0022_8293, 0x0072_A32F].as_slice(),
            8,
            "hart 0 steps 3 blocks 1 fault atomic at 0x0000000000010008\n",
        ),
        // `write` to the file 7.
        (
            [0x0400_0893, 0x0070_0513, ECALL, 0x05D0_0893, ECALL].as_slice(),
            1,
            "hart 0 steps 5 blocks 2 exit -9\n",
        ),
        // Of 2 bytes at 0x20FFF.
        (
            [
                0x0400_0893,
                0x0010_0513,
                0x0002_15B7,
                0xFFF5_8593,
                0x0020_0613,
                ECALL,
                0x05D0_0893,
                ECALL,
            ]
            .as_slice(),
            1,
            "hart 0 steps 8 blocks 2 exit -14\n",
        ),
        // Of no byte at 0.
        (
            [
                0x0400_0893,
                0x0020_0513,
                0x0000_0593,
                0x0000_0613,
                ECALL,
                0x05D0_0893,
                ECALL,
            ]
            .as_slice(),
            0,
            "hart 0 steps 7 blocks 2 exit 0\n",
        ),
        // The service 1000, which is none.
        (
            [0x3E80_0893, ECALL, 0x05D0_0893, ECALL].as_slice(),
            1,
            "hart 0 steps 4 blocks 2 exit -38\n",
        ),
    ] {
        assert_run(&rt, alloc, &with_data(alloc, words)?, status, line)?;
    }
    Ok(())
}
