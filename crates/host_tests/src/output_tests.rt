use small_files::{ECALL, with_data};
use std::test::Fail;
use test_calls::{asked, called, failing_sink, good_sink, only_file};

// Writes 4,096 bytes twice and exits with 0.
const TWO_PIECES: [u32; 10] = [
    0x0002_05B7,
    0x0000_1637,
    0x0010_0513,
    0x0400_0893,
    ECALL,
    0x0010_0513,
    ECALL,
    0x0000_0513,
    0x05D0_0893,
    ECALL,
];

// Writes 4,096 bytes until that is refused, and exits with the answer.
const ALL_PIECES: [u32; 8] = [
    0x0002_05B7,
    0x0000_1637,
    0x0010_0513,
    0x0400_0893,
    ECALL,
    0xFEC5_0AE3,
    0x05D0_0893,
    ECALL,
];

// Whether these are so many zeros.
fn are_zeros(bytes: &[u8], count: usize) -> bool {
    bytes.len() == count && bytes.iter().all(|byte| *byte == 0)
}

// Writes 5,000 bytes from the base of its stack, of which one call takes 4,096, and exits with the answer.
const FROM_STACK: [u32; 9] = [
    0x0400_0893,
    0x0010_0513,
    0x0001_05B7,
    0x40B1_05B3,
    0x0000_1637,
    0x3886_0613,
    ECALL,
    0x05D0_0893,
    ECALL,
];

#[test]
fn what_the_guest_writes_is_put_out(rt: HostRuntime) -> Result<(), Fail> {
    let alloc = rt.alloc();
    for (words, status, line, pieces) in [
        (
            TWO_PIECES.as_slice(),
            0,
            "hart 0 steps 10 blocks 3 exit 0\n",
            [4096, 4096].as_slice(),
        ),
        (
            FROM_STACK.as_slice(),
            1,
            "hart 0 steps 9 blocks 2 exit 4096\n",
            [4096].as_slice(),
        ),
    ] {
        let run = asked(&rt, alloc, &["run", "F"], &with_data(alloc, words)?)?;
        assert_eq!(rt; run.status, status);
        assert_eq!(rt; run.report.bytes(), line.as_bytes());
        assert_eq!(rt; run.out.piece_lengths(), pieces);
        assert!(rt; run.out.bytes().iter().all(|byte| *byte == 0));
    }
    Ok(())
}

#[test]
fn output_that_is_cut_short_leaves_no_line(rt: HostRuntime) -> Result<(), Fail> {
    let alloc = rt.alloc();
    let mut files = only_file(alloc, &with_data(alloc, &TWO_PIECES)?);
    let out = failing_sink(alloc, 2)?;
    let run = called(&rt, alloc, &["run", "F"], &mut files, out, good_sink(alloc))?;
    assert_eq!(rt; run.status, 6);
    assert!(rt; are_zeros(run.out.bytes(), 4096));
    assert_eq!(rt; run.report.bytes(), b"".as_slice());
    Ok(())
}

#[test]
fn a_write_past_the_limit_of_the_output_is_refused(rt: HostRuntime) -> Result<(), Fail> {
    let alloc = rt.alloc();
    let run = asked(&rt, alloc, &["run", "F"], &with_data(alloc, &ALL_PIECES)?)?;
    assert_eq!(rt; run.status, 1);
    assert_eq!(rt;
        run.report.bytes(),
        b"hart 0 steps 16392 blocks 8195 exit -28\n".as_slice()
    );
    assert!(rt; are_zeros(run.out.bytes(), 16_777_216));
    Ok(())
}
