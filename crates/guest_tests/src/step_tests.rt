use crate::guests::{after, alone, image_of};
use flat_model::{Ending, Mode};
use small_files::{CODE, ECALL, NOP, elf, with_data};
use std::test::Fail;

// LR and SC of hart 0, which exits with what the SC gives; hart 1 stores a byte beside and exits with 0.
const RESERVING: [u32; 10] = [
    0x0002_02B7,
    0x0005_1A63,
    0x1002_B32F,
    0x1862_B52F,
    0x05D0_0893,
    ECALL,
    0x0052_80A3,
    0x0000_0513,
    0x05D0_0893,
    ECALL,
];

#[test]
fn a_store_of_another_hart_ends_a_reservation(rt: HostRuntime) -> Result<(), Fail> {
    let alloc = rt.alloc();
    let image = image_of(alloc, &with_data(alloc, &RESERVING)?)?;
    // The steps that the other hart makes between the LR and the SC, and the first one's exit code.
    for (between, code) in [(3, 1), (0, 0)] {
        let turns = [(0, 3), (1, between), (0, 3), (1, 6)];
        let pair = after(alloc, &image, 2, Mode::All, &turns)?;
        assert_eq!(rt; pair.first.steps, 6);
        assert_eq!(rt; pair.first.ending, Some(Ending::Exited(code)));
        assert_eq!(rt; pair.second.steps, 6);
        assert_eq!(rt; pair.second.ending, Some(Ending::Exited(0)));
    }
    Ok(())
}

// Starts hart 1 behind the first exit with the argument 7, and exits with the answer; a hart that begins there exits with
// its argument.
const STARTING: [u32; 11] = [
    0x0010_0513,
    0x0001_05B7,
    0x0205_8593,
    0x0070_0613,
    0x0000_18B7,
    ECALL,
    0x05D0_0893,
    ECALL,
    0x0006_0513,
    0x05D0_0893,
    ECALL,
];

// The first and the third word of that where the hart to be started is number 0 or 2, or its place is no multiple of 4.
const OF_HART_1: [u32; 2] = [0x0010_0513, 0x0205_8593];

const OF_HART_0: [u32; 2] = [0x0000_0513, 0x0205_8593];

const OF_HART_2: [u32; 2] = [0x0020_0513, 0x0205_8593];

const OFF_BY_TWO: [u32; 2] = [0x0010_0513, 0x0225_8593];

#[test]
fn a_parked_hart_begins_once_by_the_start_that_it_is_given(rt: HostRuntime) -> Result<(), Fail> {
    let alloc = rt.alloc();
    // The words, harts and mode; the first hart's exit code; the second one's steps and ending; the harts with a start.
    for (words, harts, mode, code, steps, ending, given) in [
        (OF_HART_1, 2, Mode::First, 0, 3, Some(Ending::Exited(7)), 2),
        (OF_HART_1, 3, Mode::First, 0, 3, Some(Ending::Exited(7)), 2),
        (OF_HART_1, 1, Mode::First, -22, 0, None, 1),
        (
            OF_HART_1,
            2,
            Mode::All,
            -16,
            8,
            Some(Ending::Exited(-16)),
            2,
        ),
        (OF_HART_0, 2, Mode::First, -16, 0, None, 1),
        (OF_HART_2, 2, Mode::First, -22, 0, None, 1),
        (OFF_BY_TWO, 2, Mode::First, -22, 0, None, 1),
    ] {
        let mut program = STARTING;
        program[0] = words[0];
        program[2] = words[1];
        let image = image_of(alloc, &elf(alloc, CODE, &program)?)?;
        let pair = after(alloc, &image, harts, mode, &[(0, 8), (1, 8)])?;
        assert_eq!(rt; pair.first.ending, Some(Ending::Exited(code)));
        assert_eq!(rt; (pair.first.steps, pair.first.blocks), (8, 2));
        assert_eq!(rt; (pair.second.steps, pair.given), (steps, given));
        assert_eq!(rt; pair.second.ending, ending);
    }
    Ok(())
}

#[test]
fn a_hart_goes_alone_up_to_its_limit_or_a_shared_step(rt: HostRuntime) -> Result<(), Fail> {
    let alloc = rt.alloc();
    // JAL x0, 0 goes round; LD x6, 0(x5) behind a NOP is not made.
    for (words, pc, steps, ending) in [
        ([0x0000_006F, NOP], CODE, 1000, Some(Ending::Limit)),
        ([NOP, 0x0002_B303], 0x10004, 1, None),
    ] {
        let image = image_of(alloc, &elf(alloc, CODE, &words)?)?;
        let hart = alone(alloc, &image, 1000)?;
        assert_eq!(rt; (hart.pc, hart.steps), (pc, steps));
        assert_eq!(rt; hart.ending, ending);
    }
    Ok(())
}
