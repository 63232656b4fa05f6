//! Runs from the start of small images.

ghost use Rattle.std.specs.Prelude.{◌≤◌, length};

use block_finder::length;
use flat_model::{Ending, FaultKind, Image, Mode, NoMemory, Region};
use private_runs::private_run;
use rv_exec::{Hart, RawLog};
use std::alloc::Global;
use std::test::Fail;

/// Where the code is.
const CODE: u64 = 0x10000;

/// `addi x0, x0, 0`.
const NOP: u32 = 0x0000_0013;

/// `ecall`.
const ECALL: u32 = 0x0000_0073;

/// Three words of code.
fn code(alloc: Global, words: &[u32; 3]) -> Result<Image, NoMemory> {
    let mut bytes = Vec::new(alloc);
    for word in words {
        bytes.extend_from_slice(&word.to_le_bytes())?;
    }
    let mut regions = Vec::new(alloc);
    regions.push(Region {
        base: CODE,
        bytes,
        r: true,
        w: false,
        x: true,
    })?;
    Ok(Image {
        regions,
        entry: CODE,
    })
}

/// A hart behind a run: how many steps the run had, and how many events.
#[derive(Drop)]
struct Ran {
    made: u32,
    told: usize,
    hart: Hart,
}

/// A run from the first step.
fn run(alloc: Global, words: &[u32; 3], limit: u64, most: u32) -> Result<Ran, Fail> {
    if limit == 0 || most > 512 {
        return Err("out of range".into());
    }
    let image = code(alloc, words)?;
    let mut raw = RawLog::new(alloc)?;
    let mut hart = Hart::first(&image, 0, 1, Mode::All);
    let n = length(&image, hart.pc);
    let made = private_run(0, &mut hart, &image, limit, n, most, &mut raw);
    let told = raw.events().len();
    Ok(Ran { made, told, hart })
}

#[test]
fn a_run_stops_where_it_has_to(rt: HostRuntime) -> Result<(), Fail> {
    let alloc = rt.alloc();
    // The words, limit and most; the steps, the events, the pc behind them and the ending.
    for (words, limit, most, made, told, pc, ending) in [
        // Up to ECALL, and less far.
        (
            [0x05D0_0893, 0x0000_0513, ECALL],
            600,
            512,
            2,
            4,
            0x10008,
            None,
        ),
        (
            [0x05D0_0893, 0x0000_0513, ECALL],
            600,
            1,
            1,
            3,
            0x10004,
            None,
        ),
        ([0x05D0_0893, 0x0000_0513, ECALL], 600, 0, 0, 0, CODE, None),
        // A jump to itself and one to the third word, where blocks start.
        ([0x0000_006F, NOP, NOP], 600, 512, 1, 3, CODE, None),
        ([NOP, 0x0040_006F, NOP], 600, 512, 2, 4, 0x10008, None),
        // LD x6, 0(x5).
        ([0x0002_B303, NOP, NOP], 600, 512, 0, 0, CODE, None),
        // An illegal word, and the absent one behind the last.
        (
            [NOP, 0, NOP],
            600,
            512,
            2,
            5,
            0x10004,
            Some(FaultKind::Illegal),
        ),
        (
            [NOP, NOP, NOP],
            600,
            512,
            4,
            6,
            0x1000C,
            Some(FaultKind::Fetch),
        ),
    ] {
        let ran = run(alloc, &words, limit, most)?;
        assert_eq!(rt; (ran.made, ran.told, ran.hart.pc), (made, told, pc));
        assert_eq!(rt; ran.hart.steps, u64::from(made));
        assert_eq!(rt;
            ran.hart.ending,
            ending.map(|kind| Ending::Fault { kind, pc })
        );
    }
    Ok(())
}

#[test]
fn a_run_ends_with_the_step_of_the_limit(rt: HostRuntime) -> Result<(), Fail> {
    let ran = run(rt.alloc(), &[NOP, NOP, ECALL], 2, 512)?;
    assert_eq!(rt; (ran.made, ran.told, ran.hart.pc), (2, 5, 0x10008));
    assert_eq!(rt; ran.hart.ending, Some(Ending::Limit));
    Ok(())
}
