//! What small runs of the memory's calls answer.

ghost use Rattle.std.specs.Prelude.{◌≡◌, ◌+◌, ◌^◌, ◌%◌, ◌&&◌, ◌<◌, ◌≤◌, false, length, IfOk};
ghost use Rattle.guest_memory.specs.Memory.{harts_of};

use flat_model::{Image, NoMemory, Region};
use guest_memory::{Denied, Memory};
use std::alloc::Global;
use std::test::Fail;

/// Where the stack of hart 0 begins and ends.
const STACK: u64 = 0x3F_FFFE_0000;

const END: u64 = 0x3F_FFFF_0000;

/// Where the second of two regions begins, right behind the first.
const SEAM: u64 = 0x10004;

/// Four zeros that may be read, and perhaps written.
fn zeros(alloc: Global, base: u32, w: bool) -> Result<Region, NoMemory>
    ensures { IfOk result (λ region. (region.base ≡ base) × (length region.bytes ≡ 4) × ((region.w && region.x) ≡ false)) }
{
    let bytes = Vec::from_array(alloc, [0; 4])?;
    Ok(Region {
        base: u64::from(base),
        bytes,
        r: true,
        w,
        x: false,
    })
}

/// The memory of two harts: two regions side by side, one that may not be written, and the stacks.
fn memory(alloc: Global) -> Result<Memory, NoMemory>
    ensures { IfOk result (λ memory. harts_of memory ≡ 2) }
{
    let mut regions = Vec::new(alloc);
    regions.push(zeros(alloc, 0x10000, true)?)?;
    regions.push(zeros(alloc, 0x10004, true)?)?;
    regions.push(zeros(alloc, 0x10008, false)?)?;
    let image = Image {
        regions,
        entry: 0x10000,
    };
    Memory::new(alloc, &image, 2)
}

/// A store, which leaves the number of harts.
fn write(memory: &mut Memory, hart: u8, addr: u64, shift: u8, value: u64) -> Result<(), Denied>
    requires hart { hart < harts_of memory.old }
    requires size { shift ≤ 3 }
    ensures { harts_of memory.new ≡ harts_of memory.old }
{
    memory.write(hart, addr, shift, value)
}

/// The store of an SC of four bytes, which leaves the number of harts.
fn conditional(memory: &mut Memory, hart: u8, addr: u64, value: u64) -> Result<bool, Denied>
    requires hart { hart < harts_of memory.old }
    requires aligned { addr % 2 ^ 2 ≡ 0 }
    ensures { harts_of memory.new ≡ harts_of memory.old }
{
    memory.store_conditional(hart, addr, 2, value)
}

#[test]
fn loads_of_the_opening_memory(rt: HostRuntime) -> Result<(), Fail> {
    let memory = memory(rt.alloc())?;
    assert_eq!(rt; memory.read(STACK, 3), Ok(0));
    assert_eq!(rt; memory.read(END - 8, 3), Ok(0));
    assert_eq!(rt; memory.read(END - 7, 3), Err(Denied));
    assert_eq!(rt; memory.read(STACK - 1, 0), Err(Denied));
    assert_eq!(rt; memory.read(u64::MAX, 1), Err(Denied));
    assert!(rt; memory.readable(STACK, 65_536));
    assert!(rt; !memory.readable(STACK, 65_537));
    Ok(())
}

#[test]
fn an_access_across_two_regions(rt: HostRuntime) -> Result<(), Fail> {
    let mut memory = memory(rt.alloc())?;
    assert_eq!(rt; write(&mut memory, 1, SEAM - 2, 2, 0x4433_2211), Ok(()));
    assert_eq!(rt; memory.read(SEAM - 2, 2), Ok(0x4433_2211));
    assert_eq!(rt; memory.read(SEAM - 4, 2), Ok(0x2211_0000));
    assert_eq!(rt; memory.read(SEAM, 2), Ok(0x4433));
    Ok(())
}

#[test]
fn a_store_that_is_denied_stores_no_byte(rt: HostRuntime) -> Result<(), Fail> {
    let mut memory = memory(rt.alloc())?;
    assert_eq!(rt; write(&mut memory, 0, SEAM + 2, 2, u64::MAX), Err(Denied));
    assert_eq!(rt; write(&mut memory, 0, SEAM - 5, 0, 1), Err(Denied));
    assert_eq!(rt; memory.read(SEAM, 3), Ok(0));
    Ok(())
}

#[test]
fn a_store_conditional_stores_once(rt: HostRuntime) -> Result<(), Fail> {
    let mut memory = memory(rt.alloc())?;
    memory.reserve(0, STACK + 4);
    assert_eq!(rt; conditional(&mut memory, 0, STACK + 4, 7), Ok(true));
    assert_eq!(rt; conditional(&mut memory, 0, STACK + 4, 9), Ok(false));
    assert_eq!(rt; memory.read(STACK, 3), Ok(7 << 32));
    Ok(())
}

#[test]
fn a_store_ends_the_reservations_of_other_harts(rt: HostRuntime) -> Result<(), Fail> {
    let mut memory = memory(rt.alloc())?;
    memory.reserve(0, STACK);
    memory.reserve(1, STACK);
    assert_eq!(rt; write(&mut memory, 1, STACK + 7, 0, 1), Ok(()));
    assert_eq!(rt; conditional(&mut memory, 0, STACK, 9), Ok(false));
    assert_eq!(rt; conditional(&mut memory, 1, STACK, 9), Ok(true));
    Ok(())
}

#[test]
fn bytes_of_a_stack_and_of_two_regions_are_appended(rt: HostRuntime) -> Result<(), Fail> {
    let mut memory = memory(rt.alloc())?;
    assert_eq!(rt; write(&mut memory, 0, STACK, 3, 0x6F_6C_6C_65_68), Ok(()));
    assert_eq!(rt; write(&mut memory, 0, SEAM - 1, 1, 0x6B_6F), Ok(()));
    let mut out = Vec::with_capacity(rt.alloc(), 7)?;
    if memory.readable(STACK, 5) && memory.readable(SEAM - 1, 2) {
        memory.append_to(STACK, 5, &mut out);
        memory.append_to(SEAM - 1, 2, &mut out);
    }
    assert_eq!(rt; out.as_slice(), b"hellook".as_slice());
    Ok(())
}
