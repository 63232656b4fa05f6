//! Guests, and their steps up to the end of a block.

ghost use Rattle.std.specs.Prelude.{◌≡◌, ◌<◌, true, length};
ghost use Rattle.guest_memory.specs.Memory.{harts_of};
ghost use Rattle.rv_exec.specs.Sharing.{IsMemoryOf};

use block_finder::length;
use elf_image::load;
use flat_model::limits::LIMIT_DEFAULT;
use flat_model::{Image, NoMemory, Refused};
use guest_memory::Memory;
use rv_exec::{Hart, RawLog, Services, shared_step};
use std::alloc::{AllocError, Global};
use std::test::Fail;

/// Three rounds of eight words at 0x10008, with a load, two stores and an AMO each; then a call of `write` with the four
/// bytes at 0x20000, and an exit with 0. It makes 34 steps in 5 blocks.
pub const ROUNDS: [u32; 18] = [
    0x0002_02B7, // lui x5, 0x20
    0x0030_0313, // addi x6, x0, 3
    0x0002_B383, // ld x7, 0(x5)
    0x0063_83B3, // add x7, x7, x6
    0x0072_B023, // sd x7, 0(x5)
    0x0062_BE2F, // amoadd.d x28, x6, (x5)
    0x0263_0E33, // mul x28, x6, x6
    0x01C2_A423, // sw x28, 8(x5)
    0xFFF3_0313, // addi x6, x6, -1
    0xFE03_12E3, // bne x6, x0, -28
    0x0010_0513, // addi x10, x0, 1
    0x0002_8593, // addi x11, x5, 0
    0x0040_0613, // addi x12, x0, 4
    0x0400_0893, // addi x17, x0, 64
    0x0000_0073, // ecall
    0x0000_0513, // addi x10, x0, 0
    0x05D0_0893, // addi x17, x0, 93
    0x0000_0073, // ecall
];

/// Stores 8 bytes at 0x20FF0, at 0x20FF8 and, where the data ends, at 0x21000. The ninth step, in the third block, faults.
pub const PAST_THE_DATA: [u32; 5] = [
    0x0002_12B7, // lui x5, 0x21
    0xFF02_8293, // addi x5, x5, -16
    0x0052_B023, // sd x5, 0(x5)
    0x0082_8293, // addi x5, x5, 8
    0xFF9F_F06F, // jal x0, -8
];

/// Jumps to 0x30000, where no word is.
pub const PAST_THE_CODE: [u32; 2] = [
    0x0003_02B7, // lui x5, 0x30
    0x0002_8067, // jalr x0, 0(x5)
];

/// A static RV64 ELF file: the words as code at 0x10000, the entry, and 4,096 zeros at 0x20000 that may be read and written.
fn file_of(alloc: Global, words: &[u32]) -> Result<Vec<u8>, AllocError> {
    let size = (words.len() as u64).wrapping_mul(4);
    let mut file = Vec::new(alloc);
    file.extend_from_slice(b"\x7fELF\x02\x01\x01\0\0\0\0\0\0\0\0\0\x02\0\xf3\0\0\0\0\0")?;
    file.extend_from_slice(b"\0\0\x01\0\0\0\0\0\x40\0\0\0\0\0\0\0\0\0\0\0\0\0\0\0")?;
    file.extend_from_slice(b"\0\0\0\0\0\0\x38\0\x02\0\0\0\0\0\0\0")?;
    put_header(&mut file, 5, [176, 0x10000, 0, size, size, 0])?;
    put_header(&mut file, 6, [176, 0x20000, 0, 0, 4096, 0])?;
    for word in words {
        file.extend_from_slice(&word.to_le_bytes())?;
    }
    Ok(file)
}

// Puts a program header of a loadable segment.
fn put_header(file: &mut Vec<u8>, flags: u32, fields: [u64; 6]) -> Result<(), AllocError> {
    file.extend_from_slice(b"\x01\0\0\0")?;
    file.extend_from_slice(&flags.to_le_bytes())?;
    for field in fields {
        file.extend_from_slice(&field.to_le_bytes())?;
    }
    Ok(())
}

/// The image of such a file.
pub fn image_of(alloc: Global, words: &[u32]) -> Result<Image, Fail> {
    match load(alloc, &file_of(alloc, words)?) {
        Ok(image) => Ok(image),
        Err(Refused::Because(_)) => Err("a refused file".into()),
        Err(Refused::NoMemory) => Err("no memory".into()),
    }
}

// One step of hart 0, where it runs and the log has room.
fn step(
    hart: &mut Hart,
    image: &Image,
    memory: &mut Memory,
    services: &mut Services,
    raw: &mut RawLog,
) -> Result<(), NoMemory>
    requires harts { harts_of memory.old ≡ 1 }
    requires memory { IsMemoryOf image.now memory.old }
    requires starts { length services.old.starts ≡ 1 }
    requires kept { raw.old.kept ≡ true }
    ensures harts { harts_of memory.new ≡ 1 }
    ensures memory { IsMemoryOf image.now memory.new }
    ensures starts { length services.new.starts ≡ 1 }
    ensures kept { raw.new.kept ≡ true }
{
    services.make_room()?;
    if hart.parked
        || hart.ending.is_some()
        || services.group.is_some()
        || hart.steps >= LIMIT_DEFAULT
        || raw.room() < 6
    {
        return Ok(());
    }
    let n = length(image, hart.pc);
    shared_step(0, hart, image, memory, services, LIMIT_DEFAULT, n, raw);
    Ok(())
}

/// The steps of hart 0 up to the end of its block or its own, with their events alone in the log.
pub fn step_block(
    hart: &mut Hart,
    image: &Image,
    memory: &mut Memory,
    services: &mut Services,
    raw: &mut RawLog,
) -> Result<(), NoMemory>
    requires harts { harts_of memory.old ≡ 1 }
    requires memory { IsMemoryOf image.now memory.old }
    requires starts { length services.old.starts ≡ 1 }
    requires kept { raw.old.kept ≡ true }
    ensures harts { harts_of memory.new ≡ 1 }
    ensures memory { IsMemoryOf image.now memory.new }
    ensures starts { length services.new.starts ≡ 1 }
    ensures kept { raw.new.kept ≡ true }
{
    raw.clear();
    for _ in 0..512 {
        step(hart, image, memory, services, raw)?;
        if hart.since == 0 || hart.ending.is_some() {
            return Ok(());
        }
    }
    Ok(())
}
