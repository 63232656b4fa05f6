//! The little-endian numbers of a file.

ghost use Rattle.std.specs.Prelude.{◌≡◌, ◌+◌, ◌≤◌, ◌<◌, length};
ghost use Rattle.flat_model.specs.Fields.{flag};
ghost use Rattle.elf_image.specs.Fields.{u16_at, u32_at, u64_at};

use byteorder::{ByteOrder, LittleEndian};

/// The number in the 2 bytes from `offset` on.
pub(crate) fn u16_at(file: &[u8], offset: usize) -> u16
    requires { offset + 2 ≤ length file.now }
    ensures { result ≡ u16_at file.now offset }
{
    let (_, bytes) = file.split_at(offset);
    LittleEndian::read_u16(bytes)
}

/// The number in the 4 bytes from `offset` on.
pub(crate) fn u32_at(file: &[u8], offset: usize) -> u32
    requires { offset + 4 ≤ length file.now }
    ensures { result ≡ u32_at file.now offset }
{
    let (_, bytes) = file.split_at(offset);
    LittleEndian::read_u32(bytes)
}

/// The number in the 8 bytes from `offset` on.
pub(crate) fn u64_at(file: &[u8], offset: usize) -> u64
    requires { offset + 8 ≤ length file.now }
    ensures { result ≡ u64_at file.now offset }
{
    let (_, bytes) = file.split_at(offset);
    LittleEndian::read_u64(bytes)
}

/// Whether a bit is set.
pub(crate) fn flag(flags: u32, bit: u32) -> bool
    requires { bit < 32 }
    ensures { result ≡ flag flags bit }
{
    (flags >> bit) % 2 == 1
}
