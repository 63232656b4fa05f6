//! Small ELF files of instruction words.

ghost use Rattle.std.specs.Prelude.{◌≤◌, length};

use std::alloc::{AllocError, Global};

/// `addi x0, x0, 0`.
pub const NOP: u32 = 0x0000_0013;

/// `ecall`.
pub const ECALL: u32 = 0x0000_0073;

/// Three words that exit with 0.
pub const EXIT_0: [u32; 3] = [0x05D0_0893, 0x0000_0513, ECALL];

/// Three words that exit with 3.
pub const EXIT_3: [u32; 3] = [0x05D0_0893, 0x0030_0513, ECALL];

/// Where the code of most files is.
pub const CODE: u64 = 0x10000;

/// A loadable segment, whose bytes in the file are the words.
#[derive(Clone, Copy)]
pub struct Segment {
    /// The sum of 4 where it may be read, 2 where it may be written and 1 where it is code.
    pub flags: u32,
    /// The address of its first byte.
    pub address: u64,
    /// Its bytes in the file.
    pub in_file: u64,
    /// Its bytes in memory.
    pub in_memory: u64,
}

/// 4,096 zeros at 0x20000, which may be read and written.
pub const DATA: Segment = Segment {
    flags: 6,
    address: 0x20000,
    in_file: 0,
    in_memory: 4096,
};

/// All the words, at `address`, with these permissions.
pub fn all_words(flags: u32, address: u64, words: &[u32]) -> Segment {
    let size = (words.len() as u64).wrapping_mul(4);
    Segment {
        flags,
        address,
        in_file: size,
        in_memory: size,
    }
}

/// A static RV64 ELF file with the segments, which starts at `entry` and whose words stand behind its headers.
pub fn file_of(
    alloc: Global,
    entry: u64,
    segments: &[Segment],
    words: &[u32],
) -> Result<Vec<u8>, AllocError>
    requires few { length segments.now ≤ 4 }
{
    let count = segments.len() as u16;
    let offset = 64 + 56 * u64::from(count);
    let mut file = Vec::new(alloc);
    file.extend_from_slice(b"\x7fELF\x02\x01\x01\0\0\0\0\0\0\0\0\0\x02\0\xf3\0\0\0\0\0")?;
    file.extend_from_slice(&entry.to_le_bytes())?;
    file.extend_from_slice(b"\x40\0\0\0\0\0\0\0\0\0\0\0\0\0\0\0\0\0\0\0\0\0\x38\0")?;
    file.extend_from_slice(&count.to_le_bytes())?;
    file.extend_from_slice(b"\0\0\0\0\0\0")?;
    for segment in segments {
        put_header(&mut file, segment, offset)?;
    }
    for word in words {
        file.extend_from_slice(&word.to_le_bytes())?;
    }
    Ok(file)
}

/// Puts the program header of a segment whose bytes stand at `offset`.
fn put_header(file: &mut Vec<u8>, segment: &Segment, offset: u64) -> Result<(), AllocError> {
    let Segment {
        flags,
        address,
        in_file,
        in_memory,
    } = *segment;
    file.extend_from_slice(b"\x01\0\0\0")?;
    file.extend_from_slice(&flags.to_le_bytes())?;
    for field in [offset, address, 0, in_file, in_memory, 0] {
        file.extend_from_slice(&field.to_le_bytes())?;
    }
    Ok(())
}

/// A file whose words are code at `address` and begin at the entry.
pub fn elf(alloc: Global, address: u64, words: &[u32]) -> Result<Vec<u8>, AllocError> {
    file_of(alloc, address, &[all_words(5, address, words)], words)
}

/// The same at 0x10000, with `DATA`.
pub fn with_data(alloc: Global, words: &[u32]) -> Result<Vec<u8>, AllocError> {
    file_of(alloc, CODE, &[all_words(5, CODE, words), DATA], words)
}

/// A file whose words are code at 0x30000 and at 0x10000, its entry, and may only be read at 0x40000; with `DATA`.
pub fn in_four_segments(alloc: Global, words: &[u32]) -> Result<Vec<u8>, AllocError> {
    let segments = [
        all_words(5, 0x30000, words),
        DATA,
        all_words(5, CODE, words),
        all_words(4, 0x40000, words),
    ];
    file_of(alloc, CODE, &segments, words)
}

/// So many NOPs, and then three words that exit with 0.
pub fn nops_and_exit(alloc: Global, nops: usize) -> Result<Vec<u32>, AllocError> {
    let mut words = Vec::new(alloc);
    for _ in 0..nops {
        words.push(NOP)?;
    }
    words.extend_from_slice(&EXIT_0)?;
    Ok(words)
}
