//! Why a file is no image.

ghost use Rattle.std.specs.Prelude.{◌≡◌};
ghost use Rattle.flat_model.specs.declared.refusals.Refused.TheVariants.{Because};

use flat_model::Refused;
use thiserror::Error;

/// The first rule that a file breaks, with its numbers. An `index` is a place in the program header table, from 0.
#[derive(Clone, Copy, Debug, PartialEq, Eq, Error)]
pub enum ImageRefusal {
    /// The file has `got` bytes, fewer than the ELF header.
    #[error("file too short: need {need}, got {got}")]
    Short { need: u128, got: u128 },
    #[error("not ELF")]
    NotElf,
    #[error("not little-endian ELF64 for RISC-V")]
    NotRv64,
    #[error("not a static executable")]
    NotStatic,
    #[error("compressed instructions")]
    Compressed,
    /// The program headers have `size` bytes each, not 56.
    #[error("program header size {size}")]
    BadHeaders { size: u16 },
    /// The program header table ends at byte `need` of a file of `got` bytes.
    #[error("program headers past the end: need {need}, got {got}")]
    HeadersPastEnd { need: u128, got: u128 },
    #[error("needs an interpreter: header {index}")]
    Interpreted { index: u32 },
    /// The file has `count` loadable segments, more than 16.
    #[error("{count} loadable segments")]
    TooMany { count: u32 },
    #[error("segment {index} past the end of the file")]
    SegmentPastEnd { index: u32 },
    #[error("segment {index} larger in the file than in memory")]
    SizesCross { index: u32 },
    /// The segment ends above 0x3FFFC00000, where the stacks begin.
    #[error("segment {index} out of the address range")]
    AddressRange { index: u32 },
    #[error("segment {index} writable and executable")]
    WritableCode { index: u32 },
    /// The least second segment that shares a byte with an earlier one, and the least such first one.
    #[error("segments {first} and {second} overlap")]
    Overlap { first: u32, second: u32 },
    /// The segments have `bytes` bytes of memory in all, more than 64 MiB.
    #[error("{bytes} bytes of memory")]
    TooLarge { bytes: u128 },
    /// The entry is no multiple of 4, or no executable segment has a word there.
    #[error("entry 0x{entry:016x} is not code")]
    EntryNotCode { entry: u64 },
}

impl From<ImageRefusal> for Refused<ImageRefusal> {
    ghost from_gives = { λ refusal refused. refused ≡ Because refusal };

    fn from(refusal: ImageRefusal) -> Refused<ImageRefusal> {
        Refused::Because(refusal)
    }
}
