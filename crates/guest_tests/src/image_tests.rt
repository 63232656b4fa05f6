//! Files that load, files that don't, and the texts of the refusals. Offsets and values are written out here, so
//! that no constant of the loader is its own witness.

use elf_image::{ImageRefusal, load};
use flat_model::Refused;
use std::alloc::{AllocError, Global};
use std::test::Fail;

/// An offset in the file, a number of bytes, and the number that stands there.
type Field = (usize, usize, u64);

/// The ELF header and a program header for 12 bytes of code at 0x10000.
const FIELDS: [Field; 11] = [
    (0, 8, 0x0001_0102_464C_457F),
    (16, 2, 2),
    (18, 2, 243),
    (24, 8, 0x10000),
    (32, 8, 64),
    (54, 2, 56),
    (64, 4, 1),
    (68, 4, 5),
    (80, 8, 0x10000),
    (96, 8, 12),
    (104, 8, 12),
];

/// A second segment, of data alone, at the address of the code.
const DATA_ON_CODE: [Field; 4] = [(120, 4, 1), (124, 4, 6), (136, 8, 0x10000), (160, 8, 4096)];

/// Four segments of data behind the code's: the third of them overlaps both before it, the last one the code.
const TWO_OVERLAPS: [Field; 12] = [
    (120, 4, 1),
    (136, 8, 0x20000),
    (160, 8, 4096),
    (176, 4, 1),
    (192, 8, 0x30000),
    (216, 8, 4096),
    (232, 4, 1),
    (248, 8, 0x20FFF),
    (272, 8, 0xF002),
    (288, 4, 1),
    (304, 8, 0x10000),
    (328, 8, 1),
];

/// The code's words in two numbers: 93 to a7, 0 to a0, ECALL.
const WORDS: (u64, u64) = (0x0000_0513_05D0_0893, 0x73);

/// Writes a field, as far as it lies in the file.
fn put(file: &mut [u8], field: Field) {
    let (offset, width, value) = field;
    let bytes = value.to_le_bytes();
    for (place, byte) in file.iter_mut().skip(offset).zip(bytes.iter().take(width)) {
        *place = *byte;
    }
}

/// A file of this many program headers, the code's first, with the code behind them and some fields changed.
fn file(alloc: Global, headers: u16, changes: &[Field]) -> Result<Vec<u8>, AllocError> {
    let code = 64 + 56 * headers as usize;
    let mut file = Vec::new(alloc);
    file.resize(code + 12, 0)?;
    for field in FIELDS {
        put(&mut file, field);
    }
    put(&mut file, (56, 2, headers as u64));
    put(&mut file, (72, 8, code as u64));
    put(&mut file, (code, 8, WORDS.0));
    put(&mut file, (code + 8, 4, WORDS.1));
    for field in changes {
        put(&mut file, *field);
    }
    Ok(file)
}

fn refusal_of(alloc: Global, file: &[u8]) -> Option<ImageRefusal> {
    match load(alloc, file) {
        Err(Refused::Because(refusal)) => Some(refusal),
        Err(Refused::NoMemory) => None,
        Ok(_) => None,
    }
}

/// Program headers, changed fields and the refusal.
const CHANGES: [(u16, &[Field], ImageRefusal); 18] = [
    (1, &[(3, 1, 0)], ImageRefusal::NotElf),
    (1, &[(4, 1, 1)], ImageRefusal::NotRv64),
    (1, &[(16, 2, 3)], ImageRefusal::NotStatic),
    (1, &[(48, 4, 1)], ImageRefusal::Compressed),
    (1, &[(54, 2, 55)], ImageRefusal::BadHeaders { size: 55 }),
    (
        1,
        &[(56, 2, 65535)],
        ImageRefusal::HeadersPastEnd {
            need: 3670024,
            got: 132,
        },
    ),
    (
        1,
        &[(32, 8, u64::MAX)],
        ImageRefusal::HeadersPastEnd {
            need: 18446744073709551671,
            got: 132,
        },
    ),
    (1, &[(64, 4, 3)], ImageRefusal::Interpreted { index: 0 }),
    (
        1,
        &[(72, 8, u64::MAX)],
        ImageRefusal::SegmentPastEnd { index: 0 },
    ),
    (1, &[(104, 8, 11)], ImageRefusal::SizesCross { index: 0 }),
    (
        1,
        &[(80, 8, 0x3F_FFBF_FFF8)],
        ImageRefusal::AddressRange { index: 0 },
    ),
    (1, &[(68, 4, 7)], ImageRefusal::WritableCode { index: 0 }),
    (
        2,
        &DATA_ON_CODE,
        ImageRefusal::Overlap {
            first: 0,
            second: 1,
        },
    ),
    (
        5,
        &TWO_OVERLAPS,
        ImageRefusal::Overlap {
            first: 1,
            second: 3,
        },
    ),
    (
        1,
        &[(104, 8, 67108865)],
        ImageRefusal::TooLarge { bytes: 67108865 },
    ),
    (
        1,
        &[(56, 2, 0)],
        ImageRefusal::EntryNotCode { entry: 0x10000 },
    ),
    (
        1,
        &[(68, 4, 4)],
        ImageRefusal::EntryNotCode { entry: 0x10000 },
    ),
    (
        1,
        &[(24, 8, 0x1000C)],
        ImageRefusal::EntryNotCode { entry: 0x1000C },
    ),
];

#[test]
fn each_change_breaks_its_rule(rt: HostRuntime) -> Result<(), Fail> {
    for (headers, changes, refusal) in CHANGES {
        let file = file(rt.alloc(), headers, changes)?;
        assert_eq!(rt; refusal_of(rt.alloc(), &file), Some(refusal));
    }
    let mut short = file(rt.alloc(), 1, &[])?;
    short.truncate(63);
    let refusal = ImageRefusal::Short { need: 64, got: 63 };
    assert_eq!(rt; refusal_of(rt.alloc(), &short), Some(refusal));
    Ok(())
}

#[test]
fn other_headers_are_passed_over(rt: HostRuntime) -> Result<(), Fail> {
    let fields = [
        (120, 4, 0x7000_0003),
        (176, 4, 1),
        (180, 4, 6),
        (192, 8, 0x20000),
        (216, 8, 4096),
        (232, 4, 0x6474_E551),
    ];
    let image = load(rt.alloc(), &file(rt.alloc(), 4, &fields)?)?;
    assert_eq!(rt; (image.entry, image.regions.len()), (0x10000, 2));
    assert_eq!(rt; image.word(0x10008), Some(0x73));
    let data = &image.regions[1];
    assert_eq!(rt; (data.base, data.bytes.len()), (0x20000, 4096));
    assert!(rt; data.r && data.w && !data.x);
    assert!(rt; data.bytes.iter().all(|byte| *byte == 0));
    Ok(())
}

const TEXTS: [(ImageRefusal, &str); 16] = [
    (
        ImageRefusal::Short { need: 64, got: 63 },
        "file too short: need 64, got 63",
    ),
    (ImageRefusal::NotElf, "not ELF"),
    (ImageRefusal::NotRv64, "not little-endian ELF64 for RISC-V"),
    (ImageRefusal::NotStatic, "not a static executable"),
    (ImageRefusal::Compressed, "compressed instructions"),
    (
        ImageRefusal::BadHeaders { size: 55 },
        "program header size 55",
    ),
    (
        ImageRefusal::HeadersPastEnd {
            need: 18446744073709551671,
            got: 132,
        },
        "program headers past the end: need 18446744073709551671, got 132",
    ),
    (
        ImageRefusal::Interpreted { index: 2 },
        "needs an interpreter: header 2",
    ),
    (ImageRefusal::TooMany { count: 17 }, "17 loadable segments"),
    (
        ImageRefusal::SegmentPastEnd { index: 3 },
        "segment 3 past the end of the file",
    ),
    (
        ImageRefusal::SizesCross { index: 4 },
        "segment 4 larger in the file than in memory",
    ),
    (
        ImageRefusal::AddressRange { index: 5 },
        "segment 5 out of the address range",
    ),
    (
        ImageRefusal::WritableCode { index: 6 },
        "segment 6 writable and executable",
    ),
    (
        ImageRefusal::Overlap {
            first: 7,
            second: 8,
        },
        "segments 7 and 8 overlap",
    ),
    (
        ImageRefusal::TooLarge { bytes: 67108865 },
        "67108865 bytes of memory",
    ),
    (
        ImageRefusal::EntryNotCode { entry: 0x1000C },
        "entry 0x000000000001000c is not code",
    ),
];

#[test]
fn each_refusal_has_its_text(rt: HostRuntime) -> Result<(), Fail> {
    for (refusal, expected) in TEXTS {
        let text = refusal.to_string(rt.alloc())?;
        assert_eq!(rt; text.as_str(), expected);
    }
    Ok(())
}
