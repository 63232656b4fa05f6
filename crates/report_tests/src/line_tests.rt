//! Each line of a report.

use flat_model::{How, KindName, Row};
use report_text::{put_entry, put_row, put_set, put_sub};
use std::test::Fail;

const fn row(key: u64, a: u64, b: u64, c: u64, d: u64) -> Row {
    Row { key, a, b, c, d }
}

// What the row of an access has in c.
const fn packed(shift: u64, signed: u64, direction: u64, hart: u64) -> u64 {
    shift % 4 + 4 * (signed % 2) + 8 * (direction % 4) + 256 * (hart % 32)
}

#[test]
fn each_kind_has_its_line_of_a_row(rt: HostRuntime) -> Result<(), Fail> {
    let cases = [
        (KindName::Counts, row(2, 12, 0, 0, 0), "insn 12\n"),
        (KindName::Counts, row(5, 1, 0, 0, 0), "sysret 1\n"),
        (KindName::Classes, row(0, 1012, 0, 0, 0), "alu 1012\n"),
        (KindName::Classes, row(8, 1, 0, 0, 0), "illegal 1\n"),
        (
            KindName::Hot,
            row(0x10000, 10, 10, 0, 0),
            "block 0x0000000000010000 runs 10 insns 10\n",
        ),
        (
            KindName::Exec,
            row(0x10008, 0x13, 3, 0, 0),
            "hart 0 step 3 pc 0x0000000000010008 word 0x00000013\n",
        ),
        (
            KindName::Pages,
            row(0x20, 1, 1, 0, 0),
            "page 0x0000000000020000 loads 1 stores 1\n",
        ),
        (
            KindName::Mem,
            row(0x20000, 0, 0x10008, packed(3, 0, 1, 0), 0),
            "hart 0 pc 0x0000000000010008 load addr 0x0000000000020000 size 8 value 0x0000000000000000\n",
        ),
        (
            KindName::Mem,
            row(0x20004, 0xFFFF_FFFF, 0x1000C, packed(2, 1, 1, 3), 0),
            "hart 3 pc 0x000000000001000c sload addr 0x0000000000020004 size 4 value 0x00000000ffffffff\n",
        ),
        (
            KindName::Mem,
            row(0x20001, 0, 0x10018, packed(0, 0, 2, 1), 0xAB),
            "hart 1 pc 0x0000000000010018 store addr 0x0000000000020001 size 1 value 0x00000000000000ab\n",
        ),
        (
            KindName::Mem,
            row(0x20000, 0, 0x10008, packed(3, 0, 3, 0), 5),
            "hart 0 pc 0x0000000000010008 amo addr 0x0000000000020000 size 8 read 0x0000000000000000 written 0x0000000000000005\n",
        ),
    ];
    for (name, row, line) in cases {
        let mut out = Vec::new(rt.alloc());
        put_row(&mut out, name, &row)?;
        assert_eq!(rt; out.as_slice(), line.as_bytes());
    }
    Ok(())
}

#[test]
fn a_set_has_its_lines(rt: HostRuntime) -> Result<(), Fail> {
    let mut out = Vec::new(rt.alloc());
    put_set(&mut out, 1, 1, Some(How::Reset))?;
    put_sub(&mut out, 0, KindName::Counts)?;
    put_set(&mut out, 1, 2, None)?;
    put_entry(&mut out, 0, 1)?;
    put_sub(&mut out, 1, KindName::Own { number: 3 })?;
    put_set(&mut out, 8, 1, Some(How::Uninstall))?;
    let text =
        "plugin 1 set 1 reset\nsub 0 counts\nplugin 1 set 2 live\nentry 0 sum 1\nsub 1 own\nplugin 8 set 1 gone\n";
    assert_eq!(rt; out.as_slice(), text.as_bytes());
    Ok(())
}
