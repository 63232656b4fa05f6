//! Words that GNU as 2.40 makes, with their instructions, classes and whether they end a block.

use flat_model::{AtomicOp, BranchOp, Class, ImmOp, Ins, RegOp};
use rv_decode::{class_of, decode, encode, ends_block, word_class};
use std::test::Fail;

const ROWS: [(u32, Ins, Class, bool); 8] = [
    // jal x1, .-1048576
    (
        0x8000_00ef,
        Ins::Jal {
            rd: 1,
            off: -1_048_576,
        },
        Class::Jump,
        true,
    ),
    // bge x13, x3, .-4096
    (
        0x8036_d063,
        Ins::Branch {
            op: BranchOp::Bge,
            rs1: 13,
            rs2: 3,
            off: -4096,
        },
        Class::Branch,
        true,
    ),
    // xori x14, x3, -2048
    (
        0x8001_c713,
        Ins::Imm {
            op: ImmOp::Xori,
            rd: 14,
            rs1: 3,
            imm: -2048,
        },
        Class::Alu,
        false,
    ),
    // srai x8, x9, 32
    (
        0x4204_d413,
        Ins::Imm {
            op: ImmOp::Srai,
            rd: 8,
            rs1: 9,
            imm: 32,
        },
        Class::Alu,
        false,
    ),
    // remuw x0, x23, x14
    (
        0x02eb_f03b,
        Ins::Reg {
            op: RegOp::Remuw,
            rd: 0,
            rs1: 23,
            rs2: 14,
        },
        Class::MulDiv,
        false,
    ),
    // sc.w.rl x1, x2, (x3)
    (
        0x1a21_a0af,
        Ins::Atomic {
            op: AtomicOp::Sc,
            wide: false,
            aq: false,
            rl: true,
            rd: 1,
            rs1: 3,
            rs2: 2,
        },
        Class::Atomic,
        false,
    ),
    // fence i, w
    (
        0x0810_000f,
        Ins::Fence {
            fm: 0,
            pred: 8,
            succ: 1,
            rs1: 0,
            rd: 0,
        },
        Class::System,
        false,
    ),
    // ecall
    (0x0000_0073, Ins::Ecall, Class::System, true),
];

#[test]
fn words_and_instructions_go_both_ways(rt: HostRuntime) -> Result<(), Fail> {
    for (word, expected, class, ends) in ROWS.iter() {
        let ins = decode(*word).ok_or("a word of the table")?;
        assert_eq!(rt; ins, *expected);
        assert_eq!(rt; encode(&ins), *word);
        assert_eq!(rt; class_of(&ins), *class);
        assert_eq!(rt; word_class(*word), *class);
        assert_eq!(rt; ends_block(&ins), *ends);
    }
    Ok(())
}

#[test]
fn words_outside_the_table_are_illegal(rt: HostRuntime) -> Result<(), Fail> {
    // All zeros, all ones, SLLIW by 63, LR with rs2, funct7 2 of OP, URET.
    for word in [
        0,
        0xffff_ffff,
        0x03f4_941b,
        0x1012_a32f,
        0x0420_81b3,
        0x0020_0073,
    ] {
        assert!(rt; decode(word).is_none());
        assert_eq!(rt; word_class(word), Class::Illegal);
    }
    Ok(())
}
