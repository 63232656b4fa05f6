//! Worked values: the division table of the manual (section 7.2), and operands at the ends of their ranges.

use flat_model::{AtomicOp, BranchOp, ImmOp, LoadOp, RegOp};
use rv_alu::{
    amo_result, atomic_result, atomic_shift, branch_taken, imm_result, load_result, load_shift,
    load_signed, low_bytes, plus_signed, reg_result, word_extended,
};
use std::test::Fail;

/// The least signed number of 64 bits.
const LEAST: u64 = 0x8000_0000_0000_0000;

/// An operation, its operands and its result.
const OPERATIONS: [(RegOp, u64, u64, u64); 28] = [
    (RegOp::Add, u64::MAX, 2, 1),
    (RegOp::Sub, 1, 2, u64::MAX),
    (RegOp::Sll, 1, 64 + 63, LEAST),
    (RegOp::Slt, u64::MAX, 0, 1),
    (RegOp::Sltu, u64::MAX, 0, 0),
    (RegOp::Xor, 0xff, 0x0f, 0xf0),
    (RegOp::Srl, LEAST, 64 + 63, 1),
    (RegOp::Sra, LEAST, 63, u64::MAX),
    (RegOp::Or, 0xf0, 0x0f, 0xff),
    (RegOp::And, 0xff, 0x0f, 0x0f),
    (RegOp::Mul, u64::MAX, u64::MAX, 1),
    (RegOp::Mulh, u64::MAX, u64::MAX, 0),
    (RegOp::Mulhsu, u64::MAX, u64::MAX, u64::MAX),
    (RegOp::Mulhu, u64::MAX, u64::MAX, 0xffff_ffff_ffff_fffe),
    (RegOp::Div, 7, 0, u64::MAX),
    (RegOp::Divu, 7, 0, u64::MAX),
    (RegOp::Rem, 7, 0, 7),
    (RegOp::Remu, 7, 0, 7),
    (RegOp::Addw, 0x7fff_ffff, 1, 0xffff_ffff_8000_0000),
    (RegOp::Subw, 0, 1, u64::MAX),
    (RegOp::Sllw, 1, 32 + 31, 0xffff_ffff_8000_0000),
    (RegOp::Srlw, 0xffff_ffff_8000_0000, 32 + 4, 0x0800_0000),
    (RegOp::Sraw, 0x8000_0000, 32 + 4, 0xffff_ffff_f800_0000),
    (RegOp::Mulw, 0x0001_0000, 0x0001_0000, 0),
    (RegOp::Divw, 0x8000_0000, u64::MAX, 0xffff_ffff_8000_0000),
    (RegOp::Divuw, 0xffff_ffff, 1, u64::MAX),
    (RegOp::Remw, 0x8000_0000, 0, 0xffff_ffff_8000_0000),
    (RegOp::Remuw, 0xffff_fffe, 0, 0xffff_ffff_ffff_fffe),
];

#[test]
fn operations_wrap_and_extend_at_the_ends_of_their_ranges(rt: HostRuntime) {
    for (op, a, b, expected) in OPERATIONS {
        assert_eq!(rt; reg_result(op, a, b), expected, "{op:?} of {a} and {b}");
    }
}

#[test]
fn signed_division_rounds_towards_zero_and_wraps(rt: HostRuntime) {
    for (op, a, b, expected) in [
        (RegOp::Div, LEAST, u64::MAX, LEAST),
        (RegOp::Rem, LEAST, u64::MAX, 0),
        (RegOp::Remw, 0x8000_0000, u64::MAX, 0),
        // -7 by 2 is -3, and leaves -1.
        (RegOp::Div, u64::MAX - 6, 2, u64::MAX - 2),
        (RegOp::Rem, u64::MAX - 6, 2, u64::MAX),
        (RegOp::Divw, 7, 0, u64::MAX),
        (RegOp::Divuw, 7, 0, u64::MAX),
    ] {
        assert_eq!(rt; reg_result(op, a, b), expected, "{op:?} of {a} and {b}");
    }
}

#[test]
fn immediates_are_sign_extended(rt: HostRuntime) {
    for (op, a, imm, expected) in [
        (ImmOp::Addi, 0, -1, u64::MAX),
        (ImmOp::Slti, 0, -1, 0),
        // SLTIU by -1 compares with 2^64 - 1.
        (ImmOp::Sltiu, 0, -1, 1),
        (ImmOp::Xori, 0x0f, -1, 0xffff_ffff_ffff_fff0),
        (ImmOp::Ori, 0, -2048, 0xffff_ffff_ffff_f800),
        (ImmOp::Andi, u64::MAX, -1, u64::MAX),
        (ImmOp::Slli, 1, 63, LEAST),
        (ImmOp::Srli, LEAST, 63, 1),
        (ImmOp::Srai, LEAST, 63, u64::MAX),
        (ImmOp::Addiw, 0x7fff_ffff, 1, 0xffff_ffff_8000_0000),
        (ImmOp::Slliw, 1, 31, 0xffff_ffff_8000_0000),
        (ImmOp::Srliw, 0x8000_0000, 4, 0x0800_0000),
        (ImmOp::Sraiw, 0x8000_0000, 4, 0xffff_ffff_f800_0000),
    ] {
        assert_eq!(rt; imm_result(op, a, imm), expected, "{op:?} of {a} and {imm}");
    }
}

#[test]
fn branches_compare_signed_and_unsigned(rt: HostRuntime) {
    for (op, expected) in [
        (BranchOp::Beq, false),
        (BranchOp::Bne, true),
        (BranchOp::Blt, true),
        (BranchOp::Bge, false),
        (BranchOp::Bltu, false),
        (BranchOp::Bgeu, true),
    ] {
        assert_eq!(rt; branch_taken(op, u64::MAX, 0), expected, "{op:?}");
    }
}

#[test]
fn loads_extend_by_their_kind(rt: HostRuntime) {
    for (op, shift, signed, raw, expected) in [
        (LoadOp::Lb, 0, true, 0x80, 0xffff_ffff_ffff_ff80),
        (LoadOp::Lh, 1, true, 0x8000, 0xffff_ffff_ffff_8000),
        (LoadOp::Lw, 2, true, 0x8000_0000, 0xffff_ffff_8000_0000),
        (LoadOp::Ld, 3, false, LEAST, LEAST),
        (LoadOp::Lbu, 0, false, 0x80, 0x80),
        (LoadOp::Lhu, 1, false, 0x8000, 0x8000),
        (LoadOp::Lwu, 2, false, 0x8000_0000, 0x8000_0000),
    ] {
        assert_eq!(rt; load_shift(op), shift, "{op:?}");
        assert_eq!(rt; load_signed(op), signed, "{op:?}");
        assert_eq!(rt; load_result(op, raw), expected, "{op:?}");
    }
}

#[test]
fn atomics_work_in_their_width(rt: HostRuntime) {
    let word = 0x8000_0000;
    for (op, wide, a, b, expected) in [
        (AtomicOp::Swap, false, 1, 2, 2),
        (AtomicOp::Add, false, 0xffff_ffff, 2, 1),
        (AtomicOp::Add, true, 0xffff_ffff, 2, 0x1_0000_0001),
        (AtomicOp::Xor, true, 0xff, 0x0f, 0xf0),
        (AtomicOp::And, true, 0xff, 0x0f, 0x0f),
        (AtomicOp::Or, true, 0xf0, 0x0f, 0xff),
        (AtomicOp::Min, false, word, 1, word),
        (AtomicOp::Min, true, word, 1, 1),
        (AtomicOp::Max, false, word, 1, 1),
        (AtomicOp::Max, true, word, 1, word),
        (AtomicOp::Minu, false, word, 1, 1),
        (AtomicOp::Maxu, true, LEAST, 1, LEAST),
    ] {
        assert_eq!(rt;
            amo_result(op, wide, a, b),
            expected,
            "{op:?} of {a} and {b}"
        );
    }
    assert_eq!(rt; atomic_result(false, word), 0xffff_ffff_8000_0000);
    assert_eq!(rt; atomic_result(true, word), word);
    assert_eq!(rt; (atomic_shift(false), atomic_shift(true)), (2, 3));
}

#[test]
fn low_bytes_and_words_are_cut(rt: HostRuntime) {
    for (shift, expected) in [
        (0, 0x88),
        (1, 0x7788),
        (2, 0x5566_7788),
        (3, 0x1122_3344_5566_7788),
    ] {
        assert_eq!(rt; low_bytes(0x1122_3344_5566_7788, shift), expected);
    }
    assert_eq!(rt; word_extended(0x1_8000_0000), 0xffff_ffff_8000_0000);
    assert_eq!(rt; plus_signed(1, -2), u64::MAX);
}
