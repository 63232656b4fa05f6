//! The operations of OP, OP-32, OP-IMM and OP-IMM-32 (sections 2.4 and 5.2, and chapter 7).

ghost use Rattle.std.specs.Prelude.{◌≡◌};
ghost use Rattle.flat_model.specs.Arithmetic.{imm_result, reg_result};

use crate::division::{
    quotient, quotient_unsigned, remainder, remainder_unsigned, word_quotient,
    word_quotient_unsigned, word_remainder, word_remainder_unsigned,
};
use crate::multiplication::{high_signed, high_signed_by_unsigned, high_unsigned};
use crate::words::{extended, low_word, word_extended};
use flat_model::{ImmOp, RegOp};

/// What an operation gives for rs1 `a` and rs2 `b`. A shift takes the low 6 bits of `b` as its amount, and the low 5
/// where it works on words.
#[inline(always)]
pub fn reg_result(op: RegOp, a: u64, b: u64) -> u64
    ensures computed { result ≡ reg_result op a b }
{
    match op {
        RegOp::Add => a.wrapping_add(b),
        RegOp::Sub => a.wrapping_sub(b),
        RegOp::Sll => a << (b % 64),
        RegOp::Slt => u64::from(a.cast_signed() < b.cast_signed()),
        RegOp::Sltu => u64::from(a < b),
        RegOp::Xor => a ^ b,
        RegOp::Srl => a >> (b % 64),
        RegOp::Sra => (a.cast_signed() >> (b % 64)).cast_unsigned(),
        RegOp::Or => a | b,
        RegOp::And => a & b,
        RegOp::Mul => a.wrapping_mul(b),
        RegOp::Mulh => high_signed(a.cast_signed(), b.cast_signed()),
        RegOp::Mulhsu => high_signed_by_unsigned(a.cast_signed(), b),
        RegOp::Mulhu => high_unsigned(a, b),
        RegOp::Div => quotient(a, b),
        RegOp::Divu => quotient_unsigned(a, b),
        RegOp::Rem => remainder(a, b),
        RegOp::Remu => remainder_unsigned(a, b),
        RegOp::Addw => word_extended(a.wrapping_add(b)),
        RegOp::Subw => word_extended(a.wrapping_sub(b)),
        RegOp::Sllw => extended(low_word(a) << (b % 32)),
        RegOp::Srlw => extended(low_word(a) >> (b % 32)),
        RegOp::Sraw => i64::from(low_word(a).cast_signed() >> (b % 32)).cast_unsigned(),
        RegOp::Mulw => extended(low_word(a).wrapping_mul(low_word(b))),
        RegOp::Divw => extended(word_quotient(low_word(a), low_word(b))),
        RegOp::Divuw => extended(word_quotient_unsigned(low_word(a), low_word(b))),
        RegOp::Remw => extended(word_remainder(low_word(a), low_word(b))),
        RegOp::Remuw => extended(word_remainder_unsigned(low_word(a), low_word(b))),
    }
}

/// What an operation gives for rs1 `a` and the immediate `imm`, from -2048 to 2047, which is sign-extended. A shift
/// has its amount there, below 64, or below 32 where it works on words.
#[inline(always)]
pub fn imm_result(op: ImmOp, a: u64, imm: i32) -> u64
    ensures computed { result ≡ imm_result op a imm }
{
    let b = i64::from(imm).cast_unsigned();
    match op {
        ImmOp::Addi => reg_result(RegOp::Add, a, b),
        ImmOp::Slti => reg_result(RegOp::Slt, a, b),
        ImmOp::Sltiu => reg_result(RegOp::Sltu, a, b),
        ImmOp::Xori => reg_result(RegOp::Xor, a, b),
        ImmOp::Ori => reg_result(RegOp::Or, a, b),
        ImmOp::Andi => reg_result(RegOp::And, a, b),
        ImmOp::Slli => reg_result(RegOp::Sll, a, b),
        ImmOp::Srli => reg_result(RegOp::Srl, a, b),
        ImmOp::Srai => reg_result(RegOp::Sra, a, b),
        ImmOp::Addiw => reg_result(RegOp::Addw, a, b),
        ImmOp::Slliw => reg_result(RegOp::Sllw, a, b),
        ImmOp::Srliw => reg_result(RegOp::Srlw, a, b),
        ImmOp::Sraiw => reg_result(RegOp::Sraw, a, b),
    }
}
