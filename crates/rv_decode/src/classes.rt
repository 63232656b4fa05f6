//! The class of an instruction, and which instructions end a block.

ghost use Rattle.std.specs.Prelude.{◌≡◌, ◌≢◌, ◌↔◌};
ghost use Rattle.flat_model.specs.Instruction.{class_of, class_of_op, word_class, ends_block, decoded};

use crate::decoding::decode;
use flat_model::{Class, Ins, RegOp};

/// The class of an instruction. No instruction is of the class Illegal.
pub fn class_of(ins: &Ins) -> Class
    ensures value { result ≡ class_of ins.now }
    ensures legal { result ≢ Class.Illegal }
{
    match *ins {
        Ins::Lui { .. } | Ins::Auipc { .. } | Ins::Imm { .. } => Class::Alu,
        Ins::Jal { .. } | Ins::Jalr { .. } => Class::Jump,
        Ins::Branch { .. } => Class::Branch,
        Ins::Load { .. } => Class::Load,
        Ins::Store { .. } => Class::Store,
        Ins::Reg { op, .. } => class_of_op(op),
        Ins::Atomic { .. } => Class::Atomic,
        Ins::Fence { .. } | Ins::FenceI { .. } | Ins::Ecall | Ins::Ebreak => Class::System,
    }
}

fn class_of_op(op: RegOp) -> Class
    ensures value { result ≡ class_of_op op }
    ensures legal { result ≢ Class.Illegal }
{
    match op {
        RegOp::Mul
        | RegOp::Mulh
        | RegOp::Mulhsu
        | RegOp::Mulhu
        | RegOp::Div
        | RegOp::Divu
        | RegOp::Rem
        | RegOp::Remu
        | RegOp::Mulw
        | RegOp::Divw
        | RegOp::Divuw
        | RegOp::Remw
        | RegOp::Remuw => Class::MulDiv,
        _ => Class::Alu,
    }
}

/// The class of a word: Illegal exactly where it is in no row of the table.
pub fn word_class(word: u32) -> Class
    ensures value { result ≡ word_class word }
    ensures illegal { (result ≡ Class.Illegal) ↔ (decoded word ≡ None) }
{
    match decode(word) {
        Some(ins) => class_of(&ins),
        None => Class::Illegal,
    }
}

/// Whether a block ends with this instruction: a branch, a jump, ECALL or EBREAK.
pub fn ends_block(ins: &Ins) -> bool
    ensures { result ≡ ends_block ins.now }
{
    matches!(
        ins,
        Ins::Jal { .. } | Ins::Jalr { .. } | Ins::Branch { .. } | Ins::Ecall | Ins::Ebreak
    )
}
