//! A word's instruction: first by opcode, then by the columns of its group.

ghost use Rattle.std.specs.Prelude.{◌≡◌, ◌<◌, ◌^◌, ◌↔◌, IfSome};
ghost use Rattle.flat_model.specs.declared.instructions.Ins.{Ins};
ghost use Rattle.flat_model.specs.Rows.{immediate_of, imm_op, word_imm_op, reg_op, word_reg_op};
ghost use Rattle.flat_model.specs.Instruction.{decoded, decoded_as, Table, jalr_at, branch_at, load_at, store_at, imm_as, reg_as};
ghost use Rattle.flat_model.specs.Instruction.{atomic_at, fence_at, system_at, IsInRange, ImmediateInRange};

use crate::columns::{
    atomic_op, branch_op, imm_op, load_op, reg_op, store_op, wide_at, word_imm_op, word_reg_op,
};
use crate::fields::{
    b_immediate, field, flag, i_immediate, j_immediate, nibble, register_field, s_immediate,
};
use flat_model::{ImmOp, Ins, RegOp};

/// The instruction of a word, or None where the word is in no row of the table.
#[tactic(auto, unfolding(flat_model::specs::Instruction::decoded))]
pub fn decode(word: u32) -> Option<Ins>
    ensures value { result ≡ decoded word }
    ensures table { (i : Ins) → (result ≡ Some i) ↔ Table word i }
    ensures in_range { IfSome result IsInRange }
{
    decoded_as(field(word, 0, 7), word)
}

#[tactic(auto, unfolding(flat_model::specs::Instruction::decoded_as))]
fn decoded_as(opcode: u32, word: u32) -> Option<Ins>
    ensures value { result ≡ decoded_as opcode word }
    ensures in_range { IfSome result IsInRange }
{
    match opcode {
        0x37 => Some(Ins::Lui {
            rd: register_field(word, 7),
            top: field(word, 12, 20),
        }),
        0x17 => Some(Ins::Auipc {
            rd: register_field(word, 7),
            top: field(word, 12, 20),
        }),
        0x6f => Some(Ins::Jal {
            rd: register_field(word, 7),
            off: j_immediate(word),
        }),
        0x67 => jalr_at(word),
        0x63 => branch_at(word),
        0x03 => load_at(word),
        0x23 => store_at(word),
        0x13 => imm_as(imm_op(field(word, 12, 3), field(word, 26, 6)), word),
        0x1b => imm_as(word_imm_op(field(word, 12, 3), field(word, 25, 7)), word),
        0x33 => reg_as(reg_op(field(word, 25, 7), field(word, 12, 3)), word),
        0x3b => reg_as(word_reg_op(field(word, 25, 7), field(word, 12, 3)), word),
        0x0f => fence_at(word),
        0x73 => system_at(word),
        0x2f => atomic_at(word),
        _ => None,
    }
}

fn jalr_at(word: u32) -> Option<Ins>
    ensures value { result ≡ jalr_at word }
    ensures in_range { IfSome result IsInRange }
{
    if field(word, 12, 3) == 0 {
        Some(Ins::Jalr {
            rd: register_field(word, 7),
            rs1: register_field(word, 15),
            off: i_immediate(word),
        })
    } else {
        None
    }
}

fn branch_at(word: u32) -> Option<Ins>
    ensures value { result ≡ branch_at word }
    ensures in_range { IfSome result IsInRange }
{
    let op = branch_op(field(word, 12, 3))?;
    Some(Ins::Branch {
        op,
        rs1: register_field(word, 15),
        rs2: register_field(word, 20),
        off: b_immediate(word),
    })
}

fn load_at(word: u32) -> Option<Ins>
    ensures value { result ≡ load_at word }
    ensures in_range { IfSome result IsInRange }
{
    let op = load_op(field(word, 12, 3))?;
    Some(Ins::Load {
        op,
        rd: register_field(word, 7),
        rs1: register_field(word, 15),
        off: i_immediate(word),
    })
}

fn store_at(word: u32) -> Option<Ins>
    ensures value { result ≡ store_at word }
    ensures in_range { IfSome result IsInRange }
{
    let op = store_op(field(word, 12, 3))?;
    Some(Ins::Store {
        op,
        rs1: register_field(word, 15),
        rs2: register_field(word, 20),
        off: s_immediate(word),
    })
}

/// What bits 31:20 hold: an amount for the shifts, else an immediate of form I.
fn immediate_of(op: ImmOp, word: u32) -> i32
    ensures value { result ≡ immediate_of op word }
    ensures in_range { ImmediateInRange op result }
{
    match op {
        ImmOp::Slli | ImmOp::Srli | ImmOp::Srai => field(word, 20, 6) as i32,
        ImmOp::Slliw | ImmOp::Srliw | ImmOp::Sraiw => field(word, 20, 5) as i32,
        _ => i_immediate(word),
    }
}

fn imm_as(op: Option<ImmOp>, word: u32) -> Option<Ins>
    ensures value { result ≡ imm_as op word }
    ensures in_range { IfSome result IsInRange }
{
    let op = op?;
    Some(Ins::Imm {
        op,
        rd: register_field(word, 7),
        rs1: register_field(word, 15),
        imm: immediate_of(op, word),
    })
}

fn reg_as(op: Option<RegOp>, word: u32) -> Option<Ins>
    ensures value { result ≡ reg_as op word }
    ensures in_range { IfSome result IsInRange }
{
    let op = op?;
    Some(Ins::Reg {
        op,
        rd: register_field(word, 7),
        rs1: register_field(word, 15),
        rs2: register_field(word, 20),
    })
}

fn atomic_at(word: u32) -> Option<Ins>
    ensures value { result ≡ atomic_at word }
    ensures in_range { IfSome result IsInRange }
{
    let wide = wide_at(field(word, 12, 3))?;
    let rs2 = register_field(word, 20);
    let op = atomic_op(field(word, 27, 5), rs2)?;
    let (aq, rl) = (flag(word, 26), flag(word, 25));
    Some(Ins::Atomic {
        op,
        wide,
        aq,
        rl,
        rd: register_field(word, 7),
        rs1: register_field(word, 15),
        rs2,
    })
}

fn fence_at(word: u32) -> Option<Ins>
    ensures value { result ≡ fence_at word }
    ensures in_range { IfSome result IsInRange }
{
    let (rd, rs1) = (register_field(word, 7), register_field(word, 15));
    match field(word, 12, 3) {
        0 => Some(Ins::Fence {
            fm: nibble(word, 28),
            pred: nibble(word, 24),
            succ: nibble(word, 20),
            rs1,
            rd,
        }),
        1 => Some(Ins::FenceI {
            imm: field(word, 20, 12) as u16,
            rs1,
            rd,
        }),
        _ => None,
    }
}

fn system_at(word: u32) -> Option<Ins>
    ensures value { result ≡ system_at word }
    ensures in_range { IfSome result IsInRange }
{
    match word {
        0x0000_0073 => Some(Ins::Ecall),
        0x0010_0073 => Some(Ins::Ebreak),
        _ => None,
    }
}
