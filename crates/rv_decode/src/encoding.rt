//! The word of an instruction, by the forms of the manual: R, I, S, B, U and J.

ghost use Rattle.std.specs.Prelude.{◌≡◌, ◌+◌, ◌*◌, ◌/◌, ◌%◌, ◌^◌, ◌<◌, ◌≤◌, ℕ, ℤ, pos, neg_ℤ};
ghost use Rattle.std.specs.Prelude.{◌≤ℤ◌, ◌<ℤ◌};
ghost use Rattle.flat_model.specs.declared.instructions.Ins.{Ins};
ghost use Rattle.flat_model.specs.Rows.{IsImmediate, MayHaveSource};
ghost use Rattle.flat_model.specs.Instruction.{Table, IsInRange, decoded, field, signed_at, opcode as opcode_of, funct3 as funct3_of};
ghost use Rattle.flat_model.specs.Instruction.{funct7 as funct7_of, rd_of, rs1_of, rs2_of, u_top, i_immediate, s_immediate, b_immediate};
ghost use Rattle.flat_model.specs.Instruction.{j_immediate, IsRegister, IsEven, IsTwelveBits, IsBranchOffset, IsJumpOffset};
ghost use Rattle.flat_model.specs.Instruction.{ImmediateInRange};

use crate::fields::field;
use crate::rows::{atomic_funct5, branch_funct3, imm_row, load_funct3, reg_row, store_funct3};
use flat_model::{AtomicOp, BranchOp, ImmOp, Ins, LoadOp, RegOp, StoreOp};

/// The word of an instruction whose fields are in range: the one word that decodes to it.
pub fn encode(ins: &Ins) -> u32
    requires { IsInRange ins.now }
    ensures row { Table result ins.now }
    ensures decodes { decoded result ≡ Some ins.now }
    ensures only_word { (word : ℕ) → word < 2 ^ 32 → decoded word ≡ Some ins.now → word ≡ result }
{
    word_of(ins)
}

fn word_of(ins: &Ins) -> u32
    requires { IsInRange ins.now }
    ensures { Table result ins.now }
{
    match *ins {
        Ins::Lui { rd, top } => u_form(0x37, rd, top),
        Ins::Auipc { rd, top } => u_form(0x17, rd, top),
        Ins::Jal { rd, off } => j_form(0x6f, rd, off),
        Ins::Jalr { rd, rs1, off } => i_form(0x67, rd, 0, rs1, bits_of(1 << 11, off)),
        Ins::Branch { op, rs1, rs2, off } => b_form(0x63, branch_funct3(op), rs1, rs2, off),
        Ins::Load { op, rd, rs1, off } => i_form(
            0x03,
            rd,
            load_funct3(op),
            rs1,
            bits_of(1 << 11, off),
        ),
        Ins::Store { op, rs1, rs2, off } => s_form(0x23, store_funct3(op), rs1, rs2, off),
        Ins::Imm { op, rd, rs1, imm } => imm_word(op, rd, rs1, imm),
        Ins::Reg { op, rd, rs1, rs2 } => reg_word(op, rd, rs1, rs2),
        Ins::Atomic {
            op,
            wide,
            aq,
            rl,
            rd,
            rs1,
            rs2,
        } => atomic_word(op, wide, aq, rl, rd, rs1, rs2),
        Ins::Fence {
            fm,
            pred,
            succ,
            rs1,
            rd,
        } => fence_word(fm, pred, succ, rs1, rd),
        Ins::FenceI { imm, rs1, rd } => i_form(0x0f, rd, 1, rs1, imm as u32),
        Ins::Ecall => 0x0000_0073,
        Ins::Ebreak => 0x0010_0073,
    }
}

fn reg_word(op: RegOp, rd: u8, rs1: u8, rs2: u8) -> u32
    requires rd { IsRegister rd }
    requires rs1 { IsRegister rs1 }
    requires rs2 { IsRegister rs2 }
    ensures { Table result (Ins.Reg op rd rs1 rs2) }
{
    let row = reg_row(op);
    r_form(row.opcode, rd, row.funct3, rs1, rs2, row.funct7)
}

fn imm_word(op: ImmOp, rd: u8, rs1: u8, imm: i32) -> u32
    requires rd { IsRegister rd }
    requires rs1 { IsRegister rs1 }
    requires imm { ImmediateInRange op imm }
    ensures { Table result (Ins.Imm op rd rs1 imm) }
{
    let row = imm_row(op);
    i_form(row.opcode, rd, row.funct3, rs1, immediate_bits(op, imm))
}

/// Bits 31:20 of an operation of OP-IMM or OP-IMM-32.
fn immediate_bits(op: ImmOp, imm: i32) -> u32
    requires { ImmediateInRange op imm }
    ensures bound { result < 4096 }
    ensures held { (word : ℕ) → field word 20 12 ≡ result → IsImmediate op word imm }
{
    match op {
        ImmOp::Slli | ImmOp::Srli | ImmOp::Slliw | ImmOp::Srliw => imm as u32,
        ImmOp::Srai | ImmOp::Sraiw => 0x400 + imm as u32,
        _ => bits_of(1 << 11, imm),
    }
}

/// The letters of an operation of AMO: W or D in funct3, aq and rl below funct5.
fn atomic_word(op: AtomicOp, wide: bool, aq: bool, rl: bool, rd: u8, rs1: u8, rs2: u8) -> u32
    requires rd { IsRegister rd }
    requires rs1 { IsRegister rs1 }
    requires rs2 { IsRegister rs2 }
    requires source { MayHaveSource op rs2 }
    ensures { Table result (Ins.Atomic op wide aq rl rd rs1 rs2) }
{
    let funct3 = if wide { 3 } else { 2 };
    let order = ((aq as u32) << 1) + rl as u32;
    r_form(0x2f, rd, funct3, rs1, rs2, (atomic_funct5(op) << 2) + order)
}

fn fence_word(fm: u8, pred: u8, succ: u8, rs1: u8, rd: u8) -> u32
    requires fm { fm < 16 }
    requires pred { pred < 16 }
    requires succ { succ < 16 }
    requires rs1 { IsRegister rs1 }
    requires rd { IsRegister rd }
    ensures { Table result (Ins.Fence fm pred succ rs1 rd) }
{
    let orders = ((fm as u32) << 8) + ((pred as u32) << 4) + succ as u32;
    i_form(0x0f, rd, 0, rs1, orders)
}

/// Bits 6:0, 11:7 and 31:12 put together.
fn u_form(opcode: u32, rd: u8, top: u32) -> u32
    requires opcode { opcode < 128 }
    requires rd { IsRegister rd }
    requires top { top < 2 ^ 20 }
    ensures opcode { opcode_of result ≡ opcode }
    ensures rd { rd ≡ rd_of result }
    ensures top { top ≡ u_top result }
{
    opcode + ((rd as u32) << 7) + (top << 12)
}

/// Form U with funct3 and rs1 below twelve bits of its top.
fn i_form(opcode: u32, rd: u8, funct3: u32, rs1: u8, high: u32) -> u32
    requires opcode { opcode < 128 }
    requires rd { IsRegister rd }
    requires funct3 { funct3 < 8 }
    requires rs1 { IsRegister rs1 }
    requires high { high < 4096 }
    ensures opcode { opcode_of result ≡ opcode }
    ensures rd { rd ≡ rd_of result }
    ensures funct3 { funct3_of result ≡ funct3 }
    ensures rs1 { rs1 ≡ rs1_of result }
    ensures high { field result 20 12 ≡ high }
{
    u_form(opcode, rd, funct3 + ((rs1 as u32) << 3) + (high << 8))
}

fn r_form(opcode: u32, rd: u8, funct3: u32, rs1: u8, rs2: u8, funct7: u32) -> u32
    requires opcode { opcode < 128 }
    requires rd { IsRegister rd }
    requires funct3 { funct3 < 8 }
    requires rs1 { IsRegister rs1 }
    requires rs2 { IsRegister rs2 }
    requires funct7 { funct7 < 128 }
    ensures opcode { opcode_of result ≡ opcode }
    ensures rd { rd ≡ rd_of result }
    ensures funct3 { funct3_of result ≡ funct3 }
    ensures rs1 { rs1 ≡ rs1_of result }
    ensures rs2 { rs2 ≡ rs2_of result }
    ensures funct7 { funct7_of result ≡ funct7 }
{
    i_form(opcode, rd, funct3, rs1, rs2 as u32 + (funct7 << 5))
}

/// The bits of a signed number whose top bit weighs `half`, in two's complement.
fn bits_of(half: u32, n: i32) -> u32
    requires size { half ≤ 2 ^ 20 }
    requires low { neg_ℤ (pos half) ≤ℤ n }
    requires high { n <ℤ pos half }
    ensures below { result < 2 * half }
    ensures value { n ≡ signed_at half result }
    ensures even { half % 2 ≡ 0 → IsEven n → result % 2 ≡ 0 }
{
    if n < 0 {
        (n + 2 * half as i32) as u32
    } else {
        n as u32
    }
}

fn s_form(opcode: u32, funct3: u32, rs1: u8, rs2: u8, off: i32) -> u32
    requires opcode { opcode < 128 }
    requires funct3 { funct3 < 8 }
    requires rs1 { IsRegister rs1 }
    requires rs2 { IsRegister rs2 }
    requires off { IsTwelveBits off }
    ensures opcode { opcode_of result ≡ opcode }
    ensures funct3 { funct3_of result ≡ funct3 }
    ensures rs1 { rs1 ≡ rs1_of result }
    ensures rs2 { rs2 ≡ rs2_of result }
    ensures off { off ≡ s_immediate result }
{
    let bits = bits_of(1 << 11, off);
    r_form(
        opcode,
        field(bits, 0, 5) as u8,
        funct3,
        rs1,
        rs2,
        field(bits, 5, 7),
    )
}

fn b_form(opcode: u32, funct3: u32, rs1: u8, rs2: u8, off: i32) -> u32
    requires opcode { opcode < 128 }
    requires funct3 { funct3 < 8 }
    requires rs1 { IsRegister rs1 }
    requires rs2 { IsRegister rs2 }
    requires off { IsBranchOffset off }
    ensures opcode { opcode_of result ≡ opcode }
    ensures funct3 { funct3_of result ≡ funct3 }
    ensures rs1 { rs1 ≡ rs1_of result }
    ensures rs2 { rs2 ≡ rs2_of result }
    ensures off { off ≡ b_immediate result }
{
    let bits = bits_of(1 << 12, off);
    let low = (field(bits, 1, 4) << 1) + field(bits, 11, 1);
    let high = (field(bits, 12, 1) << 6) + field(bits, 5, 6);
    r_form(opcode, low as u8, funct3, rs1, rs2, high)
}

fn j_form(opcode: u32, rd: u8, off: i32) -> u32
    requires opcode { opcode < 128 }
    requires rd { IsRegister rd }
    requires off { IsJumpOffset off }
    ensures opcode { opcode_of result ≡ opcode }
    ensures rd { rd ≡ rd_of result }
    ensures off { off ≡ j_immediate result }
{
    let bits = bits_of(1 << 20, off);
    let low = (field(bits, 11, 1) << 8) + field(bits, 12, 8);
    u_form(
        opcode,
        rd,
        (field(bits, 20, 1) << 19) + (field(bits, 1, 10) << 9) + low,
    )
}
