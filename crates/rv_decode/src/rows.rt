//! The numbers of each operation's row of the instruction listings.

ghost use Rattle.std.specs.Prelude.{◌≡◌, ◌<◌};
ghost use Rattle.flat_model.specs.Rows.{branch_funct3, load_funct3, store_funct3, imm_row, reg_row, atomic_funct5};

use flat_model::{AtomicOp, BranchOp, ImmOp, LoadOp, RegOp, StoreOp};

pub(crate) fn branch_funct3(op: BranchOp) -> u32
    ensures value { result ≡ branch_funct3 op }
    ensures bound { result < 8 }
{
    match op {
        BranchOp::Beq => 0,
        BranchOp::Bne => 1,
        BranchOp::Blt => 4,
        BranchOp::Bge => 5,
        BranchOp::Bltu => 6,
        BranchOp::Bgeu => 7,
    }
}

pub(crate) fn load_funct3(op: LoadOp) -> u32
    ensures value { result ≡ load_funct3 op }
    ensures bound { result < 8 }
{
    match op {
        LoadOp::Lb => 0,
        LoadOp::Lh => 1,
        LoadOp::Lw => 2,
        LoadOp::Ld => 3,
        LoadOp::Lbu => 4,
        LoadOp::Lhu => 5,
        LoadOp::Lwu => 6,
    }
}

pub(crate) fn store_funct3(op: StoreOp) -> u32
    ensures value { result ≡ store_funct3 op }
    ensures bound { result < 8 }
{
    match op {
        StoreOp::Sb => 0,
        StoreOp::Sh => 1,
        StoreOp::Sw => 2,
        StoreOp::Sd => 3,
    }
}

pub(crate) fn atomic_funct5(op: AtomicOp) -> u32
    ensures value { result ≡ atomic_funct5 op }
    ensures bound { result < 32 }
{
    match op {
        AtomicOp::Add => 0x00,
        AtomicOp::Swap => 0x01,
        AtomicOp::Lr => 0x02,
        AtomicOp::Sc => 0x03,
        AtomicOp::Xor => 0x04,
        AtomicOp::Or => 0x08,
        AtomicOp::And => 0x0c,
        AtomicOp::Min => 0x10,
        AtomicOp::Max => 0x14,
        AtomicOp::Minu => 0x18,
        AtomicOp::Maxu => 0x1c,
    }
}

/// Opcode and funct3 of an operation of OP-IMM or OP-IMM-32.
#[derive(Clone, Copy)]
pub(crate) struct ImmRow {
    pub(crate) opcode: u32,
    pub(crate) funct3: u32,
}

fn imm_at(opcode: u32, funct3: u32) -> ImmRow
    ensures { result ≡ record { opcode = opcode; funct3 = funct3 } }
{
    ImmRow { opcode, funct3 }
}

pub(crate) fn imm_row(op: ImmOp) -> ImmRow
    ensures opcode { result.opcode ≡ (imm_row op).opcode }
    ensures funct3 { result.funct3 ≡ (imm_row op).funct3 }
    ensures bounds { (result.opcode < 128) × (result.funct3 < 8) }
{
    match op {
        ImmOp::Addi => imm_at(0x13, 0),
        ImmOp::Slli => imm_at(0x13, 1),
        ImmOp::Slti => imm_at(0x13, 2),
        ImmOp::Sltiu => imm_at(0x13, 3),
        ImmOp::Xori => imm_at(0x13, 4),
        ImmOp::Srli | ImmOp::Srai => imm_at(0x13, 5),
        ImmOp::Ori => imm_at(0x13, 6),
        ImmOp::Andi => imm_at(0x13, 7),
        ImmOp::Addiw => imm_at(0x1b, 0),
        ImmOp::Slliw => imm_at(0x1b, 1),
        ImmOp::Srliw | ImmOp::Sraiw => imm_at(0x1b, 5),
    }
}

/// Opcode, funct3 and funct7 of an operation of OP or OP-32.
#[derive(Clone, Copy)]
pub(crate) struct RegRow {
    pub(crate) opcode: u32,
    pub(crate) funct3: u32,
    pub(crate) funct7: u32,
}

/// A row of OP.
fn reg_at(funct3: u32, funct7: u32) -> RegRow
    ensures { result ≡ record { opcode = 0x33; funct3 = funct3; funct7 = funct7 } }
{
    RegRow {
        opcode: 0x33,
        funct3,
        funct7,
    }
}

/// A row of OP-32.
fn word_reg_at(funct3: u32, funct7: u32) -> RegRow
    ensures { result ≡ record { opcode = 0x3b; funct3 = funct3; funct7 = funct7 } }
{
    RegRow {
        opcode: 0x3b,
        funct3,
        funct7,
    }
}

pub(crate) fn reg_row(op: RegOp) -> RegRow
    ensures opcode { result.opcode ≡ (reg_row op).opcode }
    ensures funct3 { result.funct3 ≡ (reg_row op).funct3 }
    ensures funct7 { result.funct7 ≡ (reg_row op).funct7 }
    ensures bounds { (result.opcode < 128) × (result.funct3 < 8) × (result.funct7 < 128) }
{
    match op {
        RegOp::Add => reg_at(0, 0x00),
        RegOp::Sub => reg_at(0, 0x20),
        RegOp::Sll => reg_at(1, 0x00),
        RegOp::Slt => reg_at(2, 0x00),
        RegOp::Sltu => reg_at(3, 0x00),
        RegOp::Xor => reg_at(4, 0x00),
        RegOp::Srl => reg_at(5, 0x00),
        RegOp::Sra => reg_at(5, 0x20),
        RegOp::Or => reg_at(6, 0x00),
        RegOp::And => reg_at(7, 0x00),
        RegOp::Mul => reg_at(0, 0x01),
        RegOp::Mulh => reg_at(1, 0x01),
        RegOp::Mulhsu => reg_at(2, 0x01),
        RegOp::Mulhu => reg_at(3, 0x01),
        RegOp::Div => reg_at(4, 0x01),
        RegOp::Divu => reg_at(5, 0x01),
        RegOp::Rem => reg_at(6, 0x01),
        RegOp::Remu => reg_at(7, 0x01),
        RegOp::Addw => word_reg_at(0, 0x00),
        RegOp::Subw => word_reg_at(0, 0x20),
        RegOp::Sllw => word_reg_at(1, 0x00),
        RegOp::Srlw => word_reg_at(5, 0x00),
        RegOp::Sraw => word_reg_at(5, 0x20),
        RegOp::Mulw => word_reg_at(0, 0x01),
        RegOp::Divw => word_reg_at(4, 0x01),
        RegOp::Divuw => word_reg_at(5, 0x01),
        RegOp::Remw => word_reg_at(6, 0x01),
        RegOp::Remuw => word_reg_at(7, 0x01),
    }
}
