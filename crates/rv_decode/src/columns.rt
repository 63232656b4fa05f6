//! The operation that stands in a row of the instruction listings, by the columns of its opcode.

ghost use Rattle.std.specs.Prelude.{◌≡◌, ◌<◌, ◌^◌};
ghost use Rattle.flat_model.specs.Rows.{branch_op, load_op, store_op, imm_op, word_imm_op, base_op, other_op, muldiv_op, reg_op};
ghost use Rattle.flat_model.specs.Rows.{word_base_op, word_other_op, word_muldiv_op, word_reg_op, atomic_op, wide_at};

use flat_model::{AtomicOp, BranchOp, ImmOp, LoadOp, RegOp, StoreOp};

pub(crate) fn branch_op(funct3: u32) -> Option<BranchOp>
    ensures { result ≡ branch_op funct3 }
{
    match funct3 {
        0 => Some(BranchOp::Beq),
        1 => Some(BranchOp::Bne),
        4 => Some(BranchOp::Blt),
        5 => Some(BranchOp::Bge),
        6 => Some(BranchOp::Bltu),
        7 => Some(BranchOp::Bgeu),
        _ => None,
    }
}

pub(crate) fn load_op(funct3: u32) -> Option<LoadOp>
    ensures { result ≡ load_op funct3 }
{
    match funct3 {
        0 => Some(LoadOp::Lb),
        1 => Some(LoadOp::Lh),
        2 => Some(LoadOp::Lw),
        3 => Some(LoadOp::Ld),
        4 => Some(LoadOp::Lbu),
        5 => Some(LoadOp::Lhu),
        6 => Some(LoadOp::Lwu),
        _ => None,
    }
}

pub(crate) fn store_op(funct3: u32) -> Option<StoreOp>
    ensures { result ≡ store_op funct3 }
{
    match funct3 {
        0 => Some(StoreOp::Sb),
        1 => Some(StoreOp::Sh),
        2 => Some(StoreOp::Sw),
        3 => Some(StoreOp::Sd),
        _ => None,
    }
}

/// Of OP-IMM. `high` is bits 31:26.
pub(crate) fn imm_op(funct3: u32, high: u32) -> Option<ImmOp>
    ensures { result ≡ imm_op funct3 high }
{
    match (funct3, high) {
        (0, _) => Some(ImmOp::Addi),
        (1, 0x00) => Some(ImmOp::Slli),
        (2, _) => Some(ImmOp::Slti),
        (3, _) => Some(ImmOp::Sltiu),
        (4, _) => Some(ImmOp::Xori),
        (5, 0x00) => Some(ImmOp::Srli),
        (5, 0x10) => Some(ImmOp::Srai),
        (6, _) => Some(ImmOp::Ori),
        (7, _) => Some(ImmOp::Andi),
        _ => None,
    }
}

/// Of OP-IMM-32.
pub(crate) fn word_imm_op(funct3: u32, funct7: u32) -> Option<ImmOp>
    ensures { result ≡ word_imm_op funct3 funct7 }
{
    match (funct3, funct7) {
        (0, _) => Some(ImmOp::Addiw),
        (1, 0x00) => Some(ImmOp::Slliw),
        (5, 0x00) => Some(ImmOp::Srliw),
        (5, 0x20) => Some(ImmOp::Sraiw),
        _ => None,
    }
}

fn base_op(funct3: u32) -> Option<RegOp>
    ensures { result ≡ base_op funct3 }
{
    match funct3 {
        0 => Some(RegOp::Add),
        1 => Some(RegOp::Sll),
        2 => Some(RegOp::Slt),
        3 => Some(RegOp::Sltu),
        4 => Some(RegOp::Xor),
        5 => Some(RegOp::Srl),
        6 => Some(RegOp::Or),
        7 => Some(RegOp::And),
        _ => None,
    }
}

fn muldiv_op(funct3: u32) -> Option<RegOp>
    ensures { result ≡ muldiv_op funct3 }
{
    match funct3 {
        0 => Some(RegOp::Mul),
        1 => Some(RegOp::Mulh),
        2 => Some(RegOp::Mulhsu),
        3 => Some(RegOp::Mulhu),
        4 => Some(RegOp::Div),
        5 => Some(RegOp::Divu),
        6 => Some(RegOp::Rem),
        7 => Some(RegOp::Remu),
        _ => None,
    }
}

fn other_op(funct3: u32) -> Option<RegOp>
    ensures { result ≡ other_op funct3 }
{
    match funct3 {
        0 => Some(RegOp::Sub),
        5 => Some(RegOp::Sra),
        _ => None,
    }
}

/// Of OP.
pub(crate) fn reg_op(funct7: u32, funct3: u32) -> Option<RegOp>
    ensures { result ≡ reg_op funct7 funct3 }
{
    match funct7 {
        0x00 => base_op(funct3),
        0x01 => muldiv_op(funct3),
        0x20 => other_op(funct3),
        _ => None,
    }
}

fn word_base_op(funct3: u32) -> Option<RegOp>
    ensures { result ≡ word_base_op funct3 }
{
    match funct3 {
        0 => Some(RegOp::Addw),
        1 => Some(RegOp::Sllw),
        5 => Some(RegOp::Srlw),
        _ => None,
    }
}

fn word_muldiv_op(funct3: u32) -> Option<RegOp>
    ensures { result ≡ word_muldiv_op funct3 }
{
    match funct3 {
        0 => Some(RegOp::Mulw),
        4 => Some(RegOp::Divw),
        5 => Some(RegOp::Divuw),
        6 => Some(RegOp::Remw),
        7 => Some(RegOp::Remuw),
        _ => None,
    }
}

fn word_other_op(funct3: u32) -> Option<RegOp>
    ensures { result ≡ word_other_op funct3 }
{
    match funct3 {
        0 => Some(RegOp::Subw),
        5 => Some(RegOp::Sraw),
        _ => None,
    }
}

/// Of OP-32.
pub(crate) fn word_reg_op(funct7: u32, funct3: u32) -> Option<RegOp>
    ensures { result ≡ word_reg_op funct7 funct3 }
{
    match funct7 {
        0x00 => word_base_op(funct3),
        0x01 => word_muldiv_op(funct3),
        0x20 => word_other_op(funct3),
        _ => None,
    }
}

/// Of AMO: LR stands with rs2 0 alone.
pub(crate) fn atomic_op(funct5: u32, rs2: u8) -> Option<AtomicOp>
    ensures { result ≡ atomic_op funct5 rs2 }
{
    match (funct5, rs2) {
        (0x00, _) => Some(AtomicOp::Add),
        (0x01, _) => Some(AtomicOp::Swap),
        (0x02, 0) => Some(AtomicOp::Lr),
        (0x03, _) => Some(AtomicOp::Sc),
        (0x04, _) => Some(AtomicOp::Xor),
        (0x08, _) => Some(AtomicOp::Or),
        (0x0c, _) => Some(AtomicOp::And),
        (0x10, _) => Some(AtomicOp::Min),
        (0x14, _) => Some(AtomicOp::Max),
        (0x18, _) => Some(AtomicOp::Minu),
        (0x1c, _) => Some(AtomicOp::Maxu),
        _ => None,
    }
}

/// Of AMO, by funct3: true for doublewords.
pub(crate) fn wide_at(funct3: u32) -> Option<bool>
    ensures { result ≡ wide_at funct3 }
{
    match funct3 {
        2 => Some(false),
        3 => Some(true),
        _ => None,
    }
}
