//! The names of the operations, in lower case.

ghost use Rattle.std.specs.Prelude.{◌≡◌};
ghost use Rattle.rv_text.specs.Line.{branch_name, load_name, store_name, imm_name, reg_name, atomic_name, width_suffix, order_suffix};

use flat_model::{AtomicOp, BranchOp, ImmOp, LoadOp, RegOp, StoreOp};

pub(crate) fn branch_name(op: BranchOp) -> &'static str
    ensures { result.now ≡ branch_name op }
{
    match op {
        BranchOp::Beq => "beq",
        BranchOp::Bne => "bne",
        BranchOp::Blt => "blt",
        BranchOp::Bge => "bge",
        BranchOp::Bltu => "bltu",
        BranchOp::Bgeu => "bgeu",
    }
}

pub(crate) fn load_name(op: LoadOp) -> &'static str
    ensures { result.now ≡ load_name op }
{
    match op {
        LoadOp::Lb => "lb",
        LoadOp::Lh => "lh",
        LoadOp::Lw => "lw",
        LoadOp::Ld => "ld",
        LoadOp::Lbu => "lbu",
        LoadOp::Lhu => "lhu",
        LoadOp::Lwu => "lwu",
    }
}

pub(crate) fn store_name(op: StoreOp) -> &'static str
    ensures { result.now ≡ store_name op }
{
    match op {
        StoreOp::Sb => "sb",
        StoreOp::Sh => "sh",
        StoreOp::Sw => "sw",
        StoreOp::Sd => "sd",
    }
}

pub(crate) fn imm_name(op: ImmOp) -> &'static str
    ensures { result.now ≡ imm_name op }
{
    match op {
        ImmOp::Addi => "addi",
        ImmOp::Slti => "slti",
        ImmOp::Sltiu => "sltiu",
        ImmOp::Xori => "xori",
        ImmOp::Ori => "ori",
        ImmOp::Andi => "andi",
        ImmOp::Slli => "slli",
        ImmOp::Srli => "srli",
        ImmOp::Srai => "srai",
        ImmOp::Addiw => "addiw",
        ImmOp::Slliw => "slliw",
        ImmOp::Srliw => "srliw",
        ImmOp::Sraiw => "sraiw",
    }
}

pub(crate) fn reg_name(op: RegOp) -> &'static str
    ensures { result.now ≡ reg_name op }
{
    match op {
        RegOp::Add => "add",
        RegOp::Sub => "sub",
        RegOp::Sll => "sll",
        RegOp::Slt => "slt",
        RegOp::Sltu => "sltu",
        RegOp::Xor => "xor",
        RegOp::Srl => "srl",
        RegOp::Sra => "sra",
        RegOp::Or => "or",
        RegOp::And => "and",
        RegOp::Mul => "mul",
        RegOp::Mulh => "mulh",
        RegOp::Mulhsu => "mulhsu",
        RegOp::Mulhu => "mulhu",
        RegOp::Div => "div",
        RegOp::Divu => "divu",
        RegOp::Rem => "rem",
        RegOp::Remu => "remu",
        RegOp::Addw => "addw",
        RegOp::Subw => "subw",
        RegOp::Sllw => "sllw",
        RegOp::Srlw => "srlw",
        RegOp::Sraw => "sraw",
        RegOp::Mulw => "mulw",
        RegOp::Divw => "divw",
        RegOp::Divuw => "divuw",
        RegOp::Remw => "remw",
        RegOp::Remuw => "remuw",
    }
}

pub(crate) fn atomic_name(op: AtomicOp) -> &'static str
    ensures { result.now ≡ atomic_name op }
{
    match op {
        AtomicOp::Lr => "lr",
        AtomicOp::Sc => "sc",
        AtomicOp::Swap => "amoswap",
        AtomicOp::Add => "amoadd",
        AtomicOp::Xor => "amoxor",
        AtomicOp::And => "amoand",
        AtomicOp::Or => "amoor",
        AtomicOp::Min => "amomin",
        AtomicOp::Max => "amomax",
        AtomicOp::Minu => "amominu",
        AtomicOp::Maxu => "amomaxu",
    }
}

pub(crate) fn width_suffix(wide: bool) -> &'static str
    ensures { result.now ≡ width_suffix wide }
{
    if wide { ".d" } else { ".w" }
}

pub(crate) fn order_suffix(aq: bool, rl: bool) -> &'static str
    ensures { result.now ≡ order_suffix aq rl }
{
    match (aq, rl) {
        (true, true) => ".aqrl",
        (true, false) => ".aq",
        (false, true) => ".rl",
        (false, false) => "",
    }
}
