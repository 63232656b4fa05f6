//! The instructions of RV64IMA (RISC-V Unprivileged ISA 20191213, chapters RV32I, RV64I, Zifencei, M and A).

/// The conditional branches of opcode BRANCH.
#[derive(Clone, Copy, Debug, PartialEq, Eq)]
pub enum BranchOp {
    Beq,
    Bne,
    Blt,
    Bge,
    Bltu,
    Bgeu,
}

/// The loads of opcode LOAD.
#[derive(Clone, Copy, Debug, PartialEq, Eq)]
pub enum LoadOp {
    Lb,
    Lh,
    Lw,
    Ld,
    Lbu,
    Lhu,
    Lwu,
}

/// The stores of opcode STORE.
#[derive(Clone, Copy, Debug, PartialEq, Eq)]
pub enum StoreOp {
    Sb,
    Sh,
    Sw,
    Sd,
}

/// The operations of OP-IMM and OP-IMM-32.
#[derive(Clone, Copy, Debug, PartialEq, Eq)]
pub enum ImmOp {
    Addi,
    Slti,
    Sltiu,
    Xori,
    Ori,
    Andi,
    Slli,
    Srli,
    Srai,
    Addiw,
    Slliw,
    Srliw,
    Sraiw,
}

/// The operations of OP and OP-32.
#[derive(Clone, Copy, Debug, PartialEq, Eq)]
pub enum RegOp {
    Add,
    Sub,
    Sll,
    Slt,
    Sltu,
    Xor,
    Srl,
    Sra,
    Or,
    And,
    Mul,
    Mulh,
    Mulhsu,
    Mulhu,
    Div,
    Divu,
    Rem,
    Remu,
    Addw,
    Subw,
    Sllw,
    Srlw,
    Sraw,
    Mulw,
    Divw,
    Divuw,
    Remw,
    Remuw,
}

/// The operations of opcode AMO.
#[derive(Clone, Copy, Debug, PartialEq, Eq)]
pub enum AtomicOp {
    Lr,
    Sc,
    Swap,
    Add,
    Xor,
    And,
    Or,
    Min,
    Max,
    Minu,
    Maxu,
}

/// An instruction with its fields. Registers are below 32; offsets and immediates are signed, in bytes
/// where they are offsets.
#[derive(Clone, Copy, Debug, PartialEq, Eq)]
pub enum Ins {
    /// `top` is the 20-bit field of form U.
    Lui {
        rd: u8,
        top: u32,
    },
    /// `top` is the 20-bit field of form U.
    Auipc {
        rd: u8,
        top: u32,
    },
    Jal {
        rd: u8,
        off: i32,
    },
    Jalr {
        rd: u8,
        rs1: u8,
        off: i32,
    },
    Branch {
        op: BranchOp,
        rs1: u8,
        rs2: u8,
        off: i32,
    },
    Load {
        op: LoadOp,
        rd: u8,
        rs1: u8,
        off: i32,
    },
    Store {
        op: StoreOp,
        rs1: u8,
        rs2: u8,
        off: i32,
    },
    /// A shift has its amount in `imm`.
    Imm {
        op: ImmOp,
        rd: u8,
        rs1: u8,
        imm: i32,
    },
    Reg {
        op: RegOp,
        rd: u8,
        rs1: u8,
        rs2: u8,
    },
    /// `wide` is true for the D forms, of 8 bytes.
    Atomic {
        op: AtomicOp,
        wide: bool,
        aq: bool,
        rl: bool,
        rd: u8,
        rs1: u8,
        rs2: u8,
    },
    Fence {
        fm: u8,
        pred: u8,
        succ: u8,
        rs1: u8,
        rd: u8,
    },
    FenceI {
        imm: u16,
        rs1: u8,
        rd: u8,
    },
    Ecall,
    Ebreak,
}
