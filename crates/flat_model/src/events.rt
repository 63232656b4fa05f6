//! What a hart's steps tell.

/// Why a fault ended a hart. `docs/guest-machine.md`, "Faults", has the rules.
#[derive(Clone, Copy, Debug, PartialEq, Eq)]
pub enum FaultKind {
    /// No executable region holds the four bytes at pc.
    Fetch,
    /// The word at pc is outside RV64IMA.
    Illegal,
    /// A jump or a taken branch to a target that is not a multiple of 4.
    MisalignedJump,
    /// An LR, SC or AMO at an address that is not naturally aligned.
    MisalignedAtomic,
    /// A load or LR that is not permitted.
    Load,
    /// A store, SC or AMO that is not permitted.
    Store,
    /// EBREAK.
    Break,
}

/// How a hart ended.
#[derive(Clone, Copy, Debug, PartialEq, Eq)]
pub enum Ending {
    /// The service `exit`, with the hart's exit code.
    Exited(i32),
    /// The service `exit_group`, which this hart called.
    Group,
    /// A fault at `pc`.
    Fault { kind: FaultKind, pc: u64 },
    /// The hart made as many steps as its limit allows.
    Limit,
}

/// The class of an instruction word, as filters name it.
#[derive(Clone, Copy, Debug, PartialEq, Eq)]
pub enum Class {
    Alu,
    MulDiv,
    Load,
    Store,
    Branch,
    Jump,
    Atomic,
    System,
    Illegal,
}

/// One kind of event with its numbers. `docs/events.md` says when each comes.
#[derive(Clone, Copy, Debug, PartialEq, Eq)]
pub enum What {
    /// The hart's first step.
    Init,
    /// A block of `n` words starts at `pc`.
    Block {
        pc: u64,
        n: u32,
    },
    /// The instruction `word` at `pc`.
    Insn {
        pc: u64,
        word: u32,
    },
    /// An access of `2 ^ shift` bytes at `addr` by the instruction at `pc`. `rw` is 1 for a load or LR, 2 for a store or
    /// SC and 3 for an AMO. `read` has the raw bits that were read, or 0 where `rw` is 2, and `written` those that were
    /// written, or 0 where `rw` is 1. `signed` is true for LB, LH, LW, LR.W and the W forms of the AMOs.
    Mem {
        pc: u64,
        addr: u64,
        shift: u8,
        signed: bool,
        rw: u8,
        read: u64,
        written: u64,
    },
    /// A service is called: its number is a7.
    Sys {
        number: u64,
        a0: u64,
        a1: u64,
        a2: u64,
    },
    /// A service has answered `result` in a0.
    SysRet {
        number: u64,
        result: u64,
    },
    /// The hart has ended.
    Exit {
        ending: Ending,
    },
}

/// An event of a hart.
#[derive(Clone, Copy, Debug, PartialEq, Eq)]
pub struct Event {
    /// The hart, from 0.
    pub hart: u8,
    /// The number of the hart's step that gave the event, from 1.
    pub step: u64,
    pub what: What,
}
