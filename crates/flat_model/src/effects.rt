//! What an instruction does to the hart that carries it out, and what it asks of what the harts share.

use crate::events::{Ending, FaultKind};
use crate::instructions::{AtomicOp, LoadOp, StoreOp};

/// What becomes of a hart by its instruction.
#[derive(Clone, Copy, Debug, PartialEq, Eq)]
pub enum Done {
    /// It goes on at `target` with `value` in the register `rd`.
    Goes { rd: u8, value: u64, target: u64 },
    /// It faults: its pc and registers stay.
    Fails { kind: FaultKind },
    /// It ends by a service.
    Leaves { ending: Ending },
}

/// What an instruction does by itself, or what it asks of what the harts share.
#[derive(Clone, Copy, Debug, PartialEq, Eq)]
pub enum Effect {
    /// It touches nothing that is shared.
    Does {
        done: Done,
    },
    /// A load from `addr` to the register `rd`.
    Loads {
        op: LoadOp,
        rd: u8,
        addr: u64,
    },
    /// A store of the low bytes of `value` at `addr`.
    Stores {
        op: StoreOp,
        addr: u64,
        value: u64,
    },
    /// An LR, SC or AMO at `addr`, of 8 bytes where `wide` and else of 4: `value` is that of rs2.
    Operates {
        op: AtomicOp,
        wide: bool,
        rd: u8,
        addr: u64,
        value: u64,
    },
    /// An ECALL.
    Calls,
}
