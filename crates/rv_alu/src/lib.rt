//! What the instructions of RV64IMA compute, on registers as unsigned 64-bit numbers (RISC-V Unprivileged ISA
//! 20191213, sections 2.4, 2.5 and 5.2, and chapters 7 and 8).
//! `flat_model`'s `specs/Arithmetic.antt` has the definitions that the contracts cite.
#![tactic(auto)]

pub use access::{atomic_shift, load_shift, load_signed, low_bytes};
pub use atomics::{amo_result, atomic_result};
pub use branches::branch_taken;
pub use loads::load_result;
pub use operations::{imm_result, reg_result};
pub use words::{plus_signed, word_extended};

mod access;
mod atomics;
mod branches;
mod division;
mod loads;
mod multiplication;
mod operations;
mod words;
