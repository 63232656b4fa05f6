//! The guest's memory: bytes with permissions, and the reservations of LR and SC
//! (RISC-V Unprivileged ISA 20191213, 8.2).
#![tactic(auto)]

pub use memory::{Denied, Memory};
pub use regions::Near;

mod bytes;
mod memory;
mod opening;
mod regions;
mod reservations;
