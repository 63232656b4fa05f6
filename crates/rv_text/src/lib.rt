//! The text of instructions.
#![tactic(auto)]

pub use lines::{hex, line};

mod lines;
mod names;
mod operands;
