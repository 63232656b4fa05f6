//! Programs for large input: an ELF file for each number, whose harts add to one sum.
#![tactic(auto)]

pub use laws::one_program;
pub use programs::program;

mod instructions;
mod laws;
mod programs;
