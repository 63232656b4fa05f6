//! The words of the command line, read as a command. `docs/command-line.md` has the grammar.
#![tactic(auto)]

pub use commands::Command;
pub use numbers::GENERATED_MOST;
pub use reading::command;
pub use values::RunOptions;

mod commands;
mod numbers;
mod parts;
mod reading;
mod values;
mod words;
