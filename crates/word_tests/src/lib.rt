//! Words of the command line: tests alone.
#![tactic(auto)]

#[cfg(test)]
mod command_tests;
