//! The memory of the guest, its words, what its instructions compute, and runs of private steps: tests alone.
#![tactic(auto)]

#[cfg(test)]
mod memory_tests;
#[cfg(test)]
mod operation_tests;
#[cfg(test)]
mod private_run_tests;
#[cfg(test)]
mod word_tests;
