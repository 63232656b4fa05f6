//! The texts of numbers, and the sinks and files that take and give bytes: tests alone.
#![tactic(auto)]

#[cfg(test)]
mod memory_tests;
#[cfg(test)]
mod number_tests;
#[cfg(test)]
mod real_tests;
