//! The rows of each kind, from a list of events and from a stock box that heard it: tests alone.
#![tactic(auto)]

#[cfg(test)]
mod row_tests;
