//! Merged rows and the lines of a report: tests alone.
#![tactic(auto)]

#[cfg(test)]
mod line_tests;
#[cfg(test)]
mod merge_tests;
