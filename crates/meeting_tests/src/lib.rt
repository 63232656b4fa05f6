//! Whole calls with boxes of the caller's own: tests alone.
#![tactic(auto)]

#[cfg(test)]
mod meeters;
#[cfg(test)]
mod meeting_tests;
