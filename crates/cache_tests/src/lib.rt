//! Small caches worked out by hand, and the caches of harts: tests alone.
#![tactic(auto)]

#[cfg(test)]
mod event_tests;
#[cfg(test)]
mod touch_tests;
