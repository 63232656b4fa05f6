//! Runs of steps with what the harts share: what a hart does from a word of a block on, until it leaves the block or ends.
#![tactic(auto)]

pub use runs::shared_run;

mod runs;
