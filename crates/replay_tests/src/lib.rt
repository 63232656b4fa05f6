//! Replays of journals over files and sinks in memory: tests alone.
#![tactic(auto)]

#[cfg(test)]
mod replay_tests;
