//! Whole calls over files and sinks in memory: tests alone.
#![tactic(auto)]

#[cfg(test)]
mod hart_tests;
#[cfg(test)]
mod listing_tests;
#[cfg(test)]
mod output_tests;
#[cfg(test)]
mod plugin_tests;
#[cfg(test)]
mod refusal_tests;
#[cfg(test)]
mod run_tests;
#[cfg(test)]
mod script_tests;
#[cfg(test)]
mod self_tests;
