//! Runs of private steps: what a hart does by itself, without the memory and the services, up to a step that needs them.
#![tactic(auto)]

pub use runs::private_run;

mod runs;
