//! The harts of the flat machine, a step at a time.
#![tactic(auto)]

pub use harts::{Hart, HartStart};
pub use laws::{blocks_follow, events_are_of_their_step};
pub use raw_logs::RawLog;
pub use services::Services;
pub use steps::{Private, coded_step, private_step, shared_step};

mod accesses;
mod atomics;
mod calls;
mod effects;
mod endings;
mod harts;
mod laws;
mod raw_logs;
mod services;
mod steps;
