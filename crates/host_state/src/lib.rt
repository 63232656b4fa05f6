//! What the harts of a run share: the guest's memory and services, the plug-ins, the journal, and the boxes on their way.
#![tactic(auto)]

pub use closing::Closing;
pub use specs::Specs;
pub use states::HostState;
pub use tasks::Task;

mod arrivals;
mod asking;
mod attaching;
mod closing;
mod committing;
mod idling;
mod leaving;
mod opening;
mod ordering;
mod reading;
mod recording;
mod returning;
mod rooms;
mod scripting;
mod specs;
mod states;
mod summing;
mod tables;
mod tallying;
mod tasks;
mod turning;
mod wholeness;
