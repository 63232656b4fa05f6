//! Replays: what a journal says of the harts, made again on one thread.
#![tactic(auto)]

pub use berths::Berth;
pub use replaying::replay;
pub use replays::{Followed, Replay};

mod asking;
mod backing;
mod berths;
mod following;
mod judging;
mod leaving;
mod lines;
mod looking;
mod opening;
mod ordering;
mod places;
mod placing;
mod replaying;
mod replays;
mod same_sets;
mod starting;
mod stepping;
mod telling;
mod turning;
