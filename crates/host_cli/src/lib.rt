//! The top call: words to bytes and a status.
#![tactic(auto)]

pub use call_inputs::OUT_OF_MEMORY;
pub use outcomes::{Ended, host};
pub use plain_calls::host_plain;

mod ending;
mod generated;
mod listing;
mod outcomes;
mod plain_calls;
mod refusing;
mod replaying;
mod running;
mod summary;
