//! Whole runs.
#![tactic(auto)]

pub use finishing::finish;
pub use installs::first_refused;
pub use running::run;
pub use starting::{Started, start};

mod finishing;
mod installs;
mod running;
mod settling;
mod starting;
