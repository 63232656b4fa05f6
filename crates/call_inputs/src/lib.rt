//! What a call reads: the image of its file, the installs of its plug-in words, its script and its journal, or why it is refused.
#![tactic(auto)]

pub use gathering::{ReplayInputs, RunInputs, replay_inputs, run_inputs};
pub use lines::OUT_OF_MEMORY;
pub use reading::image;
pub use refusals::{Input, InstallRefusal, Refusal};

mod gathering;
mod installing;
mod lines;
mod reading;
mod refusals;
