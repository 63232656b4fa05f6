//! Journals as files. `docs/formats.md` has the bytes.
#![tactic(auto)]

pub use heads::{JournalFile, RunHead};
pub use reading::read;
pub use refusal::FileRefusal;
pub use writing::write;

mod fields;
mod heads;
mod plugins;
mod reading;
mod refusal;
mod writing;
