//! The journal of a run: what can be replayed. `docs/journal.md` has its rules.
#![tactic(auto)]

pub use journal::Journal;

mod journal;
pub mod laws;
