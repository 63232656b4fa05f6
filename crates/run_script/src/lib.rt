//! Words that a user writes: plug-in words and scripts. `docs/formats.md` has their spelling.
#![tactic(auto)]

pub use refusals::{ScriptRefusal, ScriptRule, SpecRefusal, SpecRule};
pub use scripts::script;
pub use words::plugin_word;

mod bytes;
mod fields;
mod heads;
mod items;
mod names;
mod numbers;
mod refusals;
mod scripts;
mod words;
