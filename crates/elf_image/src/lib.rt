//! Loads a static ELF64 file for RV64IMA, or says which rule it breaks first.
//! `specs/Rules.antt` has the rules in their order, by the file's bytes; `load`'s contract is both ways.
#![tactic(auto)]

pub use headers::ProgramHeader;
pub use laws::answers_are_one;
pub use loading::load;
pub use refusals::ImageRefusal;

mod fields;
mod format;
mod headers;
mod laws;
mod loading;
mod refusals;
mod rules;
