//! The outside of the program: files that are read and written by name, and sinks that take bytes.
//!
//! A caller knows a fault only by a count, which the traits' contracts tie to each refusal. `MemFiles` and
//! `MemSink` keep their contents in memory and tell them; `RealFiles` and `RealSink` are the trusted edge
//! over std and tell none.
#![tactic(auto)]

pub use files::{FileFault, Files};
pub use memory::{MemFiles, MemSink};
pub use real::{RealFiles, RealSink, read_whole, write_whole};
pub use sinks::{Failed, Sink, put_pieces};

mod calls;
mod files;
mod memory;
mod real;
mod sinks;
