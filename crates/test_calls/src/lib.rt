//! Calls of the program on files and sinks in memory, for tests.
#![tactic(auto)]

pub use calls::{Finished, asked, called, called_with, failing_sink, good_sink, only_file, texts};

mod calls;
