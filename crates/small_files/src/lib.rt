//! Small ELF files of instruction words, for tests.
#![tactic(auto)]

pub use files::{
    CODE, DATA, ECALL, EXIT_0, EXIT_3, NOP, Segment, all_words, elf, file_of, in_four_segments,
    nops_and_exit, with_data,
};

mod files;
