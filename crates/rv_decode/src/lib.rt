//! Words of RV64IMA to instructions and back (RISC-V Unprivileged ISA 20191213, chapter 24).
//! `flat_model`'s `specs/Instruction.antt` has the table that the contracts cite.
#![tactic(auto)]

pub use classes::{class_of, ends_block, word_class};
pub use decoding::decode;
pub use encoding::encode;
pub use laws::{class_is_by_opcode, decoded_is_table, no_instruction_is_two, no_word_is_two};

mod classes;
mod columns;
mod decoding;
mod encoding;
mod fields;
mod laws;
mod rows;
