//! What holds of the table for every word, stated on functions that do nothing.

ghost use Rattle.flat_model.specs.Instruction.{DecodedIsTable, NoWordIsTwo, NoInstructionIsTwo, ClassIsByOpcode};

/// A word's instruction as it is computed is the one that the table has for it, and none where it has none.
pub fn decoded_is_table()
    ensures { DecodedIsTable }
{}

/// No word is two instructions.
pub fn no_word_is_two()
    ensures { NoWordIsTwo }
{}

/// No instruction is two words.
pub fn no_instruction_is_two()
    ensures { NoInstructionIsTwo }
{}

/// The class of a word in the table is that of its opcode and funct7.
pub fn class_is_by_opcode()
    ensures { ClassIsByOpcode }
{}
