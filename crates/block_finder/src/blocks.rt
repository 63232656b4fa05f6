//! A block of code, and what each of its words is.

ghost use Rattle.std.specs.Prelude.{◌≡◌, true};
ghost use Rattle.std.specs.Option.{option_map_or};
ghost use Rattle.flat_model.specs.Instruction.{ends_block};

use flat_model::{Class, Ins};
use rv_decode::ends_block;
use std::marker::Model;

/// A word of a block.
#[derive(Clone, Copy, Debug)]
pub struct Site {
    /// The word's address, in bytes.
    pub pc: u64,
    pub word: u32,
    /// The word's instruction; `None` where the word is illegal.
    pub ins: Option<Ins>,
    /// The word's class; `Illegal` where it has no instruction.
    pub class: Class,
}

impl Site {
    /// Whether a block ends with this word: it is illegal, or its instruction is a branch, a jump, ECALL or EBREAK.
    pub fn ends_block(&self) -> bool
        ensures { result ≡ option_map_or ends_block self.now.ins true }
    {
        match &self.ins {
            Some(ins) => ends_block(ins),
            None => true,
        }
    }
}

/// A block of code.
#[derive(Debug, Drop)]
pub struct Block {
    /// The address of the first word, in bytes.
    pub pc: u64,
    /// How many words the block has: at most 512, and 0 where the word at `pc` is absent.
    pub n: u32,
    /// The words, from the first on.
    pub sites: Vec<Site>,
}

impl Model for Block {
    ghost use Rattle.block_finder.specs.Block.{Stretch};

    ghost Value = { Stretch };

    ghost view = { λ a. record { pc = a.pc; n = a.n; sites = a.sites.items } };
}
