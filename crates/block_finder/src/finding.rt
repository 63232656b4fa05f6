//! A block, and how long it is.

ghost use Rattle.std.specs.Prelude.{◌≡◌, ◌%◌, ◌≤◌, IfOk};
ghost use Rattle.flat_model.specs.declared.limits.TheConstants.{BLOCK_WORDS};
ghost use Rattle.flat_model.specs.Blocks.{length_of};
ghost use Rattle.block_finder.specs.Block.{IsBlock};

use crate::blocks::Block;
use crate::walks::Walk;
use flat_model::{Image, NoMemory};
use std::alloc::Global;

/// How many words the block at `pc` has: at most 512, and 0 where the word at `pc` is absent. It takes no memory.
pub fn length(image: &Image, pc: u64) -> u32
    requires aligned { pc % 4 ≡ 0 }
    ensures computed { result ≡ length_of image.now pc }
    ensures most { result ≤ BLOCK_WORDS }
{
    let mut walk = Walk::new(pc);
    while walk.next(image).is_some() {}
    walk.place
}

/// The block at `pc`, as long as the rule of blocks lets it be. Where the word at `pc` is absent it has no words.
/// It takes memory for the block's words alone.
pub fn find(alloc: Global, image: &Image, pc: u64) -> Result<Block, NoMemory>
    requires aligned { pc % 4 ≡ 0 }
    ensures block { IfOk result (IsBlock image.now pc) }
{
    let mut walk = Walk::new(pc);
    let mut sites = Vec::new(alloc);
    while let Some(site) = walk.next(image) {
        sites.push(site)?;
    }
    Ok(Block {
        pc,
        n: walk.place,
        sites,
    })
}
