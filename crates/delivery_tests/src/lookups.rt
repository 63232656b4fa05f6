//! How often lists are built.

ghost use Rattle.std.specs.Prelude.{◌≡◌, ◌%◌, IfOk};
ghost use Rattle.block_finder.specs.Block.{IsBlock};
ghost use Rattle.delivery_tests.specs.Kept.{AreFor};

use crate::guests::{ROUNDS, image_of};
use crate::unstored::adding;
use block_finder::{Block, block_is_one, find};
use flat_model::{Image, NoMemory, SetSpec};
use instr_lists::ListCache;
use std::alloc::Global;
use std::test::Fail;

// Looks the list of the block at `pc` up, once.
#[tactic(auto, using(crate::proofs::Kept::serves, crate::proofs::Kept::are_then))]
fn look_up(
    image: &Image,
    block: &Block,
    generation: u64,
    sets: &[(u8, SetSpec)],
    lists: &mut ListCache,
) -> Result<(), NoMemory>
    requires block { IsBlock image.now block.now.pc block.now }
    requires lists { AreFor image.now sets.now lists.old }
    ensures lists { AreFor image.now sets.now lists.new }
{
    block_is_one();
    lists.lookup(generation, block, sets)?;
    Ok(())
}

// The numbers of lists that were built, after a thousand look-ups of one block, one of a later generation, and one of
// another block.
fn made(alloc: Global, image: &Image) -> Result<[u64; 3], NoMemory> {
    let first = find(alloc, image, 0x10008)?;
    let second = find(alloc, image, 0x10028)?;
    let sets = [(1u8, adding(alloc)?)];
    let mut lists = ListCache::new(alloc)?;
    let mut made = [0; 3];
    for _ in 0..1000 {
        look_up(image, &first, 0, &sets, &mut lists)?;
    }
    made[0] = lists.made();
    look_up(image, &first, 1, &sets, &mut lists)?;
    made[1] = lists.made();
    look_up(image, &second, 1, &sets, &mut lists)?;
    made[2] = lists.made();
    Ok(made)
}

#[test]
fn a_list_is_built_once_for_a_block_and_a_generation(rt: HostRuntime) -> Result<(), Fail> {
    let image = image_of(rt.alloc(), &ROUNDS)?;
    assert_eq!(rt; made(rt.alloc(), &image)?, [1, 2, 3]);
    Ok(())
}
