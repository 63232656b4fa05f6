//! A cache of blocks.

ghost use Rattle.std.specs.Prelude.{◌≡◌, ◌%◌, None, IfOk, IfSome};
ghost use Rattle.std.specs.Borrow.{sem};
ghost use Rattle.block_finder.specs.Block.{IsBlock};
ghost use Rattle.block_finder.specs.Caches.{MayServe};

use crate::blocks::Block;
use crate::kept_blocks::KeptBlocks;
use flat_model::{Image, NoMemory, Trace};
use std::alloc::Global;
use std::marker::Model;

/// A cache of the blocks of one image, up to 1,024 of them. A clause sees the program that it serves; `None` before the
/// first look-up.
#[derive(Drop)]
pub struct BlockCache {
    kept: KeptBlocks,
    serves: Trace<Image>,
}

impl Model for BlockCache {
    ghost use Rattle.std.specs.Prelude.{Option, slice_get};
    ghost use Rattle.flat_model.specs.Image.{Program};
    ghost use Rattle.block_finder.specs.Caches.{IsServing};

    ghost Value = { Option Program };

    ghost view = { λ c. slice_get c.serves.items 0 };

    ghost invariant = { λ c. IsServing (slice_get c.serves.items 0) c.kept.blocks.items };
}

impl BlockCache {
    ghost use Rattle.block_finder.specs.Lending.{ServesFromThen};

    /// A cache without blocks, which may serve any image.
    pub fn new(alloc: Global) -> Result<BlockCache, NoMemory>
        ensures fresh { IfOk result (λ cache. cache ≡ None) }
    {
        Ok(BlockCache {
            kept: KeptBlocks::new(alloc)?,
            serves: Trace::new(),
        })
    }

    /// The block at `pc`, as `find` gives it, whatever was looked up before. The cache serves this image from then on,
    /// also where there was no memory.
    #[inline]
    pub fn lookup(&mut self, image: &Image, pc: u64) -> Result<&Block, NoMemory>
        requires aligned { pc % 4 ≡ 0 }
        requires serves { MayServe self.old image.now }
        ensures* serves { sem 𝓛 (ServesFromThen self.entry image.now) }
        ensures block { IfOk result (λ block. IsBlock image.now pc block.now) }
    {
        self.serves = self.serves.before(image);
        let place = self.kept.place(image, pc)?;
        Ok(&self.kept.blocks[usize::from(place)])
    }

    /// The block at `pc`, as `find` gives it, where the cache keeps it. It finds none, and takes no memory.
    #[inline]
    pub fn kept(&self, image: &Image, pc: u64) -> Option<&Block>
        requires serves { MayServe self.now image.now }
        ensures block { IfSome result (λ block. IsBlock image.now pc block.now) }
    {
        let place = self.kept.kept_place(pc)?;
        Some(&self.kept.blocks[usize::from(place)])
    }
}
