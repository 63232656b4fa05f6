//! The blocks that a cache keeps, and the ways to their places.

ghost use Rattle.std.specs.Prelude.{◌≡◌, ◌<◌, ◌≤◌, ◌%◌, [], true, length, IfOk, IfSome, vec_len};
ghost use Rattle.block_finder.specs.Caches.{AreOf, stands_at};

use crate::blocks::Block;
use crate::finding::find;
use flat_model::{Image, NoMemory};
use lru::LruCache;
use std::alloc::Global;
use std::num::NonZeroUsize;

/// The blocks that are kept, at most. It is a number of speed alone.
const BLOCKS_MOST: usize = 1024;

/// The guesses, one for each word of sixteen adjoining pages. It is a number of speed alone.
const GUESSES: usize = 16_384;

/// Blocks of one image. A guess and what `places` says are both checked against the block's own address before they
/// are used.
#[derive(Drop)]
pub(crate) struct KeptBlocks {
    alloc: Global,
    /// The blocks, each at a place that it keeps until another takes it.
    pub(crate) blocks: Vec<Block>,
    /// The place of each block by its address. It says whose place is taken next: that of the block whose guess
    /// failed longest ago.
    places: LruCache<u64, u16>,
    /// The place of the last block that was asked for, by its address in words modulo the number of guesses.
    guesses: Vec<u16>,
    ghost full: { vec_len guesses ≡ 16384 },
}

impl KeptBlocks {
    /// No blocks, with room for all.
    pub(crate) fn new(alloc: Global) -> Result<KeptBlocks, NoMemory>
        ensures none { IfOk result (λ kept. kept.blocks.items ≡ []) }
    {
        let most = NonZeroUsize::new(BLOCKS_MOST).unwrap_or(NonZeroUsize::MIN);
        Ok(KeptBlocks {
            alloc,
            blocks: Vec::with_capacity(alloc, BLOCKS_MOST)?,
            places: LruCache::new(alloc, most)?,
            guesses: vec![in alloc; 0u16; GUESSES]?,
        })
    }

    /// The place of the block at `pc`, which is found where it isn't kept.
    #[inline]
    pub(crate) fn place(&mut self, image: &Image, pc: u64) -> Result<u16, NoMemory>
        requires aligned { pc % 4 ≡ 0 }
        requires right { AreOf image.now self.old.blocks.items }
        ensures right { AreOf image.now self.new.blocks.items }
        ensures stands { IfOk result (λ place. stands_at pc place self.new.blocks.items ≡ true) }
    {
        let guess = self.guesses[slot(pc)];
        if self.has(guess, pc) {
            return Ok(guess);
        }
        self.place_behind(image, pc)
    }

    /// The same, where the guess has failed.
    #[inline(never)]
    fn place_behind(&mut self, image: &Image, pc: u64) -> Result<u16, NoMemory>
        requires aligned { pc % 4 ≡ 0 }
        requires right { AreOf image.now self.old.blocks.items }
        ensures right { AreOf image.now self.new.blocks.items }
        ensures stands { IfOk result (λ place. stands_at pc place self.new.blocks.items ≡ true) }
    {
        let known = self.places.get(&pc).copied().unwrap_or(u16::MAX);
        let place = if self.has(known, pc) {
            known
        } else {
            self.keep(image, pc)?
        };
        self.guesses[slot(pc)] = place;
        Ok(place)
    }

    /// The place of the block at `pc`, where it is kept. It finds none, and changes nothing.
    #[inline]
    pub(crate) fn kept_place(&self, pc: u64) -> Option<u16>
        ensures stands { IfSome result (λ place. stands_at pc place self.now.blocks.items ≡ true) }
    {
        let guessed = self.guesses[slot(pc)];
        if self.has(guessed, pc) {
            return Some(guessed);
        }
        let placed = self.places.peek(&pc).copied()?;
        if self.has(placed, pc) {
            return Some(placed);
        }
        None
    }

    /// Finds the block at `pc` and keeps it.
    fn keep(&mut self, image: &Image, pc: u64) -> Result<u16, NoMemory>
        requires aligned { pc % 4 ≡ 0 }
        requires right { AreOf image.now self.old.blocks.items }
        ensures right { AreOf image.now self.new.blocks.items }
        ensures stands { IfOk result (λ place. stands_at pc place self.new.blocks.items ≡ true) }
    {
        let block = find(self.alloc, image, pc)?;
        let place = self.free_place();
        self.places.push(pc, place)?;
        let at = usize::from(place);
        if at < self.blocks.len() {
            self.blocks[at] = block;
        } else {
            self.blocks.push(block)?;
        }
        Ok(place)
    }

    /// The place for one more block: a new one while there are any, else that of the block whose guess failed longest
    /// ago.
    fn free_place(&self) -> u16
        ensures { result ≤ length self.now.blocks.items }
    {
        let len = self.blocks.len();
        if len < BLOCKS_MOST {
            return len as u16;
        }
        match self.places.peek_lru() {
            Some((_, place)) if usize::from(*place) < len => *place,
            _ => 0,
        }
    }

    /// Whether the block at `pc` stands at this place.
    #[inline]
    fn has(&self, place: u16, pc: u64) -> bool
        ensures { result ≡ stands_at pc place self.now.blocks.items }
    {
        match self.blocks.get(usize::from(place)) {
            Some(block) => block.pc == pc,
            None => false,
        }
    }
}

/// Which guess is for `pc`.
#[inline]
fn slot(pc: u64) -> usize
    ensures { result < 16384 }
{
    (pc / 4 % GUESSES as u64) as usize
}
