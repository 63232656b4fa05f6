//! The lists that a cache keeps, and the ways to their places.

ghost use Rattle.std.specs.Prelude.{◌≡◌, ◌<◌, ◌≤◌, [], true, length, IfOk, OnErr, vec_len};
ghost use Rattle.instr_lists.specs.Caches.{MayServe, AreFrom, asked_for, stands_at};

use crate::blocks::{BlockList, build};
use block_finder::Block;
use flat_model::{NoMemory, SetSpec};
use lru::LruCache;
use std::alloc::Global;
use std::num::NonZeroUsize;

/// The lists that are kept, at most. It is a number of speed alone.
const LISTS_MOST: usize = 1024;

/// The guesses, one for each word of sixteen adjoining pages. It is a number of speed alone.
const GUESSES: usize = 16_384;

/// A list, with the generation of the sets that it is for.
#[derive(Drop)]
pub struct KeptList {
    pub(crate) generation: u64,
    pub(crate) list: BlockList,
}

/// Lists for blocks of one image. A guess and what `places` says are both checked against the list before they are used.
#[derive(Drop)]
pub(crate) struct KeptLists {
    alloc: Global,
    pub(crate) lists: Vec<KeptList>,
    /// The place of the list of each block, by the block's address.
    places: LruCache<u64, u16>,
    guesses: Vec<u16>,
    ghost full: { vec_len guesses ≡ 16384 },
}

impl KeptLists {
    /// No lists, with room for all.
    pub(crate) fn new(alloc: Global) -> Result<KeptLists, NoMemory>
        ensures none { IfOk result (λ kept. kept.lists.items ≡ []) }
    {
        let most = NonZeroUsize::new(LISTS_MOST).unwrap_or(NonZeroUsize::MIN);
        Ok(KeptLists {
            alloc,
            lists: Vec::with_capacity(alloc, LISTS_MOST)?,
            places: LruCache::new(alloc, most)?,
            guesses: vec![in alloc; 0u16; GUESSES]?,
        })
    }

    /// The place of the list for a block, which is built where it isn't kept; and whether it was built.
    #[inline]
    pub(crate) fn place(
        &mut self,
        generation: u64,
        block: &Block,
        sets: &[(u8, SetSpec)],
    ) -> Result<(u16, bool), NoMemory>
        requires whole { length block.now.sites ≡ block.now.n }
        requires serves { MayServe generation block.now sets.now self.old.lists.items }
        ensures serves { MayServe generation block.now sets.now self.new.lists.items }
        ensures from { AreFrom (asked_for generation block.now sets.now) self.old.lists.items self.new.lists.items }
        ensures stands { IfOk result (λ r. stands_at generation block.now.pc r.0 self.new.lists.items ≡ true) }
    {
        let guess = self.guesses[slot(block.pc)];
        if self.has(guess, generation, block.pc) {
            return Ok((guess, false));
        }
        let known = self.places.get(&block.pc).copied().unwrap_or(u16::MAX);
        if self.has(known, generation, block.pc) {
            self.guesses[slot(block.pc)] = known;
            return Ok((known, false));
        }
        let place = self.keep(generation, block, sets)?;
        self.guesses[slot(block.pc)] = place;
        Ok((place, true))
    }

    /// Builds the list and keeps it.
    fn keep(
        &mut self,
        generation: u64,
        block: &Block,
        sets: &[(u8, SetSpec)],
    ) -> Result<u16, NoMemory>
        requires whole { length block.now.sites ≡ block.now.n }
        requires serves { MayServe generation block.now sets.now self.old.lists.items }
        ensures serves { MayServe generation block.now sets.now self.new.lists.items }
        ensures from { AreFrom (asked_for generation block.now sets.now) self.old.lists.items self.new.lists.items }
        ensures stands { IfOk result (λ place. stands_at generation block.now.pc place self.new.lists.items ≡ true) }
    {
        let list = build(self.alloc, block, sets)?;
        let kept = KeptList { generation, list };
        let place = self.free_place();
        self.places.push(block.pc, place)?;
        let at = usize::from(place);
        if at < self.lists.len() {
            self.lists[at] = kept;
        } else {
            self.lists.push(kept)?;
        }
        Ok(place)
    }

    /// The place for one more list: a new one while there are any, else that of the list whose guess failed longest ago.
    fn free_place(&self) -> u16
        ensures { result ≤ length self.now.lists.items }
    {
        let len = self.lists.len();
        if len < LISTS_MOST {
            return len as u16;
        }
        match self.places.peek_lru() {
            Some((_, place)) if usize::from(*place) < len => *place,
            _ => 0,
        }
    }

    /// Whether the list of the generation for the block at `pc` stands at this place.
    #[inline]
    fn has(&self, place: u16, generation: u64, pc: u64) -> bool
        ensures { result ≡ stands_at generation pc place self.now.lists.items }
    {
        match self.lists.get(usize::from(place)) {
            Some(kept) => kept.generation == generation && kept.list.pc() == pc,
            None => false,
        }
    }
}

/// Which guess is for `pc`.
#[inline]
fn slot(pc: u64) -> usize
    ensures { result < 16384 }
{
    (pc / 4 % GUESSES as u64) as usize
}
