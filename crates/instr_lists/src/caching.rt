//! A cache of lists.

ghost use Rattle.std.specs.Prelude.{◌≡◌, [], length, IfOk};
ghost use Rattle.std.specs.Borrow.{sem};
ghost use Rattle.instr_lists.specs.Caches.{MayServe, asked_for};

use crate::blocks::BlockList;
use crate::kept_lists::KeptLists;
use block_finder::Block;
use flat_model::{NoMemory, SetSpec};
use std::alloc::Global;
use std::marker::Model;

/// A cache of the lists of blocks of one image, up to 1,024 of them. A clause sees the lists that it keeps, each with the
/// generation of its sets.
#[derive(Drop)]
pub struct ListCache {
    kept: KeptLists,
    made: u64,
}

impl Model for ListCache {
    ghost use Rattle.std.specs.Prelude.{List};
    ghost use Rattle.instr_lists.specs.declared.kept_lists.KeptList.{KeptList};

    ghost Value = { List KeptList };

    ghost view = { λ c. c.kept.lists.items };
}

impl ListCache {
    ghost use Rattle.instr_lists.specs.Lending.{KeepsFromThen};

    /// A cache without lists.
    pub fn new(alloc: Global) -> Result<ListCache, NoMemory>
        ensures fresh { IfOk result (λ cache. cache ≡ []) }
    {
        Ok(ListCache {
            kept: KeptLists::new(alloc)?,
            made: 0,
        })
    }

    /// The list for the block and these sets, as `build` gives it, whatever was looked up before. One generation goes with
    /// one list of sets, and every block is what `find` gives on one image.
    #[inline]
    pub fn lookup(
        &mut self,
        generation: u64,
        block: &Block,
        sets: &[(u8, SetSpec)],
    ) -> Result<&BlockList, NoMemory>
        requires whole { length block.now.sites ≡ block.now.n }
        requires serves { MayServe generation block.now sets.now self.old }
        ensures* keeps { sem 𝓛 (KeepsFromThen self.entry (asked_for generation block.now sets.now)) }
        ensures built { IfOk result (λ list. list.now ≡ record { block = block.now; sets = sets.now }) }
    {
        let (place, built) = self.kept.place(generation, block, sets)?;
        self.made = self.made.saturating_add(u64::from(built));
        Ok(&self.kept.lists[usize::from(place)].list)
    }

    /// How many lists were built, for tests; the number stays at its type's end.
    pub fn made(&self) -> u64 {
        self.made
    }
}
