//! Lists of slots, one behind the other in one vector.

ghost use Rattle.std.specs.Prelude.{◌≡◌, ◌<◌, ◌++◌, ◌∷◌, [], true, length, slice_index_or, IfOk};
ghost use Rattle.instr_lists.specs.declared.sorts.Sort.TheVariants.{Init};
ghost use Rattle.instr_lists.specs.Slots.{slots_of};
ghost use Rattle.instr_lists.specs.Silence.{at_all, is_deaf, only_adds};

use crate::additions::only_adds;
use crate::slots::{Slot, push_slots};
use crate::sorts::Sort;
use flat_model::{NoMemory, SetSpec, Trace};
use std::alloc::Global;
use std::marker::Model;

/// For each sort of event its list of slots.
#[derive(Drop)]
pub(crate) struct Lists {
    slots: Vec<Slot>,
    /// Where each list begins, and where the last one ends; nothing where there is no slot.
    starts: Vec<usize>,
    /// Whether all acts are unconditional adds where a block starts or at a word.
    adds: bool,
    sets: Trace<(u8, SetSpec)>,
    sorts: Trace<Sort>,
}

impl Model for Lists {
    ghost use Rattle.std.specs.Prelude.{◌≡◌, nat_lt, length};
    ghost use Rattle.instr_lists.specs.Lists.{Resolved, IsResolved};
    ghost use Rattle.instr_lists.specs.Silence.{at_all, only_adds};

    ghost Value = { Resolved };

    ghost view = { λ l. record { sets = l.sets.items; sorts = l.sorts.items; grows = nat_lt 0 (length l.starts.items) } };

    ghost invariant = { λ l. (IsResolved l.sets.items l.sorts.items l.slots.items l.starts.items)
        × (l.adds ≡ at_all only_adds l.sets.items l.sorts.items) };
}

/// The sets as a list that proofs read.
fn traced(sets: &[(u8, SetSpec)]) -> Trace<(u8, SetSpec)>
    ensures sets { result.items ≡ sets.now }
{
    let mut traced = Trace::new();
    for set in sets {
        traced = traced.and(set);
    }
    traced
}

impl Lists {
    /// No lists so far.
    pub(crate) fn new(alloc: Global, sets: &[(u8, SetSpec)]) -> Result<Lists, NoMemory>
        ensures none { IfOk result (λ lists. lists ≡ record { sets = sets.now; sorts = []; grows = true }) }
    {
        Ok(Lists {
            slots: Vec::new(alloc),
            starts: vec![in alloc; 0usize; 1]?,
            adds: true,
            sets: traced(sets),
            sorts: Trace::new(),
        })
    }

    /// The lists with that of one more sort of event.
    pub(crate) fn with(self, sort: Sort, sets: &[(u8, SetSpec)]) -> Result<Lists, NoMemory>
        requires sets { self.sets ≡ sets.now }
        requires grows { self.grows ≡ true }
        ensures with { IfOk result (λ lists. lists ≡ record self { sorts = self.sorts ++ sort ∷ [] }) }
    {
        let Lists {
            mut slots,
            mut starts,
            adds,
            sets: traced,
            sorts,
        } = self;
        push_slots(sets, &sort, &mut slots)?;
        starts.push(slots.len())?;
        Ok(Lists {
            slots,
            starts,
            adds: adds && only_adds(&sort, sets),
            sets: traced,
            sorts: sorts.and(&sort),
        })
    }

    /// The lists as they are kept: where there is no slot, they hold no memory.
    pub(crate) fn finished(self, alloc: Global) -> Lists
        ensures sets { result.sets ≡ self.sets }
        ensures sorts { result.sorts ≡ self.sorts }
    {
        if !self.slots.is_empty() {
            return self;
        }
        let Lists {
            slots,
            starts: _,
            adds,
            sets,
            sorts,
        } = self;
        Lists {
            slots,
            starts: Vec::new(alloc),
            adds,
            sets,
            sorts,
        }
    }

    /// Whether no subscription hears an event of these sorts.
    #[inline]
    pub(crate) fn is_silent(&self) -> bool
        ensures silent { result ≡ at_all is_deaf self.now.sets self.now.sorts }
    {
        self.slots.is_empty()
    }

    /// Whether all acts are unconditional adds where a block starts or at a word.
    #[inline]
    pub(crate) fn adds_alone(&self) -> bool
        ensures adds { result ≡ at_all only_adds self.now.sets self.now.sorts }
    {
        self.adds
    }

    /// The list of the sort of event at a place.
    #[inline]
    pub(crate) fn get(&self, place: usize) -> &[Slot]
        requires there { place < length self.now.sorts }
        ensures list { result.now ≡ slots_of self.now.sets (slice_index_or self.now.sorts place Init) }
    {
        if self.slots.is_empty() {
            return &self.slots;
        }
        let start = self.starts[place];
        let end = self.starts[place + 1];
        let (_, behind) = self.slots.split_at(start);
        let (list, _) = behind.split_at(end - start);
        list
    }
}
