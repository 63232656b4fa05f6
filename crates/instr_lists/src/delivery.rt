//! Delivery of a hart's events to its attached sets.

ghost use Rattle.std.specs.Prelude.{◌≡◌, ◌≤◌, ℕ, All, IfOk, MatchResult, map};
ghost use Rattle.flat_model.specs.declared.plugins.Ask.TheVariants.{Stay};
ghost use Rattle.flat_model.specs.Image.{Program};
ghost use Rattle.block_finder.specs.Block.{IsBlock};
ghost use Rattle.event_walk.specs.Matches.{Classes, classes_of};
ghost use Rattle.watcher_api.specs.Acting.{acts_of, ask_of, walks_of, IsAbsent};
ghost use Rattle.instr_lists.specs.Sorts.{LiesIn};
ghost use Rattle.instr_lists.specs.Lists.{HasClasses};
ghost use Rattle.instr_lists.specs.Delivery.{acts_with, no_asks, each_hears, each_walks, StopsAmong, StopsAtCall, StopsIn};
ghost use Rattle.instr_lists.specs.Delivery.{IsThere, all_act, StopsAtSlot};

use crate::blocks::BlockList;
use crate::slots::Slot;
use flat_model::{Event, NoMemory};
use watcher_api::{Asks, Attached, Watcher};

/// Carries out the acts of these slots at an event, one after the other.
#[inline]
pub(crate) fn hear_all<W: Watcher>(
    slots: &[Slot],
    e: &Event,
    attached: &mut Attached<W>,
    asks: &mut Asks,
) -> Result<(), NoMemory>
    requires there { All (IsThere (map (λ a. a.acts) attached.old)) slots.now }
    ensures same { acts_of attached.new ≡ acts_of attached.old }
    ensures others { (p : ℕ) → 1 ≤ p → IsAbsent p attached.old → ask_of p asks.new.first ≡ ask_of p asks.old.first }
    ensures acted { MatchResult result
        (λ _. walks_of asks.new.first attached.new
        ≡ all_act (map (λ a. a.acts) attached.old) e.now slots.now (walks_of asks.old.first attached.old))
        (λ _. StopsAtSlot (map (λ a. a.acts) attached.old) e.now slots.now
        (walks_of asks.old.first attached.old) (walks_of asks.new.first attached.new)) }
{
    for slot in slots {
        attached.hear(slot.set, slot.sub, e, asks)?;
    }
    Ok(())
}

/// Lets the attached sets hear an event of the block.
#[inline]
fn hear_event<W: Watcher>(
    list: &BlockList,
    e: &Event,
    attached: &mut Attached<W>,
    asks: &mut Asks,
) -> Result<(), NoMemory>
    requires these { acts_of attached.old ≡ acts_with list.now.sets }
    requires lies { LiesIn list.now.block e.now.what }
    ensures same { acts_of attached.new ≡ acts_of attached.old }
    ensures others { (p : ℕ) → 1 ≤ p → IsAbsent p attached.old → ask_of p asks.new.first ≡ ask_of p asks.old.first }
    ensures heard { MatchResult result
        (λ _. (classes : Classes) → HasClasses classes list.now.block → walks_of asks.new.first attached.new
        ≡ each_hears classes list.now.sets e.now (walks_of asks.old.first attached.old))
        (λ _. (classes : Classes) → HasClasses classes list.now.block → StopsAtCall classes list.now.sets e.now
        (walks_of asks.old.first attached.old) (walks_of asks.new.first attached.new)) }
{
    hear_all(list.slots(&e.what), e, attached, asks)
}

/// Delivers more events of a hart, which steps in the block of the list gave, to the hart's attached sets: at each event the
/// sets in their order, and the subscriptions of each by index. What a plug-in asks for is noted where it hasn't asked before.
/// Where a box finds no memory, what was done before stays.
pub fn deliver_on<W: Watcher>(
    list: &BlockList,
    raw: &[Event],
    attached: &mut Attached<W>,
    asks: &mut Asks,
) -> Result<(), NoMemory>
    requires these { acts_of attached.old ≡ acts_with list.now.sets }
    requires lies { All (λ e. LiesIn list.now.block e.what) raw.now }
    ensures same { acts_of attached.new ≡ acts_of attached.old }
    ensures others { (p : ℕ) → 1 ≤ p → IsAbsent p attached.old → ask_of p asks.new.first ≡ ask_of p asks.old.first }
    ensures delivered { MatchResult result
        (λ _. (image : Program) → IsBlock image list.now.block.pc list.now.block → walks_of asks.new.first attached.new
        ≡ each_walks (classes_of image) list.now.sets raw.now (walks_of asks.old.first attached.old))
        (λ _. (image : Program) → IsBlock image list.now.block.pc list.now.block
        → StopsAmong (classes_of image) list.now.sets raw.now
        (walks_of asks.old.first attached.old) (walks_of asks.new.first attached.new)) }
{
    for e in raw {
        hear_event(list, e, attached, asks)?;
    }
    Ok(())
}

/// Delivers events of a hart, which steps in the block of the list gave, to the hart's attached sets: at each event the
/// sets in their order, and the subscriptions of each by index. For each plug-in it answers what it asked for first. Where
/// a box finds no memory, what was done before stays.
pub fn deliver<W: Watcher>(
    list: &BlockList,
    raw: &[Event],
    attached: &mut Attached<W>,
) -> Result<Asks, NoMemory>
    requires these { acts_of attached.old ≡ acts_with list.now.sets }
    requires lies { All (λ e. LiesIn list.now.block e.what) raw.now }
    ensures same { acts_of attached.new ≡ acts_of attached.old }
    ensures delivered { MatchResult result
        (λ asks. (image : Program) → IsBlock image list.now.block.pc list.now.block → walks_of asks.first attached.new
        ≡ each_walks (classes_of image) list.now.sets raw.now (walks_of no_asks attached.old))
        (λ _. (image : Program) → IsBlock image list.now.block.pc list.now.block
        → StopsIn (classes_of image) list.now.sets raw.now attached.old attached.new) }
    ensures others { IfOk result (λ asks. (p : ℕ) → 1 ≤ p → IsAbsent p attached.old → ask_of p asks.first ≡ Stay) }
{
    let mut asks = Asks::none();
    deliver_on(list, raw, attached, &mut asks)?;
    Ok(asks)
}
