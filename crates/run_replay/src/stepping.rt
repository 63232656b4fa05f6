//! One step of a hart, and what its boxes make of it.

ghost use Rattle.std.specs.Prelude.{◌≡◌, ◌<◌, ◌≤◌, ◌+◌, ◌-◌, ◌∷◌, ℕ, true, false, if◌then◌else◌, min, length};
ghost use Rattle.std.specs.Prelude.{slice_index_or, slice_set, All, IfOk, OnOk};
ghost use Rattle.flat_model.specs.declared.journals.Item.TheVariants.{Step};
ghost use Rattle.flat_model.specs.declared.limits.TheConstants.{BLOCK_WORDS};
ghost use Rattle.flat_model.specs.declared.plugins.Ask.TheVariants.{Stay};
ghost use Rattle.flat_model.specs.Asks.{stays};
ghost use Rattle.block_finder.specs.Block.{IsBlock};
ghost use Rattle.event_walk.specs.Matches.{classes_of};
ghost use Rattle.event_walk.specs.Walk.{first_ask};
ghost use Rattle.rv_exec.specs.Sharing.{HasRoom};
ghost use Rattle.watcher_api.specs.Acting.{acts_of, ask_of, walks_of, IsAbsent};
ghost use Rattle.instr_lists.specs.Sorts.{LiesIn};
ghost use Rattle.instr_lists.specs.Delivery.{acts_with, no_asks, each_walks};
ghost use Rattle.run_rules.specs.Legal.{may_step};
ghost use Rattle.run_order.specs.InOrder.{task_run};
ghost use Rattle.run_replay.specs.Following.{IsTurning};
ghost use Rattle.run_replay.specs.Lists.{AreLists};

use crate::berths::Berth;
use crate::judging::stays;
use crate::looking::pc_of;
use block_finder::{Block, BlockCache, block_is_one};
use flat_model::limits::{BLOCK_WORDS, PLUGINS_MOST};
use flat_model::{Ask, Image, NoMemory};
use host_state::{HostState, Specs};
use instr_lists::{ListCache, deliver};
use rv_exec::RawLog;
use watcher_api::{Asks, Attached, Closer, Held, Watcher};

/// Lets attached sets hear the events of a step in a block, by the block's list of this generation; what they ask for then.
#[tactic(auto, using(crate::proofs::Lists::are_then))]
fn deliver_step<W: Watcher>(
    attached: &mut Attached<W>,
    lists: &mut ListCache,
    generation: u64,
    specs: &Specs,
    raw: &RawLog,
    image: &Image,
    block: &Block,
) -> Result<Asks, NoMemory>
    requires block { IsBlock image.now block.now.pc block.now }
    requires kept { raw.now.kept ≡ true }
    requires lies { All (λ e. LiesIn block.now e.what) raw.now.events }
    requires lists { AreLists image.now generation specs.now lists.old }
    requires acts { acts_of attached.old ≡ acts_with specs.now }
    ensures lists { AreLists image.now generation specs.now lists.new }
    ensures acts { acts_of attached.new ≡ acts_of attached.old }
    ensures delivered { IfOk result (λ asks. walks_of asks.first attached.new
        ≡ each_walks (classes_of image.now) specs.now raw.now.events (walks_of no_asks attached.old)) }
    ensures others { IfOk result (λ asks. (p : ℕ) → 1 ≤ p → IsAbsent p attached.old → ask_of p asks.first ≡ Stay) }
{
    if attached.len() == 0 {
        return Ok(Asks::none());
    }
    block_is_one();
    let list = lists.lookup(generation, block, specs.as_slice())?;
    deliver(list, raw.events(), attached)
}

/// How many steps ago an ask was made, one step later; 512 count at most.
fn later(since: u32) -> u32
    ensures later { result ≡ min (since + 1) BLOCK_WORDS }
{
    if since < BLOCK_WORDS {
        return since + 1;
    }
    BLOCK_WORDS
}

/// Notes what one plug-in, by its place, asked for in a step.
fn note_one(asks: &mut Asks, since: &mut [u32; PLUGINS_MOST as usize], place: usize, asked: Ask)
    requires place { place < 8 }
    ensures first { asks.new.first ≡ slice_set asks.old.first place (first_ask (slice_index_or asks.old.first place Stay) asked) }
    ensures since { since.new ≡ slice_set since.old place
        (if stays (slice_index_or asks.old.first place Stay) then 0 else min (slice_index_or since.old place 0 + 1) BLOCK_WORDS) }
    ensures all { length asks.old.first ≡ 8 }
    ensures all_since { length since.old ≡ 8 }
{
    if stays(asks.first[place]) {
        since[place] = 0;
        asks.first[place] = asked;
    } else {
        since[place] = later(since[place]);
    }
}

/// Notes what boxes asked for in a step.
fn note(asks: &mut Asks, since: &mut [u32; PLUGINS_MOST as usize], asked: &Asks)
    ensures first { (p : ℕ) → 1 ≤ p → p ≤ 8
        → ask_of p asks.new.first ≡ first_ask (ask_of p asks.old.first) (ask_of p asked.now.first) }
    ensures since { (p : ℕ) → 1 ≤ p → p ≤ 8 → slice_index_or since.new (p - 1) 0
        ≡ (if stays (ask_of p asks.old.first) then 0 else min (slice_index_or since.old (p - 1) 0 + 1) BLOCK_WORDS) }
{
    for place in 0..usize::from(PLUGINS_MOST) {
        note_one(asks, since, place, asked.first[place]);
    }
}

/// Makes one step of the hart's Turn; there is room for it.
fn step_with_room<W: Watcher, C: Closer<Held<W>>>(
    state: &mut HostState<W, C>,
    no: u8,
    berth: &mut Berth<W>,
    blocks: &mut BlockCache,
    made: u32,
) -> Result<(), NoMemory>
    requires turning { IsTurning state.old.task no made state.old.past berth.old blocks.old }
    requires open { state.old.short ≡ false }
    requires may { may_step (task_run state.old.task) no state.old.past ≡ true }
    requires room { 0 < state.old.journal.spare }
    requires output { HasRoom state.old.services }
    ensures turning { OnOk result (IsTurning state.new.task no (made + 1) state.new.past berth.new blocks.new) }
    ensures open { OnOk result (state.new.short ≡ false) }
    ensures stepped { OnOk result (state.new.past ≡ Step no ∷ state.old.past) }
    ensures task { OnOk result (state.new.task ≡ state.old.task) }
{
    let pc = pc_of(&berth.hart);
    let block = blocks.lookup(state.task().image(), pc)?;
    berth.raw.clear();
    state.commit_shared(no, &mut berth.hart, block.n, &mut berth.raw);
    let asked = deliver_step(
        &mut berth.attached,
        &mut berth.lists,
        berth.generation,
        &berth.specs,
        &berth.raw,
        state.task().image(),
        block,
    )?;
    note(&mut berth.asks, &mut berth.since, &asked);
    Ok(())
}

/// Makes one step of the hart's Turn.
pub(crate) fn step<W: Watcher, C: Closer<Held<W>>>(
    state: &mut HostState<W, C>,
    no: u8,
    berth: &mut Berth<W>,
    blocks: &mut BlockCache,
    made: u32,
) -> Result<(), NoMemory>
    requires turning { IsTurning state.old.task no made state.old.past berth.old blocks.old }
    requires open { state.old.short ≡ false }
    requires may { may_step (task_run state.old.task) no state.old.past ≡ true }
    ensures turning { OnOk result (IsTurning state.new.task no (made + 1) state.new.past berth.new blocks.new) }
    ensures open { OnOk result (state.new.short ≡ false) }
    ensures stepped { OnOk result (state.new.past ≡ Step no ∷ state.old.past) }
    ensures task { OnOk result (state.new.task ≡ state.old.task) }
{
    state.reserve_hold()?;
    step_with_room(state, no, berth, blocks, made)
}
