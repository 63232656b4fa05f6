//! A guest's run, with its events delivered at the end of each block.

ghost use Rattle.std.specs.Prelude.{◌≡◌, ◌%◌, All, IsTrue};
ghost use Rattle.block_finder.specs.Block.{IsBlock};
ghost use Rattle.block_finder.specs.Caches.{MayServe as MayFind};
ghost use Rattle.watcher_api.specs.Acting.{acts_of};
ghost use Rattle.instr_lists.specs.Sorts.{IsInside, LiesIn};
ghost use Rattle.instr_lists.specs.Delivery.{acts_with};
ghost use Rattle.delivery_tests.specs.Kept.{AreFor};

use crate::attaching::attached;
use crate::guests::{image_of, step_block};
use crate::readings::{Reading, Told, read};
use block_finder::{Block, BlockCache, block_is_one};
use flat_model::{Event, Image, Mode, NoMemory, SetSpec, What};
use guest_memory::Memory;
use instr_lists::{BlockList, ListCache, deliver, deliver_words};
use rv_exec::{Hart, RawLog, Services};
use std::alloc::Global;
use std::test::Fail;
use watcher_api::{Asks, Attached, AttachedSet, Held, HeldAct, Recorder};

/// What a run leaves: how many events each box heard, the entries of both sets, what each delivery answered, and whether
/// all of it is as the slow reading has it.
#[derive(Drop)]
pub struct Outcome {
    pub heard: Vec<u64>,
    pub entries: Vec<u64>,
    pub asks: Vec<Asks>,
    pub agrees: bool,
}

// Whether `pc` is the address of a word of the block.
fn is_inside(block: &Block, pc: u64) -> bool
    ensures inside { IsTrue result → IsInside block.now pc }
{
    for k in 0..512usize {
        if k < block.sites.len() && block.pc.checked_add(4 * k as u64) == Some(pc) {
            return true;
        }
    }
    false
}

// Whether steps in the block can give the event.
fn lies_in(block: &Block, what: &What) -> bool
    ensures lies { IsTrue result → LiesIn block.now what.now }
{
    match *what {
        What::Block { pc, .. } | What::Insn { pc, .. } => is_inside(block, pc),
        What::Mem { pc, rw, .. } => 0 < rw && rw < 4 && is_inside(block, pc),
        _ => true,
    }
}

// Whether they can give all of these.
fn all_lie_in(block: &Block, raw: &[Event]) -> bool
    ensures lie { IsTrue result → All (λ e. LiesIn block.now e.what) raw.now }
{
    for e in raw {
        if !lies_in(block, &e.what) {
            return false;
        }
    }
    true
}

// Delivers the events as the list says: not at all, by the number of the words that were gone through, or one by one.
fn deliver_by(
    list: &BlockList,
    block: &Block,
    raw: &[Event],
    attached: &mut Attached<Recorder>,
) -> Result<Asks, NoMemory>
    requires block { list.now.block ≡ block.now }
    requires these { acts_of attached.old ≡ acts_with list.now.sets }
    requires lies { All (λ e. LiesIn block.now e.what) raw.now }
    ensures same { acts_of attached.new ≡ acts_of attached.old }
{
    if list.is_silent() {
        return Ok(Asks::none());
    }
    if !list.adds_alone() {
        return deliver(list, raw, attached);
    }
    let words = raw
        .iter()
        .filter(|e| matches!(e.what, What::Insn { .. }))
        .count();
    if words > block.sites.len() {
        return Err(NoMemory);
    }
    deliver_words(list, words, attached);
    Ok(Asks::none())
}

// Delivers the events of the block at `pc`, by the lists that the caches have.
#[tactic(auto, using(crate::proofs::Kept::serves, crate::proofs::Kept::are_then))]
fn deliver_block(
    image: &Image,
    pc: u64,
    sets: &[(u8, SetSpec)],
    raw: &[Event],
    blocks: &mut BlockCache,
    lists: &mut ListCache,
    attached: &mut Attached<Recorder>,
) -> Result<Asks, NoMemory>
    requires aligned { pc % 4 ≡ 0 }
    requires finds { MayFind blocks.old image.now }
    requires lists { AreFor image.now sets.now lists.old }
    requires these { acts_of attached.old ≡ acts_with sets.now }
    ensures finds { MayFind blocks.new image.now }
    ensures lists { AreFor image.now sets.now lists.new }
    ensures these { acts_of attached.new ≡ acts_with sets.now }
{
    block_is_one();
    let block = blocks.lookup(image, pc)?;
    let list = lists.lookup(0, block, sets)?;
    if !all_lie_in(block, raw) {
        return Err(NoMemory);
    }
    deliver_by(list, block, raw, attached)
}

// Notes the events of a delivery and what it answered.
fn note(told: &mut Told, raw: &[Event], asks: Asks) -> Result<(), NoMemory> {
    let number = told.asks.len();
    for event in raw {
        told.events.push((number, *event))?;
    }
    told.asks.push(asks)?;
    Ok(())
}

// Runs hart 0 to its end, or through so many blocks, and lets the attached sets hear it.
fn run(
    alloc: Global,
    image: &Image,
    sets: &[(u8, SetSpec)],
    attached: &mut Attached<Recorder>,
) -> Result<Told, NoMemory>
    requires these { acts_of attached.old ≡ acts_with sets.now }
{
    let mut memory = Memory::new(alloc, image, 1)?;
    let mut services = Services::new(alloc, image, 1, Mode::All)?;
    let mut raw = RawLog::new(alloc)?;
    let mut hart = Hart::first(image, 0, 1, Mode::All);
    let mut blocks = BlockCache::new(alloc)?;
    let mut lists = ListCache::new(alloc)?;
    let mut told = Told {
        events: Vec::new(alloc),
        asks: Vec::new(alloc),
    };
    for _ in 0..100 {
        if hart.ending.is_some() {
            return Ok(told);
        }
        let pc = hart.pc;
        step_block(&mut hart, image, &mut memory, &mut services, &mut raw)?;
        let asks = deliver_block(
            image,
            pc,
            sets,
            raw.events(),
            &mut blocks,
            &mut lists,
            attached,
        )?;
        note(&mut told, raw.events(), asks)?;
    }
    Ok(told)
}

// How many events the box of an act heard, and whether they are those of the reading; `None` where it calls none.
fn heard(
    alloc: Global,
    held: HeldAct<Held<Recorder>>,
    plugin: u8,
    sub: usize,
    reading: &Reading,
) -> Result<Option<(u64, bool)>, NoMemory> {
    let recorder = match held {
        HeldAct::Call(watcher) | HeldAct::Cond { watcher, .. } => watcher.into_inner(),
        HeldAct::Inline { .. } => return Ok(None),
    };
    let want = reading.heard(alloc, plugin, sub)?;
    Ok(Some((recorder.heard(), recorder.events() == want.as_slice())))
}

// Takes down what is left of a plug-in's set.
fn compare(
    alloc: Global,
    set: AttachedSet<Recorder>,
    plugin: u8,
    reading: &Reading,
    outcome: &mut Outcome,
) -> Result<(), NoMemory> {
    let (held, column) = set.into_parts();
    for (sub, act) in held.into_iter().enumerate() {
        if let Some((count, agrees)) = heard(alloc, act, plugin, sub, reading)? {
            outcome.heard.push(count)?;
            outcome.agrees = outcome.agrees && agrees;
        }
    }
    for entry in 0..4u8 {
        if usize::from(entry) < column.len() {
            outcome.entries.push(column.get(entry))?;
            outcome.agrees = outcome.agrees && column.get(entry) == reading.entry(plugin, entry);
        }
    }
    Ok(())
}

/// Runs the words with the two sets attached as plug-ins 1 and 2.
pub fn outcome_of(
    alloc: Global,
    words: &[u32],
    first: SetSpec,
    second: SetSpec,
) -> Result<Outcome, Fail> {
    let image = image_of(alloc, words)?;
    let mut attached = attached(alloc, &first, &second)?;
    let sets = [(1u8, first), (2u8, second)];
    let told = run(alloc, &image, &sets, &mut attached)?;
    let reading = read(alloc, &image, &sets, &told)?;
    let (Some(first), Some(second)) = (attached.take(1), attached.take(2)) else {
        return Err("a set is gone".into());
    };
    let mut outcome = Outcome {
        heard: Vec::new(alloc),
        entries: Vec::new(alloc),
        agrees: told.asks == reading.asks,
        asks: told.asks,
    };
    compare(alloc, first, 1, &reading, &mut outcome)?;
    compare(alloc, second, 2, &reading, &mut outcome)?;
    Ok(outcome)
}
