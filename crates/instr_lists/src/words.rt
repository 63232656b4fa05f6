//! Delivery of a block's words whose events were not stored.

ghost use Rattle.std.specs.Prelude.{◌≡◌, ◌<◌, ◌≤◌, ◌+◌, ◌*◌, ℕ, List, true, length, map, All};
ghost use Rattle.flat_model.specs.Image.{Program};
ghost use Rattle.flat_model.specs.Step.{as_events};
ghost use Rattle.block_finder.specs.Block.{IsBlock};
ghost use Rattle.event_walk.specs.Matches.{Classes, classes_of};
ghost use Rattle.watcher_api.specs.Acting.{acts_of, walks_of};
ghost use Rattle.instr_lists.specs.Sorts.{LiesIn};
ghost use Rattle.instr_lists.specs.Lists.{HasClasses};
ghost use Rattle.instr_lists.specs.Delivery.{acts_with, no_asks, each_hears, each_walks, IsThere, all_act};
ghost use Rattle.instr_lists.specs.Silence.{adds_alone, AllAdd, words_of, code_of, code_in};

use crate::blocks::BlockList;
use crate::delivery::hear_all;
use crate::slots::Slot;
use flat_model::{Event, What};
use watcher_api::{Asks, Attached, Watcher};

/// Carries out the acts of these slots, which all add, one after the other.
#[inline]
fn add_all<W: Watcher>(slots: &[Slot], attached: &mut Attached<W>, asks: &mut Asks)
    requires there { All (IsThere (map (λ a. a.acts) attached.old)) slots.now }
    requires add { AllAdd (map (λ a. a.acts) attached.old) slots.now }
    ensures same { acts_of attached.new ≡ acts_of attached.old }
    ensures acted { (e : Event) → walks_of asks.new.first attached.new
        ≡ all_act (map (λ a. a.acts) attached.old) e slots.now (walks_of asks.old.first attached.old) }
{
    // An add is the same at each event.
    let e = Event {
        hart: 0,
        step: 0,
        what: What::Init,
    };
    hear_all(slots, &e, attached, asks).unwrap();
}

/// Lets the attached sets, which only add, hear that the block starts.
#[inline]
fn add_start<W: Watcher>(list: &BlockList, attached: &mut Attached<W>, asks: &mut Asks)
    requires these { acts_of attached.old ≡ acts_with list.now.sets }
    requires adds { adds_alone list.now.block list.now.sets ≡ true }
    requires some { 0 < length list.now.block.sites }
    ensures same { acts_of attached.new ≡ acts_of attached.old }
    ensures heard { (classes : Classes) → HasClasses classes list.now.block
        → (e : Event) (n : ℕ) → e.what ≡ What.Block list.now.block.pc n → walks_of asks.new.first attached.new
        ≡ each_hears classes list.now.sets e (walks_of asks.old.first attached.old) }
{
    add_all(list.start_slots(), attached, asks);
}

/// Lets them hear that word `k`, from 0, is executed.
#[inline]
fn add_word<W: Watcher>(list: &BlockList, k: usize, attached: &mut Attached<W>, asks: &mut Asks)
    requires these { acts_of attached.old ≡ acts_with list.now.sets }
    requires adds { adds_alone list.now.block list.now.sets ≡ true }
    requires within { k < length list.now.block.sites }
    ensures same { acts_of attached.new ≡ acts_of attached.old }
    ensures heard { (classes : Classes) → HasClasses classes list.now.block
        → (e : Event) (word : ℕ) → e.what ≡ What.Insn (list.now.block.pc + 4 * k) word → walks_of asks.new.first attached.new
        ≡ each_hears classes list.now.sets e (walks_of asks.old.first attached.old) }
{
    add_all(list.word_slots(k), attached, asks);
}

/// Lets them hear that the first words of the block are executed.
#[inline]
fn add_words<W: Watcher>(
    list: &BlockList,
    words: usize,
    attached: &mut Attached<W>,
    asks: &mut Asks,
)
    requires these { acts_of attached.old ≡ acts_with list.now.sets }
    requires adds { adds_alone list.now.block list.now.sets ≡ true }
    requires within { words ≤ length list.now.block.sites }
    ensures same { acts_of attached.new ≡ acts_of attached.old }
    ensures heard { (classes : Classes) → HasClasses classes list.now.block → walks_of asks.new.first attached.new
        ≡ each_walks classes list.now.sets (as_events 0 0 (words_of list.now.block words)) (walks_of asks.old.first attached.old) }
{
    for k in 0..words {
        add_word(list, k, attached, asks);
    }
}

/// Lets them hear that the block starts and that its first words, at least one, are executed.
fn add_first<W: Watcher>(
    list: &BlockList,
    words: usize,
    attached: &mut Attached<W>,
    asks: &mut Asks,
)
    requires these { acts_of attached.old ≡ acts_with list.now.sets }
    requires adds { adds_alone list.now.block list.now.sets ≡ true }
    requires some { 0 < words }
    requires within { words ≤ length list.now.block.sites }
    ensures same { acts_of attached.new ≡ acts_of attached.old }
    ensures heard { (classes : Classes) → HasClasses classes list.now.block → walks_of asks.new.first attached.new
        ≡ each_walks classes list.now.sets (as_events 0 0 (code_of list.now.block words)) (walks_of asks.old.first attached.old) }
{
    add_start(list, attached, asks);
    add_words(list, words, attached, asks);
}

/// The same of all words.
#[inline]
fn add_whole<W: Watcher>(list: &BlockList, attached: &mut Attached<W>, asks: &mut Asks)
    requires these { acts_of attached.old ≡ acts_with list.now.sets }
    requires adds { adds_alone list.now.block list.now.sets ≡ true }
    ensures same { acts_of attached.new ≡ acts_of attached.old }
    ensures heard { (classes : Classes) → HasClasses classes list.now.block → walks_of asks.new.first attached.new
        ≡ each_walks classes list.now.sets (as_events 0 0 (code_of list.now.block (length list.now.block.sites)))
        (walks_of asks.old.first attached.old) }
{
    add_all(list.whole_slots(), attached, asks);
}

/// The same of any number of words.
#[inline]
fn add_code<W: Watcher>(list: &BlockList, words: usize, attached: &mut Attached<W>, asks: &mut Asks)
    requires these { acts_of attached.old ≡ acts_with list.now.sets }
    requires adds { adds_alone list.now.block list.now.sets ≡ true }
    requires within { words ≤ length list.now.block.sites }
    ensures same { acts_of attached.new ≡ acts_of attached.old }
    ensures heard { (classes : Classes) → HasClasses classes list.now.block → walks_of asks.new.first attached.new
        ≡ each_walks classes list.now.sets (as_events 0 0 (code_of list.now.block words)) (walks_of asks.old.first attached.old) }
{
    if words == list.words() {
        return add_whole(list, attached, asks);
    }
    if words > 0 {
        add_first(list, words, attached, asks);
    }
}

/// Delivers the events of a hart that has gone through the first `words` words of the block from its start, where all that
/// is done at such events is to add where the block starts or at a word. The events need not have been stored: what they
/// tell of the code follows from the block, and nothing hears the others.
pub fn deliver_words<W: Watcher>(list: &BlockList, words: usize, attached: &mut Attached<W>)
    requires these { acts_of attached.old ≡ acts_with list.now.sets }
    requires adds { adds_alone list.now.block list.now.sets ≡ true }
    requires words { words ≤ length list.now.block.sites }
    ensures same { acts_of attached.new ≡ acts_of attached.old }
    ensures delivered { (image : Program) → IsBlock image list.now.block.pc list.now.block → (raw : List Event)
        → All (λ e. LiesIn list.now.block e.what) raw → code_in raw ≡ code_of list.now.block words
        → walks_of no_asks attached.new ≡ each_walks (classes_of image) list.now.sets raw (walks_of no_asks attached.old) }
{
    let mut asks = Asks::none();
    add_code(list, words, attached, &mut asks);
}
