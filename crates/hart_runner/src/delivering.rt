//! Delivery of a hart's Turn, once its hold is over.

ghost use Rattle.std.specs.Prelude.{◌≡◌, ◌≤◌, ◌%◌, ◌++◌, ◌⊎◌, ℕ, true, All, OnOk, OnErr};
ghost use Rattle.flat_model.specs.declared.plugins.Ask.TheVariants.{Stay};
ghost use Rattle.block_finder.specs.Block.{IsBlock};
ghost use Rattle.event_walk.specs.Matches.{classes_of};
ghost use Rattle.watcher_api.specs.Acting.{acts_of, ask_of, walks_of, IsAbsent};
ghost use Rattle.instr_lists.specs.Sorts.{LiesIn};
ghost use Rattle.instr_lists.specs.Delivery.{acts_with, no_asks, each_walks, StopsIn};
ghost use Rattle.block_finder.specs.Caches.{MayServe};
ghost use Rattle.hart_runner.specs.Lists.{AreLists};
ghost use Rattle.hart_runner.specs.Stretches.{IsPiece, LieAt, events_of};
ghost use Rattle.hart_runner.specs.Turns.{HasHeard, HasLists, MayHear};

use crate::seats::Seat;
use crate::tapes::Piece;
use block_finder::{Block, BlockCache, block_is_one};
use flat_model::{Image, NoMemory};
use host_state::Specs;
use instr_lists::{ListCache, deliver, deliver_on};
use watcher_api::{Asks, Attached, Watcher};

/// Calls the hart's boxes for the events of its first block, by the lists of the block, and notes what they asked for. Where a call
/// finds no memory, the events before it were heard, and nothing else.
#[tactic(auto, using(crate::proofs::Lists::are_then))]
pub(crate) fn deliver_turn<W: Watcher>(
    seat: &mut Seat<W>,
    block: &Block,
    lists: &mut ListCache,
) -> Result<(), NoMemory>
    requires block { IsBlock seat.old.image.value block.now.pc block.now }
    requires kept { seat.old.raw.kept ≡ true }
    requires lies { All (λ e. LiesIn block.now e.what) seat.old.raw.events }
    requires lists { AreLists seat.old.image.value seat.old.generation seat.old.specs lists.old }
    requires acts { acts_of seat.old.attached ≡ acts_with seat.old.specs }
    ensures lists { AreLists seat.old.image.value seat.old.generation seat.old.specs lists.new }
    ensures acts { acts_of seat.new.attached ≡ acts_of seat.old.attached }
    ensures delivered { OnOk result (walks_of seat.new.asks.first seat.new.attached
        ≡ each_walks (classes_of seat.old.image.value) seat.old.specs seat.old.raw.events (walks_of no_asks seat.old.attached)) }
    ensures stopped { OnErr result ((seat.new.attached ≡ seat.old.attached)
        ⊎ StopsIn (classes_of seat.old.image.value) seat.old.specs seat.old.raw.events seat.old.attached seat.new.attached) }
    ensures others { OnOk result ((p : ℕ) → 1 ≤ p → IsAbsent p seat.old.attached → ask_of p seat.new.asks.first ≡ Stay) }
    ensures seat { seat.new ≡ record seat.old { attached = seat.new.attached; asks = seat.new.asks } }
{
    if seat.attached.len() == 0 {
        seat.asks = Asks::none();
        return Ok(());
    }
    block_is_one();
    let list = lists.lookup(seat.generation, block, seat.specs.as_slice())?;
    seat.asks = deliver(list, seat.raw.events(), &mut seat.attached)?;
    Ok(())
}

/// The same for the first block of a Turn, by where it begins.
fn hear_first<W: Watcher>(
    seat: &mut Seat<W>,
    pc: u64,
    blocks: &mut BlockCache,
    lists: &mut ListCache,
) -> Result<(), NoMemory>
    requires aligned { pc % 4 ≡ 0 }
    requires kept { seat.old.raw.kept ≡ true }
    requires lies { LieAt seat.old.image.value pc seat.old.raw.events }
    requires serves { MayServe blocks.old seat.old.image.value }
    requires lists { AreLists seat.old.image.value seat.old.generation seat.old.specs lists.old }
    requires acts { acts_of seat.old.attached ≡ acts_with seat.old.specs }
    ensures serves { MayServe blocks.new seat.old.image.value }
    ensures lists { AreLists seat.old.image.value seat.old.generation seat.old.specs lists.new }
    ensures acts { acts_of seat.new.attached ≡ acts_of seat.old.attached }
    ensures delivered { OnOk result (walks_of seat.new.asks.first seat.new.attached
        ≡ each_walks (classes_of seat.old.image.value) seat.old.specs seat.old.raw.events (walks_of no_asks seat.old.attached)) }
    ensures others { OnOk result ((p : ℕ) → 1 ≤ p → IsAbsent p seat.old.attached → ask_of p seat.new.asks.first ≡ Stay) }
    ensures seat { seat.new ≡ record seat.old { attached = seat.new.attached; asks = seat.new.asks } }
{
    let block = blocks.lookup(&seat.image, pc)?;
    deliver_turn(seat, block, lists)
}

/// Lets attached sets hear the events of a further block, by its list of this generation, and notes what they ask for first.
#[tactic(auto, using(crate::proofs::Lists::are_then))]
fn hear_piece<W: Watcher>(
    attached: &mut Attached<W>,
    asks: &mut Asks,
    image: &Image,
    generation: u64,
    specs: &Specs,
    piece: &Piece,
    blocks: &mut BlockCache,
    lists: &mut ListCache,
) -> Result<(), NoMemory>
    requires piece { IsPiece image.now piece.now }
    requires serves { MayServe blocks.old image.now }
    requires lists { AreLists image.now generation specs.now lists.old }
    requires acts { acts_of attached.old ≡ acts_with specs.now }
    ensures serves { MayServe blocks.new image.now }
    ensures lists { AreLists image.now generation specs.now lists.new }
    ensures acts { acts_of attached.new ≡ acts_of attached.old }
    ensures delivered { OnOk result (walks_of asks.new.first attached.new
        ≡ each_walks (classes_of image.now) specs.now piece.now.raw.events (walks_of asks.old.first attached.old)) }
    ensures others { OnOk result ((p : ℕ) → 1 ≤ p → IsAbsent p attached.old → ask_of p asks.new.first ≡ ask_of p asks.old.first) }
{
    let block = blocks.lookup(image, piece.pc)?;
    block_is_one();
    let list = lists.lookup(generation, block, specs.as_slice())?;
    deliver_on(list, piece.raw.events(), attached, asks)
}

/// The same for further blocks, one after the other.
fn hear_pieces<W: Watcher>(
    attached: &mut Attached<W>,
    asks: &mut Asks,
    image: &Image,
    generation: u64,
    specs: &Specs,
    pieces: &[Piece],
    blocks: &mut BlockCache,
    lists: &mut ListCache,
) -> Result<(), NoMemory>
    requires pieces { All (IsPiece image.now) pieces.now }
    requires serves { MayServe blocks.old image.now }
    requires lists { AreLists image.now generation specs.now lists.old }
    requires acts { acts_of attached.old ≡ acts_with specs.now }
    ensures serves { MayServe blocks.new image.now }
    ensures lists { AreLists image.now generation specs.now lists.new }
    ensures acts { acts_of attached.new ≡ acts_of attached.old }
    ensures delivered { OnOk result (walks_of asks.new.first attached.new
        ≡ each_walks (classes_of image.now) specs.now (events_of pieces.now) (walks_of asks.old.first attached.old)) }
    ensures others { OnOk result ((p : ℕ) → 1 ≤ p → IsAbsent p attached.old → ask_of p asks.new.first ≡ ask_of p asks.old.first) }
{
    for piece in pieces {
        hear_piece(
            attached, asks, image, generation, specs, piece, blocks, lists,
        )?;
    }
    Ok(())
}

/// Calls the hart's boxes for the events of its Turn, block after block, and notes what they ask for first.
fn hear_blocks<W: Watcher>(
    seat: &mut Seat<W>,
    pc: u64,
    pieces: &[Piece],
    blocks: &mut BlockCache,
    lists: &mut ListCache,
) -> Result<(), NoMemory>
    requires aligned { pc % 4 ≡ 0 }
    requires kept { seat.old.raw.kept ≡ true }
    requires lies { LieAt seat.old.image.value pc seat.old.raw.events }
    requires pieces { All (IsPiece seat.old.image.value) pieces.now }
    requires serves { MayServe blocks.old seat.old.image.value }
    requires lists { AreLists seat.old.image.value seat.old.generation seat.old.specs lists.old }
    requires acts { acts_of seat.old.attached ≡ acts_with seat.old.specs }
    ensures serves { MayServe blocks.new seat.old.image.value }
    ensures lists { AreLists seat.old.image.value seat.old.generation seat.old.specs lists.new }
    ensures acts { acts_of seat.new.attached ≡ acts_of seat.old.attached }
    ensures delivered { OnOk result (walks_of seat.new.asks.first seat.new.attached
        ≡ each_walks (classes_of seat.old.image.value) seat.old.specs (seat.old.raw.events ++ events_of pieces.now)
        (walks_of no_asks seat.old.attached)) }
    ensures others { OnOk result ((p : ℕ) → 1 ≤ p → IsAbsent p seat.old.attached → ask_of p seat.new.asks.first ≡ Stay) }
    ensures seat { seat.new ≡ record seat.old { attached = seat.new.attached; asks = seat.new.asks } }
{
    hear_first(seat, pc, blocks, lists)?;
    hear_pieces(
        &mut seat.attached,
        &mut seat.asks,
        &seat.image,
        seat.generation,
        &seat.specs,
        pieces,
        blocks,
        lists,
    )
}

/// The same, where the hart has sets. Where it has none, nothing is to be heard, and nobody asks.
pub(crate) fn hear_turn<W: Watcher>(
    seat: &mut Seat<W>,
    pc: u64,
    pieces: &[Piece],
    blocks: &mut BlockCache,
    lists: &mut ListCache,
) -> Result<(), NoMemory>
    requires may { MayHear pc pieces.now lists.old seat.old }
    requires serves { MayServe blocks.old seat.old.image.value }
    ensures heard { OnOk result (HasHeard pieces.now seat.old seat.new) }
    ensures lists { OnOk result (HasLists lists.new seat.new) }
    ensures serves { MayServe blocks.new seat.old.image.value }
{
    if seat.attached.len() == 0 {
        seat.asks = Asks::none();
        return Ok(());
    }
    hear_blocks(seat, pc, pieces, blocks, lists)
}
