//! What a hart makes of its block by itself, before it takes the shared state.

ghost use Rattle.std.specs.Prelude.{◌≡◌, ◌<◌, false, None, IfOk};
ghost use Rattle.block_finder.specs.Block.{IsBlock};
ghost use Rattle.block_finder.specs.Caches.{MayServe};
ghost use Rattle.host_state.specs.Moving.{IsPrivateTurn};

use crate::seats::Seat;
use block_finder::{Block, BlockCache};
use flat_model::NoMemory;
use flat_model::limits::BLOCK_WORDS;
use private_runs::private_run;
use rv_exec::Hart;
use watcher_api::Watcher;

/// A hart that has gone ahead by so many steps.
#[derive(Clone, Copy)]
pub(crate) struct Ahead {
    pub hart: Hart,
    pub ran: u32,
}

/// Makes the private steps of the hart's block on a copy of the hart, with their events in the seat's log. Until the shared state
/// records them, the hart stays as it was.
pub(crate) fn go_ahead<W: Watcher>(seat: &mut Seat<W>, block: &Block) -> Ahead
    requires awake { seat.old.hart.parked ≡ false }
    requires running { seat.old.hart.ending ≡ None }
    requires below { seat.old.hart.steps < seat.old.limit }
    requires block { IsBlock seat.old.image.value seat.old.hart.pc block.now }
    ensures ran { IsPrivateTurn seat.old.image.value seat.old.limit seat.old.no result.ran seat.old.hart result.hart seat.new.raw.events }
    ensures kept { seat.new.raw.kept ≡ seat.old.raw.kept }
    ensures seat { seat.new ≡ record seat.old { raw = seat.new.raw } }
{
    seat.raw.clear();
    let mut hart = seat.hart;
    let ran = private_run(
        seat.no,
        &mut hart,
        &seat.image,
        seat.limit,
        block.n,
        BLOCK_WORDS,
        &mut seat.raw,
    );
    Ahead { hart, ran }
}

/// The same for the block that the hart is at.
pub(crate) fn go_ahead_from<W: Watcher>(
    seat: &mut Seat<W>,
    blocks: &mut BlockCache,
) -> Result<Ahead, NoMemory>
    requires awake { seat.old.hart.parked ≡ false }
    requires running { seat.old.hart.ending ≡ None }
    requires below { seat.old.hart.steps < seat.old.limit }
    requires serves { MayServe blocks.old seat.old.image.value }
    ensures ran { IfOk result (λ ahead. IsPrivateTurn seat.old.image.value seat.old.limit seat.old.no ahead.ran seat.old.hart ahead.hart
        seat.new.raw.events) }
    ensures kept { seat.new.raw.kept ≡ seat.old.raw.kept }
    ensures blocks { MayServe blocks.new seat.old.image.value }
    ensures seat { seat.new ≡ record seat.old { raw = seat.new.raw } }
{
    // A hart's pc is a multiple of 4.
    let _pc = seat.hart.pc;
    let block = blocks.lookup(&seat.image, seat.hart.pc)?;
    Ok(go_ahead(seat, block))
}
