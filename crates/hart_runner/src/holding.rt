//! A hart's part of a hold.

ghost use Rattle.std.specs.Prelude.{◌≡◌, ◌≢◌, ◌<◌, ◌≤◌, [], true, false, replicate, None, IfOk, OnOk, IsSome};
ghost use Rattle.flat_model.specs.declared.plugins.Ask.TheVariants.{Stay};
ghost use Rattle.flat_model.specs.Worlds.{world, hart_of};
ghost use Rattle.block_finder.specs.Caches.{MayServe};
ghost use Rattle.host_state.specs.Moving.{IsPrivateTurn};
ghost use Rattle.host_state.specs.State.{IsCaughtUp};
ghost use Rattle.hart_runner.specs.declared.holding.Hold.TheVariants.{Waits};
ghost use Rattle.hart_runner.specs.Seats.{IsBack};
ghost use Rattle.hart_runner.specs.Holds.{IsAsleep, IsHold, IsStill, IsHeld};

use crate::entering::{enter, enter_parked};
use crate::falling_due::{next_moment, place_due};
use crate::going_ahead::Ahead;
use crate::seats::Seat;
use crate::stretching::{commit_first, go_on};
use crate::tapes::Tape;
use block_finder::BlockCache;
use flat_model::NoMemory;
use host_state::HostState;
use rv_exec::Hart;
use watcher_api::{Closer, Held, Watcher};

/// What a hart's part of a hold came to.
#[derive(Clone, Copy)]
pub(crate) enum Hold {
    /// It recorded a Turn.
    Turned,
    /// It gave sets back, and does no more in this hold.
    GaveBack,
    /// It is parked, or has just got its start.
    Waits,
    /// It is to leave in this hold.
    Leaves,
}

/// The part of a hart that runs and has gone ahead: it records the Turn of its block, makes the rest of the block with what the
/// harts share, and goes on with its next blocks. Lines of the script that fall due in the Turn are placed behind it. Where the
/// group has ended meanwhile, its steps are given up, and it stays as it was.
pub(crate) fn hold_running<W: Watcher, C: Closer<Held<W>>>(
    state: &mut HostState<W, C>,
    seat: &mut Seat<W>,
    ahead: Ahead,
    blocks: &mut BlockCache,
    tape: &mut Tape,
) -> Result<Hold, NoMemory>
    requires back { IsBack state.old.task seat.old.no state.old.past seat.old.hart seat.old.attached seat.old.specs seat.old.asks.first }
    requires caught_up { IsCaughtUp state.old }
    requires awake { seat.old.hart.parked ≡ false }
    requires running { seat.old.hart.ending ≡ None }
    requires begins { seat.old.hart.since ≡ 0 }
    requires below { seat.old.hart.steps < state.old.task.machine.limit }
    requires image { seat.old.image.value ≡ state.old.task.machine.image }
    requires serves { MayServe blocks.old seat.old.image.value }
    requires empty { tape.old.pieces.items ≡ [] }
    requires ran { IsPrivateTurn state.old.task.machine.image state.old.task.machine.limit seat.old.no ahead.ran seat.old.hart ahead.hart
        seat.old.raw.events }
    ensures held { IfOk result (λ hold. IsHeld hold seat.new.no state.old.past state.new seat.new.hart seat.new.attached seat.new.specs
        seat.new.asks.first seat.new.raw.events seat.old.hart.pc tape.new.pieces.items) }
    ensures goes { IfOk result (λ hold. hold ≢ Waits) }
    ensures hold { IsHold seat.new.no state.old state.new }
    ensures lists { OnOk result (seat.new.generation ≡ seat.old.generation → seat.new.specs ≡ seat.old.specs) }
    ensures rises { OnOk result (seat.old.generation ≤ seat.new.generation) }
    ensures kept { seat.new.raw.kept ≡ seat.old.raw.kept }
    ensures blocks { MayServe blocks.new seat.old.image.value }
    ensures seat { seat.new ≡ record seat.old {
      hart = seat.new.hart;
      attached = seat.new.attached;
      specs = seat.new.specs;
      generation = seat.new.generation;
      asks = seat.new.asks;
      near = seat.new.near;
      raw = seat.new.raw;
    } }
{
    // A hart's pc is a multiple of 4.
    let _pc = seat.hart.pc;
    let gave_back = enter(state, seat)?;
    // Each state is in order.
    let _ = state.task();
    if state.group().is_none() {
        let until = next_moment(state);
        let start = seat.hart;
        let made = commit_first(state, seat, ahead, blocks)?;
        let has_sets = seat.attached.len() > 0;
        go_on(
            state,
            seat.no,
            &mut seat.hart,
            &mut seat.near,
            &seat.image,
            has_sets,
            made,
            until,
            &start,
            blocks,
            tape,
        );
        // Each state is in order.
        let _ = state.task();
        place_due(state, seat.alloc, seat.no)?;
        return Ok(Hold::Turned);
    }
    if gave_back {
        return Ok(Hold::GaveBack);
    }
    Ok(Hold::Leaves)
}

/// The part of a hart that has ended: it leaves, but where it gives sets back.
pub(crate) fn hold_ended<W: Watcher, C: Closer<Held<W>>>(
    state: &mut HostState<W, C>,
    seat: &mut Seat<W>,
) -> Result<Hold, NoMemory>
    requires back { IsBack state.old.task seat.old.no state.old.past seat.old.hart seat.old.attached seat.old.specs seat.old.asks.first }
    requires caught_up { IsCaughtUp state.old }
    requires awake { seat.old.hart.parked ≡ false }
    requires ended { IsSome seat.old.hart.ending }
    ensures held { IfOk result (λ hold. IsStill hold seat.new.no state.old.past state.new seat.new.hart seat.new.attached seat.new.specs
        seat.new.asks.first) }
    ensures goes { IfOk result (λ hold. hold ≢ Waits) }
    ensures hold { IsHold seat.new.no state.old state.new }
    ensures lists { OnOk result (seat.new.generation ≡ seat.old.generation → seat.new.specs ≡ seat.old.specs) }
    ensures rises { OnOk result (seat.old.generation ≤ seat.new.generation) }
    ensures seat { seat.new ≡ record seat.old {
      attached = seat.new.attached;
      specs = seat.new.specs;
      generation = seat.new.generation;
      asks = seat.new.asks;
    } }
{
    let gave_back = enter(state, seat)?;
    // Each state is in order.
    let _ = state.task();
    if gave_back {
        return Ok(Hold::GaveBack);
    }
    Ok(Hold::Leaves)
}

/// Puts a parked hart at its start, where it has one now; whether it has.
fn adopt<W: Watcher, C: Closer<Held<W>>>(state: &HostState<W, C>, no: u8, hart: &mut Hart) -> bool
    requires asleep { IsAsleep state.now.task no state.now.past hart.old }
    ensures hart { hart.new ≡ hart_of state.now.task.machine state.now.task.mode state.now.past no }
    ensures woken { result ≡ true → (hart.new.parked ≡ false) × (hart.new.since ≡ 0) × (hart.new.steps < state.now.task.machine.limit) }
    ensures asleep { result ≡ false → hart.new ≡ hart.old }
{
    let task = state.task();
    let Some(start) = state.start_of(no) else {
        return false;
    };
    *hart = Hart::started(no, task.harts(), start);
    true
}

/// The part of a parked hart: it comes to its start, where another hart gave it one. It leaves where the group has ended, and
/// where nobody is left who could start it, but where it gives sets back.
pub(crate) fn hold_parked<W: Watcher, C: Closer<Held<W>>>(
    state: &mut HostState<W, C>,
    seat: &mut Seat<W>,
) -> Result<Hold, NoMemory>
    requires back { IsBack state.old.task seat.old.no state.old.past seat.old.hart seat.old.attached seat.old.specs seat.old.asks.first }
    requires caught_up { IsCaughtUp state.old }
    requires asleep { IsAsleep state.old.task seat.old.no state.old.past seat.old.hart }
    requires quiet { seat.old.asks.first ≡ replicate 8 Stay }
    requires begins { seat.old.hart.ending ≡ None → seat.old.hart.since ≡ 0 }
    requires below { seat.old.hart.ending ≡ None → seat.old.hart.steps < state.old.task.machine.limit }
    ensures held { IfOk result (λ hold. IsStill hold seat.new.no state.old.past state.new seat.new.hart seat.new.attached seat.new.specs
        seat.new.asks.first) }
    ensures hold { IsHold seat.new.no state.old state.new }
    ensures lists { OnOk result (seat.new.generation ≡ seat.old.generation → seat.new.specs ≡ seat.old.specs) }
    ensures rises { OnOk result (seat.old.generation ≤ seat.new.generation) }
    ensures seat { seat.new ≡ record seat.old {
      hart = seat.new.hart;
      attached = seat.new.attached;
      specs = seat.new.specs;
      generation = seat.new.generation;
    } }
{
    let gave_back = enter_parked(state, seat)?;
    // Each state is in order.
    let _ = state.task();
    let woken = adopt(state, seat.no, &mut seat.hart);
    if gave_back {
        return Ok(Hold::GaveBack);
    }
    if state.group().is_some() {
        return Ok(Hold::Leaves);
    }
    if !woken && state.is_deserted() {
        return Ok(Hold::Leaves);
    }
    Ok(Hold::Waits)
}
