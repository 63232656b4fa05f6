//! A hart's part of a hold, with what becomes of its seat.

ghost use Rattle.std.specs.Prelude.{◌≡◌, ◌<◌, ◌∷◌, [], true, None, IfOk, OnOk, MatchOption};
ghost use Rattle.flat_model.specs.declared.journals.Item.TheVariants.{Left};
ghost use Rattle.block_finder.specs.Caches.{MayServe};
ghost use Rattle.host_state.specs.State.{IsCaughtUp};
ghost use Rattle.hart_runner.specs.declared.holding.Hold.TheVariants.{Waits};
ghost use Rattle.hart_runner.specs.Holds.{IsHold, IsStill, MayLeave};
ghost use Rattle.hart_runner.specs.Parts.{ComesStill, ComesAhead, KeepsLists, IsStillPart, IsPart};

use crate::going_ahead::Ahead;
use crate::holding::{Hold, hold_ended, hold_parked, hold_running};
use crate::seats::Seat;
use crate::tapes::Tape;
use block_finder::BlockCache;
use flat_model::NoMemory;
use host_state::HostState;
use watcher_api::{Closer, Held, Watcher};

/// The hart leaves: it is kept in the state, and its sets are parked there.
fn leave<W: Watcher, C: Closer<Held<W>>>(state: &mut HostState<W, C>, seat: Seat<W>)
    requires may { MayLeave seat.no state.old seat.hart seat.attached }
    ensures left { state.new.past ≡ Left seat.no ∷ state.old.past }
    ensures caught_up { IsCaughtUp state.new }
    ensures task { state.new.task ≡ state.old.task }
{
    // The moments of the script's lines never fall, so none is due behind a Leave.
    let _ = state.task().script();
    let Seat {
        no,
        hart,
        attached,
        ..
    } = seat;
    state.leave(no, hart, attached);
}

/// The part of a hart that is parked or has ended.
pub(crate) fn hold_still<W: Watcher, C: Closer<Held<W>>>(
    state: &mut HostState<W, C>,
    seat: &mut Seat<W>,
) -> Result<Hold, NoMemory>
    requires comes { ComesStill state.old seat.old }
    requires caught_up { IsCaughtUp state.old }
    ensures held { IfOk result (λ hold. IsStill hold seat.new.no state.old.past state.new seat.new.hart seat.new.attached seat.new.specs
        seat.new.asks.first) }
    ensures waits { IfOk result (λ hold. hold ≡ Waits → seat.old.hart.parked ≡ true) }
    ensures hold { IsHold seat.old.no state.old state.new }
    ensures keeps { OnOk result (KeepsLists seat.old seat.new) }
{
    if seat.hart.parked {
        return hold_parked(state, seat);
    }
    hold_ended(state, seat)
}

/// The same, and the hart leaves where it is to.
pub(crate) fn take_still_part<W: Watcher, C: Closer<Held<W>>>(
    state: &mut HostState<W, C>,
    place: &mut Option<Seat<W>>,
) -> Result<Hold, NoMemory>
    requires comes { MatchOption place.old ⊥ (ComesStill state.old) }
    requires caught_up { IsCaughtUp state.old }
    ensures part { MatchOption place.old ⊥ (λ seat. IfOk result
        (λ hold. IsStillPart hold state.new.task state.old.past state.new.past seat place.new)) }
    ensures hold { MatchOption place.old ⊥ (λ seat. IsHold seat.no state.old state.new) }
{
    let Some(seat) = place else {
        return Err(NoMemory);
    };
    let hold = hold_still(state, seat)?;
    let Hold::Leaves = hold else {
        return Ok(hold);
    };
    if let Some(seat) = place.take() {
        leave(state, seat);
    }
    Ok(hold)
}

/// The part of a hart that runs and has gone ahead in its block; it leaves where it is to.
pub(crate) fn take_running_part<W: Watcher, C: Closer<Held<W>>>(
    state: &mut HostState<W, C>,
    place: &mut Option<Seat<W>>,
    ahead: Ahead,
    blocks: &mut BlockCache,
    tape: &mut Tape,
) -> Result<Hold, NoMemory>
    requires comes { MatchOption place.old ⊥ (λ seat. ComesAhead state.old seat ahead) }
    requires serves { MatchOption place.old ⊥ (λ seat. MayServe blocks.old seat.image.value) }
    requires empty { tape.old.pieces.items ≡ [] }
    requires caught_up { IsCaughtUp state.old }
    ensures part { MatchOption place.old ⊥
        (λ seat. IfOk result (λ hold. IsPart hold state.new.task state.old.past state.new.past tape.new.pieces.items seat
        place.new)) }
    ensures hold { MatchOption place.old ⊥ (λ seat. IsHold seat.no state.old state.new) }
    ensures blocks { MatchOption place.old ⊥ (λ seat. MayServe blocks.new seat.image.value) }
{
    let Some(seat) = place else {
        return Err(NoMemory);
    };
    let hold = hold_running(state, seat, ahead, blocks, tape)?;
    let Hold::Leaves = hold else {
        return Ok(hold);
    };
    if let Some(seat) = place.take() {
        leave(state, seat);
    }
    Ok(hold)
}
