//! Harts that leave.

ghost use Rattle.std.specs.Prelude.{◌≡◌, ◌||◌, ◌<◌, ◌∷◌, ℕ, true, false, None, IfOk, OnOk, is_some, slice_index_or};
ghost use Rattle.std.specs.List.{list_all, range_with_len};
ghost use Rattle.flat_model.specs.declared.journals.Entry.TheVariants as entries;
ghost use Rattle.flat_model.specs.declared.journals.Item.TheVariants.{Left};
ghost use Rattle.flat_model.specs.Worlds.{hart_of};
ghost use Rattle.run_rules.specs.Due.{wanted};
ghost use Rattle.run_rules.specs.Legal.{is_idle, is_finished, may_leave};
ghost use Rattle.run_order.specs.InOrder.{task_run};
ghost use Rattle.run_replay.specs.Following.{IsBerth, IsPlaced, IsFollowing, IsFollowed};

use crate::berths::Berth;
use crate::judging::{asks_nothing, owes_any};
use crate::looking::hart_now;
use crate::places::{berth_of, take_out};
use crate::replays::{Followed, Replay};
use flat_model::NoMemory;
use host_state::HostState;
use rv_exec::Hart;
use watcher_api::{Closer, Held, Watcher};

/// Whether a hart is parked or has ended.
fn is_idle(hart: &Hart) -> bool
    ensures idle { result ≡ (hart.now.parked || is_some hart.now.ending) }
{
    hart.parked || hart.ending.is_some()
}

/// Whether a hart of the run that hasn't left is parked or has ended, as it is now.
fn berth_idles<W: Watcher, C: Closer<Held<W>>>(
    state: &HostState<W, C>,
    berths: &[Option<Berth<W>>],
    no: u8,
) -> bool
    requires low { no < state.now.task.machine.harts }
    requires stays { None ≡ slice_index_or state.now.harts no None }
    requires place { IsPlaced state.now.task no state.now.past (slice_index_or berths.now no None) }
    ensures idle { result ≡ is_idle (task_run state.now.task) state.now.past no }
{
    // Each state is in order.
    let _ = state.task();
    match berth_of(berths, no) {
        Some(berth) => is_idle(&hart_now(state, no, berth.hart)),
        None => false,
    }
}

/// The same of any hart of the run.
fn idles<W: Watcher, C: Closer<Held<W>>>(
    state: &HostState<W, C>,
    berths: &[Option<Berth<W>>],
    no: u8,
) -> bool
    requires low { no < state.now.task.machine.harts }
    requires place { IsPlaced state.now.task no state.now.past (slice_index_or berths.now no None) }
    ensures idle { result ≡ is_idle (task_run state.now.task) state.now.past no }
{
    // Each state is in order.
    let _ = state.task();
    match state.hart(no) {
        Some(hart) => is_idle(hart),
        None => berth_idles(state, berths, no),
    }
}

/// Whether each hart of the run is parked or has ended.
fn all_idle<W: Watcher, C: Closer<Held<W>>>(
    state: &HostState<W, C>,
    berths: &[Option<Berth<W>>],
) -> bool
    requires places { (h : ℕ) → h < state.now.task.machine.harts
        → IsPlaced state.now.task h state.now.past (slice_index_or berths.now h None) }
    ensures idle { result
        ≡ list_all (is_idle (task_run state.now.task) state.now.past) (range_with_len 0 state.now.task.machine.harts) }
{
    for no in 0..state.task().harts() {
        if !idles(state, berths, no) {
            return false;
        }
    }
    true
}

/// Whether a hart has ended.
fn has_ended(hart: &Hart) -> bool
    ensures ended { result ≡ is_some hart.now.ending }
{
    hart.ending.is_some()
}

/// Whether the group has ended.
fn is_over<W: Watcher, C: Closer<Held<W>>>(state: &HostState<W, C>) -> bool
    ensures over { result ≡ is_some state.now.services.group }
{
    state.group().is_some()
}

/// Whether a hart is parked.
fn is_parked(hart: &Hart) -> bool
    ensures parked { result ≡ hart.now.parked }
{
    hart.parked
}

/// Whether a hart has ended, or the group has, or it is parked and nobody is left who could start it.
fn is_finished<W: Watcher, C: Closer<Held<W>>>(
    state: &HostState<W, C>,
    berths: &[Option<Berth<W>>],
    no: u8,
    hart: &Hart,
) -> bool
    requires places { (h : ℕ) → h < state.now.task.machine.harts
        → IsPlaced state.now.task h state.now.past (slice_index_or berths.now h None) }
    requires is { hart.now ≡ hart_of state.now.task.machine state.now.task.mode state.now.past no }
    ensures finished { result ≡ is_finished (task_run state.now.task) no state.now.past }
{
    // Each state is in order.
    let _ = state.task();
    if has_ended(hart) {
        return true;
    }
    if is_over(state) {
        return true;
    }
    if !is_parked(hart) {
        return false;
    }
    all_idle(state, berths)
}

/// Whether a hart may leave.
fn may_leave<W: Watcher, C: Closer<Held<W>>>(
    state: &HostState<W, C>,
    berths: &[Option<Berth<W>>],
    no: u8,
    berth: &Berth<W>,
) -> bool
    requires places { (h : ℕ) → h < state.now.task.machine.harts
        → IsPlaced state.now.task h state.now.past (slice_index_or berths.now h None) }
    requires berth { IsBerth state.now.task no state.now.past berth.now }
    requires caught_up { wanted (task_run state.now.task) state.now.past ≡ None }
    ensures may { result ≡ may_leave (task_run state.now.task) no state.now.past }
{
    if owes_any(state, no) {
        return false;
    }
    if !asks_nothing(state, no, berth) {
        return false;
    }
    let hart = hart_now(state, no, berth.hart);
    is_finished(state, berths, no, &hart)
}

/// A hart leaves that may, where there is room: it is kept in the state, and its sets are parked there.
fn leave_with_room<W: Watcher, C: Closer<Held<W>>>(
    state: &mut HostState<W, C>,
    no: u8,
    berth: Berth<W>,
)
    requires open { state.old.short ≡ false }
    requires berth { IsBerth state.old.task no state.old.past berth }
    requires may { may_leave (task_run state.old.task) no state.old.past ≡ true }
    requires room { 0 < state.old.journal.spare }
    ensures left { state.new.past ≡ Left no ∷ state.old.past }
    ensures open { state.new.short ≡ false }
    ensures task { state.new.task ≡ state.old.task }
{
    // Each state is in order.
    let _ = state.task();
    let hart = hart_now(state, no, berth.hart);
    let Berth { attached, .. } = berth;
    state.leave(no, hart, attached);
}

/// The same.
fn leave_berth<W: Watcher, C: Closer<Held<W>>>(
    state: &mut HostState<W, C>,
    no: u8,
    berth: Berth<W>,
) -> Result<(), NoMemory>
    requires open { state.old.short ≡ false }
    requires berth { IsBerth state.old.task no state.old.past berth }
    requires may { may_leave (task_run state.old.task) no state.old.past ≡ true }
    ensures left { OnOk result (state.new.past ≡ Left no ∷ state.old.past) }
    ensures open { OnOk result (state.new.short ≡ false) }
    ensures task { OnOk result (state.new.task ≡ state.old.task) }
{
    state.reserve_hold()?;
    leave_with_room(state, no, berth);
    Ok(())
}

impl<W: Watcher, C: Closer<Held<W>>> Replay<W, C> {
    /// Follows a Leave.
    pub fn leave(&mut self, no: u8) -> Result<Followed, NoMemory>
        requires following { IsFollowing self.old.state self.old.berths.items self.old.blocks }
        ensures followed { IfOk result
            (λ f. IsFollowed f (entries.Leave no) self.old.state self.new.state self.new.berths.items self.new.blocks) }
    {
        let Some(berth) = berth_of(&self.berths, no) else {
            return Ok(Followed::Breaks);
        };
        if !may_leave(&self.state, &self.berths, no, berth) {
            return Ok(Followed::Breaks);
        }
        let Some(berth) = take_out(&mut self.berths, no) else {
            return Ok(Followed::Breaks);
        };
        leave_berth(&mut self.state, no, berth)?;
        // Each state is in order.
        let _ = self.state.task();
        Ok(Followed::Went)
    }
}
