//! Sets that harts give back.

ghost use Rattle.std.specs.Prelude.{◌≡◌, ◌∷◌, ◌<◌, ◌≤◌, ◌-◌, true, false, None, slice_set, IfOk, OnOk};
ghost use Rattle.flat_model.specs.declared.journals.Entry.TheVariants as entries;
ghost use Rattle.flat_model.specs.declared.journals.Item.TheVariants.{GaveBack};
ghost use Rattle.flat_model.specs.declared.plugins.Ask.TheVariants.{Stay};
ghost use Rattle.run_rules.specs.Due.{wanted};
ghost use Rattle.run_rules.specs.Legal.{may_give_back};
ghost use Rattle.run_order.specs.InOrder.{task_run};
ghost use Rattle.run_replay.specs.Following.{IsBerth, IsFollowing, IsFollowed};

use crate::berths::Berth;
use crate::judging::asks_nothing;
use crate::looking::next_generation;
use crate::places::{put_back, take_out};
use crate::replays::{Followed, Replay};
use flat_model::{Ask, NoMemory};
use host_state::HostState;
use watcher_api::{Asks, Closer, Held, Watcher};

/// Whether a hart may give a plug-in back.
fn may_give_back<W: Watcher, C: Closer<Held<W>>>(
    state: &HostState<W, C>,
    no: u8,
    berth: &Berth<W>,
    plugin: u8,
) -> bool
    requires berth { IsBerth state.now.task no state.now.past berth.now }
    requires caught_up { wanted (task_run state.now.task) state.now.past ≡ None }
    ensures may { result ≡ may_give_back (task_run state.now.task) no plugin state.now.past }
{
    // Each state is in order.
    let _ = state.task();
    if !state.registry().outstanding(no, plugin) {
        return false;
    }
    asks_nothing(state, no, berth)
}

/// Forgets what a plug-in asked for.
fn forget(asks: &mut Asks, plugin: u8)
    requires least { 1 ≤ plugin }
    requires most { plugin ≤ 8 }
    ensures forgotten { asks.new.first ≡ slice_set asks.old.first (plugin - 1) Stay }
{
    asks.first[usize::from(plugin - 1)] = Ask::Stay;
}

/// A hart gives a plug-in back that may, where there is room: its set is parked in the state.
fn give_back_with_room<W: Watcher, C: Closer<Held<W>>>(
    state: &mut HostState<W, C>,
    no: u8,
    berth: &mut Berth<W>,
    plugin: u8,
    generation: u64,
)
    requires open { state.old.short ≡ false }
    requires berth { IsBerth state.old.task no state.old.past berth.old }
    requires may { may_give_back (task_run state.old.task) no plugin state.old.past ≡ true }
    requires room { 0 < state.old.journal.spare }
    requires later { berth.old.generation < generation }
    ensures berth { IsBerth state.new.task no state.new.past berth.new }
    ensures back { state.new.past ≡ GaveBack no plugin ∷ state.old.past }
    ensures open { state.new.short ≡ false }
    ensures task { state.new.task ≡ state.old.task }
{
    // Each state is in order, and the moments of the script's lines never fall.
    let _ = state.task().script();
    forget(&mut berth.asks, plugin);
    state.collect(no, plugin, &mut berth.attached, &mut berth.specs);
    berth.generation = generation;
}

/// The same.
fn give_back<W: Watcher, C: Closer<Held<W>>>(
    state: &mut HostState<W, C>,
    no: u8,
    berth: &mut Berth<W>,
    plugin: u8,
) -> Result<(), NoMemory>
    requires open { state.old.short ≡ false }
    requires berth { IsBerth state.old.task no state.old.past berth.old }
    requires may { may_give_back (task_run state.old.task) no plugin state.old.past ≡ true }
    ensures berth { OnOk result (IsBerth state.new.task no state.new.past berth.new) }
    ensures back { OnOk result (state.new.past ≡ GaveBack no plugin ∷ state.old.past) }
    ensures open { OnOk result (state.new.short ≡ false) }
    ensures task { OnOk result (state.new.task ≡ state.old.task) }
{
    let next = next_generation(berth.generation)?;
    state.reserve_hold()?;
    give_back_with_room(state, no, berth, plugin, next);
    Ok(())
}

impl<W: Watcher, C: Closer<Held<W>>> Replay<W, C> {
    /// Follows a Back.
    pub fn back(&mut self, no: u8, plugin: u8) -> Result<Followed, NoMemory>
        requires following { IsFollowing self.old.state self.old.berths.items self.old.blocks }
        ensures followed { IfOk result
            (λ f. IsFollowed f (entries.Back no plugin) self.old.state self.new.state self.new.berths.items self.new.blocks) }
    {
        // Each state is in order.
        let _ = self.state.task();
        let Some(mut berth) = take_out(&mut self.berths, no) else {
            return Ok(Followed::Breaks);
        };
        if !may_give_back(&self.state, no, &berth, plugin) {
            return Ok(Followed::Breaks);
        }
        give_back(&mut self.state, no, &mut berth, plugin)?;
        put_back(&mut self.berths, no, berth);
        // Each state is in order.
        let _ = self.state.task();
        Ok(Followed::Went)
    }
}
