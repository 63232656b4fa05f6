//! Closers that are told.

ghost use Rattle.std.specs.Prelude.{◌≡◌, ◌<◌, ◌&&◌, ◌++◌, ◌∷◌, [], ℕ, not, false, IfOk, None};
ghost use Rattle.flat_model.specs.declared.journals.Entry.TheVariants as entries;
ghost use Rattle.flat_model.specs.Registry.{is_complete, has_left};
ghost use Rattle.run_rules.specs.Due.{wanted};
ghost use Rattle.run_order.specs.InOrder.{task_run};
ghost use Rattle.run_order.specs.Sets.{is_closing_out};
ghost use Rattle.run_replay.specs.Following.{IsFollowing, IsFollowed};
ghost use Rattle.run_replay.specs.Recording.{IsTold};

use crate::replays::{Followed, Replay};
use flat_model::NoMemory;
use host_state::{Closing, HostState};
use plug_registry::Registry;
use watcher_api::{Closer, Held, Watcher};

/// Replays take closings as parties past this number, one for each plug-in, since the party of the Done may be a hart.
const REPLAYING: u8 = 240;

/// Tells the closer of a closing. The closer.
fn tell<W: Watcher, C: Closer<Held<W>>>(closing: Closing<W, C>) -> Result<C, NoMemory>
    ensures told { IfOk result (λ closer. C.notices closer ≡ C.notices closing.closer ++ closing.back ∷ []) }
{
    let Closing {
        plugin: _,
        mut closer,
        back,
    } = closing;
    match closer.closed(back) {
        Ok(()) => Ok(closer),
        Err(_) => Err(NoMemory),
    }
}

/// Whether a party may tell the closer of a plug-in.
fn may_tell(registry: &Registry, party: u8, plugin: u8) -> bool
    ensures may { result ≡ (is_complete registry.now.table plugin && not (has_left registry.now.table party)) }
{
    registry.complete(plugin) && !registry.has_left(party)
}

/// Tells the closer of a plug-in and records the party's Done, where it may stand.
fn tell_by<W: Watcher, C: Closer<Held<W>>>(
    state: &mut HostState<W, C>,
    party: u8,
    plugin: u8,
) -> Result<Followed, NoMemory>
    requires open { state.old.short ≡ false }
    requires caught_up { wanted (task_run state.old.task) state.old.past ≡ None }
    requires none_out { (p : ℕ) → is_closing_out (task_run state.old.task) p state.old.past ≡ false }
    requires room { 0 < state.old.journal.spare }
    ensures told { IfOk result (λ f. IsTold f party plugin state.old state.new) }
{
    // Each state is in order.
    let _ = state.task();
    if !may_tell(state.registry(), party, plugin) {
        return Ok(Followed::Breaks);
    }
    let taker = REPLAYING + plugin;
    let closing = state.take_closing_of(taker, plugin);
    let closer = tell(closing)?;
    state.done(party, plugin, closer);
    // Each state is in order.
    let _ = state.task();
    Ok(Followed::Went)
}

impl<W: Watcher, C: Closer<Held<W>>> Replay<W, C> {
    /// Follows a Done: tells the plug-in's closer.
    pub(crate) fn done(&mut self, party: u8, plugin: u8) -> Result<Followed, NoMemory>
        requires following { IsFollowing self.old.state self.old.berths.items self.old.blocks }
        ensures followed { IfOk result
            (λ f. IsFollowed f (entries.Done party plugin) self.old.state self.new.state self.new.berths.items self.new.blocks) }
    {
        self.state.reserve_hold()?;
        // Each state is in order.
        let _ = self.state.task();
        tell_by(&mut self.state, party, plugin)
    }
}
