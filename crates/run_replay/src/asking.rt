//! Orders that boxes ask for.

ghost use Rattle.std.specs.Prelude.{◌≡◌, ◌<◌, None, Some, false, IfOk, MatchOption};
ghost use Rattle.flat_model.specs.declared.journals.Entry.TheVariants as entries;
ghost use Rattle.flat_model.specs.declared.journals.Item.TheVariants.{Ordered};
ghost use Rattle.flat_model.specs.declared.journals.Origin.TheVariants.{Asked};
ghost use Rattle.run_rules.specs.Due.{wanted};
ghost use Rattle.run_rules.specs.Heard.{waiting};
ghost use Rattle.run_rules.specs.Legal.{asked_order};
ghost use Rattle.run_order.specs.InOrder.{task_run};
ghost use Rattle.host_state.specs.Asking.{withdrawal};
ghost use Rattle.run_replay.specs.Following.{IsFollowing, IsFollowed};
ghost use Rattle.run_replay.specs.Recording.{IsJudged};

use crate::judging::waiting_ask;
use crate::places::berth_of;
use crate::replays::{Followed, Replay};
use flat_model::limits::PLUGINS_MOST;
use flat_model::{Ask, How, NoMemory, Order};
use host_state::HostState;
use watcher_api::{Closer, Held, Watcher};

/// How an order withdraws the plug-in, where it is the one that its box asked for.
fn how_asked(plugin: u8, ask: Ask, order: &Order) -> Option<How>
    ensures how { MatchOption result (asked_order plugin ask ≡ Some order.now → ⊥)
        (λ how. (asked_order plugin ask ≡ Some order.now) × (order.now ≡ withdrawal plugin how)) }
{
    match (ask, order) {
        (Ask::Reset, Order::Reset { plugin: withdrawn }) if *withdrawn == plugin => Some(
            How::Reset,
        ),
        (Ask::Uninstall, Order::Uninstall { plugin: withdrawn }) if *withdrawn == plugin => {
            Some(How::Uninstall)
        }
        _ => None,
    }
}

/// Records an order, where it is the one that a box of the plug-in on the hart asked for.
fn ask<W: Watcher, C: Closer<Held<W>>>(
    state: &mut HostState<W, C>,
    no: u8,
    plugin: u8,
    ask: Ask,
    order: &Order,
) -> Followed
    requires open { state.old.short ≡ false }
    requires caught_up { wanted (task_run state.old.task) state.old.past ≡ None }
    requires ask { ask ≡ waiting (task_run state.old.task) plugin no state.old.past }
    requires room { 0 < state.old.journal.spare }
    ensures judged { IsJudged result (Ordered (Asked no plugin) order.now) state.old state.new }
{
    let Some(how) = how_asked(plugin, ask, order) else {
        return Followed::Breaks;
    };
    state.withdraw(no, plugin, how);
    // Each state is in order.
    let _ = state.task();
    Followed::Went
}

impl<W: Watcher, C: Closer<Held<W>>> Replay<W, C> {
    /// The ask of a plug-in that waits on a hart for its order; there is none where the hart has left.
    fn ask_of(&self, no: u8, plugin: u8) -> Ask
        requires following { IsFollowing self.now.state self.now.berths.items self.now.blocks }
        ensures ask { result ≡ waiting (task_run self.now.state.task) plugin no self.now.state.past }
    {
        // Each state is in order.
        let _ = self.state.task();
        if plugin == 0 {
            return Ask::Stay;
        }
        if PLUGINS_MOST < plugin {
            return Ask::Stay;
        }
        let Some(berth) = berth_of(&self.berths, no) else {
            return Ask::Stay;
        };
        waiting_ask(&self.state, no, berth, plugin)
    }

    /// Follows an order that a box of the plug-in on the hart is to have asked for.
    pub(crate) fn asked(&mut self, no: u8, plugin: u8, order: &Order) -> Result<Followed, NoMemory>
        requires following { IsFollowing self.old.state self.old.berths.items self.old.blocks }
        ensures followed { IfOk result (λ f. IsFollowed f (entries.Order (Asked no plugin) order.now) self.old.state self.new.state
            self.new.berths.items self.new.blocks) }
    {
        let asks = self.ask_of(no, plugin);
        self.state.reserve_hold()?;
        // Each state is in order.
        let _ = self.state.task();
        Ok(ask(&mut self.state, no, plugin, asks, order))
    }
}
