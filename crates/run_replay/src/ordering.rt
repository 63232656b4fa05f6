//! Orders.

ghost use Rattle.std.specs.Prelude.{◌≡◌, None, false, IfOk};
ghost use Rattle.flat_model.specs.declared.journals.Entry.TheVariants as entries;
ghost use Rattle.flat_model.specs.declared.journals.Item.TheVariants.{Ordered};
ghost use Rattle.flat_model.specs.declared.journals.Origin.TheVariants.{Control};
ghost use Rattle.run_rules.specs.Due.{wanted};
ghost use Rattle.run_order.specs.InOrder.{task_run};
ghost use Rattle.run_replay.specs.Following.{IsFollowing, IsFollowed};
ghost use Rattle.run_replay.specs.Recording.{IsJudged};

use crate::replays::{Followed, Replay};
use flat_model::{NoMemory, Order, Origin, Refused};
use host_state::HostState;
use std::alloc::Global;
use watcher_api::{Closer, Held, Watcher};

/// Records an order of a controller, where it may stand.
fn order_by<W: Watcher, C: Closer<Held<W>>>(
    state: &mut HostState<W, C>,
    alloc: Global,
    party: u8,
    order: &Order,
) -> Result<Followed, NoMemory>
    requires open { state.old.short ≡ false }
    requires caught_up { wanted (task_run state.old.task) state.old.past ≡ None }
    ensures judged { IfOk result (λ f. IsJudged f (Ordered (Control party) order.now) state.old state.new) }
{
    if party < state.task().harts() {
        return Ok(Followed::Breaks);
    }
    let order = order.copied(alloc)?;
    let ordered = state.order(alloc, party, order);
    // Each state is in order.
    let _ = state.task();
    match ordered {
        Ok(()) => Ok(Followed::Went),
        Err(Refused::Because(_)) => Ok(Followed::Breaks),
        Err(Refused::NoMemory) => Err(NoMemory),
    }
}

impl<W: Watcher, C: Closer<Held<W>>> Replay<W, C> {
    /// Follows an order of a controller.
    fn control(&mut self, party: u8, order: &Order) -> Result<Followed, NoMemory>
        requires following { IsFollowing self.old.state self.old.berths.items self.old.blocks }
        ensures followed { IfOk result (λ f. IsFollowed f (entries.Order (Control party) order.now) self.old.state self.new.state
            self.new.berths.items self.new.blocks) }
    {
        // Each state is in order.
        let _ = self.state.task();
        order_by(&mut self.state, self.alloc, party, order)
    }

    /// Follows an order.
    pub(crate) fn order(&mut self, origin: Origin, order: &Order) -> Result<Followed, NoMemory>
        requires following { IsFollowing self.old.state self.old.berths.items self.old.blocks }
        ensures followed { IfOk result
            (λ f. IsFollowed f (entries.Order origin order.now) self.old.state self.new.state self.new.berths.items self.new.blocks) }
    {
        match origin {
            // Nothing that the plan wants is missing.
            Origin::Start => Ok(Followed::Breaks),
            Origin::Script { .. } => Ok(Followed::Breaks),
            Origin::Asked { hart, plugin } => self.asked(hart, plugin, order),
            Origin::Control { party } => self.control(party, order),
        }
    }
}
