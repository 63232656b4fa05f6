//! Parked harts that nobody is left to start.

ghost use Rattle.std.specs.Prelude.{◌≡◌, ◌<◌, ℕ, true, length};
ghost use Rattle.flat_model.specs.Worlds.{hart_of};
ghost use Rattle.run_rules.specs.Legal.{is_finished};
ghost use Rattle.run_order.specs.InOrder.{task_run};
ghost use Rattle.host_state.specs.Idling.{is_out};

use crate::states::HostState;
use rv_exec::{Hart, HartStart};
use watcher_api::{Closer, Held, Watcher};

/// Whether each hart has left or has no start.
fn are_out(starts: &[Option<HartStart>], kept: &[Option<Hart>]) -> bool
    requires count { length starts.now ≡ length kept.now }
    ensures out { result ≡ true → (h : ℕ) → h < length kept.now → is_out starts.now kept.now h ≡ true }
{
    for (no, hart) in kept.iter().enumerate() {
        if hart.is_none() && starts[no].is_some() {
            return false;
        }
    }
    true
}

impl<W: Watcher, C: Closer<Held<W>>> HostState<W, C> {
    /// Whether each hart has left or is parked: then nobody is left who could start a parked one.
    pub fn is_deserted(&self) -> bool
        ensures finished { result ≡ true → (h : ℕ) → h < self.now.task.machine.harts
            → (hart_of self.now.task.machine self.now.task.mode self.now.past h).parked ≡ true
            → is_finished (task_run self.now.task) h self.now.past ≡ true }
    {
        are_out(&self.services.starts, &self.kept)
    }
}
