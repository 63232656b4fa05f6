//! Whether a run is whole.

ghost use Rattle.std.specs.Prelude.{◌≡◌, ◌↔◌, ◌<◌, ◌⊎◌, ℕ, true, false, IsTrue, slice_index_or, length};
ghost use Rattle.std.specs.List.{list_any};
ghost use Rattle.flat_model.specs.Registry.{has_left, is_closing};
ghost use Rattle.run_rules.specs.Legal.{Whole};
ghost use Rattle.run_order.specs.InOrder.{task_run};
ghost use Rattle.host_state.specs.State.{IsCaughtUp};

use crate::states::HostState;
use flat_model::PlugState;
use plug_registry::Registry;
use watcher_api::{Closer, Held, Watcher};

/// Whether each of so many harts has left.
fn have_left(registry: &Registry, harts: u8) -> bool
    ensures left { IsTrue result ↔ ((h : ℕ) → h < harts → has_left registry.now.table h ≡ true) }
{
    for hart in 0..harts {
        if !registry.has_left(hart) {
            return false;
        }
    }
    true
}

/// Whether each of so many harts has left or found no memory.
fn are_gone(registry: &Registry, failed: &[bool], harts: u8) -> bool
    requires places { length failed.now ≡ harts }
    ensures gone { IsTrue result ↔ ((h : ℕ) → h < harts
        → (has_left registry.now.table h ≡ true) ⊎ (slice_index_or failed.now h false ≡ true)) }
{
    for hart in 0..harts {
        if !registry.has_left(hart) && !failed[usize::from(hart)] {
            return false;
        }
    }
    true
}

/// Whether a plug-in is being withdrawn.
fn is_withdrawn(state: PlugState) -> bool
    ensures closing { result ≡ is_closing state }
{
    matches!(state, PlugState::Resetting | PlugState::Leaving)
}

/// Whether no plug-in is being withdrawn.
fn have_closed(registry: &Registry) -> bool
    ensures closed { IsTrue result ↔ (list_any (λ p. is_closing p.state) registry.now.table.plugins ≡ false) }
{
    for place in 0..registry.count() {
        if let Some(state) = registry.state(place + 1) {
            if is_withdrawn(state) {
                return false;
            }
        }
    }
    true
}

impl<W: Watcher, C: Closer<Held<W>>> HostState<W, C> {
    /// Whether every hart has left and no plug-in is being withdrawn.
    pub fn whole(&self) -> bool
        requires caught_up { IsCaughtUp self.now }
        ensures whole { self.now.short ≡ false → (IsTrue result ↔ Whole (task_run self.now.task) self.now.past) }
    {
        have_left(&self.registry, self.task.harts()) && have_closed(&self.registry)
    }

    /// Whether every hart has left or found no memory.
    pub fn gone(&self) -> bool
        ensures gone { IsTrue result ↔ ((h : ℕ) → h < self.now.task.machine.harts
            → (has_left self.now.registry.table h ≡ true) ⊎ (slice_index_or self.now.failed h false ≡ true)) }
    {
        are_gone(&self.registry, self.failed.as_slice(), self.task.harts())
    }
}
