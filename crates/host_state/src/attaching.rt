//! Sets that wait in the state for a hart, and come to it.

ghost use Rattle.std.specs.Prelude.{◌≡◌, ◌≤◌, ℕ, true, false, length, MatchOption};
ghost use Rattle.baton_gate.specs.Logs.{GoesOn};
ghost use Rattle.run_rules.specs.Legal.{is_there, owes_any};
ghost use Rattle.run_rules.specs.Places.{is_with_hart, may_get, takes_all};
ghost use Rattle.run_order.specs.Sets.{sets_for};
ghost use Rattle.run_order.specs.InOrder.{task_run};
ghost use Rattle.kept_order.specs.Hearing.{specs_for};
ghost use Rattle.host_state.specs.Taking.{IsGotBy, IsTakenOut, HasAttached};

use crate::arrivals::Arrival;
use crate::committing::with_item;
use crate::specs::Specs;
use crate::states::HostState;
use crate::tables::take_at;
use flat_model::{Item, PlugState};
use watcher_api::{Attached, Closer, Held, Watcher};

impl<W: Watcher, C: Closer<Held<W>>> HostState<W, C> {
    /// Takes the set of a plug-in out, with its filters; `None` exactly where none waits for the hart that it may have.
    fn take_waiting(&mut self, no: u8, plugin: u8) -> Option<Arrival<W>>
        requires least { 1 ≤ plugin }
        requires most { plugin ≤ length self.old.registry.table.plugins }
        requires there { is_there (task_run self.old.task) no self.old.past ≡ true }
        ensures taken { MatchOption result
            ((may_get (task_run self.old.task) no plugin self.old.past ≡ false) × (self.new ≡ self.old))
            (λ a. IsTakenOut no plugin self.old self.new a.set a.spec) }
    {
        let Some(PlugState::Live) = self.registry.state(plugin) else {
            return None;
        };
        let arrival = take_at(&mut self.waiting, usize::from(plugin) - 1, usize::from(no))?;
        self.past = with_item(&self.past, Item::Got { hart: no, plugin });
        Some(arrival)
    }

    /// Moves the set of a plug-in to the hart, where it waits for it; whether it did.
    fn attach_one(
        &mut self,
        no: u8,
        plugin: u8,
        attached: &mut Attached<W>,
        specs: &mut Specs,
    ) -> bool
        requires least { 1 ≤ plugin }
        requires most { plugin ≤ length self.old.registry.table.plugins }
        requires there { is_there (task_run self.old.task) no self.old.past ≡ true }
        requires attached { attached.old ≡ sets_for is_with_hart (task_run self.old.task) no self.old.past }
        requires specs { specs.old ≡ specs_for (task_run self.old.task) no self.old.past }
        ensures attached { HasAttached no self.old self.new attached.new specs.new }
        ensures none { may_get (task_run self.new.task) no plugin self.new.past ≡ false }
        ensures others { (p : ℕ) → may_get (task_run self.old.task) no p self.old.past ≡ false
            → may_get (task_run self.new.task) no p self.new.past ≡ false }
        ensures nothing { result ≡ false → (attached.new ≡ attached.old) × (specs.new ≡ specs.old) }
    {
        if let Some(arrival) = self.take_waiting(no, plugin) {
            let number = arrival.set.plugin();
            attached.put(arrival.set);
            specs.put(number, arrival.spec);
            return true;
        }
        false
    }

    /// Moves each set that waits for the hart to it; whether there was one.
    pub fn attach(&mut self, no: u8, attached: &mut Attached<W>, specs: &mut Specs) -> bool
        requires there { is_there (task_run self.old.task) no self.old.past ≡ true }
        requires owes_none { owes_any (task_run self.old.task) no self.old.past ≡ false }
        requires attached { attached.old ≡ sets_for is_with_hart (task_run self.old.task) no self.old.past }
        requires specs { specs.old ≡ specs_for (task_run self.old.task) no self.old.past }
        ensures gots { GoesOn (IsGotBy no) self.old.past self.new.past }
        ensures rest { self.new ≡ record self.old {
          past = self.new.past;
          waiting = self.new.waiting;
          arriving = self.new.arriving;
        } }
        ensures attached { attached.new ≡ sets_for is_with_hart (task_run self.new.task) no self.new.past }
        ensures specs { specs.new ≡ specs_for (task_run self.new.task) no self.new.past }
        ensures all { takes_all (task_run self.new.task) no self.new.past ≡ true }
        ensures nothing { result ≡ false → (attached.new ≡ attached.old) × (specs.new ≡ specs.old) }
    {
        let count = self.registry.count();
        let mut some = false;
        for number in 0..count {
            let came = self.attach_one(no, number + 1, attached, specs);
            some |= came;
        }
        // The log is legal.
        let _ = &self.past;
        some
    }
}
