//! What is asked of the state.

ghost use Rattle.std.specs.Prelude.{◌≡◌, ◌≤◌, OnOk, option_copied, slice_index_or, None};
ghost use Rattle.flat_model.specs.Registry.{sets_of};
ghost use Rattle.run_order.specs.InOrder.{InOrder};
ghost use Rattle.rv_exec.specs.Sharing.{HasRoom, starts_of};
ghost use Rattle.host_state.specs.State.{stored_of, IsWithinLimits};

use crate::states::HostState;
use crate::tasks::Task;
use flat_model::{NoMemory, SetSpec};
use plug_registry::Registry;
use run_journal::Journal;
use rv_exec::{Hart, HartStart, Services};
use watcher_api::{Closer, Held, Watcher};

/// The journal's entries that a hold may add, at most.
const HOLD_ENTRIES: usize = 32;

/// The entries that room is made for at once.
const HOLD_RESERVE: usize = 1024;

/// Makes room for the entries of a hold, many holds' at once.
fn room_for_entries(journal: &mut Journal) -> Result<(), NoMemory>
    ensures room { OnOk result (32 ≤ journal.new.spare) }
    ensures entries { journal.new.entries ≡ journal.old.entries }
{
    if journal.spare() < HOLD_ENTRIES {
        journal.reserve(HOLD_RESERVE)?;
    }
    Ok(())
}

/// Makes room for what one call of `write` appends.
fn room_for_output(services: &mut Services) -> Result<(), NoMemory>
    ensures room { OnOk result (HasRoom services.new) }
    ensures rest { services.new ≡ record services.old { room = services.new.room } }
{
    if !services.has_room() {
        services.make_room()?;
    }
    Ok(())
}

impl<W: Watcher, C: Closer<Held<W>>> HostState<W, C> {
    /// Whether a hart found no memory: nothing is recorded any more then.
    pub fn short(&self) -> bool
        ensures short { result ≡ self.now.short }
    {
        self.short
    }

    /// The code that the group ended with, once it has.
    pub fn group(&self) -> Option<i32>
        ensures group { result ≡ self.now.services.group }
    {
        self.services.group
    }

    /// What the guest has written.
    pub fn output(&self) -> &[u8]
        ensures output { result.now ≡ self.now.services.output }
    {
        &self.services.output
    }

    pub fn journal(&self) -> &Journal
        ensures journal { result.now ≡ self.now.journal }
    {
        &self.journal
    }

    pub fn registry(&self) -> &Registry
        ensures registry { result.now ≡ self.now.registry }
    {
        &self.registry
    }

    /// What is run. Each state is in order.
    pub fn task(&self) -> &Task
        ensures task { result.now ≡ self.now.task }
        ensures order { InOrder self.now.task (stored_of self.now) }
        ensures limits { IsWithinLimits self.now.task.machine }
    {
        &self.task
    }

    /// A hart that has left, as its steps left it; `None` exactly where the hart hasn't left or is no hart of the run.
    pub fn hart(&self, no: u8) -> Option<&Hart>
        ensures hart { option_copied result ≡ slice_index_or self.now.harts no None }
    {
        self.kept.get(usize::from(no))?.as_ref()
    }

    /// A hart's start; `None` exactly where the hart is parked or is no hart of the run.
    pub fn start_of(&self, no: u8) -> Option<HartStart>
        ensures start { result ≡ starts_of self.now.services no }
    {
        *self.services.starts.get(usize::from(no))?
    }

    /// A plug-in's sets in order; none where there is no such plug-in.
    pub fn specs(&self, plugin: u8) -> &[SetSpec]
        ensures sets { result.now ≡ sets_of self.now.registry.table plugin }
    {
        self.registry.specs(plugin)
    }

    /// Takes the room that a hold needs: for 32 entries in the journal, and for what one call of `write` appends.
    pub fn reserve_hold(&mut self) -> Result<(), NoMemory>
        ensures room { OnOk result (32 ≤ self.new.journal.spare) }
        ensures output { OnOk result (HasRoom self.new.services) }
        ensures rest { self.new ≡ record self.old { journal = self.new.journal; services = self.new.services } }
        ensures entries { self.new.journal.entries ≡ self.old.journal.entries }
        ensures services { self.new.services ≡ record self.old.services { room = self.new.services.room } }
    {
        room_for_entries(&mut self.journal)?;
        room_for_output(&mut self.services)
    }
}
