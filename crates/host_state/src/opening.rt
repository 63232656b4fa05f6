//! The state before the first hold: the plan's installs are placed, and the lines of its script that are due before any step.

ghost use Rattle.std.specs.Prelude.{◌≡◌, ◌∷◌, ◌<◌, ◌≤◌, ◌+◌, ◌*◌, [], Some, None, false, length, map, option_map, replicate};
ghost use Rattle.std.specs.Prelude.{slice_index_or, vec_len, All, IfOk, OnOk};
ghost use Rattle.flat_model.specs.declared.limits.TheConstants.{NO_PARTY, PLUGINS_MOST, RACK_BOXES};
ghost use Rattle.flat_model.specs.declared.journals.Item.TheVariants.{Ordered};
ghost use Rattle.flat_model.specs.declared.journals.Order.TheVariants.{Install};
ghost use Rattle.flat_model.specs.declared.journals.Origin.TheVariants.{Start};
ghost use Rattle.flat_model.specs.Acts.{calling};
ghost use Rattle.flat_model.specs.Log.{log};
ghost use Rattle.flat_model.specs.Registry.{refusal, after_order};
ghost use Rattle.watcher_api.specs.Attachment.{IsWithin, opening};
ghost use Rattle.plug_registry.specs.Installs.{start_order, refusal_at, AreAllowed};
ghost use Rattle.host_state.specs.State.{IsWithinLimits, IsCaughtUp};
ghost use Rattle.host_state.specs.Starting.{HasStarted};
ghost use Rattle.host_state.specs.Scripting.{IsLineOf};
ghost use Rattle.baton_gate.specs.Logs.{GoesOn};

use crate::arrivals::{Arrival, arrivals_in, room_for_row};
use crate::recording::{record_order, room_for_order};
use crate::rooms::add_room;
use crate::states::HostState;
use crate::tasks::Task;
use flat_model::limits::RACK_BOXES;
use flat_model::{Image, Item, Mode, NoMemory, Order, Origin, Plan, SetSpec, Trace};
use guest_memory::Memory;
use plug_registry::Registry;
use run_journal::Journal;
use rv_exec::Services;
use std::alloc::Global;
use std::sync::Arc;
use watcher_api::{Closer, Held, Rack, Watcher};

/// A place for each hart, with nothing there.
pub(crate) fn empty_row<T: Drop>(alloc: Global, harts: u8) -> Result<Vec<Option<T>>, NoMemory>
    ensures empty { IfOk result (λ row. row.items ≡ replicate harts None) }
{
    let mut row = Vec::new(alloc);
    for _hart in 0..harts {
        row.push(None)?;
    }
    Ok(row)
}

/// A set that has just been registered, on its way to each hart, with boxes of the rack.
fn arrivals<W: Watcher, C: Closer<Held<W>>>(
    alloc: Global,
    plugin: u8,
    spec: &SetSpec,
    harts: u8,
    rack: &mut Rack<W, C>,
) -> Result<Vec<Option<Arrival<W>>>, NoMemory>
    requires number { 1 ≤ plugin }
    requires most { plugin ≤ 8 }
    requires subs { length spec.now.subs ≤ 16 }
    requires entries { All (λ s. IsWithin spec.now.entries s.act) spec.now.subs }
    requires enough { harts * calling spec.now.subs ≤ vec_len rack.old.watchers }
    ensures sets { IfOk result (λ row. map (option_map (λ a. a.set)) row.items ≡ replicate harts (Some (opening plugin spec.now))) }
    ensures specs { IfOk result (λ row. map (option_map (λ a. a.spec)) row.items ≡ replicate harts (Some spec.now)) }
    ensures left { OnOk result (vec_len rack.new.watchers + harts * calling spec.now.subs ≡ vec_len rack.old.watchers) }
    ensures closers { rack.new.closers ≡ rack.old.closers }
{
    let room = room_for_row(alloc, spec, harts)?;
    Ok(arrivals_in(room, plugin, spec, harts, rack))
}

/// A closer of the rack, which was given no notice.
pub(crate) fn spare_closer<W: Watcher, C: Closer<Held<W>>>(rack: &mut Rack<W, C>) -> Option<C>
    requires enough { 0 < vec_len rack.old.closers }
    ensures untold { option_map (λ c. C.notices c) result ≡ Some [] }
    ensures left { vec_len rack.new.closers + 1 ≡ vec_len rack.old.closers }
    ensures watchers { rack.new.watchers ≡ rack.old.watchers }
{
    rack.closers.pop()
}

/// Records the start order that installs a set, in the registry and the journal. The log with it.
fn record_start(
    alloc: Global,
    registry: &mut Registry,
    journal: &mut Journal,
    past: &Trace<Item>,
    spec: SetSpec,
) -> Result<Trace<Item>, NoMemory>
    requires allowed { refusal registry.old.table (Install spec) ≡ None }
    ensures table { OnOk result (registry.new.table ≡ after_order (Install spec) registry.old.table) }
    ensures journal { OnOk result (log journal.new.entries ≡ Ordered Start (Install spec) ∷ log journal.old.entries) }
    ensures past { IfOk result (λ now. now.items ≡ Ordered Start (Install spec) ∷ past.now.items) }
{
    let order = Order::Install {
        spec: spec.copied(alloc)?,
    };
    room_for_order(registry, journal, &order)?;
    Ok(record_order(
        registry,
        journal,
        past,
        Origin::Start,
        order,
        Order::Install { spec },
    ))
}

impl Task {
    /// The plan's install of an index.
    fn install(&self, i: usize) -> &SetSpec
        requires there { i < length self.now.plan.installs }
        ensures install { result.now ≡ slice_index_or self.now.plan.installs i result.now }
    {
        &self.plan.installs[i]
    }
}

impl<W: Watcher, C: Closer<Held<W>>> HostState<W, C> {
    /// The state before any item, without plug-ins.
    fn without_plugins(
        alloc: Global,
        task: Task,
        rack: Rack<W, C>,
    ) -> Result<HostState<W, C>, NoMemory>
        requires limits { IsWithinLimits task.machine }
        requires boxes { RACK_BOXES ≤ vec_len rack.watchers }
        requires closers { PLUGINS_MOST ≤ vec_len rack.closers }
        ensures opened { IfOk result (HasStarted task 0) }
    {
        let harts = task.harts;
        let memory = Memory::new(alloc, &task.image, harts)?;
        let services = Services::new(alloc, &task.image, harts, task.mode)?;
        let registry = Registry::new(alloc, harts, RACK_BOXES)?;
        let kept = empty_row(alloc, harts)?;
        let failed = vec![in alloc; false; usize::from(harts)]?;
        Ok(HostState {
            alloc,
            task,
            memory,
            services,
            registry,
            journal: Journal::new(alloc)?,
            past: Trace::new(),
            waiting: Vec::new(alloc),
            parked: Vec::new(alloc),
            kept,
            closers: Vec::new(alloc),
            rooms: Vec::new(alloc),
            rack,
            failed,
            short: false,
        })
    }

    /// The state with the plan's install of this index in place.
    fn with_install(mut self, alloc: Global, i: usize) -> Result<HostState<W, C>, NoMemory>
        requires there { i < length self.task.plan.installs }
        requires started { HasStarted self.task i self }
        requires allowed { refusal_at self.task.machine.harts self.task.plan.installs i ≡ None }
        ensures started { IfOk result (HasStarted self.task (i + 1)) }
    {
        let harts = self.task.harts();
        let spec = self.task.install(i).copied(alloc)?;
        let row = arrivals(
            alloc,
            self.registry.count() + 1,
            &spec,
            harts,
            &mut self.rack,
        )?;
        self.waiting.push(row)?;
        self.parked.push(empty_row(alloc, harts)?)?;
        self.closers.push(spare_closer(&mut self.rack))?;
        add_room(alloc, harts, &mut self.rooms)?;
        self.past = record_start(
            alloc,
            &mut self.registry,
            &mut self.journal,
            &self.past,
            spec,
        )?;
        Ok(self)
    }

    /// The state before the first hold: the plan's installs stand, and its lines of moment 0 that may. The rack has 128 boxes
    /// and 8 closers at least.
    pub fn new(
        alloc: Global,
        image: Arc<Image>,
        harts: u8,
        limit: u64,
        mode: Mode,
        plan: Plan,
        rack: Rack<W, C>,
    ) -> Result<HostState<W, C>, NoMemory>
        requires limits { IsWithinLimits (record { image = image.value; harts = harts; limit = limit }) }
        requires allowed { AreAllowed harts plan.installs }
        requires boxes { RACK_BOXES ≤ vec_len rack.watchers }
        requires closers { PLUGINS_MOST ≤ vec_len rack.closers }
        ensures task { IfOk result (λ s.
            s.task ≡ record { machine = record { image = image.value; harts = harts; limit = limit }; mode = mode; plan = plan }) }
        ensures log { IfOk result (λ s. GoesOn (IsLineOf NO_PARTY) (log (map start_order plan.installs)) s.past) }
        ensures caught_up { IfOk result IsCaughtUp }
        ensures open { IfOk result (λ s. s.short ≡ false) }
    {
        let installs = plan.installs.len();
        let task = Task {
            image,
            harts,
            limit,
            mode,
            plan,
        };
        let mut state = HostState::without_plugins(alloc, task, rack)?;
        for i in 0..installs {
            state = state.with_install(alloc, i)?;
        }
        state.script_opening(alloc)?;
        Ok(state)
    }
}
