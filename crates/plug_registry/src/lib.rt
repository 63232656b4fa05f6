//! The registry of plug-ins: which orders are allowed in which state, which harts still owe their Back,
//! how each set has ended, and how many boxes are left. `docs/plug-ins.md` has the rules.
#![tactic(auto)]

ghost use Rattle.std.specs.Prelude.{◌≡◌, ◌<◌, ◌≤◌, ◌-◌, None, true, false, map, length, slice_index_or, IfOk, OnOk};
ghost use Rattle.std.specs.Prelude.{OnErr, MatchOption};
ghost use Rattle.std.specs.List.{All};
ghost use Rattle.std.specs.Result.{result_err};
ghost use Rattle.flat_model.specs.declared.journals.PlugState.TheVariants as states;
ghost use Rattle.flat_model.specs.declared.limits.TheConstants.{PLUGINS_MOST, CALLING_MOST};
ghost use Rattle.flat_model.specs.Acts.{calling};
ghost use Rattle.plug_registry.specs.State.{freed};
ghost use Rattle.flat_model.specs.Registry.{no_plugins, plugin_of, boxes_of};
ghost use Rattle.flat_model.specs.Registry.{count_refusal, box_refusal, state_refusal, refusal};
ghost use Rattle.flat_model.specs.Registry.{after_order, after_back, after_done, after_leave};
ghost use Rattle.flat_model.specs.Registry.{is_installed, is_hart, has_left, state_of, sets_of, ending_of};
ghost use Rattle.flat_model.specs.Registry.{owes, is_complete, is_withdrawing};

pub use flat_model::OrderRefusal;
use flat_model::limits::PLUGINS_MOST;
use flat_model::{How, NoMemory, Order, PlugState, SetSpec};
use rules::{check_set, next_state};
use slot::{Slot, Spare};
use std::alloc::Global;
use std::marker::Model;

mod rules;
mod slot;

/// The plug-ins of a run.
#[derive(Drop)]
pub struct Registry {
    alloc: Global,
    harts: u8,
    // The boxes left in the rack.
    boxes: u32,
    slots: Vec<Slot>,
    // For each hart whether it has left.
    gone: Vec<bool>,
    // What the next install takes.
    spare: Option<Spare>,
}

impl Model for Registry {
    ghost use Rattle.std.specs.Prelude.{map, is_some, vec_capacity};
    ghost use Rattle.plug_registry.specs.State.{RegistryState, IsSound};

    ghost Value = { RegistryState };

    ghost view = { λ r. record {
      table = record { harts = r.harts; boxes = r.boxes; plugins = map (λ s. s.plugin) r.slots.items; gone = r.gone.items };
      can_install = is_some r.spare;
      can_register = map (λ s. s.has_room) r.slots.items;
    } };

    ghost invariant = { λ r. IsSound r.harts (vec_capacity r.slots) r.slots.items r.gone.items r.spare };
}

impl Registry {
    ghost use Rattle.plug_registry.specs.State.{HasRoom, KeepsRoom, KeepsOtherRoom};

    /// No plug-in is installed, and the rack has `boxes` boxes.
    pub fn new(alloc: Global, harts: u8, boxes: u32) -> Result<Registry, NoMemory>
        ensures { IfOk result (λ r. r.table ≡ no_plugins harts boxes) }
    {
        let slots = Vec::with_capacity(alloc, PLUGINS_MOST as usize)?;
        let gone = vec![in alloc; false; harts as usize]?;
        Ok(Registry {
            alloc,
            harts,
            boxes,
            slots,
            gone,
            spare: None,
        })
    }

    /// The first rule that the order breaks, where it breaks one.
    #[tactic(auto, unfolding(flat_model::specs::Registry::refusal))]
    pub fn check(&self, order: &Order) -> Result<(), OrderRefusal>
        ensures { result_err result ≡ refusal self.now.table order.now }
    {
        match order {
            Order::Install { spec } => {
                self.check_count()?;
                check_set(spec)?;
                self.check_boxes(spec)
            }
            Order::Register { plugin, spec } => {
                self.check_state(order, *plugin)?;
                check_set(spec)?;
                self.check_boxes(spec)
            }
            Order::Reset { plugin } | Order::Uninstall { plugin } => {
                self.check_state(order, *plugin)
            }
        }
    }

    pub fn harts(&self) -> u8
        ensures { result ≡ self.now.table.harts }
    {
        self.harts
    }

    /// How many plug-ins were installed.
    pub fn count(&self) -> u8
        ensures { result ≡ length self.now.table.plugins }
    {
        self.slots.len() as u8
    }

    /// The boxes left in the rack.
    pub fn boxes(&self) -> u32
        ensures { result ≡ self.now.table.boxes }
    {
        self.boxes
    }

    /// The plug-in's state; None where there is no such plug-in.
    pub fn state(&self, plugin: u8) -> Option<PlugState>
        ensures { result ≡ state_of self.now.table plugin }
    {
        match self.slot(plugin) {
            Some(slot) => Some(slot.state()),
            None => None,
        }
    }

    /// The plug-in's sets in order, none where there is no such plug-in.
    pub fn specs(&self, plugin: u8) -> &[SetSpec]
        ensures { result.now ≡ sets_of self.now.table plugin }
    {
        match self.slot(plugin) {
            Some(slot) => slot.sets(),
            None => &[],
        }
    }

    /// How a set of the plug-in has ended, by its place from 0; None while it is there, and where there is no such set or
    /// plug-in.
    pub fn ending(&self, plugin: u8, set: usize) -> Option<How>
        ensures { result ≡ ending_of self.now.table plugin set }
    {
        match self.slot(plugin) {
            Some(slot) => slot.ending(set),
            None => None,
        }
    }

    /// Whether a set of the plug-in is being given back.
    pub fn is_withdrawing(&self, plugin: u8) -> bool
        ensures { result ≡ is_withdrawing self.now.table plugin }
    {
        match self.slot(plugin) {
            Some(slot) => slot.is_withdrawing(),
            None => false,
        }
    }

    /// Whether the hart still owes its Back of the plug-in.
    pub fn outstanding(&self, hart: u8, plugin: u8) -> bool
        ensures { result ≡ owes self.now.table hart plugin }
    {
        match self.slot(plugin) {
            Some(slot) => slot.owes(hart),
            None => false,
        }
    }

    /// Whether the plug-in is Resetting or Leaving and no hart owes its Back any more.
    pub fn complete(&self, plugin: u8) -> bool
        ensures { result ≡ is_complete self.now.table plugin }
    {
        match self.slot(plugin) {
            Some(slot) => slot.is_complete(),
            None => false,
        }
    }

    /// Whether the hart has left; a number that is no hart's has not.
    pub fn has_left(&self, hart: u8) -> bool
        ensures { result ≡ has_left self.now.table hart }
    {
        self.gone.get(hart as usize).copied().unwrap_or(false)
    }

    /// Takes the room that `apply` needs for the order. It stays until an order takes it.
    pub fn reserve_for(&mut self, order: &Order) -> Result<(), NoMemory>
        ensures table { self.new.table ≡ self.old.table }
        ensures room { OnOk result (HasRoom self.new order.now) }
        ensures kept { KeepsRoom self.old self.new }
        ensures unchanged { OnErr result (self.new ≡ self.old) }
    {
        match order {
            Order::Install { .. } => self.reserve_install(),
            Order::Register { plugin, .. } => self.reserve_set(*plugin),
            Order::Reset { .. } | Order::Uninstall { .. } => Ok(()),
        }
    }

    /// Carries out an order that `check` allows and that room was reserved for.
    pub fn apply(&mut self, order: Order)
        requires allowed { refusal self.old.table order ≡ None }
        requires room { HasRoom self.old order }
        ensures table { self.new.table ≡ after_order order self.old.table }
        ensures kept { KeepsOtherRoom order self.old self.new }
    {
        match order {
            Order::Install { spec } => self.install(spec),
            Order::Register { plugin, spec } => self.register(plugin, spec),
            Order::Reset { plugin } => self.reset(plugin),
            Order::Uninstall { plugin } => self.uninstall(plugin),
        }
    }

    /// The hart gives back its boxes of the plug-in.
    pub fn back(&mut self, hart: u8, plugin: u8)
        requires { owes self.old.table hart plugin ≡ true }
        ensures { self.new ≡ record self.old { table = after_back hart plugin self.old.table } }
    {
        self.slots[plugin as usize - 1].give_back(hart);
    }

    /// The plug-in's reset or uninstall is done.
    pub fn done(&mut self, plugin: u8)
        requires { is_complete self.old.table plugin ≡ true }
        ensures { self.new ≡ record self.old { table = after_done plugin self.old.table } }
    {
        self.slots[plugin as usize - 1].done();
    }

    /// The hart leaves the run, and owes nothing any more.
    pub fn left(&mut self, hart: u8)
        requires { is_hart self.old.table hart ≡ true }
        ensures { self.new ≡ record self.old { table = after_leave hart self.old.table } }
    {
        self.gone[hart as usize] = true;
        give_back_all(&mut self.slots, hart);
    }

    fn reserve_install(&mut self) -> Result<(), NoMemory>
        ensures same { OnOk result (self.new ≡ record self.old { can_install = true }) }
        ensures unchanged { OnErr result (self.new ≡ self.old) }
    {
        let spare = Spare::new(self.alloc, self.harts)?;
        self.spare = Some(spare);
        Ok(())
    }

    fn reserve_set(&mut self, plugin: u8) -> Result<(), NoMemory>
        ensures table { self.new.table ≡ self.old.table }
        ensures room { OnOk result (is_installed self.new.table plugin ≡ true
            → slice_index_or self.new.can_register (plugin - 1) false ≡ true) }
        ensures kept { KeepsRoom self.old self.new }
        ensures unchanged { OnErr result (self.new ≡ self.old) }
    {
        if plugin == 0 || plugin as usize > self.slots.len() {
            return Ok(());
        }
        self.slots[plugin as usize - 1].reserve()
    }

    fn install(&mut self, spec: SetSpec)
        requires room { self.old.can_install ≡ true }
        requires few { length self.old.table.plugins < PLUGINS_MOST }
        requires few_call { calling spec.subs ≤ CALLING_MOST }
        requires boxes { boxes_of self.old.table spec ≤ self.old.table.boxes }
        ensures table { self.new.table ≡ after_order (Order.Install spec) self.old.table }
        ensures kept { KeepsOtherRoom (Order.Install spec) self.old self.new }
    {
        self.boxes -= self.boxes_of(&spec);
        let Some(spare) = self.spare.take() else {
            unreachable!()
        };
        let Ok(()) = self.slots.push(spare.with_set(spec)) else {
            unreachable!()
        };
    }

    fn register(&mut self, plugin: u8, spec: SetSpec)
        requires installed { is_installed self.old.table plugin ≡ true }
        requires room { slice_index_or self.old.can_register (plugin - 1) false ≡ true }
        requires idle { (plugin_of self.old.table plugin).state ≡ states.Idle }
        requires few_call { calling spec.subs ≤ CALLING_MOST }
        requires boxes { boxes_of self.old.table spec ≤ self.old.table.boxes }
        ensures table { self.new.table ≡ after_order (Order.Register plugin spec) self.old.table }
        ensures kept { KeepsOtherRoom (Order.Register plugin spec) self.old self.new }
    {
        let need = self.boxes_of(&spec);
        self.boxes -= need;
        self.slots[plugin as usize - 1].register(spec);
    }

    fn reset(&mut self, plugin: u8)
        requires installed { is_installed self.old.table plugin ≡ true }
        requires live { (plugin_of self.old.table plugin).state ≡ states.Live }
        ensures { self.new ≡ record self.old { table = after_order (Order.Reset plugin) self.old.table } }
    {
        self.slots[plugin as usize - 1].reset(&self.gone);
    }

    fn uninstall(&mut self, plugin: u8)
        requires { is_installed self.old.table plugin ≡ true }
        ensures { self.new ≡ record self.old { table = after_order (Order.Uninstall plugin) self.old.table } }
    {
        self.slots[plugin as usize - 1].uninstall(&self.gone);
    }

    // The slot of a plug-in.
    fn slot(&self, plugin: u8) -> Option<&Slot>
        ensures { MatchOption result (is_installed self.now.table plugin ≡ false)
            (λ slot. (is_installed self.now.table plugin ≡ true)
            × (slot.now.plugin ≡ plugin_of self.now.table plugin)) }
    {
        if plugin == 0 {
            return None;
        }
        self.slots.get(plugin as usize - 1)
    }

    #[tactic(auto, unfolding(flat_model::specs::Registry::count_refusal))]
    fn check_count(&self) -> Result<(), OrderRefusal>
        ensures { result_err result ≡ count_refusal self.now.table }
    {
        let count = self.count();
        if count >= PLUGINS_MOST {
            return Err(OrderRefusal::Full { count });
        }
        Ok(())
    }

    #[tactic(auto, unfolding(flat_model::specs::Registry::state_refusal))]
    fn check_state(&self, order: &Order, plugin: u8) -> Result<(), OrderRefusal>
        ensures { result_err result ≡ state_refusal self.now.table order.now plugin }
    {
        let count = self.count();
        let Some(state) = self.state(plugin) else {
            return Err(OrderRefusal::NoPlugin { plugin, count });
        };
        match next_state(order, state) {
            Some(_) => Ok(()),
            None => Err(OrderRefusal::State { plugin, state }),
        }
    }

    #[tactic(auto, unfolding(flat_model::specs::Registry::box_refusal))]
    fn check_boxes(&self, spec: &SetSpec) -> Result<(), OrderRefusal>
        requires { calling spec.now.subs ≤ CALLING_MOST }
        ensures { result_err result ≡ box_refusal self.now.table spec.now }
    {
        let left = self.boxes;
        let need = self.boxes_of(spec);
        if need > left {
            return Err(OrderRefusal::FewBoxes { need, left });
        }
        Ok(())
    }

    // The boxes that a set takes.
    fn boxes_of(&self, spec: &SetSpec) -> u32
        requires { calling spec.now.subs ≤ CALLING_MOST }
        ensures { result ≡ boxes_of self.now.table spec.now }
    {
        u32::from(self.harts) * spec.calling()
    }
}

// The hart owes nothing of any plug-in any more.
fn give_back_all(slots: &mut [Slot], hart: u8)
    requires { All (λ slot. hart < length slot.plugin.owing) slots.old }
    ensures { slots.new ≡ map (freed hart) slots.old }
{
    for slot in slots.iter_mut() {
        slot.give_back(hart);
    }
}
