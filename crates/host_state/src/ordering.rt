//! Orders as they change the state, and those of controllers.

ghost use Rattle.std.specs.Prelude.{◌≡◌, ◌∷◌, ◌<◌, None, false, vec_len, vec_capacity, IfErr, OnOk, OnErr};
ghost use Rattle.flat_model.specs.declared.journals.Item.TheVariants.{Ordered};
ghost use Rattle.flat_model.specs.declared.journals.Origin.TheVariants.{Control};
ghost use Rattle.flat_model.specs.declared.journals.Order.TheVariants.{Install, Register};
ghost use Rattle.flat_model.specs.Registry.{refusal, is_hart};
ghost use Rattle.run_rules.specs.Due.{wanted};
ghost use Rattle.run_rules.specs.Legal.{Legal};
ghost use Rattle.run_order.specs.InOrder.{task_run};
ghost use Rattle.kept_order.specs.Ordering.{IsWithdrawal};
ghost use Rattle.host_state.specs.Ordering.{IsAsBefore, IsOfRegistry, IsWithoutMemory, ChangesByOrder};

use crate::arrivals::{arrivals_in, room_for_row};
use crate::opening::{empty_row, spare_closer};
use crate::recording::{record_order, room_for_order};
use crate::rooms::ClosingRoom;
use crate::states::HostState;
use flat_model::{NoMemory, Order, Origin, Refused, SetSpec};
use plug_registry::OrderRefusal;
use std::alloc::Global;
use watcher_api::{Closer, Held, Watcher};

/// Takes the room of one plug-in more in each of these.
fn room_for_one_more<A, B, D, E>(
    waiting: &mut Vec<A>,
    parked: &mut Vec<B>,
    closers: &mut Vec<D>,
    rooms: &mut Vec<E>,
) -> Result<(), NoMemory>
    ensures waiting { waiting.new.items ≡ waiting.old.items }
    ensures parked { parked.new.items ≡ parked.old.items }
    ensures closers { closers.new.items ≡ closers.old.items }
    ensures rooms { rooms.new.items ≡ rooms.old.items }
    ensures waiting_room { OnOk result (vec_len waiting.new < vec_capacity waiting.new) }
    ensures parked_room { OnOk result (vec_len parked.new < vec_capacity parked.new) }
    ensures closers_room { OnOk result (vec_len closers.new < vec_capacity closers.new) }
    ensures rooms_room { OnOk result (vec_len rooms.new < vec_capacity rooms.new) }
{
    waiting.reserve(1)?;
    parked.reserve(1)?;
    closers.reserve(1)?;
    rooms.reserve(1)?;
    Ok(())
}

impl<W: Watcher, C: Closer<Held<W>>> HostState<W, C> {
    /// Withdraws the set of a plug-in by an order that may stand.
    fn withdraw_by(&mut self, alloc: Global, origin: Origin, order: Order) -> Result<(), NoMemory>
        requires withdrawal { IsWithdrawal order }
        requires legal { Legal (task_run self.old.task) (Ordered origin order ∷ self.old.past) }
        requires allowed { refusal self.old.registry.table order ≡ None }
        ensures ordered { OnOk result (self.new.past ≡ Ordered origin order ∷ self.old.past) }
        ensures rest { self.new ≡ record self.old { past = self.new.past; journal = self.new.journal; registry = self.new.registry } }
        ensures unchanged { OnErr result (IsAsBefore self.old self.new) }
    {
        let copy = order.copied(alloc)?;
        room_for_order(&mut self.registry, &mut self.journal, &order)?;
        self.past = record_order(
            &mut self.registry,
            &mut self.journal,
            &self.past,
            origin,
            order,
            copy,
        );
        Ok(())
    }

    /// Registers a set of an Idle plug-in by an order that may stand: it waits for each hart.
    fn register_by(
        &mut self,
        alloc: Global,
        origin: Origin,
        plugin: u8,
        spec: SetSpec,
    ) -> Result<(), NoMemory>
        requires legal { Legal (task_run self.old.task) (Ordered origin (Register plugin spec) ∷ self.old.past) }
        requires allowed { refusal self.old.registry.table (Register plugin spec) ≡ None }
        ensures ordered { OnOk result (self.new.past ≡ Ordered origin (Register plugin spec) ∷ self.old.past) }
        ensures rest { self.new ≡ record self.old {
          past = self.new.past;
          journal = self.new.journal;
          registry = self.new.registry;
          waiting = self.new.waiting;
          arriving = self.new.arriving;
          rooms = self.new.rooms;
          boxes = self.new.boxes;
        } }
        ensures unchanged { OnErr result (IsAsBefore self.old self.new) }
    {
        let harts = self.task.harts();
        let place = usize::from(plugin) - 1;
        let room = room_for_row(alloc, &spec, harts)?;
        let closing = ClosingRoom::new(alloc, harts)?;
        let order = Order::Register {
            plugin,
            spec: spec.copied(alloc)?,
        };
        room_for_order(&mut self.registry, &mut self.journal, &order)?;
        let row = arrivals_in(room, plugin, &spec, harts, &mut self.rack);
        self.waiting[place] = row;
        self.rooms[place] = closing;
        self.past = record_order(
            &mut self.registry,
            &mut self.journal,
            &self.past,
            origin,
            order,
            Order::Register { plugin, spec },
        );
        Ok(())
    }

    /// Installs a plug-in by an order that may stand: its set waits for each hart.
    fn install_by(&mut self, alloc: Global, origin: Origin, spec: SetSpec) -> Result<(), NoMemory>
        requires legal { Legal (task_run self.old.task) (Ordered origin (Install spec) ∷ self.old.past) }
        requires allowed { refusal self.old.registry.table (Install spec) ≡ None }
        ensures ordered { OnOk result (self.new.past ≡ Ordered origin (Install spec) ∷ self.old.past) }
        ensures rest { self.new ≡ record self.old {
          past = self.new.past;
          journal = self.new.journal;
          registry = self.new.registry;
          waiting = self.new.waiting;
          arriving = self.new.arriving;
          parked = self.new.parked;
          closers = self.new.closers;
          rooms = self.new.rooms;
          boxes = self.new.boxes;
          spare_closers = self.new.spare_closers;
        } }
        ensures unchanged { OnErr result (IsAsBefore self.old self.new) }
    {
        let harts = self.task.harts();
        let number = self.registry.count() + 1;
        let room = room_for_row(alloc, &spec, harts)?;
        let none_parked = empty_row(alloc, harts)?;
        let closing = ClosingRoom::new(alloc, harts)?;
        let order = Order::Install {
            spec: spec.copied(alloc)?,
        };
        room_for_one_more(
            &mut self.waiting,
            &mut self.parked,
            &mut self.closers,
            &mut self.rooms,
        )?;
        room_for_order(&mut self.registry, &mut self.journal, &order)?;
        self.waiting
            .push_reserved(arrivals_in(room, number, &spec, harts, &mut self.rack));
        self.parked.push_reserved(none_parked);
        self.closers.push_reserved(spare_closer(&mut self.rack));
        self.rooms.push_reserved(closing);
        self.past = record_order(
            &mut self.registry,
            &mut self.journal,
            &self.past,
            origin,
            order,
            Order::Install { spec },
        );
        Ok(())
    }

    /// Carries out an order that may stand, whoever gives it.
    pub(crate) fn order_by(
        &mut self,
        alloc: Global,
        origin: Origin,
        order: Order,
    ) -> Result<(), NoMemory>
        requires legal { Legal (task_run self.old.task) (Ordered origin order ∷ self.old.past) }
        requires allowed { refusal self.old.registry.table order ≡ None }
        ensures ordered { OnOk result (self.new.past ≡ Ordered origin order ∷ self.old.past) }
        ensures rest { ChangesByOrder self.old self.new }
        ensures unchanged { OnErr result (IsAsBefore self.old self.new) }
    {
        match order {
            Order::Install { spec } => self.install_by(alloc, origin, spec),
            Order::Register { plugin, spec } => self.register_by(alloc, origin, plugin, spec),
            Order::Reset { plugin } => self.withdraw_by(alloc, origin, Order::Reset { plugin }),
            Order::Uninstall { plugin } => {
                self.withdraw_by(alloc, origin, Order::Uninstall { plugin })
            }
        }
    }

    /// Carries out an order of a controller. A refusal is that of the registry, and changes nothing; want of memory changes
    /// nothing but room.
    pub fn order(
        &mut self,
        alloc: Global,
        party: u8,
        order: Order,
    ) -> Result<(), Refused<OrderRefusal>>
        requires open { self.old.short ≡ false }
        requires caught_up { wanted (task_run self.old.task) self.old.past ≡ None }
        requires controller { is_hart self.old.registry.table party ≡ false }
        ensures ordered { OnOk result ((self.new.past ≡ Ordered (Control party) order ∷ self.old.past)
            × (refusal self.old.registry.table order ≡ None)) }
        ensures refused { IfErr result (IsOfRegistry order self.old self.new) }
        ensures unchanged { IfErr result (IsWithoutMemory self.old self.new) }
        ensures caught_up { wanted (task_run self.new.task) self.new.past ≡ None }
        ensures task { self.new.task ≡ self.old.task }
        ensures rest { ChangesByOrder self.old self.new }
    {
        // The moments of the plan's lines never fall, so none is due behind an order.
        self.task.script();
        if let Err(why) = self.registry.check(&order) {
            return Err(Refused::Because(why));
        }
        self.order_by(alloc, Origin::Control { party }, order)?;
        Ok(())
    }
}
