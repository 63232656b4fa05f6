//! Orders as they are recorded in the registry, the journal and the log.

ghost use Rattle.std.specs.Prelude.{◌≡◌, ◌∷◌, ◌<◌, None, OnOk};
ghost use Rattle.flat_model.specs.declared.journals.Item.TheVariants.{Ordered};
ghost use Rattle.flat_model.specs.Log.{log};
ghost use Rattle.flat_model.specs.Registry.{refusal, after_order};
ghost use Rattle.plug_registry.specs.State.{HasRoom};

use flat_model::{Entry, Item, NoMemory, Order, Origin, Trace};
use plug_registry::Registry;
use run_journal::Journal;

/// Takes the room of an order in the registry and the journal.
pub(crate) fn room_for_order(
    registry: &mut Registry,
    journal: &mut Journal,
    order: &Order,
) -> Result<(), NoMemory>
    ensures room { OnOk result (HasRoom registry.new order.now) }
    ensures entry { OnOk result (0 < journal.new.spare) }
    ensures table { registry.new.table ≡ registry.old.table }
    ensures entries { journal.new.entries ≡ journal.old.entries }
{
    registry.reserve_for(order)?;
    journal.reserve(1)
}

/// Records an order that the registry allows and whose room was taken; `copy` is an equal order. The log with it.
pub(crate) fn record_order(
    registry: &mut Registry,
    journal: &mut Journal,
    past: &Trace<Item>,
    origin: Origin,
    order: Order,
    copy: Order,
) -> Trace<Item>
    requires allowed { refusal registry.old.table order ≡ None }
    requires room { HasRoom registry.old order }
    requires entry { 0 < journal.old.spare }
    requires copy { copy ≡ order }
    ensures table { registry.new.table ≡ after_order order registry.old.table }
    ensures journal { log journal.new.entries ≡ Ordered origin order ∷ log journal.old.entries }
    ensures past { result.items ≡ Ordered origin order ∷ past.now.items }
{
    let item = Item::Ordered {
        origin,
        order: copy,
    };
    let now = past.before(&item);
    let Item::Ordered {
        origin: _,
        order: recorded,
    } = item
    else {
        unreachable!()
    };
    journal.push(Entry::Order {
        origin,
        order: recorded,
    });
    registry.apply(order);
    now
}
