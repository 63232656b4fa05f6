//! Entries that are lines of the script.

ghost use Rattle.std.specs.Prelude.{◌≡◌, ◌↔◌, IsTrue};
ghost use Rattle.run_replay.specs.Ahead.{IsLineEntry};

use crate::same_sets::same_set;
use flat_model::{Entry, Order, Origin};

fn same_origin(one: Origin, other: Origin) -> bool
    ensures same { IsTrue result ↔ (one ≡ other) }
{
    one == other
}

fn same_order(one: &Order, other: &Order) -> bool
    ensures same { IsTrue result ↔ (one.now ≡ other.now) }
{
    match (one, other) {
        (Order::Install { spec }, Order::Install { spec: wanted }) => same_set(spec, wanted),
        (
            Order::Register { plugin, spec },
            Order::Register {
                plugin: wanted_plugin,
                spec: wanted,
            },
        ) => *plugin == *wanted_plugin && same_set(spec, wanted),
        (Order::Reset { plugin }, Order::Reset { plugin: wanted }) => *plugin == *wanted,
        (Order::Uninstall { plugin }, Order::Uninstall { plugin: wanted }) => *plugin == *wanted,
        _ => false,
    }
}

/// Whether an entry is this line of the script.
pub(crate) fn is_line(entry: &Entry, line: &Entry) -> bool
    requires line { IsLineEntry line.now }
    ensures same { IsTrue result ↔ (entry.now ≡ line.now) }
{
    match (entry, line) {
        (
            Entry::Order { origin, order },
            Entry::Order {
                origin: placed,
                order: wanted,
            },
        ) => same_origin(*origin, *placed) && same_order(order, wanted),
        _ => false,
    }
}
