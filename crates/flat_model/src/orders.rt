//! Why an order to a plug-in is refused.

use crate::journals::PlugState;

/// The first rule that an order breaks. `docs/plug-ins.md` has the rules in their order.
#[derive(Clone, Copy, Debug, PartialEq, Eq)]
pub enum OrderRefusal {
    /// There is no such plug-in: its number is 0 or above `count`.
    NoPlugin { plugin: u8, count: u8 },
    /// The plug-in's state does not allow the order.
    State { plugin: u8, state: PlugState },
    /// 8 plug-ins were installed.
    Full { count: u8 },
    /// More than 16 subscriptions, or more than 2 that call.
    TooManySubs { subs: u32, calling: u32 },
    /// More than 64 entries.
    TooManyEntries { entries: u8 },
    /// The least pc of a filter is above the greatest: the first such subscription, from 0.
    BadRange { index: u32 },
    /// An act names an entry past the set's entries: the first such subscription, from 0.
    BadEntry { index: u32, entry: u8, entries: u8 },
    /// The set needs more boxes than are left in the rack.
    FewBoxes { need: u32, left: u32 },
}
