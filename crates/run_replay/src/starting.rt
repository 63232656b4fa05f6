//! The start orders of a plan, which a journal begins with.

ghost use Rattle.std.specs.Prelude.{◌≡◌, ◌≢◌, ◌≤◌, ◌<◌, ◌↔◌, IsTrue, length, map, take};
ghost use Rattle.flat_model.specs.Log.{IsJoined};
ghost use Rattle.plug_registry.specs.Installs.{start_order};
ghost use Rattle.replay_order.specs.Openings.{IsOther};

use crate::same_sets::same_set;
use flat_model::{Entry, Order, Origin, Plan, SetSpec};
use run_journal::Journal;

/// Whether an entry is the start order of a set.
fn starts(entry: &Entry, spec: &SetSpec) -> bool
    ensures starts { IsTrue result ↔ (entry.now ≡ start_order spec.now) }
{
    match entry {
        Entry::Order {
            origin: Origin::Start,
            order: Order::Install { spec: installed },
        } => same_set(installed, spec),
        _ => false,
    }
}

/// How many of the sets' start orders the entries begin with, in order.
fn starts_in(entries: &[Entry], installs: &[SetSpec]) -> usize
    ensures within { result ≤ length installs.now }
    ensures there { result ≤ length entries.now }
    ensures begins { take result entries.now ≡ map start_order (take result installs.now) }
    ensures other { result < length installs.now → IsOther entries.now installs.now result }
{
    for (place, spec) in installs.iter().enumerate() {
        let Some(entry) = entries.get(place) else {
            return place;
        };
        if !starts(entry, spec) {
            return place;
        }
    }
    installs.len()
}

/// How many installs a plan has.
pub(crate) fn installs_of(plan: &Plan) -> usize
    ensures count { result ≡ length plan.now.installs }
{
    plan.installs.len()
}

/// How many of the plan's start orders a journal begins with, in order.
pub(crate) fn starts_of(journal: &Journal, plan: &Plan) -> usize
    ensures within { result ≤ length plan.now.installs }
    ensures there { result ≤ length journal.now.entries }
    ensures begins { take result journal.now.entries ≡ map start_order (take result plan.now.installs) }
    ensures other { result < length plan.now.installs → IsOther journal.now.entries plan.now.installs result }
    ensures joined { IsJoined journal.now.entries }
{
    starts_in(journal.entries(), &plan.installs)
}
