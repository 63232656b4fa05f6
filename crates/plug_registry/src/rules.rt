//! The rules of orders, each with its refusal.

ghost use Rattle.std.specs.Prelude.{◌≡◌, ◌<◌, ◌≤◌, ◌^◌, length, position, OnOk, IfSome};
ghost use Rattle.std.specs.Result.{result_err};
ghost use Rattle.flat_model.specs.declared.limits.TheConstants.{CALLING_MOST};
ghost use Rattle.flat_model.specs.Acts.{calling};
ghost use Rattle.flat_model.specs.Registry.{next_state, done_state, is_closing, withdraws};
ghost use Rattle.flat_model.specs.Registry.{entry_of, has_bad_range, has_bad_entry, entry_at};
ghost use Rattle.flat_model.specs.Registry.{size_refusal, range_refusal, entry_refusal, set_refusal};

use flat_model::limits::{CALLING_MOST, ENTRIES_MOST, SUBS_MOST};
use flat_model::{Act, How, Order, OrderRefusal, PlugState, SetSpec, Sub};

/// The state table: None where the state refuses the order.
pub fn next_state(order: &Order, state: PlugState) -> Option<PlugState>
    ensures { result ≡ next_state order.now state }
{
    match (order, state) {
        (Order::Register { .. }, PlugState::Idle) => Some(PlugState::Live),
        (Order::Reset { .. }, PlugState::Live) => Some(PlugState::Resetting),
        (Order::Uninstall { .. }, PlugState::Live | PlugState::Idle) => Some(PlugState::Leaving),
        _ => None,
    }
}

/// The state once every hart has given back.
pub fn done_state(state: PlugState) -> PlugState
    ensures { result ≡ done_state state }
{
    match state {
        PlugState::Resetting => PlugState::Idle,
        PlugState::Leaving => PlugState::Gone,
        other => other,
    }
}

/// Whether harts are still to give back.
pub fn is_closing(state: PlugState) -> bool
    ensures { result ≡ is_closing state }
{
    match state {
        PlugState::Resetting | PlugState::Leaving => true,
        PlugState::Live | PlugState::Idle | PlugState::Gone => false,
    }
}

/// Whether a set is withdrawn in this state, by how the last one has ended: a plug-in that was uninstalled while it was
/// Idle has none to give back.
pub fn withdraws(state: PlugState, ending: Option<How>) -> bool
    ensures { result ≡ withdraws state ending }
{
    match (state, ending) {
        (PlugState::Resetting, _) | (PlugState::Leaving, Some(How::Uninstall)) => true,
        _ => false,
    }
}

fn entry_of(act: &Act) -> Option<u8>
    ensures { result ≡ entry_of act.now }
{
    match act {
        Act::Call { .. } => None,
        Act::Inline { entry, .. } | Act::Cond { entry, .. } => Some(*entry),
    }
}

/// The rules of a set by itself.
#[tactic(auto, unfolding(flat_model::specs::Registry::set_refusal))]
pub fn check_set(spec: &SetSpec) -> Result<(), OrderRefusal>
    ensures why { result_err result ≡ set_refusal spec.now }
    ensures few { OnOk result (calling spec.now.subs ≤ CALLING_MOST) }
{
    check_size(spec)?;
    check_ranges(spec)?;
    check_entries(spec)
}

#[tactic(auto, unfolding(flat_model::specs::Registry::size_refusal))]
fn check_size(spec: &SetSpec) -> Result<(), OrderRefusal>
    ensures why { result_err result ≡ size_refusal spec.now }
    ensures few { OnOk result (calling spec.now.subs ≤ CALLING_MOST) }
{
    let subs = spec.subs.as_slice().len() as u32;
    let calling = spec.calling();
    if subs > SUBS_MOST || calling > CALLING_MOST {
        return Err(OrderRefusal::TooManySubs { subs, calling });
    }
    if spec.entries > ENTRIES_MOST {
        return Err(OrderRefusal::TooManyEntries {
            entries: spec.entries,
        });
    }
    Ok(())
}

#[tactic(auto, unfolding(flat_model::specs::Registry::range_refusal))]
fn check_ranges(spec: &SetSpec) -> Result<(), OrderRefusal>
    ensures { result_err result ≡ range_refusal spec.now }
{
    let subs = spec.subs.as_slice();
    match first_bad_range(subs) {
        None => Ok(()),
        Some(index) => Err(OrderRefusal::BadRange {
            index: index as u32,
        }),
    }
}

#[tactic(auto, unfolding(flat_model::specs::Registry::entry_refusal))]
fn check_entries(spec: &SetSpec) -> Result<(), OrderRefusal>
    ensures { result_err result ≡ entry_refusal spec.now }
{
    let subs = spec.subs.as_slice();
    match first_bad_entry(subs, spec.entries) {
        None => Ok(()),
        Some(index) => {
            let entry = entry_at(subs, index);
            let index = index as u32;
            let entries = spec.entries;
            Err(OrderRefusal::BadEntry {
                index,
                entry,
                entries,
            })
        }
    }
}

// The first filter whose least pc is above its greatest.
fn first_bad_range(subs: &[Sub]) -> Option<usize>
    ensures first { result ≡ position has_bad_range subs.now }
    ensures within { IfSome result (λ i. i < length subs.now) }
{
    subs.iter().position(|sub| sub.filter.lo > sub.filter.hi)
}

// The first act that names an entry past the set's.
fn first_bad_entry(subs: &[Sub], entries: u8) -> Option<usize>
    ensures first { result ≡ position (has_bad_entry entries) subs.now }
    ensures within { IfSome result (λ i. i < length subs.now) }
{
    subs.iter().position(|sub| has_bad_entry(entries, sub))
}

fn has_bad_entry(entries: u8, sub: &Sub) -> bool
    ensures { result ≡ has_bad_entry entries sub.now }
{
    match entry_of(&sub.act) {
        None => false,
        Some(entry) => entry >= entries,
    }
}

// The entry that the act at this index names.
fn entry_at(subs: &[Sub], index: usize) -> u8
    requires { index < length subs.now }
    ensures { result ≡ entry_at subs.now index }
{
    entry_of(&subs[index].act).unwrap_or(0)
}
