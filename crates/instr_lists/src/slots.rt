//! Which subscriptions hear a sort of event.

ghost use Rattle.std.specs.Prelude.{◌≡◌, ◌++◌, OnOk};
ghost use Rattle.instr_lists.specs.Slots.{slots_in, slots_of};

use crate::sorts::{Sort, passes};
use flat_model::{NoMemory, SetSpec, Sub};

/// A subscription that hears an event: the place of its set among the attached ones, and its index there.
#[derive(Clone, Copy, Debug)]
pub(crate) struct Slot {
    pub(crate) set: usize,
    pub(crate) sub: usize,
}

/// Appends the slots of one set, which stands at place `k`.
fn push_set(k: usize, subs: &[Sub], sort: &Sort, slots: &mut Vec<Slot>) -> Result<(), NoMemory>
    ensures slots { OnOk result (slots.new.items ≡ slots.old.items ++ slots_in k 0 sort.now subs.now) }
{
    for (i, sub) in subs.iter().enumerate() {
        if passes(&sub.filter, sort) {
            slots.push(Slot { set: k, sub: i })?;
        }
    }
    Ok(())
}

/// Appends the slots of a sort of event.
pub(crate) fn push_slots(
    sets: &[(u8, SetSpec)],
    sort: &Sort,
    slots: &mut Vec<Slot>,
) -> Result<(), NoMemory>
    ensures slots { OnOk result (slots.new.items ≡ slots.old.items ++ slots_of sets.now sort.now) }
{
    for (k, (_, spec)) in sets.iter().enumerate() {
        push_set(k, spec.subs.as_slice(), sort, slots)?;
    }
    Ok(())
}
