//! Two sets that are attached as plug-ins 1 and 2.

ghost use Rattle.std.specs.Prelude.{◌≡◌, ◌≤◌, ◌∷◌, [], None, All, IfOk, vec_len};
ghost use Rattle.watcher_api.specs.Acting.{acts_of};
ghost use Rattle.watcher_api.specs.Attachment.{opening};
ghost use Rattle.instr_lists.specs.Delivery.{acts_with};

use flat_model::{NoMemory, SetSpec, Sub};
use std::alloc::Global;
use watcher_api::{Attached, AttachedSet, Recorder, Watcher, names_its_entries};

// So many blank boxes.
fn boxes(alloc: Global, count: usize) -> Result<Vec<Recorder>, NoMemory>
    ensures blank { IfOk result (λ boxes. All (λ w. ⟦<Recorder as Watcher>⟧.kind_of w ≡ None) boxes.items) }
    ensures count { IfOk result (λ boxes. vec_len boxes ≡ count) }
{
    let mut boxes = Vec::new(alloc);
    for _made in 0..count {
        boxes.push(Recorder::blank(alloc))?;
    }
    Ok(boxes)
}

// A set with its boxes; none that has too many subscriptions or names an entry that it has not.
fn registered(alloc: Global, plugin: u8, spec: &SetSpec) -> Result<AttachedSet<Recorder>, NoMemory>
    requires number { 1 ≤ plugin }
    requires most { plugin ≤ 8 }
    ensures opening { IfOk result (λ set. set ≡ opening plugin spec.now) }
{
    if !names_its_entries(spec) || spec.subs.as_slice().len() > 16 {
        return Err(NoMemory);
    }
    let mut boxes = boxes(alloc, Sub::calling(spec.subs.as_slice()))?;
    AttachedSet::new(alloc, plugin, spec, &mut boxes)
}

/// The two sets as they are before the first event.
pub fn attached(
    alloc: Global,
    first: &SetSpec,
    second: &SetSpec,
) -> Result<Attached<Recorder>, NoMemory>
    ensures attached { IfOk result (λ a. acts_of a ≡ acts_with ((1, first.now) ∷ (2, second.now) ∷ [])) }
{
    let mut attached = Attached::new(alloc)?;
    attached.put(registered(alloc, 1, first)?);
    attached.put(registered(alloc, 2, second)?);
    Ok(attached)
}
