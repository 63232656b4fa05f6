//! Sets that a hart takes out of a state.

ghost use Rattle.std.specs.Prelude.{◌≡◌, true, false, All, IfOk, OnOk, IsTrue};
ghost use Rattle.std.specs.List.{list_any};
ghost use Rattle.flat_model.specs.Registry.{owes};
ghost use Rattle.run_rules.specs.Legal.{is_there, owes_any, numbers};
ghost use Rattle.run_rules.specs.Places.{is_with_hart};
ghost use Rattle.run_order.specs.Sets.{sets_for};
ghost use Rattle.run_order.specs.InOrder.{task_run};
ghost use Rattle.kept_order.specs.Hearing.{specs_for};
ghost use Rattle.host_core.specs.Runs.{IsPlanned};

use crate::opening::State;
use flat_model::NoMemory;
use host_state::Specs;
use plug_registry::Registry;
use std::alloc::Global;
use std::test::Fail;
use watcher_api::{Attached, Recorder};

/// What a hart has of the sets.
#[derive(Drop)]
pub struct Taken {
    pub attached: Attached<Recorder>,
    pub specs: Specs,
}

/// What a hart has before any hold.
#[tactic(auto, using(crate::proofs::Fresh::no_sets, crate::proofs::Fresh::no_specs))]
pub fn nothing(alloc: Global, state: &State, no: u8) -> Result<Taken, NoMemory>
    requires planned { All IsPlanned state.now.past }
    ensures attached { IfOk result (λ t. t.attached ≡ sets_for is_with_hart (task_run state.now.task) no state.now.past) }
    ensures specs { IfOk result (λ t. t.specs ≡ specs_for (task_run state.now.task) no state.now.past) }
{
    Ok(Taken {
        attached: Attached::new(alloc)?,
        specs: Specs::new(alloc)?,
    })
}

// Whether the hart owes a Back.
fn owes_any(registry: &Registry, no: u8) -> bool
    ensures owes { result ≡ false → list_any (λ plugin. owes registry.now.table no plugin) (numbers registry.now.table) ≡ false }
{
    for place in 0..registry.count() {
        if registry.outstanding(no, place + 1) {
            return true;
        }
    }
    false
}

// Whether the hart is there and owes no Back.
fn may_take(state: &State, no: u8) -> bool
    ensures there { IsTrue result → is_there (task_run state.now.task) no state.now.past ≡ true }
    ensures owes_none { IsTrue result → owes_any (task_run state.now.task) no state.now.past ≡ false }
{
    // Each state is in order.
    let _ = state.task();
    let registry = state.registry();
    no < registry.harts() && !registry.has_left(no) && !owes_any(registry, no)
}

/// The hart takes what waits for it; whether there was a set.
pub fn take(state: &mut State, no: u8, taken: &mut Taken) -> Result<bool, Fail>
    requires attached { taken.old.attached ≡ sets_for is_with_hart (task_run state.old.task) no state.old.past }
    requires specs { taken.old.specs ≡ specs_for (task_run state.old.task) no state.old.past }
    ensures attached { OnOk result (taken.new.attached ≡ sets_for is_with_hart (task_run state.new.task) no state.new.past) }
    ensures specs { OnOk result (taken.new.specs ≡ specs_for (task_run state.new.task) no state.new.past) }
{
    if !may_take(state, no) {
        return Err("the hart may take nothing".into());
    }
    Ok(state.attach(no, &mut taken.attached, &mut taken.specs))
}
