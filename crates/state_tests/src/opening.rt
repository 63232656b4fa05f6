//! States before any hold.

ghost use Rattle.std.specs.Prelude.{◌≡◌, [], None, All, IfOk, vec_len};
ghost use Rattle.flat_model.specs.declared.limits.TheConstants.{PLUGINS_MOST, RACK_BOXES};
ghost use Rattle.host_state.specs.State.{IsCaughtUp};
ghost use Rattle.host_core.specs.Runs.{IsPlanned};

use crate::sets::sets;
use flat_model::limits::{PLUGINS_MOST, RACK_BOXES};
use flat_model::{Image, Mode, NoMemory, Plan, Region};
use host_core::first_refused;
use host_state::HostState;
use std::alloc::Global;
use std::sync::Arc;
use std::test::Fail;
use watcher_api::{Closer, Held, Notices, Rack, Recorder, Watcher};

/// A state whose boxes keep every event, and whose closers keep every notice.
pub type State = HostState<Recorder, Notices<Held<Recorder>>>;

/// Where the code is, and each hart starts.
pub const CODE: u64 = 0x10000;

/// The steps that each hart makes at most.
pub const LIMIT: u64 = 1000;

// Three words that exit with 0.
fn exit_0(alloc: Global) -> Result<Image, NoMemory> {
    let mut bytes = Vec::new(alloc);
    for word in [0x05D0_0893u32, 0x0000_0513, 0x0000_0073] {
        bytes.extend_from_slice(&word.to_le_bytes())?;
    }
    let mut regions = Vec::new(alloc);
    regions.push(Region {
        base: CODE,
        bytes,
        r: true,
        w: false,
        x: true,
    })?;
    Ok(Image {
        regions,
        entry: CODE,
    })
}

// The boxes of a rack.
fn boxes(alloc: Global) -> Result<Vec<Recorder>, NoMemory>
    ensures blank { IfOk result (λ boxes. All (λ w. ⟦<Recorder as Watcher>⟧.kind_of w ≡ None) boxes.items) }
    ensures count { IfOk result (λ boxes. vec_len boxes ≡ RACK_BOXES) }
{
    let mut boxes = Vec::new(alloc);
    for _made in 0..RACK_BOXES {
        boxes.push(Recorder::blank(alloc))?;
    }
    Ok(boxes)
}

// The closers of a rack.
fn closers(alloc: Global) -> Result<Vec<Notices<Held<Recorder>>>, NoMemory>
    ensures untold { IfOk result (λ closers.
        All (λ c. ⟦<Notices<Held<Recorder>> as Closer<Held<Recorder>>>⟧.notices c ≡ []) closers.items) }
    ensures count { IfOk result (λ closers. vec_len closers ≡ PLUGINS_MOST) }
{
    let mut closers = Vec::new(alloc);
    for _made in 0..PLUGINS_MOST {
        closers.push(Notices::new(alloc))?;
    }
    Ok(closers)
}

/// The state of a run of three words on one hart or two, with the sets of so many plug-ins.
#[tactic(auto, using(crate::proofs::Fresh::planned))]
pub fn opened(alloc: Global, harts: u8, mode: Mode, plugins: usize) -> Result<State, Fail>
    ensures planned { IfOk result (λ s. All IsPlanned s.past) }
    ensures caught_up { IfOk result IsCaughtUp }
    ensures harts { IfOk result (λ s. s.task.machine.harts ≡ harts) }
{
    if !(1..=2).contains(&harts) {
        return Err("one hart or two".into());
    }
    let plan = Plan {
        installs: sets(alloc, plugins)?,
        script: Vec::new(alloc),
    };
    if first_refused(alloc, &plan, harts)?.is_some() {
        return Err("a refused install".into());
    }
    let image = Arc::new(alloc, exit_0(alloc)?)?;
    let rack = Rack {
        watchers: boxes(alloc)?,
        closers: closers(alloc)?,
    };
    Ok(HostState::new(alloc, image, harts, LIMIT, mode, plan, rack)?)
}
