//! The start of a run.

ghost use Rattle.std.specs.Prelude.{◌≡◌, ◌≤◌, ◌+◌, [], None, All, IfOk, MatchOption, map, vec_len};
ghost use Rattle.std.specs.List.{range_with_len};
ghost use Rattle.flat_model.specs.declared.limits.TheConstants.{NO_PARTY, PLUGINS_MOST, RACK_BOXES};
ghost use Rattle.flat_model.specs.Log.{log};
ghost use Rattle.baton_gate.specs.Logs.{GoesOn};
ghost use Rattle.baton_gate.specs.Passes.{IsNewPass, seen};
ghost use Rattle.plug_registry.specs.Installs.{start_order, AreAllowed};
ghost use Rattle.host_state.specs.Scripting.{IsLineOf};
ghost use Rattle.host_state.specs.State.{IsWithinLimits};
ghost use Rattle.host_core.specs.Stages.{IsFirstSeat, IsReady};

use baton_gate::{Gate, Pass};
use block_finder::BlockCache;
use flat_model::{Image, Mode, NoMemory, Plan};
use guest_memory::Near;
use hart_runner::{Pace, Runner, Seat, Tape};
use host_state::{HostState, Specs};
use instr_lists::ListCache;
use rv_exec::{Hart, RawLog};
use std::alloc::Global;
use std::sync::{Arc, Wait};
use watcher_api::{Asks, Attached, Closer, Held, Rack, Watcher};

/// A run before its first hold: the gate with the state, a runner for each hart by their numbers, and a pass beside
/// theirs for the party that takes the state at the end.
#[derive(Drop)]
pub struct Started<W: Watcher, C: Closer<Held<W>>> {
    pub gate: Gate<Box<HostState<W, C>>>,
    pub runners: Vec<Runner<W, C>>,
    pub own: Pass<Box<HostState<W, C>>>,
}

/// The seat of a hart before any hold.
fn seat<W: Watcher>(
    alloc: Global,
    image: &Arc<Image>,
    harts: u8,
    limit: u64,
    mode: Mode,
    no: u8,
) -> Result<Seat<W>, NoMemory>
    ensures seat { IfOk result
        (IsFirstSeat (record { image = image.now.value; harts = harts; limit = limit }) mode no) }
{
    Ok(Seat {
        no,
        image: Arc::clone(image)?,
        limit,
        hart: Hart::first(image, no, harts, mode),
        attached: Attached::new(alloc)?,
        specs: Specs::new(alloc)?,
        generation: 0,
        asks: Asks::none(),
        near: Near::default(),
        raw: RawLog::new(alloc)?,
        alloc,
    })
}

/// The runner of the pass's hart before any hold.
fn runner<W: Watcher, C: Closer<Held<W>>>(
    alloc: Global,
    image: &Arc<Image>,
    harts: u8,
    limit: u64,
    mode: Mode,
    pace: &Arc<Pace>,
    pass: Pass<Box<HostState<W, C>>>,
) -> Result<Runner<W, C>, NoMemory>
    ensures pass { IfOk result (λ r. r.pass ≡ pass) }
    ensures seat { IfOk result (λ r. MatchOption r.seat ⊥
        (IsFirstSeat (record { image = image.now.value; harts = harts; limit = limit }) mode r.pass.party)) }
    ensures blocks { IfOk result (λ r. r.blocks ≡ None) }
    ensures lists { IfOk result (λ r. r.lists ≡ []) }
{
    let seat = seat(alloc, image, harts, limit, mode, pass.party())?;
    Ok(Runner {
        pass,
        seat: Some(seat),
        blocks: BlockCache::new(alloc)?,
        lists: ListCache::new(alloc)?,
        tape: Tape::new(alloc)?,
        pace: Arc::clone(pace)?,
    })
}

/// The runners of these passes' harts before any hold.
fn runners<W: Watcher, C: Closer<Held<W>>>(
    alloc: Global,
    image: &Arc<Image>,
    harts: u8,
    limit: u64,
    mode: Mode,
    passes: Vec<Pass<Box<HostState<W, C>>>>,
) -> Result<Vec<Runner<W, C>>, NoMemory>
    ensures passes { IfOk result (λ rs. map (λ r. r.pass) rs.items ≡ passes.items) }
    ensures seats { IfOk result (λ rs. All (λ r. MatchOption r.seat ⊥
        (IsFirstSeat (record { image = image.now.value; harts = harts; limit = limit }) mode r.pass.party)) rs.items) }
    ensures blocks { IfOk result (λ rs. All (λ r. r.blocks ≡ None) rs.items) }
    ensures lists { IfOk result (λ rs. All (λ r. r.lists ≡ []) rs.items) }
{
    let pace = Pace::new(alloc, harts)?;
    let mut runners = Vec::new(alloc);
    for pass in passes {
        runners.push(runner(alloc, image, harts, limit, mode, &pace, pass)?)?;
    }
    Ok(runners)
}

/// Makes the state of a run, the gate that it passes through, and a runner for each hart. No hold was made.
pub fn start<W: Watcher, C: Closer<Held<W>>, R: Wait>(
    rt: &R,
    alloc: Global,
    image: Arc<Image>,
    harts: u8,
    limit: u64,
    mode: Mode,
    plan: Plan,
    rack: Rack<W, C>,
) -> Result<Started<W, C>, NoMemory>
    requires limits { IsWithinLimits (record { image = image.value; harts = harts; limit = limit }) }
    requires allowed { AreAllowed harts plan.installs }
    requires boxes { RACK_BOXES ≤ vec_len rack.watchers }
    requires closers { PLUGINS_MOST ≤ vec_len rack.closers }
    ensures log { IfOk result (λ s. GoesOn (IsLineOf NO_PARTY) (log (map start_order plan.installs)) (seen s.own)) }
    ensures own { IfOk result (λ s. IsNewPass s.gate s.own harts (harts + 1) (seen s.own)
        (record { machine = record { image = image.value; harts = harts; limit = limit }; mode = mode; plan = plan })) }
    ensures passes { IfOk result (λ s. All (λ r. IsNewPass s.gate r.pass r.pass.party (harts + 1) (seen s.own)
        (record { machine = record { image = image.value; harts = harts; limit = limit }; mode = mode; plan = plan }))
        s.runners.items) }
    ensures harts { IfOk result (λ s. map (λ r. r.pass.party) s.runners.items ≡ range_with_len 0 harts) }
    ensures ready { IfOk result (λ s. All (λ r. IsReady s.gate r.pass r.seat r.blocks r.lists) s.runners.items) }
{
    let shared = Arc::clone(&image)?;
    let state = HostState::new(alloc, image, harts, limit, mode, plan, rack)?;
    let (gate, mut passes) = Gate::new(rt, alloc, Box::new(alloc, state)?, harts + 1)?;
    let own = passes.pop().unwrap();
    let runners = runners(alloc, &shared, harts, limit, mode, passes)?;
    Ok(Started { gate, runners, own })
}
