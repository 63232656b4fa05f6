//! A replay before any hold.

ghost use Rattle.std.specs.Prelude.{◌≡◌, ◌≤◌, ◌<◌, ℕ, None, map, vec_len, length, slice_index_or, IfOk, MatchOption};
ghost use Rattle.flat_model.specs.declared.limits.TheConstants.{NO_PARTY, PLUGINS_MOST, RACK_BOXES};
ghost use Rattle.flat_model.specs.Log.{log};
ghost use Rattle.plug_registry.specs.Installs.{start_order, AreAllowed};
ghost use Rattle.run_rules.specs.Legal.{Legal};
ghost use Rattle.run_order.specs.InOrder.{task_run};
ghost use Rattle.baton_gate.specs.Logs.{GoesOn};
ghost use Rattle.host_state.specs.Scripting.{IsLineOf};
ghost use Rattle.host_state.specs.State.{IsWithinLimits};
ghost use Rattle.run_replay.specs.First.{IsFirstBerth};
ghost use Rattle.run_replay.specs.Following.{IsFollowing};

use crate::berths::Berth;
use crate::replays::Replay;
use block_finder::BlockCache;
use flat_model::limits::PLUGINS_MOST;
use flat_model::{Image, Mode, NoMemory, Plan};
use host_state::{HostState, Specs};
use instr_lists::ListCache;
use rv_exec::{Hart, RawLog};
use std::alloc::Global;
use std::sync::Arc;
use watcher_api::{Asks, Attached, Closer, Held, Rack, Watcher};

/// What a hart has before any hold.
fn first_berth<W: Watcher>(
    alloc: Global,
    image: &Image,
    harts: u8,
    mode: Mode,
    no: u8,
) -> Result<Berth<W>, NoMemory>
    ensures first { IfOk result (IsFirstBerth image.now harts mode no) }
{
    Ok(Berth {
        hart: Hart::first(image, no, harts, mode),
        attached: Attached::new(alloc)?,
        specs: Specs::new(alloc)?,
        generation: 0,
        asks: Asks::none(),
        since: [0; PLUGINS_MOST as usize],
        raw: RawLog::new(alloc)?,
        lists: ListCache::new(alloc)?,
    })
}

/// What each hart has before any hold.
fn first_berths<W: Watcher>(
    alloc: Global,
    image: &Image,
    harts: u8,
    mode: Mode,
) -> Result<Vec<Option<Berth<W>>>, NoMemory>
    ensures count { IfOk result (λ berths. length berths.items ≡ harts) }
    ensures first { IfOk result (λ berths. (h : ℕ) → h < harts
        → MatchOption (slice_index_or berths.items h None) ⊥ (IsFirstBerth image.now harts mode h)) }
{
    let mut berths = Vec::new(alloc);
    for no in 0..harts {
        berths.push(Some(first_berth(alloc, image, harts, mode, no)?))?;
    }
    Ok(berths)
}

/// The replay once the plan's installs are placed and the lines of its script that are due before any step, before any hold.
pub(crate) fn opened<W: Watcher, C: Closer<Held<W>>>(
    alloc: Global,
    image: Arc<Image>,
    harts: u8,
    limit: u64,
    mode: Mode,
    plan: Plan,
    rack: Rack<W, C>,
) -> Result<Replay<W, C>, NoMemory>
    requires limits { IsWithinLimits (record { image = image.value; harts = harts; limit = limit }) }
    requires allowed { AreAllowed harts plan.installs }
    requires boxes { RACK_BOXES ≤ vec_len rack.watchers }
    requires closers { PLUGINS_MOST ≤ vec_len rack.closers }
    ensures following { IfOk result (λ r. IsFollowing r.state r.berths.items r.blocks) }
    ensures task { IfOk result (λ r. r.state.task
        ≡ record { machine = record { image = image.value; harts = harts; limit = limit }; mode = mode; plan = plan }) }
    ensures past { IfOk result (λ r. GoesOn (IsLineOf NO_PARTY) (log (map start_order plan.installs)) r.state.past) }
    ensures legal { IfOk result (λ r. Legal (task_run r.state.task) r.state.past) }
{
    let blocks = BlockCache::new(alloc)?;
    let berths = first_berths(alloc, &image, harts, mode)?;
    let state = HostState::new(alloc, image, harts, limit, mode, plan, rack)?;
    // Each state is in order, and the moments of the script's lines never fall.
    let _ = state.task().script();
    Ok(Replay {
        alloc,
        state,
        berths,
        blocks,
    })
}
