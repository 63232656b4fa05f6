//! Whole runs on threads.

ghost use Rattle.std.specs.Prelude.{◌≡◌, ◌≤◌, All, Ok, IfOk, map, vec_len};
ghost use Rattle.flat_model.specs.declared.limits.TheConstants.{PLUGINS_MOST, RACK_BOXES};
ghost use Rattle.plug_registry.specs.Installs.{AreAllowed};
ghost use Rattle.host_state.specs.State.{IsWithinLimits};
ghost use Rattle.host_core.specs.Runs.{IsRunOf};
ghost use Rattle.host_core.specs.Stages.{IsOver, IsReady};

use crate::finishing::finish;
use crate::starting::{Started, start};
use baton_gate::Gate;
use flat_model::{Image, Mode, NoMemory, Plan};
use hart_runner::Runner;
use host_state::HostState;
use std::alloc::Global;
use std::sync::{Arc, Wait};
use std::thread;
use std::thread::Threads;
use watcher_api::{Closer, Held, Rack, Watcher};

/// Runs a runner until its hart has left.
fn run_one<W: Watcher, C: Closer<Held<W>>, R: Wait>(
    rt: &R,
    gate: &Gate<Box<HostState<W, C>>>,
    mut runner: Runner<W, C>,
) -> Result<Runner<W, C>, NoMemory>
    requires ready { IsReady gate.now runner.pass runner.seat runner.blocks runner.lists }
    ensures over { IfOk result (λ r. IsOver gate.now r.pass) }
    ensures party { IfOk result (λ r. r.pass.party ≡ runner.pass.party) }
{
    runner.run(rt, gate)?;
    Ok(runner)
}

/// The values of these results, where each has one.
fn all_ok<T: Drop>(alloc: Global, results: Vec<Result<T, NoMemory>>) -> Result<Vec<T>, NoMemory>
    ensures all { IfOk result (λ all. map (λ x. Ok x) all.items ≡ results.items) }
{
    let mut all = Vec::new(alloc);
    for result in results {
        all.push(result?)?;
    }
    Ok(all)
}

/// Runs all runners at once until their harts have left, each on a thread of its own where one can be made.
fn run_all<W: Watcher + Send, C: Closer<Held<W>> + Send, R: Threads + Wait + Sync>(
    rt: &R,
    alloc: Global,
    gate: &Gate<Box<HostState<W, C>>>,
    runners: Vec<Runner<W, C>>,
) -> Result<Vec<Runner<W, C>>, NoMemory>
    requires ready { All (λ r. IsReady gate.now r.pass r.seat r.blocks r.lists) runners.items }
    ensures over { IfOk result (λ rs. All (λ r. IsOver gate.now r.pass) rs.items) }
    ensures parties { IfOk result (λ rs. map (λ r. r.pass.party) rs.items ≡ map (λ r. r.pass.party) runners.items) }
{
    let results = thread::map_vec(
        rt,
        runners,
        &|runner: Runner<W, C>| -> Result<Runner<W, C>, NoMemory>
            requires { IsReady gate.now runner.pass runner.seat runner.blocks runner.lists }
            ensures { IfOk result (λ r. IsOver gate.entry.now r.pass × (r.pass.party ≡ runner.pass.party)) }
        { run_one(rt, gate, runner) },
    )?;
    all_ok(alloc, results)
}

/// Runs an image on so many harts, with a thread for each, and settles what is due at the end. Where a thread can't be made,
/// its hart runs on the caller's thread, after others. Want of memory also where a hart found too little.
pub fn run<W: Watcher + Send, C: Closer<Held<W>> + Send, R: Threads + Wait + Sync>(
    rt: &R,
    alloc: Global,
    image: Arc<Image>,
    harts: u8,
    limit: u64,
    mode: Mode,
    plan: Plan,
    rack: Rack<W, C>,
) -> Result<HostState<W, C>, NoMemory>
    requires limits { IsWithinLimits (record { image = image.value; harts = harts; limit = limit }) }
    requires allowed { AreAllowed harts plan.installs }
    requires boxes { RACK_BOXES ≤ vec_len rack.watchers }
    requires closers { PLUGINS_MOST ≤ vec_len rack.closers }
    ensures run { IfOk result (IsRunOf
        (record { machine = record { image = image.value; harts = harts; limit = limit }; mode = mode; plan = plan })) }
{
    let Started { gate, runners, own } = start(rt, alloc, image, harts, limit, mode, plan, rack)?;
    let runners = run_all(rt, alloc, &gate, runners)?;
    finish(rt, Started { gate, runners, own })
}
