//! Lines of the script that fall due in a Turn.

ghost use Rattle.std.specs.Prelude.{◌≡◌, ◌<◌, ◌≤◌, ◌-◌, true, false, length, slice_index_or, IfOk};
ghost use Rattle.std.specs.List.Sorted.{IsNonDecreasingBy};
ghost use Rattle.flat_model.specs.Log.{total_steps};
ghost use Rattle.run_rules.specs.Due.{allowed};
ghost use Rattle.run_order.specs.InOrder.{task_run};
ghost use Rattle.script_order.specs.Judging.{ComeBefore};
ghost use Rattle.host_state.specs.Scripting.{HasTurned};
ghost use Rattle.run_replay.specs.Overdue.{IsTurn, IsOverdue};
ghost use Rattle.run_replay.specs.Turns.{HasCaughtUp};

use crate::replays::Followed;
use flat_model::limits::BLOCK_WORDS;
use flat_model::{NoMemory, Order, Timed};
use host_state::HostState;
use plug_registry::Registry;
use std::alloc::Global;
use watcher_api::{Closer, Held, Watcher};

/// Whether the registry allows an order.
fn allows(registry: &Registry, order: &Order) -> bool
    ensures allows { result ≡ allowed registry.now.table order.now }
{
    registry.check(order).is_ok()
}

/// How many lines of a script have a moment of at most `moment`, in steps of all harts. The moments never fall.
fn come_by(script: &[Timed], moment: u128) -> usize
    requires rising { IsNonDecreasingBy (λ t. t.when) script.now }
    ensures come { ComeBefore script.now moment result }
{
    script.partition_point(|line| u128::from(line.when) <= moment)
}

/// How many lines of the script had come `steps` steps of all harts ago.
fn come_ago<W: Watcher, C: Closer<Held<W>>>(state: &HostState<W, C>, steps: u32) -> usize
    requires within { steps ≤ total_steps state.now.past }
    ensures come { ComeBefore state.now.task.plan.script (total_steps state.now.past - steps) result }
    ensures rising { IsNonDecreasingBy (λ t. t.when) state.now.task.plan.script }
{
    // Each state is in order.
    let script = state.task().script();
    let total = state.journal().total();
    come_by(script, total - steps as u128)
}

/// The line of an index.
fn line_of<W: Watcher, C: Closer<Held<W>>>(state: &HostState<W, C>, place: usize) -> &Timed
    requires there { place < length state.now.task.plan.script }
    ensures line { slice_index_or state.now.task.plan.script place result.now ≡ result.now }
{
    &state.task().script()[place]
}

/// Whether a line that fell due in the hart's Turn of `n` steps can't stand in time any more: its moment came 512 steps ago or more.
fn is_overdue<W: Watcher, C: Closer<Held<W>>>(state: &HostState<W, C>, no: u8, n: u32) -> bool
    requires turn { IsTurn (task_run state.now.task) no n state.now.past }
    ensures overdue { result ≡ true → IsOverdue (task_run state.now.task) state.now.past }
    ensures in_time { result ≡ false → HasTurned (task_run state.now.task) no state.now.past }
{
    if n <= BLOCK_WORDS {
        return false;
    }
    // Each state is in order.
    let _ = state.task();
    let first = come_ago(state, n);
    let end = come_ago(state, BLOCK_WORDS);
    for place in first..end {
        if allows(state.registry(), &line_of(state, place).order) {
            return true;
        }
    }
    false
}

/// Places the lines that have fallen due in the hart's Turn of `n` steps, in which the log ends, where they are in time.
pub(crate) fn place_due<W: Watcher, C: Closer<Held<W>>>(
    state: &mut HostState<W, C>,
    alloc: Global,
    no: u8,
    n: u32,
) -> Result<Followed, NoMemory>
    requires open { state.old.short ≡ false }
    requires turn { IsTurn (task_run state.old.task) no n state.old.past }
    ensures placed { IfOk result (λ f. HasCaughtUp f no state.old state.new) }
{
    if is_overdue(state, no, n) {
        return Ok(Followed::Overdue);
    }
    state.script_due(alloc, no)?;
    // Each state is in order.
    let _ = state.task();
    Ok(Followed::Went)
}
