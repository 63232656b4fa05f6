//! Lines of the plan's script that fall due in a hart's Turn.

ghost use Rattle.std.specs.Prelude.{◌≡◌, ◌<◌, false, OnOk};
ghost use Rattle.run_order.specs.InOrder.{task_run};
ghost use Rattle.host_state.specs.Scripting.{HasTurned};
ghost use Rattle.hart_runner.specs.Stretches.{HasPlaced};

use flat_model::NoMemory;
use host_state::HostState;
use std::alloc::Global;
use watcher_api::{Closer, Held, Watcher};

/// The moment of the first line that hasn't come yet, where there is one.
pub(crate) fn next_moment<W: Watcher, C: Closer<Held<W>>>(state: &HostState<W, C>) -> Option<u64> {
    let total = state.journal().total();
    let script = state.task().script();
    let come = script.partition_point(|line| u128::from(line.when) <= total);
    Some(script.get(come)?.when)
}

/// Whether a moment has come.
pub(crate) fn has_come<W: Watcher, C: Closer<Held<W>>>(
    state: &HostState<W, C>,
    moment: Option<u64>,
) -> bool {
    let Some(when) = moment else {
        return false;
    };
    u128::from(when) <= state.journal().total()
}

/// Places the lines that have fallen due in the Turn in which the log ends. Where there is no memory the hart fails.
pub(crate) fn place_due<W: Watcher, C: Closer<Held<W>>>(
    state: &mut HostState<W, C>,
    alloc: Global,
    no: u8,
) -> Result<(), NoMemory>
    requires open { state.old.short ≡ false }
    requires turned { HasTurned (task_run state.old.task) no state.old.past }
    requires low { no < state.old.task.machine.harts }
    ensures placed { HasPlaced no state.old state.new }
{
    let Ok(()) = state.script_due(alloc, no) else {
        state.fail(no);
        return Err(NoMemory);
    };
    Ok(())
}
