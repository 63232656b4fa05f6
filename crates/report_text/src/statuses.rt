//! The status of a run that is whole.

ghost use Rattle.std.specs.Prelude.{◌≡◌, ◌<◌};
ghost use Rattle.flat_model.specs.Texts.{is_fault, is_limit, is_failure, is_failed_group};
ghost use Rattle.flat_model.specs.Worlds.{hart_of};
ghost use Rattle.run_rules.specs.Legal.{Whole};
ghost use Rattle.run_order.specs.InOrder.{task_run};
ghost use Rattle.report_text.specs.Report.{status_after, status_by};

use flat_model::Ending;
use host_state::HostState;
use rv_exec::Hart;
use watcher_api::{Closer, Held, Watcher};

/// Whether a hart ended by a fault.
fn is_fault(ending: Option<Ending>) -> bool
    ensures fault { result ≡ is_fault ending }
{
    matches!(ending, Some(Ending::Fault { .. }))
}

/// Whether a hart ended by its limit.
fn is_limit(ending: Option<Ending>) -> bool
    ensures limit { result ≡ is_limit ending }
{
    matches!(ending, Some(Ending::Limit))
}

/// Whether a hart exited with a code other than 0.
fn is_failure(ending: Option<Ending>) -> bool
    ensures failure { result ≡ is_failure ending }
{
    match ending {
        Some(Ending::Exited(code)) => code != 0,
        _ => false,
    }
}

/// Whether the group has ended with a code other than 0.
fn failed(group: Option<i32>) -> bool
    ensures failed { result ≡ is_failed_group group }
{
    match group {
        Some(code) => code != 0,
        None => false,
    }
}

/// A hart of a run that is whole.
pub(crate) fn left_hart<W: Watcher, C: Closer<Held<W>>>(state: &HostState<W, C>, no: u8) -> &Hart
    requires whole { Whole (task_run state.now.task) state.now.past }
    requires hart { no < state.now.task.machine.harts }
    ensures hart { result.now ≡ hart_of state.now.task.machine state.now.task.mode state.now.past no }
{
    let _ = state.task();
    let Some(hart) = state.hart(no) else {
        unreachable!()
    };
    hart
}

/// The status by what there is among the endings of the harts, and by whether the group failed.
fn status_by(fault: bool, limit: bool, failure: bool, group_failed: bool) -> u8
    ensures status { result ≡ status_by fault limit failure group_failed }
{
    if fault {
        8
    } else if limit {
        9
    } else if failure || group_failed {
        1
    } else {
        0
    }
}

/// The status of a run that is whole: the first of 8, 9, 1 and 0 that holds, which are that of a fault, of the limit, of a hart or a
/// group that ended with another code than 0, and of none of these.
pub fn status<W: Watcher, C: Closer<Held<W>>>(state: &HostState<W, C>) -> u8
    requires whole { Whole (task_run state.now.task) state.now.past }
    ensures status { result ≡ status_after state.now.task state.now.past }
{
    let mut fault = false;
    let mut limit = false;
    let mut failure = false;
    for no in 0..state.task().harts() {
        let ending = left_hart(state, no).ending;
        fault |= is_fault(ending);
        limit |= is_limit(ending);
        failure |= is_failure(ending);
    }
    status_by(fault, limit, failure, failed(state.group()))
}
