//! Replays of whole journals.

ghost use Rattle.std.specs.Prelude.{◌≡◌, ◌≤◌, None, false, length, vec_len, IfOk, IfErr};
ghost use Rattle.flat_model.specs.declared.limits.TheConstants.{PLUGINS_MOST, RACK_BOXES};
ghost use Rattle.plug_registry.specs.Installs.{AreAllowed};
ghost use Rattle.run_rules.specs.Due.{wanted};
ghost use Rattle.run_order.specs.InOrder.{task_run};
ghost use Rattle.host_state.specs.State.{IsWithinLimits};
ghost use Rattle.run_replay.specs.Ahead.{IsAhead};
ghost use Rattle.run_replay.specs.Replays.{IsReplayOf, IsRefusedAs};

use crate::following::not_this_run;
use crate::opening::opened;
use crate::starting::{installs_of, starts_of};
use flat_model::{Image, Mode, NotThisRun, Plan, Refused};
use host_state::HostState;
use run_journal::Journal;
use std::alloc::Global;
use std::sync::Arc;
use watcher_api::{Closer, Held, Rack, Watcher};

/// The state that followed all entries of a journal, where it is whole and has no line that the journal lacks.
fn ended<W: Watcher, C: Closer<Held<W>>>(
    state: HostState<W, C>,
    journal: &Journal,
) -> Result<HostState<W, C>, Refused<NotThisRun>>
    requires open { state.short ≡ false }
    requires caught_up { wanted (task_run state.task) state.past ≡ None }
    requires ahead { IsAhead (length journal.now.entries) journal.now.entries state.journal.entries }
    ensures replayed { IfOk result (IsReplayOf state.task journal.now.entries) }
    ensures refused { IfErr result (IsRefusedAs (task_run state.task) journal.now.entries) }
{
    // Each state is in order, and the Turns of a journal are joined.
    let _ = state.task();
    let _ = journal.entries();
    let own = state.journal().len();
    let all = journal.len();
    if own > all {
        return Err(not_this_run(all));
    }
    if state.whole() {
        return Ok(state);
    }
    Err(not_this_run(all))
}

/// Replays a journal on one thread, without waiting: the state of the run that it tells. `NotThisRun` where it isn't a whole journal of
/// this run, with the index of the first entry that breaks a rule, or the number of entries where all are legal.
pub fn replay<W: Watcher, C: Closer<Held<W>>>(
    alloc: Global,
    image: Arc<Image>,
    harts: u8,
    limit: u64,
    mode: Mode,
    plan: Plan,
    journal: &Journal,
    rack: Rack<W, C>,
) -> Result<HostState<W, C>, Refused<NotThisRun>>
    requires limits { IsWithinLimits (record { image = image.value; harts = harts; limit = limit }) }
    requires allowed { AreAllowed harts plan.installs }
    requires boxes { RACK_BOXES ≤ vec_len rack.watchers }
    requires closers { PLUGINS_MOST ≤ vec_len rack.closers }
    ensures replayed { IfOk result (IsReplayOf
        (record { machine = record { image = image.value; harts = harts; limit = limit }; mode = mode; plan = plan })
        journal.now.entries) }
    ensures refused { IfErr result (IsRefusedAs
        (task_run (record { machine = record { image = image.value; harts = harts; limit = limit }; mode = mode; plan = plan }))
        journal.now.entries) }
{
    let installs = installs_of(&plan);
    let starts = starts_of(journal, &plan);
    let mut replay = opened(alloc, image, harts, limit, mode, plan, rack)?;
    if starts < installs {
        return Err(not_this_run(starts));
    }
    // The state is in order, and the Turns of its journal are joined.
    let _ = replay.state.task();
    let _ = replay.state.journal().entries();
    match replay.follow(journal.entries(), starts) {
        Ok(()) => ended(replay.into_state(), journal),
        Err(refused) => Err(refused),
    }
}
