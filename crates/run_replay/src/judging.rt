//! What the rules ask of a hart.

ghost use Rattle.std.specs.Prelude.{◌≡◌, ◌&&◌, ◌+◌, ◌≤◌, true, not, nat_lt, None, is_some, length};
ghost use Rattle.std.specs.List.{list_all};
ghost use Rattle.flat_model.specs.declared.limits.TheConstants.{BLOCK_WORDS};
ghost use Rattle.flat_model.specs.Asks.{stays};
ghost use Rattle.flat_model.specs.Registry.{plugin_of};
ghost use Rattle.flat_model.specs.Worlds.{hart_of};
ghost use Rattle.watcher_api.specs.Acting.{ask_of};
ghost use Rattle.run_rules.specs.Guest.{plugins};
ghost use Rattle.run_rules.specs.Due.{turn_length, wanted};
ghost use Rattle.run_rules.specs.Heard.{is_live, waiting};
ghost use Rattle.run_rules.specs.Legal.{numbers, owes_any, asks_nothing, goes_on_in_time, may_step};
ghost use Rattle.run_order.specs.InOrder.{task_run};
ghost use Rattle.replay_order.specs.Seats.{Sits};
ghost use Rattle.run_replay.specs.Following.{seating_of};

use crate::berths::Berth;
use flat_model::limits::BLOCK_WORDS;
use flat_model::{Ask, PlugState};
use host_state::HostState;
use rv_exec::Hart;
use watcher_api::{Closer, Held, Watcher};

/// How many plug-ins there are: 8 at most.
pub(crate) fn plugin_count<W: Watcher, C: Closer<Held<W>>>(state: &HostState<W, C>) -> u8
    ensures count { result ≡ length (plugins (task_run state.now.task) state.now.past).plugins }
    ensures few { result ≤ 8 }
{
    // Each state is in order.
    let _ = state.task();
    state.registry().count()
}

/// Whether nothing is asked for.
pub(crate) fn stays(ask: Ask) -> bool
    ensures stays { result ≡ stays ask }
{
    matches!(ask, Ask::Stay)
}

/// Whether the hart owes a Back.
pub(crate) fn owes_any<W: Watcher, C: Closer<Held<W>>>(state: &HostState<W, C>, no: u8) -> bool
    ensures owes { result ≡ owes_any (task_run state.now.task) no state.now.past }
{
    // Each state is in order.
    let _ = state.task();
    for place in 0..plugin_count(state) {
        if state.registry().outstanding(no, place + 1) {
            return true;
        }
    }
    false
}

/// The ask of a plug-in that waits on the hart for its order.
pub(crate) fn waiting_ask<W: Watcher, C: Closer<Held<W>>>(
    state: &HostState<W, C>,
    no: u8,
    berth: &Berth<W>,
    plugin: u8,
) -> Ask
    requires least { 1 ≤ plugin }
    requires most { plugin ≤ 8 }
    requires noted { is_live (plugin_of (plugins (task_run state.now.task) state.now.past) plugin).state ≡ true
        → ask_of plugin berth.now.asks.first ≡ waiting (task_run state.now.task) plugin no state.now.past }
    ensures ask { result ≡ waiting (task_run state.now.task) plugin no state.now.past }
{
    // Each state is in order.
    let _ = state.task();
    let Some(PlugState::Live) = state.registry().state(plugin) else {
        return Ask::Stay;
    };
    berth.asks.first[usize::from(plugin - 1)]
}

/// Whether no ask of the hart waits for its order.
pub(crate) fn asks_nothing<W: Watcher, C: Closer<Held<W>>>(
    state: &HostState<W, C>,
    no: u8,
    berth: &Berth<W>,
) -> bool
    requires sits { Sits state.now.task no state.now.past (seating_of berth.now) }
    ensures quiet { result ≡ asks_nothing (task_run state.now.task) no state.now.past }
{
    // Each state is in order.
    let _ = state.task();
    for place in 0..plugin_count(state) {
        if !stays(waiting_ask(state, no, berth, place + 1)) {
            return false;
        }
    }
    true
}

/// Whether a Turn of `made` steps goes on in time past an ask that was made `since` steps ago.
fn is_in_time(since: u32, made: u32) -> bool
    ensures time { result ≡ (nat_lt since made && nat_lt (since + 1) BLOCK_WORDS) }
{
    since < made && since < BLOCK_WORDS - 1
}

/// Whether the ask of a plug-in on the hart, if one waits, lets its Turn of `made` steps go on.
fn lets_go_on<W: Watcher, C: Closer<Held<W>>>(
    state: &HostState<W, C>,
    no: u8,
    berth: &Berth<W>,
    made: u32,
    plugin: u8,
) -> bool
    requires least { 1 ≤ plugin }
    requires most { plugin ≤ 8 }
    requires sits { Sits state.now.task no state.now.past (seating_of berth.now) }
    requires turn { turn_length no state.now.past ≡ made }
    ensures goes { result ≡ goes_on_in_time (task_run state.now.task) no state.now.past plugin }
{
    // Each state is in order.
    let _ = state.task();
    if stays(waiting_ask(state, no, berth, plugin)) {
        return true;
    }
    is_in_time(berth.since[usize::from(plugin - 1)], made)
}

/// Whether every ask on the hart lets its Turn go on.
fn all_go_on<W: Watcher, C: Closer<Held<W>>>(
    state: &HostState<W, C>,
    no: u8,
    berth: &Berth<W>,
    made: u32,
) -> bool
    requires sits { Sits state.now.task no state.now.past (seating_of berth.now) }
    requires turn { turn_length no state.now.past ≡ made }
    ensures goes { result ≡ list_all (goes_on_in_time (task_run state.now.task) no state.now.past)
        (numbers (plugins (task_run state.now.task) state.now.past)) }
{
    for place in 0..plugin_count(state) {
        if !lets_go_on(state, no, berth, made, place + 1) {
            return false;
        }
    }
    true
}

/// Whether a hart runs.
fn runs<W: Watcher, C: Closer<Held<W>>>(state: &HostState<W, C>, hart: &Hart) -> bool
    ensures runs { result
        ≡ (not hart.now.parked && (not (is_some hart.now.ending) && not (is_some state.now.services.group))) }
{
    !hart.parked && hart.ending.is_none() && state.group().is_none()
}

/// Whether the hart may make its next step, where it has made `made` steps of its Turn.
pub(crate) fn may_step<W: Watcher, C: Closer<Held<W>>>(
    state: &HostState<W, C>,
    no: u8,
    berth: &Berth<W>,
    made: u32,
) -> bool
    requires sits { Sits state.now.task no state.now.past (seating_of berth.now) }
    requires is { berth.now.hart ≡ hart_of state.now.task.machine state.now.task.mode state.now.past no }
    requires caught_up { made ≡ 0 → wanted (task_run state.now.task) state.now.past ≡ None }
    requires turn { turn_length no state.now.past ≡ made }
    ensures may { result ≡ may_step (task_run state.now.task) no state.now.past }
{
    // Each state is in order.
    let _ = state.task();
    if !runs(state, &berth.hart) {
        return false;
    }
    if owes_any(state, no) {
        return false;
    }
    all_go_on(state, no, berth, made)
}
