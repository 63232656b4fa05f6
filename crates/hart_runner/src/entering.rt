//! The beginning of a hold: asks, Backs and arrived sets.

ghost use Rattle.std.specs.Prelude.{◌≡◌, ◌<◌, ◌≤◌, ◌+◌, ◌==◌, ◌&&◌, ℕ, not, true, false, None, IfOk, OnOk, OnErr, length, replicate};
ghost use Rattle.flat_model.specs.declared.plugins.Ask.TheVariants.{Stay};
ghost use Rattle.flat_model.specs.Registry.{owes};
ghost use Rattle.rv_exec.specs.Sharing.{HasRoom};
ghost use Rattle.run_rules.specs.Guest.{plugins};
ghost use Rattle.run_rules.specs.Legal.{owes_any};
ghost use Rattle.run_order.specs.InOrder.{task_run};
ghost use Rattle.hart_runner.specs.Entering.{MayReturn, HasReturned};
ghost use Rattle.hart_runner.specs.Seats.{IsBack, HasEntered, HasWritten};
ghost use Rattle.host_state.specs.State.{IsCaughtUp};
ghost use Rattle.host_state.specs.Taking.{IsGotBy};
ghost use Rattle.baton_gate.specs.Logs.{GoesOn};

use crate::seats::Seat;
use flat_model::NoMemory;
use host_state::{HostState, Specs};
use watcher_api::{Asks, Attached, Closer, Held, Watcher};

/// Makes room for a hold, and answers the number of the lists that its sets may make. An error where there is no memory, where
/// another hart found none, and where no number is left.
fn prepare<W: Watcher, C: Closer<Held<W>>>(
    state: &mut HostState<W, C>,
    generation: u64,
) -> Result<u64, NoMemory>
    ensures next { IfOk result (λ next. next ≡ generation + 1) }
    ensures open { OnOk result (state.old.short ≡ false) }
    ensures room { OnOk result (32 ≤ state.new.journal.spare) }
    ensures output { OnOk result (HasRoom state.new.services) }
    ensures rest { state.new ≡ record state.old { journal = state.new.journal; services = state.new.services } }
{
    if state.short() {
        return Err(NoMemory);
    }
    let next = generation.checked_add(1).ok_or(NoMemory)?;
    state.reserve_hold()?;
    Ok(next)
}

/// How many plug-ins there are: 8 at most.
fn plugin_count<W: Watcher, C: Closer<Held<W>>>(state: &HostState<W, C>) -> u8
    ensures count { result ≡ length (plugins (task_run state.now.task) state.now.past).plugins }
    ensures few { result ≤ 8 }
{
    // Each state is in order.
    let _ = state.task();
    state.registry().count()
}

/// The hart gives a plug-in back, where it owes it; whether it does.
fn give_back<W: Watcher, C: Closer<Held<W>>>(
    state: &mut HostState<W, C>,
    no: u8,
    plugin: u8,
    attached: &mut Attached<W>,
    specs: &mut Specs,
) -> bool
    requires may { MayReturn no state.old attached.old specs.old }
    requires room { 0 < state.old.journal.spare }
    ensures may { MayReturn no state.new attached.new specs.new }
    ensures returned { HasReturned no state.old state.new }
    ensures owes { (p : ℕ) → owes (plugins (task_run state.new.task) state.new.past) no p
        ≡ (not (plugin == p) && owes (plugins (task_run state.old.task) state.old.past) no p) }
    ensures nothing { result ≡ false
        → (state.new ≡ state.old) × (attached.new ≡ attached.old) × (specs.new ≡ specs.old) }
    ensures wrote { result ≡ true → HasWritten state.old.past state.new.past }
    ensures room { state.old.journal.spare ≤ state.new.journal.spare + 1 }
{
    // The moments of the script's lines never fall, so none is due behind a Back.
    let _ = state.task().script();
    let owed = state.registry().outstanding(no, plugin);
    if owed {
        state.collect(no, plugin, attached, specs);
    }
    owed
}

/// The hart gives back each plug-in that it owes; whether there is one.
fn give_back_all<W: Watcher, C: Closer<Held<W>>>(
    state: &mut HostState<W, C>,
    no: u8,
    attached: &mut Attached<W>,
    specs: &mut Specs,
) -> bool
    requires may { MayReturn no state.old attached.old specs.old }
    requires room { 8 ≤ state.old.journal.spare }
    ensures may { MayReturn no state.new attached.new specs.new }
    ensures returned { HasReturned no state.old state.new }
    ensures owes_none { owes_any (task_run state.new.task) no state.new.past ≡ false }
    ensures nothing { result ≡ false
        → (state.new ≡ state.old) × (attached.new ≡ attached.old) × (specs.new ≡ specs.old) }
    ensures wrote { result ≡ true → HasWritten state.old.past state.new.past }
    ensures room { state.old.journal.spare ≤ state.new.journal.spare + 8 }
{
    let count = plugin_count(state);
    let mut some = false;
    for place in 0..count {
        let gave = give_back(state, no, place + 1, attached, specs);
        some |= gave;
    }
    some
}

/// What comes first in a hold of a hart: it makes room, records its asks, gives its Backs, and takes the sets that wait for
/// it. The answer tells whether it gave a Back. Where there is no memory, or another hart found none, the hart fails, and the
/// state is short from then on.
pub(crate) fn enter<W: Watcher, C: Closer<Held<W>>>(
    state: &mut HostState<W, C>,
    seat: &mut Seat<W>,
) -> Result<bool, NoMemory>
    requires back { IsBack state.old.task seat.old.no state.old.past seat.old.hart seat.old.attached seat.old.specs seat.old.asks.first }
    requires caught_up { IsCaughtUp state.old }
    ensures entered { OnOk result (HasEntered seat.new.no state.old.past state.new seat.new.attached seat.new.specs) }
    ensures wrote { IfOk result (λ gave_back. gave_back ≡ true → HasWritten state.old.past state.new.past) }
    ensures failed { OnErr result ((state.new.short ≡ true) × (state.new.past ≡ state.old.past)) }
    ensures task { state.new.task ≡ state.old.task }
    ensures asks { OnOk result (seat.new.asks.first ≡ replicate 8 Stay) }
    ensures lists { OnOk result (seat.new.generation ≡ seat.old.generation → seat.new.specs ≡ seat.old.specs) }
    ensures rises { OnOk result (seat.old.generation ≤ seat.new.generation) }
    ensures seat { seat.new ≡ record seat.old {
      attached = seat.new.attached;
      specs = seat.new.specs;
      generation = seat.new.generation;
      asks = seat.new.asks;
    } }
{
    let Ok(next) = prepare(state, seat.generation) else {
        state.fail(seat.no);
        return Err(NoMemory);
    };
    // Each state is in order.
    let _ = state.task();
    state.ask(seat.no, &seat.asks);
    seat.asks = Asks::none();
    let gave_back = give_back_all(state, seat.no, &mut seat.attached, &mut seat.specs);
    let came = state.attach(seat.no, &mut seat.attached, &mut seat.specs);
    if gave_back || came {
        seat.generation = next;
    }
    Ok(gave_back)
}

/// The same for a parked hart, whose boxes have nothing to ask for. Where it gave no Back, only sets came.
pub(crate) fn enter_parked<W: Watcher, C: Closer<Held<W>>>(
    state: &mut HostState<W, C>,
    seat: &mut Seat<W>,
) -> Result<bool, NoMemory>
    requires back { IsBack state.old.task seat.old.no state.old.past seat.old.hart seat.old.attached seat.old.specs seat.old.asks.first }
    requires caught_up { IsCaughtUp state.old }
    requires quiet { seat.old.asks.first ≡ replicate 8 Stay }
    ensures entered { OnOk result (HasEntered seat.new.no state.old.past state.new seat.new.attached seat.new.specs) }
    ensures wrote { IfOk result (λ gave_back. gave_back ≡ true → HasWritten state.old.past state.new.past) }
    ensures gots { IfOk result (λ gave_back. gave_back ≡ false → GoesOn (IsGotBy seat.new.no) state.old.past state.new.past) }
    ensures failed { OnErr result ((state.new.short ≡ true) × (state.new.past ≡ state.old.past)) }
    ensures task { state.new.task ≡ state.old.task }
    ensures lists { OnOk result (seat.new.generation ≡ seat.old.generation → seat.new.specs ≡ seat.old.specs) }
    ensures rises { OnOk result (seat.old.generation ≤ seat.new.generation) }
    ensures seat { seat.new ≡ record seat.old {
      attached = seat.new.attached;
      specs = seat.new.specs;
      generation = seat.new.generation;
    } }
{
    let Ok(next) = prepare(state, seat.generation) else {
        state.fail(seat.no);
        return Err(NoMemory);
    };
    // Each state is in order.
    let _ = state.task();
    let gave_back = give_back_all(state, seat.no, &mut seat.attached, &mut seat.specs);
    let arrived = state.attach(seat.no, &mut seat.attached, &mut seat.specs);
    if gave_back || arrived {
        seat.generation = next;
    }
    Ok(gave_back)
}
