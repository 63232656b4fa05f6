//! Completions that are due once every hart has left.

ghost use Rattle.std.specs.Prelude.{◌≡◌, ◌<◌, ◌≤◌, ◌++◌, ◌∷◌, [], ℕ, true, false, IsTrue, IfOk, OnOk, length};
ghost use Rattle.flat_model.specs.Registry.{has_left};
ghost use Rattle.baton_gate.specs.Logs.{GoesOn};
ghost use Rattle.run_rules.specs.Guest.{plugins};
ghost use Rattle.run_rules.specs.Legal.{Whole};
ghost use Rattle.run_order.specs.InOrder.{task_run};
ghost use Rattle.run_order.specs.Sets.{is_closing_out};
ghost use Rattle.host_state.specs.Closing.{NoneIsDue};
ghost use Rattle.host_state.specs.State.{IsCaughtUp};
ghost use Rattle.host_core.specs.Settling.{IsSettled, IsSettledBy, MaySettle};

use flat_model::NoMemory;
use host_state::{Closing, HostState};
use watcher_api::{Closer, Held, Watcher};

/// Tells the closer of a closing. Its plug-in's number, and the closer.
fn tell<W: Watcher, C: Closer<Held<W>>>(closing: Closing<W, C>) -> Result<(u8, C), NoMemory>
    ensures plugin { IfOk result (λ told. told.0 ≡ closing.plugin) }
    ensures told { IfOk result (λ told. C.notices told.1 ≡ C.notices closing.closer ++ closing.back ∷ []) }
{
    let Closing {
        plugin,
        mut closer,
        back,
    } = closing;
    match closer.closed(back) {
        Ok(()) => Ok((plugin, closer)),
        Err(_) => Err(NoMemory),
    }
}

/// Settles the least plug-in that is complete and whose closing isn't out; whether there was one.
fn settle<W: Watcher, C: Closer<Held<W>>>(
    state: &mut HostState<W, C>,
    party: u8,
) -> Result<bool, NoMemory>
    requires may { MaySettle party state.old }
    ensures settled { IfOk result (λ was_due. IsSettled was_due party state.old state.new) }
    ensures may { OnOk result (MaySettle party state.new) }
    ensures task { state.new.task ≡ state.old.task }
{
    state.reserve_hold()?;
    // Each state is in order, and the moments of its plan's lines never fall.
    let _ = state.task().script();
    let Some(closing) = state.take_closing(party) else {
        return Ok(false);
    };
    let (plugin, closer) = tell(closing)?;
    state.done(party, plugin, closer);
    Ok(true)
}

/// Settles all that is due.
fn settle_all<W: Watcher, C: Closer<Held<W>>>(
    state: &mut HostState<W, C>,
    party: u8,
) -> Result<(), NoMemory>
    requires may { MaySettle party state.old }
    ensures none { OnOk result (NoneIsDue state.new) }
    ensures may { OnOk result (MaySettle party state.new) }
    ensures goes_on { OnOk result (GoesOn (IsSettledBy party) state.old.past state.new.past) }
    ensures task { state.new.task ≡ state.old.task }
{
    while settle(state, party)? {}
    Ok(())
}

/// Whether each plug-in has its closer, so that no closing is out.
fn have_closers<W: Watcher, C: Closer<Held<W>>>(state: &HostState<W, C>) -> bool
    ensures there { IsTrue result → (p : ℕ) → 1 ≤ p → p ≤ length state.now.registry.table.plugins
        → is_closing_out (task_run state.now.task) p state.now.past ≡ false }
{
    for place in 0..state.registry().count() {
        if state.closer(place + 1).is_none() {
            return false;
        }
    }
    true
}

/// The whole state, once the party has settled what is due in a state that every hart has left. Want of memory also where a
/// hart found too little, or left a closing out.
pub(crate) fn settled<W: Watcher, C: Closer<Held<W>>>(
    mut state: HostState<W, C>,
    party: u8,
) -> Result<HostState<W, C>, NoMemory>
    requires caught_up { IsCaughtUp state }
    requires left { (h : ℕ) → h < state.task.machine.harts → has_left (plugins (task_run state.task) state.past) h ≡ true }
    requires there { has_left (plugins (task_run state.task) state.past) party ≡ false }
    ensures task { IfOk result (λ s. s.task ≡ state.task) }
    ensures whole { IfOk result (λ s. Whole (task_run s.task) s.past) }
    ensures open { IfOk result (λ s. s.short ≡ false) }
    ensures goes_on { IfOk result (λ s. GoesOn (IsSettledBy party) state.past s.past) }
{
    if state.short() {
        return Err(NoMemory);
    }
    settle_all(&mut state, party)?;
    // Each state is in order.
    let _ = state.task();
    if !have_closers(&state) {
        return Err(NoMemory);
    }
    Ok(state)
}
