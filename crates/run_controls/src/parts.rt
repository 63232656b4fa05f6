//! What a controller does with the state in one hold.

ghost use Rattle.std.specs.Prelude.{◌≡◌, ◌<◌, ◌≤◌, ◌∷◌, None, OnOk, OnErr, IfErr, MatchResult, MatchOption};
ghost use Rattle.flat_model.specs.declared.journals.Item.TheVariants.{Told};
ghost use Rattle.run_order.specs.InOrder.{task_run};
ghost use Rattle.kept_order.specs.Closing.{is_due};
ghost use Rattle.host_state.specs.State.{IsCaughtUp};
ghost use Rattle.run_controls.specs.Controlling.{NoClosingIsDue, SomeIsDue};
ghost use Rattle.run_controls.specs.Hands.{IsOnItsWay};
ghost use Rattle.run_controls.specs.Parts.{Denies, FindsNone, FindsShort, IsPartOf, Orders, TakesUp};

use crate::hands::ClosingInHand;
use flat_model::{NoMemory, Order, Refused};
use host_state::HostState;
use plug_registry::OrderRefusal;
use std::alloc::Global;
use watcher_api::{Closer, Held, Watcher};

/// Gives an order, unless a hart found too little memory.
pub(crate) fn give_order<W: Watcher, C: Closer<Held<W>>>(
    state: &mut HostState<W, C>,
    alloc: Global,
    who: u8,
    order: Order,
) -> Result<(), Refused<OrderRefusal>>
    requires caught_up { IsCaughtUp state.old }
    requires no_hart { state.old.task.machine.harts ≤ who }
    ensures part { IsPartOf who state.old state.new }
    ensures ordered { OnOk result (Orders who order state.old state.new) }
    ensures denied { IfErr result (Denies order state.old state.new) }
{
    // Each state is in order.
    let _ = state.task();
    if state.short() {
        return Err(Refused::NoMemory);
    }
    state.order(alloc, who, order)
}

/// Whether the closing of a plug-in is due.
fn is_one_due<W: Watcher, C: Closer<Held<W>>>(state: &HostState<W, C>, plugin: u8) -> bool
    ensures due { result ≡ is_due (task_run state.now.task) plugin state.now.past }
{
    // Each state is in order.
    let _ = state.task();
    state.registry().complete(plugin) && state.closer(plugin).is_some()
}

/// Want of memory where the closing of some plug-in is due.
fn find_none<W: Watcher, C: Closer<Held<W>>>(state: &HostState<W, C>) -> Result<(), NoMemory>
    ensures found { MatchResult result
        (λ _. NoClosingIsDue state.now.task state.now.past)
        (λ _. SomeIsDue state.now.task state.now.past) }
{
    // Each state is in order.
    let _ = state.task();
    for place in 0..state.registry().count() {
        if is_one_due(state, place + 1) {
            return Err(NoMemory);
        }
    }
    Ok(())
}

/// Takes the closing that is due, where one is. Want of memory where one is, and a hart found too little.
pub(crate) fn take_up<W: Watcher, C: Closer<Held<W>>>(
    state: &mut HostState<W, C>,
    who: u8,
) -> Result<Option<ClosingInHand<W, C>>, NoMemory>
    requires caught_up { IsCaughtUp state.old }
    ensures part { IsPartOf who state.old state.new }
    ensures taken { MatchResult result
        (λ hand. MatchOption hand (FindsNone state.old state.new) (TakesUp who state.old state.new))
        (λ _. FindsShort state.old state.new) }
{
    if state.short() {
        find_none(state)?;
        return Ok(None);
    }
    // Each state is in order.
    let _ = state.task();
    let Some(closing) = state.take_closing(who) else {
        return Ok(None);
    };
    Ok(Some(ClosingInHand::untold(closing)))
}

/// Puts the closer back that was told of a closing in hand, and records the Done. Want of memory also where a hart found too little.
pub(crate) fn put_back<W: Watcher, C: Closer<Held<W>>>(
    state: &mut HostState<W, C>,
    who: u8,
    hand: &mut Option<ClosingInHand<W, C>>,
) -> Result<(), NoMemory>
    requires caught_up { IsCaughtUp state.old }
    requires no_hart { state.old.task.machine.harts ≤ who }
    requires in_hand { MatchOption hand.old ⊥ (IsOnItsWay state.old.task who state.old.past) }
    requires told { MatchOption hand.old ⊥ (λ c. c.back ≡ None) }
    ensures part { IsPartOf who state.old state.new }
    ensures done { OnOk result (MatchOption hand.old ⊥ (λ c. state.new.past ≡ Told who c.plugin ∷ state.old.past)) }
    ensures empty { OnOk result (hand.new ≡ None) }
    ensures unchanged { OnErr result (state.new.past ≡ state.old.past) }
    ensures kept { OnErr result (hand.new ≡ hand.old) }
{
    if state.short() {
        return Err(NoMemory);
    }
    state.reserve_hold()?;
    // Each state is in order, and the moments of the plan's lines never fall, so none is due behind a Done.
    let _ = state.task().script();
    let Some(closing) = hand.take() else {
        unreachable!()
    };
    let ClosingInHand { plugin, closer, .. } = closing;
    state.done(who, plugin, closer);
    Ok(())
}
