//! The holds in which a controller settles a completion.

ghost use Rattle.std.specs.Prelude.{◌≡◌, ◌+◌, ◌-◌, ◌^◌, None, Some, min, is_some, IfOk, OnOk, OnErr, MatchResult, MatchOption};
ghost use Rattle.flat_model.specs.Log.{party};
ghost use Rattle.baton_gate.specs.Logs.{Ahead};
ghost use Rattle.baton_gate.specs.Passes.{carries, known, seen};
ghost use Rattle.run_order.specs.InOrder.{Task};
ghost use Rattle.run_controls.specs.Controlling.{HasKept, HasLookedFor, HasPutBack, IsAtGate};

use crate::hands::ClosingInHand;
use crate::parts::{put_back, take_up};
use baton_gate::{Gate, Pass};
use flat_model::NoMemory;
use host_state::HostState;
use std::sync::Wait;
use watcher_api::{Closer, Held, Watcher};

/// The hold in which a party with nothing in hand takes the closing that is due, where one is.
fn hold_take<W: Watcher, C: Closer<Held<W>>, R: Wait>(
    rt: &R,
    gate: &Gate<Box<HostState<W, C>>>,
    pass: &mut Pass<Box<HostState<W, C>>>,
) -> Result<Option<ClosingInHand<W, C>>, NoMemory>
    requires controls { IsAtGate gate.now pass.old None }
    ensures controls { MatchResult result (IsAtGate gate.now pass.new) (λ _. IsAtGate gate.now pass.new None) }
    ensures same { known pass.new ≡ record (known pass.old) { seen = seen pass.new } }
    ensures party { pass.new.party ≡ pass.old.party }
    ensures takes { pass.new.takes ≡ min (pass.old.takes + 1) (2 ^ 64 - 1) }
    ensures taken { (t : Task) → carries pass.old ≡ Some t → MatchResult result
        (λ hand. HasLookedFor None hand t pass.old.party (seen pass.old) (seen pass.new))
        (λ _. HasKept None None t pass.old.party (seen pass.old) (seen pass.new)) }
{
    let mut state = gate.take(rt, pass);
    let taken = take_up(&mut state, pass.party());
    // Each state is in order.
    let _ = state.task();
    gate.give(rt, pass, state);
    taken
}

/// Whether the party has a closing in hand, once it has taken the one that is due where it had none.
pub(crate) fn take_in_hand<W: Watcher, C: Closer<Held<W>>, R: Wait>(
    rt: &R,
    gate: &Gate<Box<HostState<W, C>>>,
    pass: &mut Pass<Box<HostState<W, C>>>,
    hand: &mut Option<ClosingInHand<W, C>>,
) -> Result<bool, NoMemory>
    requires controls { IsAtGate gate.now pass.old hand.old }
    ensures controls { IsAtGate gate.now pass.new hand.new }
    ensures same { known pass.new ≡ record (known pass.old) { seen = seen pass.new } }
    ensures party { pass.new.party ≡ pass.old.party }
    ensures takes { MatchOption hand.old (pass.new.takes ≡ min (pass.old.takes + 1) (2 ^ 64 - 1))
        (λ _. pass.new.takes ≡ pass.old.takes) }
    ensures there { IfOk result (λ has. has ≡ is_some hand.new) }
    ensures taken { (t : Task) → carries pass.old ≡ Some t
        → OnOk result (HasLookedFor hand.old hand.new t pass.old.party (seen pass.old) (seen pass.new)) }
    ensures kept { (t : Task) → carries pass.old ≡ Some t
        → OnErr result (HasKept hand.old hand.new t pass.old.party (seen pass.old) (seen pass.new)) }
{
    if hand.is_some() {
        return Ok(true);
    }
    *hand = hold_take(rt, gate, pass)?;
    Ok(hand.is_some())
}

/// The hold in which a party puts the closer back that it has told, and records the Done. Without memory for it, or where a hart
/// found too little, the closing stays in hand.
pub(crate) fn hold_done<W: Watcher, C: Closer<Held<W>>, R: Wait>(
    rt: &R,
    gate: &Gate<Box<HostState<W, C>>>,
    pass: &mut Pass<Box<HostState<W, C>>>,
    hand: &mut Option<ClosingInHand<W, C>>,
) -> Result<(), NoMemory>
    requires controls { IsAtGate gate.now pass.old hand.old }
    requires told { MatchOption hand.old ⊥ (λ c. c.back ≡ None) }
    ensures controls { IsAtGate gate.now pass.new hand.new }
    ensures same { known pass.new ≡ record (known pass.old) { seen = seen pass.new } }
    ensures party { pass.new.party ≡ pass.old.party }
    ensures takes { pass.new.takes ≡ min (pass.old.takes + 1) (2 ^ 64 - 1) }
    ensures done { OnOk result (MatchOption hand.old ⊥
        (λ c. HasPutBack pass.old.party c.plugin (seen pass.old) (seen pass.new))) }
    ensures empty { OnOk result (hand.new ≡ None) }
    ensures kept { OnErr result (hand.new ≡ hand.old) }
    ensures added_none { OnErr result (Ahead party (seen pass.new) pass.old.party (seen pass.old)) }
{
    let mut state = gate.take(rt, pass);
    // Each state is in order.
    let _ = state.task();
    let done = put_back(&mut state, pass.party(), hand);
    gate.give(rt, pass, state);
    done
}
