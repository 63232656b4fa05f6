//! Controllers.

ghost use Rattle.std.specs.Prelude.{◌≡◌, ◌+◌, ◌-◌, ◌^◌, ◌≤◌, false, min, None, Some, is_some, IfOk, OnOk, IfErr, OnErr};
ghost use Rattle.baton_gate.specs.Course.{joined};
ghost use Rattle.baton_gate.specs.Passes.{IsPassOf, carries, holds, known, seen};
ghost use Rattle.run_order.specs.InOrder.{Task};
ghost use Rattle.run_controls.specs.Controlling.{HasKept, HasOrdered, HasSettled, IsAtGate, IsDenied};

use crate::hands::{ClosingInHand, tell};
use crate::holds::{hold_done, take_in_hand};
use crate::parts::give_order;
use baton_gate::{Gate, Pass};
use flat_model::{NoMemory, Order, Refused};
use host_state::HostState;
use plug_registry::OrderRefusal;
use std::alloc::Global;
use std::sync::Wait;
use watcher_api::{Closer, Held, Watcher};

/// A party that is no hart: it gives orders while a run goes on, and settles completions.
#[derive(Drop)]
pub struct Controller<W: Watcher, C: Closer<Held<W>>> {
    pub pass: Pass<Box<HostState<W, C>>>,
    /// The closing that it has taken and hasn't put back.
    pub hand: Option<ClosingInHand<W, C>>,
}

impl<W: Watcher, C: Closer<Held<W>>> Controller<W, C> {
    /// A controller with a pass, and nothing in hand.
    pub fn new(pass: Pass<Box<HostState<W, C>>>) -> Controller<W, C>
        ensures pass { result.pass ≡ pass }
        ensures empty { result.hand ≡ None }
    {
        Controller { pass, hand: None }
    }

    /// Gives an order, in one hold. A refusal is that of the registry as the state's log makes it then, and nothing is recorded. Want
    /// of memory also where a hart found too little; it records nothing either.
    pub fn order<R: Wait>(
        &mut self,
        rt: &R,
        alloc: Global,
        gate: &Gate<Box<HostState<W, C>>>,
        order: Order,
    ) -> Result<(), Refused<OrderRefusal>>
        requires controls { IsAtGate gate.now self.old.pass self.old.hand }
        ensures controls { IsAtGate gate.now self.new.pass self.new.hand }
        ensures same { known self.new.pass ≡ record (known self.old.pass) { seen = seen self.new.pass } }
        ensures party { self.new.pass.party ≡ self.old.pass.party }
        ensures takes { self.new.pass.takes ≡ min (self.old.pass.takes + 1) (2 ^ 64 - 1) }
        ensures hand { self.new.hand ≡ self.old.hand }
        ensures ordered { (t : Task) → carries self.old.pass ≡ Some t → OnOk result
            (HasOrdered t self.old.pass.party order (seen self.old.pass) (seen self.new.pass)) }
        ensures denied { (t : Task) → carries self.old.pass ≡ Some t → IfErr result
            (IsDenied t self.old.pass.party order (seen self.old.pass) (seen self.new.pass)) }
    {
        let mut state = gate.take(rt, &mut self.pass);
        let answer = give_order(&mut state, alloc, self.pass.party(), order);
        // Each state is in order.
        let _ = state.task();
        gate.give(rt, &mut self.pass, state);
        answer
    }

    /// Settles a completion: takes the closing that is due in one hold, tells its closer, and puts the closer back and records the Done
    /// in a second one. False where nothing is due. A closing that an earlier call has taken and couldn't settle comes first, and its
    /// closer isn't told again once it was told. On want of memory, also where a hart found too little, what was taken stays in hand.
    pub fn settle<R: Wait>(
        &mut self,
        rt: &R,
        gate: &Gate<Box<HostState<W, C>>>,
    ) -> Result<bool, NoMemory>
        requires controls { IsAtGate gate.now self.old.pass self.old.hand }
        ensures controls { IsAtGate gate.now self.new.pass self.new.hand }
        ensures same { known self.new.pass ≡ record (known self.old.pass) { seen = seen self.new.pass } }
        ensures party { self.new.pass.party ≡ self.old.pass.party }
        ensures takes { OnOk result (min (self.old.pass.takes + 1) (2 ^ 64 - 1) ≤ self.new.pass.takes) }
        ensures empty { OnOk result (self.new.hand ≡ None) }
        ensures settled { (t : Task) → carries self.old.pass ≡ Some t → IfOk result
            (λ was_due. HasSettled was_due self.old.hand t self.old.pass.party (seen self.old.pass) (seen self.new.pass)) }
        ensures kept { (t : Task) → carries self.old.pass ≡ Some t → OnErr result
            (HasKept self.old.hand self.new.hand t self.old.pass.party (seen self.old.pass) (seen self.new.pass)) }
    {
        if !take_in_hand(rt, gate, &mut self.pass, &mut self.hand)? {
            return Ok(false);
        }
        tell(&mut self.hand)?;
        hold_done(rt, gate, &mut self.pass, &mut self.hand)?;
        Ok(true)
    }

    /// Whether it has taken a closing that it hasn't settled.
    pub fn keeps_closing(&self) -> bool
        ensures { result ≡ is_some self.now.hand }
    {
        self.hand.is_some()
    }

    /// Joins a pass, whose party has ended, into the controller's.
    pub fn join(&mut self, gate: &Gate<Box<HostState<W, C>>>, ended: Pass<Box<HostState<W, C>>>)
        requires controls { IsAtGate gate.now self.old.pass self.old.hand }
        requires ended { IsPassOf gate.now ended }
        requires free { holds ended ≡ false }
        ensures controls { IsAtGate gate.now self.new.pass self.new.hand }
        ensures joined { known self.new.pass ≡ joined (known self.old.pass) (known ended) }
        ensures party { self.new.pass.party ≡ self.old.pass.party }
        ensures takes { self.new.pass.takes ≡ self.old.pass.takes }
        ensures hand { self.new.hand ≡ self.old.hand }
    {
        gate.join(&mut self.pass, ended);
    }

    /// The pass of a controller with nothing in hand.
    pub fn into_pass(self) -> Pass<Box<HostState<W, C>>>
        requires { self.hand ≡ None }
        ensures { result ≡ self.pass }
    {
        self.pass
    }
}
