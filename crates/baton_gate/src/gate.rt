//! Gates.
ghost use Rattle.std.specs.Prelude.{◌≡◌, ◌+◌, ◌-◌, ◌^◌, ◌<◌, ◌≤◌, true, false, min, Some, All, IfOk, vec_len};
ghost use Rattle.crossbeam_queue.specs.Passes.{view, IsSamePass, IsPassOf as IsPlaceOf, ruled_capacity};
ghost use Rattle.baton_gate.specs.Logs.{Ahead, Adds, Within};
ghost use Rattle.baton_gate.specs.Course.{unopened, opened, taken, given, joined, one_more, newcomer, MayPop, MayPush};
ghost use Rattle.baton_gate.specs.Passes.{known, seen, holds, carries, opening, parties as parties_of, ended as ended_in};
ghost use Rattle.baton_gate.specs.Passes.{IsPassOf, IsNewPass, AreNew};

use crate::kept::Kept;
use crate::passes::{Pass, Place};
use crate::rule::{Baton, Gives, InTurn, Joins, Makes, Opens, Takes};
use crate::views::View;
use crossbeam_queue::RuledArrayQueue;
use crossbeam_queue::protocol::Outcome;
use crossbeam_utils::Backoff;
use flat_model::NoMemory;
use std::alloc::Global;
use std::sync::Wait;
use std::sync::atomic::AtomicU64;
use std::sync::atomic::Ordering::SeqCst;

/// The place from which the value is taken, and to which it is given back.
#[derive(Drop)]
pub struct Gate<S: Kept> {
    pub(crate) queue: RuledArrayQueue<Baton<S>, View<S::Item, S::Frame>, InTurn<S>>,
    pub(crate) parties: u64,
    // How many threads are in the loop that waits for the value.
    waiting: AtomicU64,
}

impl<S: Kept> Gate<S> {
    /// Puts the value into a gate, and makes a pass for each party, by their numbers.
    pub fn new<R: Wait>(
        rt: &R,
        alloc: Global,
        state: S,
        parties: u8,
    ) -> Result<(Gate<S>, Vec<Pass<S>>), NoMemory>
        requires parties { 1 ≤ parties }
        requires caught_up { S.caught_up state }
        ensures count { IfOk result (λ r. vec_len r.1 ≡ parties) }
        ensures passes { IfOk result (λ r. AreNew r.0 r.1.items parties (S.log state) (S.frame state)) }
    {
        let mut passes = Vec::with_capacity(alloc, usize::from(parties))?;
        let (queue, place) = RuledArrayQueue::ruled(alloc, 1)?;
        let gate = Gate {
            queue,
            parties: u64::from(parties),
            waiting: AtomicU64::new(0),
        };
        let mut first = gate.open(rt, place, state);
        for number in 1..parties {
            let next = gate.another(&mut first, number);
            passes.push(next)?;
        }
        passes.insert(0, first)?;
        Ok((gate, passes))
    }

    // Puts the opening value into the queue. The answer is the pass of party 0.
    fn open<R: Wait>(&self, rt: &R, mut place: Place<S>, state: S) -> Pass<S>
        requires queue { IsPlaceOf self.now.queue place }
        requires unopened { view place ≡ unopened }
        requires parties { 1 ≤ self.now.parties }
        requires caught_up { S.caught_up state }
        ensures gate { IsPassOf self.now result }
        ensures known { known result ≡ opened self.now.parties (S.frame state) (S.log state) }
        ensures number { result.party ≡ 0 }
        ensures takes { result.takes ≡ 0 }
    {
        let parties = self.parties;
        self.push::<Opens<S>, R>(rt, &mut place, Baton { state, parties });
        Pass {
            place,
            party: 0,
            takes: 0,
        }
    }

    // One pass more, by that of party 0.
    fn another(&self, first: &mut Pass<S>, number: u8) -> Pass<S>
        requires gate { IsPassOf self.now first.old }
        requires first { first.old.party ≡ 0 }
        requires next { (known first.old).made ≡ number }
        requires room { number < parties_of first.old }
        ensures gate { IsPassOf self.now first.new × IsPassOf self.now result }
        ensures first { known first.new ≡ one_more (known first.old) }
        ensures same { (first.new.party ≡ first.old.party) × (first.new.takes ≡ first.old.takes) }
        ensures next { (known result ≡ newcomer (known first.old)) × (result.party ≡ number) × (result.takes ≡ 0) }
    {
        let place = self.queue.another::<Makes>(&mut first.place);
        Pass {
            place,
            party: number,
            takes: 0,
        }
    }

    /// Takes the value, and waits while another pass holds it.
    #[inline]
    pub fn take<R: Wait>(&self, rt: &R, pass: &mut Pass<S>) -> S
        requires gate { IsPassOf self.now pass.old }
        requires free { holds pass.old ≡ false }
        ensures gate { IsPassOf self.now pass.new }
        ensures caught_up { S.caught_up result }
        ensures frame { carries pass.old ≡ Some (S.frame result) }
        ensures log { Ahead S.party (S.log result) pass.old.party (seen pass.old) }
        ensures ended { All (λ e. Ahead S.party (S.log result) e.party e.seen) (ended_in pass.old) }
        ensures parties { Within S.party (S.log result) (parties_of pass.old) (opening pass.old) }
        ensures pass { (known pass.new ≡ taken (known pass.old) (S.log result)) × (pass.new.party ≡ pass.old.party) }
        ensures takes { pass.new.takes ≡ min (pass.old.takes + 1) (2 ^ 64 - 1) }
    {
        let baton = self.pop::<Takes<S>, R>(rt, &mut pass.place);
        pass.takes = pass.takes.saturating_add(1);
        baton.state
    }

    /// Gives the value back.
    #[inline]
    pub fn give<R: Wait>(&self, rt: &R, pass: &mut Pass<S>, state: S)
        requires gate { IsPassOf self.now pass.old }
        requires holds { holds pass.old ≡ true }
        requires caught_up { S.caught_up state }
        requires frame { carries pass.old ≡ Some (S.frame state) }
        requires log { Adds S.party (S.log state) pass.old.party (seen pass.old) }
        ensures gate { IsPassOf self.now pass.new }
        ensures pass { (known pass.new ≡ given (known pass.old) (S.log state)) × (pass.new.party ≡ pass.old.party) }
        ensures takes { pass.new.takes ≡ pass.old.takes }
    {
        let parties = self.parties;
        self.push::<Gives<S>, R>(rt, &mut pass.place, Baton { state, parties });
    }

    /// A hint for whoever gives the value back: another thread waits for it. It may be out of date at once.
    #[inline]
    pub fn is_wanted(&self) -> bool {
        self.waiting.load(SeqCst) > 0
    }

    /// Joins a pass, whose thread has ended, into another.
    pub fn join(&self, pass: &mut Pass<S>, ended: Pass<S>)
        requires gate { IsPassOf self.now pass.old × IsPassOf self.now ended }
        requires free { (holds pass.old ≡ false) × (holds ended ≡ false) }
        ensures gate { IsPassOf self.now pass.new }
        ensures pass { (known pass.new ≡ joined (known pass.old) (known ended)) × (pass.new.party ≡ pass.old.party) }
        ensures takes { pass.new.takes ≡ pass.old.takes }
    {
        self.queue.absorb::<Joins>(&mut pass.place, ended.place);
    }

    // Pops the value. The first try, which mostly finds it there, stands apart from the loop that waits.
    #[inline]
    fn pop<M: Outcome<Baton<S>, View<S::Item, S::Frame>>, R: Wait>(
        &self,
        rt: &R,
        place: &mut Place<S>,
    ) -> Baton<S>
        requires queue { IsPlaceOf self.now.queue place.old }
        requires rule { MayPop S.log S.party S.frame S.caught_up place.old M.then }
        ensures queue { IsSamePass place.old place.new }
        ensures rule { M.then (view place.old) result (view place.new) }
    {
        match self.queue.try_pop_as::<M>(place) {
            Some(baton) => baton,
            None => self.pop_later::<M, R>(rt, place),
        }
    }

    // Waits for the value, and pops it.
    #[inline(never)]
    fn pop_later<M: Outcome<Baton<S>, View<S::Item, S::Frame>>, R: Wait>(
        &self,
        rt: &R,
        place: &mut Place<S>,
    ) -> Baton<S>
        requires queue { IsPlaceOf self.now.queue place.old }
        requires rule { MayPop S.log S.party S.frame S.caught_up place.old M.then }
        ensures queue { IsSamePass place.old place.new }
        ensures rule { M.then (view place.old) result (view place.new) }
    {
        let backoff = Backoff::new();
        self.waiting.fetch_add(1, SeqCst);
        for _ in rt.forever() {
            if let Some(baton) = self.queue.try_pop_as::<M>(place) {
                self.waiting.fetch_sub(1, SeqCst);
                return baton;
            }
            backoff.snooze();
        }
        unreachable!()
    }

    // Pushes the value. The first try, which mostly passes, stands apart from the loop that waits.
    #[inline]
    fn push<M: Outcome<Baton<S>, View<S::Item, S::Frame>>, R: Wait>(
        &self,
        rt: &R,
        place: &mut Place<S>,
        baton: Baton<S>,
    )
        requires queue { IsPlaceOf self.now.queue place.old }
        requires rule { MayPush S.log S.party S.frame S.caught_up (ruled_capacity self.now.queue) place.old baton M.then }
        ensures queue { IsSamePass place.old place.new }
        ensures rule { M.then (view place.old) baton (view place.new) }
    {
        match self.queue.try_push_as::<M>(place, baton) {
            Ok(()) => {}
            Err(back) => self.push_later::<M, R>(rt, place, back),
        }
    }

    // Pushes the value. The queue hands it back where another thread is in the way, and it is pushed again.
    #[inline(never)]
    fn push_later<M: Outcome<Baton<S>, View<S::Item, S::Frame>>, R: Wait>(
        &self,
        rt: &R,
        place: &mut Place<S>,
        mut baton: Baton<S>,
    )
        requires queue { IsPlaceOf self.now.queue place.old }
        requires rule { MayPush S.log S.party S.frame S.caught_up (ruled_capacity self.now.queue) place.old baton M.then }
        ensures queue { IsSamePass place.old place.new }
        ensures rule { M.then (view place.old) baton (view place.new) }
    {
        let backoff = Backoff::new();
        for _ in rt.forever() {
            match self.queue.try_push_as::<M>(place, baton) {
                Ok(()) => return,
                Err(back) => baton = back,
            }
            backoff.snooze();
        }
        unreachable!()
    }
}
