//! The turns of a runner.

ghost use Rattle.std.specs.Prelude.{◌≡◌, ◌+◌, ◌-◌, ◌^◌, ◌≤◌, ◌<◌, [], true, false, min, List};
ghost use Rattle.std.specs.Prelude.{None, Some, IsSome, IfOk, OnOk, OnErr, MatchOption};
ghost use Rattle.block_finder.specs.Caches.{MayServe};
ghost use Rattle.run_order.specs.InOrder.{Task};
ghost use Rattle.baton_gate.specs.Passes.{IsPassOf, known, seen, holds, carries};
ghost use Rattle.hart_runner.specs.Parts.{IsStillPart, IsPart};
ghost use Rattle.hart_runner.specs.Turns.{HasGone, HasHeard, HasLeftLast, HasLists, IsAhead, IsDone, MayHear, Sits, turned_of};
ghost use Rattle.instr_lists.specs.declared.kept_lists.KeptList.{KeptList};

use crate::delivering::hear_turn;
use crate::going_ahead::{Ahead, go_ahead_from};
use crate::holding::Hold;
use crate::making_way::{IDLE_PAUSES, make_way};
use crate::pacing::{Stride, goes_round};
use crate::parts::{take_running_part, take_still_part};
use crate::runners::{Runner, Turned};
use crate::seats::Seat;
use crate::tapes::{Piece, Tape};
use baton_gate::{Gate, Pass};
use block_finder::BlockCache;
use flat_model::NoMemory;
use host_state::HostState;
use instr_lists::ListCache;
use rv_exec::Hart;
use std::sync::Wait;
use watcher_api::{Closer, Held, Watcher};

/// One hold of a hart that is parked or has ended.
fn hold_still_once<W: Watcher, C: Closer<Held<W>>, R: Wait>(
    rt: &R,
    gate: &Gate<Box<HostState<W, C>>>,
    pass: &mut Pass<Box<HostState<W, C>>>,
    place: &mut Option<Seat<W>>,
) -> Result<Hold, NoMemory>
    requires gate { IsPassOf gate.now pass.old }
    requires free { holds pass.old ≡ false }
    requires sits { (t : Task) → carries pass.old ≡ Some t
        → MatchOption place.old ⊥ (Sits t pass.old.party (seen pass.old)) }
    requires still { MatchOption place.old ⊥ (λ seat. seat.hart.parked ≡ false → IsSome seat.hart.ending) }
    ensures gate { IsPassOf gate.now pass.new }
    ensures same { known pass.new ≡ record (known pass.old) { seen = seen pass.new } }
    ensures party { pass.new.party ≡ pass.old.party }
    ensures takes { pass.new.takes ≡ min (pass.old.takes + 1) (2 ^ 64 - 1) }
    ensures gone { (t : Task) → carries pass.old ≡ Some t → MatchOption place.old ⊥ (λ seat. IfOk result (λ hold.
        HasGone seat.no (seen pass.old) (seen pass.new) (λ taken. IsStillPart hold t taken (seen pass.new) seat place.new))) }
{
    let mut state = gate.take(rt, pass);
    // Each state is in order.
    let _ = state.task();
    let held = take_still_part(&mut state, place);
    gate.give(rt, pass, state);
    held
}

/// A turn by what its hold came to.
fn turned_by(hold: Hold) -> Turned
    ensures turned { result ≡ turned_of hold }
{
    match hold {
        Hold::Turned | Hold::GaveBack => Turned::Went,
        Hold::Waits => Turned::Waited,
        Hold::Leaves => Turned::Left,
    }
}

/// The turn of a hart that is parked or has ended.
fn turn_still<W: Watcher, C: Closer<Held<W>>, R: Wait>(
    rt: &R,
    gate: &Gate<Box<HostState<W, C>>>,
    pass: &mut Pass<Box<HostState<W, C>>>,
    place: &mut Option<Seat<W>>,
) -> Result<Turned, NoMemory>
    requires gate { IsPassOf gate.now pass.old }
    requires free { holds pass.old ≡ false }
    requires sits { (t : Task) → carries pass.old ≡ Some t
        → MatchOption place.old ⊥ (Sits t pass.old.party (seen pass.old)) }
    requires still { MatchOption place.old ⊥ (λ seat. seat.hart.parked ≡ false → IsSome seat.hart.ending) }
    ensures gate { IsPassOf gate.now pass.new }
    ensures same { known pass.new ≡ record (known pass.old) { seen = seen pass.new } }
    ensures party { pass.new.party ≡ pass.old.party }
    ensures takes { pass.new.takes ≡ min (pass.old.takes + 1) (2 ^ 64 - 1) }
    ensures done { (t : Task) → carries pass.old ≡ Some t
        → IfOk result (λ turned. IsDone turned t pass.old.party (seen pass.old) (seen pass.new) place.new) }
    ensures lists { (kept : List KeptList) → MatchOption place.old ⊥ (HasLists kept)
        → MatchOption place.new (Unit {0}) (HasLists kept) }
    ensures failed { OnErr result (place.new ≡ None) }
{
    let Ok(hold) = hold_still_once(rt, gate, pass, place) else {
        *place = None;
        return Err(NoMemory);
    };
    Ok(turned_by(hold))
}

/// A hart that found no memory between its holds: the state is short from then on, and the runner has no seat any more.
fn give_up<W: Watcher, C: Closer<Held<W>>, R: Wait>(
    rt: &R,
    gate: &Gate<Box<HostState<W, C>>>,
    pass: &mut Pass<Box<HostState<W, C>>>,
    place: &mut Option<Seat<W>>,
)
    requires gate { IsPassOf gate.now pass.old }
    requires free { holds pass.old ≡ false }
    requires low { (t : Task) → carries pass.old ≡ Some t → pass.old.party < t.machine.harts }
    ensures gate { IsPassOf gate.now pass.new }
    ensures same { known pass.new ≡ record (known pass.old) { seen = seen pass.new } }
    ensures party { pass.new.party ≡ pass.old.party }
    ensures takes { min (pass.old.takes + 1) (2 ^ 64 - 1) ≤ pass.new.takes }
    ensures failed { place.new ≡ None }
{
    let mut state = gate.take(rt, pass);
    state.fail(pass.party());
    gate.give(rt, pass, state);
    *place = None;
}

/// One hold of a hart that has gone ahead in its block.
fn hold_running_once<W: Watcher, C: Closer<Held<W>>, R: Wait>(
    rt: &R,
    gate: &Gate<Box<HostState<W, C>>>,
    pass: &mut Pass<Box<HostState<W, C>>>,
    place: &mut Option<Seat<W>>,
    ahead: Ahead,
    blocks: &mut BlockCache,
    tape: &mut Tape,
) -> Result<Hold, NoMemory>
    requires gate { IsPassOf gate.now pass.old }
    requires free { holds pass.old ≡ false }
    requires sits { (t : Task) → carries pass.old ≡ Some t
        → MatchOption place.old ⊥ (Sits t pass.old.party (seen pass.old)) }
    requires ahead { MatchOption place.old ⊥ (λ seat. IsAhead seat ahead) }
    requires serves { MatchOption place.old ⊥ (λ seat. MayServe blocks.old seat.image.value) }
    requires empty { tape.old.pieces.items ≡ [] }
    ensures gate { IsPassOf gate.now pass.new }
    ensures same { known pass.new ≡ record (known pass.old) { seen = seen pass.new } }
    ensures party { pass.new.party ≡ pass.old.party }
    ensures takes { pass.new.takes ≡ min (pass.old.takes + 1) (2 ^ 64 - 1) }
    ensures gone { (t : Task) → carries pass.old ≡ Some t → MatchOption place.old ⊥ (λ seat. IfOk result (λ hold.
        HasGone seat.no (seen pass.old) (seen pass.new)
        (λ taken. IsPart hold t taken (seen pass.new) tape.new.pieces.items seat place.new))) }
    ensures blocks { MatchOption place.old ⊥ (λ seat. MayServe blocks.new seat.image.value) }
{
    let mut state = gate.take(rt, pass);
    // Each state is in order.
    let _ = state.task();
    let held = take_running_part(&mut state, place, ahead, blocks, tape);
    gate.give(rt, pass, state);
    held
}

/// Lets the boxes of the seat hear the Turn that its hart made from `pc` on.
fn hear<W: Watcher>(
    place: &mut Option<Seat<W>>,
    pc: u64,
    pieces: &[Piece],
    blocks: &mut BlockCache,
    lists: &mut ListCache,
) -> Result<(), NoMemory>
    requires may { MatchOption place.old ⊥ (MayHear pc pieces.now lists.old) }
    requires serves { MatchOption place.old ⊥ (λ seat. MayServe blocks.old seat.image.value) }
    ensures heard { OnOk result (MatchOption place.old ⊥ (λ seat. MatchOption place.new ⊥ (HasHeard pieces.now seat))) }
    ensures lists { OnOk result (MatchOption place.new ⊥ (HasLists lists.new)) }
    ensures serves { MatchOption place.old ⊥ (λ seat. MayServe blocks.new seat.image.value) }
{
    let Some(seat) = place else {
        return Err(NoMemory);
    };
    hear_turn(seat, pc, pieces, blocks, lists)
}

/// The turn of a hart that runs and has gone ahead in its block: it takes the state, records its Turn, and goes on with its next
/// blocks; its boxes hear them, block after block, once the state is given back.
fn turn_running<W: Watcher, C: Closer<Held<W>>, R: Wait>(
    rt: &R,
    gate: &Gate<Box<HostState<W, C>>>,
    pass: &mut Pass<Box<HostState<W, C>>>,
    place: &mut Option<Seat<W>>,
    ahead: Ahead,
    blocks: &mut BlockCache,
    lists: &mut ListCache,
    tape: &mut Tape,
) -> Result<Turned, NoMemory>
    requires gate { IsPassOf gate.now pass.old }
    requires free { holds pass.old ≡ false }
    requires sits { (t : Task) → carries pass.old ≡ Some t
        → MatchOption place.old ⊥ (Sits t pass.old.party (seen pass.old)) }
    requires ahead { MatchOption place.old ⊥ (λ seat. IsAhead seat ahead) }
    requires serves { MatchOption place.old ⊥ (λ seat. MayServe blocks.old seat.image.value) }
    requires lists { MatchOption place.old ⊥ (HasLists lists.old) }
    ensures gate { IsPassOf gate.now pass.new }
    ensures same { known pass.new ≡ record (known pass.old) { seen = seen pass.new } }
    ensures party { pass.new.party ≡ pass.old.party }
    ensures takes { min (pass.old.takes + 1) (2 ^ 64 - 1) ≤ pass.new.takes }
    ensures done { (t : Task) → carries pass.old ≡ Some t
        → IfOk result (λ turned. IsDone turned t pass.old.party (seen pass.old) (seen pass.new) place.new) }
    ensures blocks { MatchOption place.old ⊥ (λ seat. MayServe blocks.new seat.image.value) }
    ensures lists { OnOk result (MatchOption place.new (Unit {0}) (HasLists lists.new)) }
    ensures failed { OnErr result (place.new ≡ None) }
{
    tape.rewind();
    let Some(seat) = place else {
        return Err(NoMemory);
    };
    let pc = seat.hart.pc;
    let Ok(hold) = hold_running_once(rt, gate, pass, place, ahead, blocks, tape) else {
        *place = None;
        return Err(NoMemory);
    };
    let Hold::Turned = hold else {
        return Ok(turned_by(hold));
    };
    let Ok(()) = hear(place, pc, tape.further(), blocks, lists) else {
        give_up(rt, gate, pass, place);
        return Err(NoMemory);
    };
    Ok(Turned::Went)
}

/// The turn of a hart that runs: it goes ahead in the block that it is at, by itself.
fn turn_awake<W: Watcher, C: Closer<Held<W>>, R: Wait>(
    rt: &R,
    gate: &Gate<Box<HostState<W, C>>>,
    pass: &mut Pass<Box<HostState<W, C>>>,
    place: &mut Option<Seat<W>>,
    blocks: &mut BlockCache,
    lists: &mut ListCache,
    tape: &mut Tape,
) -> Result<Turned, NoMemory>
    requires gate { IsPassOf gate.now pass.old }
    requires free { holds pass.old ≡ false }
    requires sits { (t : Task) → carries pass.old ≡ Some t
        → MatchOption place.old ⊥ (Sits t pass.old.party (seen pass.old)) }
    requires runs { MatchOption place.old ⊥ (λ seat. (seat.hart.parked ≡ false) × (seat.hart.ending ≡ None)) }
    requires blocks { MatchOption place.old ⊥ (λ seat. MayServe blocks.old seat.image.value) }
    requires lists { MatchOption place.old ⊥ (HasLists lists.old) }
    ensures gate { IsPassOf gate.now pass.new }
    ensures same { known pass.new ≡ record (known pass.old) { seen = seen pass.new } }
    ensures party { pass.new.party ≡ pass.old.party }
    ensures takes { min (pass.old.takes + 1) (2 ^ 64 - 1) ≤ pass.new.takes }
    ensures done { (t : Task) → carries pass.old ≡ Some t
        → IfOk result (λ turned. IsDone turned t pass.old.party (seen pass.old) (seen pass.new) place.new) }
    ensures blocks { MatchOption place.old ⊥ (λ seat. MayServe blocks.new seat.image.value) }
    ensures lists { OnOk result (MatchOption place.new (Unit {0}) (HasLists lists.new)) }
    ensures failed { OnErr result (place.new ≡ None) }
{
    let Some(seat) = place else {
        return Err(NoMemory);
    };
    let Ok(ahead) = go_ahead_from(seat, blocks) else {
        give_up(rt, gate, pass, place);
        return Err(NoMemory);
    };
    turn_running(rt, gate, pass, place, ahead, blocks, lists, tape)
}

impl<W: Watcher, C: Closer<Held<W>>> Runner<W, C> {
    /// One turn of the hart: one hold of the shared state, and the calls of its boxes behind it. In the hold it records its asks
    /// and its Backs and takes the sets that arrived. A hart that runs then records a Turn of one block or of several, of at most 512
    /// steps: it goes on with the next block while the cache keeps it, there is room for its events, and no line of the script has
    /// fallen due; lines that have are placed behind the Turn. One that has ended leaves, and a parked one comes to its start where
    /// it has one, leaves, or waits. Where it finds no memory, or another hart found none, the runner has no seat any more.
    pub fn turn<R: Wait>(
        &mut self,
        rt: &R,
        gate: &Gate<Box<HostState<W, C>>>,
    ) -> Result<Turned, NoMemory>
        requires gate { IsPassOf gate.now self.old.pass }
        requires free { holds self.old.pass ≡ false }
        requires order { (t : Task) → carries self.old.pass ≡ Some t
            → MatchOption self.old.seat ⊥ (Sits t self.old.pass.party (seen self.old.pass)) }
        requires blocks { (t : Task) → carries self.old.pass ≡ Some t → MayServe self.old.blocks t.machine.image }
        requires lists { MatchOption self.old.seat ⊥ (HasLists self.old.lists) }
        ensures gate { IsPassOf gate.now self.new.pass }
        ensures same { known self.new.pass ≡ record (known self.old.pass) { seen = seen self.new.pass } }
        ensures party { self.new.pass.party ≡ self.old.pass.party }
        ensures takes { min (self.old.pass.takes + 1) (2 ^ 64 - 1) ≤ self.new.pass.takes }
        ensures done { (t : Task) → carries self.old.pass ≡ Some t → IfOk result
            (λ turned. IsDone turned t self.old.pass.party (seen self.old.pass) (seen self.new.pass) self.new.seat) }
        ensures blocks { (t : Task) → carries self.old.pass ≡ Some t → MayServe self.new.blocks t.machine.image }
        ensures lists { OnOk result (MatchOption self.new.seat (Unit {0}) (HasLists self.new.lists)) }
        ensures failed { OnErr result (self.new.seat ≡ None) }
    {
        let Some(seat) = &self.seat else {
            return Err(NoMemory);
        };
        if seat.hart.parked || seat.hart.ending.is_some() {
            return turn_still(rt, gate, &mut self.pass, &mut self.seat);
        }
        turn_awake(
            rt,
            gate,
            &mut self.pass,
            &mut self.seat,
            &mut self.blocks,
            &mut self.lists,
            &mut self.tape,
        )
    }

    /// Its hart, while it has a seat.
    fn hart(&self) -> Option<Hart> {
        match &self.seat {
            Some(seat) => Some(seat.hart),
            None => None,
        }
    }

    /// Pauses behind a turn before which its hart was so: until it isn't far ahead of the others, or, where it has gone round, for a
    /// while.
    fn keep_pace(&self, stride: &mut Stride, before: Option<Hart>) {
        let (Some(hart), Some(before)) = (self.hart(), before) else {
            return;
        };
        let no = self.pass.party();
        if hart.ending.is_some() {
            return;
        }
        if goes_round(&hart, &before) {
            stride.go_round(&self.pace, no);
        } else {
            stride.keep(&self.pace, no, hart.steps);
        }
    }

    /// Turns until the hart has left, and the calls of its boxes between them.
    pub fn run<R: Wait>(
        &mut self,
        rt: &R,
        gate: &Gate<Box<HostState<W, C>>>,
    ) -> Result<(), NoMemory>
        requires gate { IsPassOf gate.now self.old.pass }
        requires free { holds self.old.pass ≡ false }
        requires order { (t : Task) → carries self.old.pass ≡ Some t
            → MatchOption self.old.seat ⊥ (Sits t self.old.pass.party (seen self.old.pass)) }
        requires blocks { (t : Task) → carries self.old.pass ≡ Some t → MayServe self.old.blocks t.machine.image }
        requires lists { MatchOption self.old.seat ⊥ (HasLists self.old.lists) }
        ensures gate { IsPassOf gate.now self.new.pass }
        ensures same { known self.new.pass ≡ record (known self.old.pass) { seen = seen self.new.pass } }
        ensures party { self.new.pass.party ≡ self.old.pass.party }
        ensures left { OnOk result (HasLeftLast self.old.pass.party (seen self.new.pass)) }
        ensures over { self.new.seat ≡ None }
    {
        let no = self.pass.party();
        let mut stride = Stride::new();
        for _ in rt.forever() {
            let before = self.hart();
            let turned = self.turn(rt, gate)?;
            match turned {
                Turned::Left => {
                    stride.rest(&self.pace, no);
                    return Ok(());
                }
                Turned::Went => {
                    stride.count(&self.pace, no);
                    make_way(gate, 0);
                    self.keep_pace(&mut stride, before);
                }
                Turned::Waited => {
                    stride.rest(&self.pace, no);
                    make_way(gate, IDLE_PAUSES);
                }
            }
        }
        unreachable!()
    }

    /// The pass, once the runner is done.
    pub fn into_pass(self) -> Pass<Box<HostState<W, C>>>
        ensures pass { result ≡ self.pass }
    {
        self.pass
    }
}
