//! The blocks that a hart makes in one hold behind its first.

ghost use Rattle.std.specs.Prelude.{◌≡◌, ◌+◌, ◌<◌, ◌≤◌, true, false, None, IfOk, OnOk, OnErr};
ghost use Rattle.flat_model.specs.Worlds.{hart_of};
ghost use Rattle.rv_exec.specs.Sharing.{HasRoom};
ghost use Rattle.block_finder.specs.Caches.{MayServe};
ghost use Rattle.host_state.specs.MidTurns.{IsMidTurn};
ghost use Rattle.host_state.specs.Moving.{IsPrivateTurn};
ghost use Rattle.run_rules.specs.Laws.{MayTurn};
ghost use Rattle.run_rules.specs.Places.{takes_all};
ghost use Rattle.run_order.specs.InOrder.{task_run};
ghost use Rattle.hart_runner.specs.Stretches.{IsGoing, GoesOnBy, IsCommitted, LieAt};

use crate::falling_due::has_come;
use crate::going_ahead::Ahead;
use crate::pacing::goes_round;
use crate::seats::Seat;
use crate::tapes::Tape;
use block_finder::BlockCache;
use flat_model::limits::BLOCK_WORDS;
use flat_model::{Image, NoMemory};
use guest_memory::Near;
use host_state::HostState;
use rv_exec::Hart;
use watcher_api::{Closer, Held, Watcher};

/// Records the Turn of the block in which the hart has gone ahead, and answers how many steps it has. Where there is no memory the
/// hart fails.
pub(crate) fn commit_first<W: Watcher, C: Closer<Held<W>>>(
    state: &mut HostState<W, C>,
    seat: &mut Seat<W>,
    mut ahead: Ahead,
    blocks: &mut BlockCache,
) -> Result<u32, NoMemory>
    requires open { state.old.short ≡ false }
    requires begins { MayTurn (task_run state.old.task) seat.old.no 0 state.old.past }
    requires taken { takes_all (task_run state.old.task) seat.old.no state.old.past ≡ true }
    requires room { 0 < state.old.journal.spare }
    requires output { HasRoom state.old.services }
    requires group { state.old.services.group ≡ None }
    requires hart { seat.old.hart ≡ hart_of state.old.task.machine state.old.task.mode state.old.past seat.old.no }
    requires awake { seat.old.hart.parked ≡ false }
    requires running { seat.old.hart.ending ≡ None }
    requires below { seat.old.hart.steps < state.old.task.machine.limit }
    requires starts { seat.old.hart.since ≡ 0 }
    requires image { seat.old.image.value ≡ state.old.task.machine.image }
    requires ran { IsPrivateTurn state.old.task.machine.image state.old.task.machine.limit seat.old.no ahead.ran seat.old.hart ahead.hart
        seat.old.raw.events }
    requires serves { MayServe blocks.old seat.old.image.value }
    ensures committed { IfOk result
        (λ n. IsCommitted seat.old.no n state.old state.new seat.old.hart seat.new.hart seat.new.raw.events) }
    ensures turning { IfOk result (λ n. IsMidTurn (task_run state.new.task) seat.old.no n state.new.past) }
    ensures lies { OnOk result (LieAt state.old.task.machine.image seat.old.hart.pc seat.new.raw.events) }
    ensures going { OnOk result (IsGoing state.new seat.old.no seat.new.hart) }
    ensures open { OnOk result (state.new.short ≡ false) }
    ensures failed { OnErr result ((state.new.short ≡ true) × (state.new.past ≡ state.old.past)) }
    ensures task { state.new.task ≡ state.old.task }
    ensures blocks { MayServe blocks.new seat.old.image.value }
    ensures kept { seat.new.raw.kept ≡ seat.old.raw.kept }
    ensures seat { seat.new ≡ record seat.old { hart = seat.new.hart; near = seat.new.near; raw = seat.new.raw } }
{
    // A hart's pc is a multiple of 4.
    let _pc = seat.hart.pc;
    let Ok(block) = blocks.lookup(&seat.image, seat.hart.pc) else {
        state.fail(seat.no);
        return Err(NoMemory);
    };
    let before = seat.hart;
    let n = state.commit_turn(
        seat.no,
        &before,
        &mut ahead.hart,
        ahead.ran,
        block,
        &mut seat.near,
        &mut seat.raw,
    );
    seat.hart = ahead.hart;
    Ok(n)
}

/// Makes the next block of hart `no` behind `made` steps of its Turn, and answers how many steps it has: none where the hart has
/// ended, where the block isn't kept, where the Turn could come to more than 512 steps, and where there is no room. Where the hart
/// has sets, the events go to the tape.
#[tactic(auto, using(crate::proofs::GoingOn::same_turn))]
fn next_block<W: Watcher, C: Closer<Held<W>>>(
    state: &mut HostState<W, C>,
    no: u8,
    hart: &mut Hart,
    near: &mut Near,
    image: &Image,
    has_sets: bool,
    made: u32,
    blocks: &BlockCache,
    tape: &mut Tape,
) -> u32
    requires turning { IsMidTurn (task_run state.old.task) no made state.old.past }
    requires most { made ≤ 512 }
    requires open { state.old.short ≡ false }
    requires going { IsGoing state.old no hart.old }
    requires image { image.now ≡ state.old.task.machine.image }
    requires serves { MayServe blocks.now image.now }
    ensures turning { IsMidTurn (task_run state.new.task) no (made + result) state.new.past }
    ensures most { made + result ≤ 512 }
    ensures open { state.new.short ≡ false }
    ensures going { IsGoing state.new no hart.new }
    ensures gone { GoesOnBy state.old.task no result state.old.past state.new.past hart.old hart.new has_sets
        tape.old.pieces.items tape.new.pieces.items }
    ensures task { state.new.task ≡ state.old.task }
{
    let pc = hart.pc;
    if hart.ending.is_some() || !state.has_turn_room() {
        return 0;
    }
    let Some(block) = blocks.kept(image, pc) else {
        return 0;
    };
    if block.n == 0 || made + block.n >= BLOCK_WORDS {
        return 0;
    }
    let Some(mut raw) = tape.take() else {
        return 0;
    };
    let n = state.commit_block(no, hart, made, block, near, &mut raw);
    tape.add(has_sets, pc, raw);
    n
}

/// Whether a hold is to end behind a block: its moment has come, or the hart is one of several and goes round.
fn is_to_end<W: Watcher, C: Closer<Held<W>>>(
    state: &HostState<W, C>,
    until: Option<u64>,
    hart: &Hart,
    start: &Hart,
) -> bool {
    has_come(state, until) || (goes_round(hart, start) && state.task().harts() > 1)
}

/// Makes the next blocks of hart `no` behind `made` steps of its Turn, one after the other, as long as there is one to make, the
/// moment `until` hasn't come, and the hart hasn't gone round to where it was at its start; answers how many steps they are.
pub(crate) fn go_on<W: Watcher, C: Closer<Held<W>>>(
    state: &mut HostState<W, C>,
    no: u8,
    hart: &mut Hart,
    near: &mut Near,
    image: &Image,
    has_sets: bool,
    made: u32,
    until: Option<u64>,
    start: &Hart,
    blocks: &BlockCache,
    tape: &mut Tape,
) -> u32
    requires turning { IsMidTurn (task_run state.old.task) no made state.old.past }
    requires most { made ≤ 512 }
    requires open { state.old.short ≡ false }
    requires going { IsGoing state.old no hart.old }
    requires image { image.now ≡ state.old.task.machine.image }
    requires serves { MayServe blocks.now image.now }
    ensures most { made + result ≤ 512 }
    ensures open { state.new.short ≡ false }
    ensures going { IsGoing state.new no hart.new }
    ensures gone { GoesOnBy state.old.task no result state.old.past state.new.past hart.old hart.new has_sets
        tape.old.pieces.items tape.new.pieces.items }
    ensures task { state.new.task ≡ state.old.task }
{
    let mut more = 0;
    for _ in 0..BLOCK_WORDS {
        if is_to_end(state, until, hart, start) {
            return more;
        }
        let n = next_block(
            state,
            no,
            hart,
            near,
            image,
            has_sets,
            made + more,
            blocks,
            tape,
        );
        if n == 0 {
            return more;
        }
        more += n;
    }
    more
}
