//! Harts that are looked at again.

ghost use Rattle.std.specs.Prelude.{◌≡◌, ◌<◌, ◌+◌, ◌%◌, None, IfOk};
ghost use Rattle.flat_model.specs.Worlds.{world, hart_of};
ghost use Rattle.replay_order.specs.Seats.{woken};
ghost use Rattle.run_replay.specs.Following.{IsBerth};

use crate::berths::Berth;
use flat_model::NoMemory;
use host_state::HostState;
use rv_exec::Hart;
use watcher_api::{Closer, Held, Watcher};

/// A hart as it is now: one that was parked may have its start since.
pub(crate) fn hart_now<W: Watcher, C: Closer<Held<W>>>(
    state: &HostState<W, C>,
    no: u8,
    hart: Hart,
) -> Hart
    requires was { hart_of state.now.task.machine state.now.task.mode state.now.past no ≡ woken no state.now.task.machine.harts hart
        ((world state.now.task.machine state.now.task.mode state.now.past).shared.starts no) }
    requires below { hart.ending ≡ None → hart.steps < state.now.task.machine.limit }
    ensures now { result ≡ hart_of state.now.task.machine state.now.task.mode state.now.past no }
    ensures below { result.ending ≡ None → result.steps < state.now.task.machine.limit }
{
    // Each state is in order.
    let task = state.task();
    if !hart.parked {
        return hart;
    }
    match state.start_of(no) {
        Some(start) => Hart::started(no, task.harts(), start),
        None => hart,
    }
}

/// The address of the hart's next word, in bytes.
pub(crate) fn pc_of(hart: &Hart) -> u64
    ensures pc { result ≡ hart.now.pc }
    ensures aligned { result % 4 ≡ 0 }
{
    hart.pc
}

/// The number of the list of sets behind this one. An error where no number is left.
pub(crate) fn next_generation(generation: u64) -> Result<u64, NoMemory>
    ensures next { IfOk result (λ next. next ≡ generation + 1) }
{
    generation.checked_add(1).ok_or(NoMemory)
}

/// Looks at a hart.
pub(crate) fn look<W: Watcher, C: Closer<Held<W>>>(
    state: &HostState<W, C>,
    no: u8,
    berth: &mut Berth<W>,
)
    requires berth { IsBerth state.now.task no state.now.past berth.old }
    ensures berth { IsBerth state.now.task no state.now.past berth.new }
    ensures is { berth.new.hart ≡ hart_of state.now.task.machine state.now.task.mode state.now.past no }
    ensures rest { berth.new ≡ record berth.old { hart = berth.new.hart } }
{
    berth.hart = hart_now(state, no, berth.hart);
}
