//! The services that ECALL calls; `docs/guest-machine.md` lists them.

ghost use Rattle.std.specs.Prelude.{◌≡◌, ◌<◌, ◌≤◌, ◌+◌, ◌%◌, ◌∷◌, true, false, length, IfOk, IfNone};
ghost use Rattle.std.specs.Prelude.{◌⊎◌, Some, None};
ghost use Rattle.std.specs.Prelude.{vec_len, vec_capacity};
ghost use Rattle.flat_model.specs.declared.limits.TheConstants.{OUTPUT_MOST};
ghost use Rattle.flat_model.specs.Effect.{gives};
ghost use Rattle.flat_model.specs.Permission.{may, Readable};
ghost use Rattle.flat_model.specs.Step.{as_events, exit_told};
ghost use Rattle.flat_model.specs.Outcome.{a1_of, a7_of, negative, may_write, written, answer_of, appended, serves, exit_code};
ghost use Rattle.flat_model.specs.Outcome.{may_start, starts, writes};
ghost use Rattle.guest_memory.specs.Memory.{spans_in, bytes_of, harts_of};
ghost use Rattle.rv_exec.specs.Logged.{Logs};
ghost use Rattle.rv_exec.specs.Going.{HasBegun, finished, Ends};
ghost use Rattle.rv_exec.specs.Sharing.{shared_of, starts_of, KeepsPlaces, IsAnswer, HasRoom, HasRoomFor};

use crate::endings::{go_on, leave};
use crate::harts::{Hart, HartStart};
use crate::raw_logs::RawLog;
use crate::services::Services;
use flat_model::limits::{
    EBADF, EBUSY, EFAULT, EINVAL, ENOSPC, ENOSYS, OUTPUT_MOST, SERVICE_EXIT, SERVICE_EXIT_GROUP,
    SERVICE_START, SERVICE_WRITE, WRITE_MOST,
};
use flat_model::{Ending, What};
use guest_memory::Memory;

/// How many bytes `write` of the `n` from `addr` appends, or the number of its refusal.
#[tactic(auto, unfolding(flat_model::specs::Permission::may))]
fn may_write(memory: &Memory, output: &Vec<u8>, addr: u64, n: u64) -> Result<u64, u64>
    ensures answer { result ≡ may_write (spans_in memory.now) output.now.items addr n }
    ensures permitted { IfOk result (λ count. may (spans_in memory.now) Readable addr count ≡ true) }
    ensures room { IfOk result (λ count. (count ≡ 0) ⊎ ((count ≤ n) × (vec_len output.now + count ≤ OUTPUT_MOST))) }
{
    if n == 0 {
        return Ok(0);
    }
    if !memory.readable(addr, n) {
        return Err(EFAULT);
    }
    if n > OUTPUT_MOST.saturating_sub(output.len() as u64) {
        return Err(ENOSPC);
    }
    Ok(n)
}

/// How many bytes the call of `write` appends, or the number of its refusal.
fn written(hart: &Hart, memory: &Memory, output: &Vec<u8>) -> Result<u64, u64>
    ensures answer { result ≡ written (spans_in memory.now) hart.now output.now.items }
    ensures permitted { IfOk result (λ count. may (spans_in memory.now) Readable (a1_of hart.now) count ≡ true) }
    ensures room { IfOk result (λ count. HasRoomFor (vec_len output.now) (vec_capacity output.now)
        → vec_len output.now + count ≤ vec_capacity output.now) }
    ensures within { IfOk result (λ count. vec_len output.now ≤ OUTPUT_MOST → vec_len output.now + count ≤ OUTPUT_MOST) }
{
    match hart.register(10) {
        1 | 2 => may_write(
            memory,
            output,
            hart.register(11),
            hart.register(12).min(WRITE_MOST),
        ),
        _ => Err(EBADF),
    }
}

/// `-n`, as a register holds it.
fn negative(n: u64) -> u64
    ensures negative { result ≡ negative n }
{
    0u64.wrapping_sub(n)
}

/// Carries out `write` on the output, and gives its answer.
fn append(hart: &Hart, memory: &Memory, output: &mut Vec<u8>) -> u64
    requires room { HasRoomFor (vec_len output.old) (vec_capacity output.old) }
    ensures answer { result ≡ answer_of (written (spans_in memory.now) hart.now output.old.items) }
    ensures output { output.new.items ≡ appended output.old.items (bytes_of memory.now) (a1_of hart.now)
        (written (spans_in memory.now) hart.now output.old.items) }
    ensures within { vec_len output.old ≤ OUTPUT_MOST → vec_len output.new ≤ OUTPUT_MOST }
    ensures capacity { vec_capacity output.old ≤ vec_capacity output.new }
{
    match written(hart, memory, output) {
        Ok(n) => {
            memory.append_to(hart.register(11), n, output);
            n
        }
        Err(n) => negative(n),
    }
}

/// Whether hart `k` can be given a start at `pc`: the number of the refusal, if not.
fn may_start(memory: &Memory, services: &Services, k: u64, pc: u64) -> Option<u64>
    requires starts { length services.now.starts ≡ harts_of memory.now }
    ensures answer { result ≡ may_start (harts_of memory.now) (starts_of services.now) k pc }
    ensures hart { IfNone result (k < length services.now.starts) }
    ensures aligned { IfNone result (pc % 4 ≡ 0) }
{
    if k >= services.starts.len() as u64 || pc % 4 != 0 {
        return Some(EINVAL);
    }
    if services.starts[k as usize].is_some() {
        return Some(EBUSY);
    }
    None
}

/// Carries out `write`, and gives its answer.
fn write(hart: &Hart, memory: &Memory, services: &mut Services) -> u64
    requires room { HasRoom services.old }
    ensures answer { IsAnswer (writes (spans_in memory.now) hart.now (shared_of memory.now services.old))
        hart.now memory.now services.new result }
    ensures places { KeepsPlaces services.old services.new }
    ensures group { services.new.group ≡ services.old.group }
{
    append(hart, memory, &mut services.output)
}

/// Carries out `start`, and gives its answer.
fn start(hart: &Hart, memory: &Memory, services: &mut Services) -> u64
    requires starts { length services.old.starts ≡ harts_of memory.now }
    ensures answer { IsAnswer (starts (harts_of memory.now) hart.now (shared_of memory.now services.old))
        hart.now memory.now services.new result }
    ensures places { KeepsPlaces services.old services.new }
    ensures group { services.new.group ≡ services.old.group }
{
    let k = hart.register(10);
    let pc = hart.register(11);
    match may_start(memory, services, k, pc) {
        Some(n) => negative(n),
        None => {
            let arg = hart.register(12);
            services.give_start(k as usize, HartStart { pc, arg });
            0
        }
    }
}

/// Puts the answer of a service into a0, logs it, and ends the step.
fn answer(no: u8, hart: &mut Hart, value: u64, limit: u64, raw: &mut RawLog)
    requires begun { HasBegun hart.old }
    requires room { length raw.old.events + 2 ≤ 2048 }
    ensures gone { hart.new ≡ finished limit hart.old true (gives hart.old 10 value) }
    ensures logged { Logs raw.old (as_events no hart.old.steps (What.SysRet (a7_of hart.old) value ∷ exit_told hart.new.ending)) raw.new }
{
    let number = hart.register(17);
    raw.log(
        no,
        hart.steps,
        What::SysRet {
            number,
            result: value,
        },
    );
    let target = hart.pc.wrapping_add(4);
    go_on(no, hart, true, 10, value, target, limit, raw);
}

/// The code that a hart or its group ends with: the low 32 bits of a0.
fn exit_code(hart: &Hart) -> i32
    ensures code { result ≡ exit_code hart.now }
{
    let low = (hart.register(10) % 0x1_0000_0000) as u32;
    low.cast_signed()
}

/// Ends the group with the hart's code.
fn end_group(hart: &Hart, services: &mut Services)
    ensures ended { services.new ≡ record services.old { group = Some (exit_code hart.now) } }
{
    services.group = Some(exit_code(hart));
}

/// Carries out ECALL up to the end of its step.
#[inline(never)]
pub(crate) fn call(
    no: u8,
    hart: &mut Hart,
    memory: &Memory,
    services: &mut Services,
    limit: u64,
    raw: &mut RawLog,
)
    requires begun { HasBegun hart.old }
    requires room { length raw.old.events + 3 ≤ 2048 }
    requires output { HasRoom services.old }
    requires starts { length services.old.starts ≡ harts_of memory.now }
    ensures ended { Ends (serves (spans_in memory.now) (harts_of memory.now) hart.old (shared_of memory.now services.old) (a7_of hart.old))
        limit no true hart.old hart.new memory.now services.new raw.old raw.new }
    ensures places { KeepsPlaces services.old services.new }
    ensures group { hart.new.ending ≡ None → services.new.group ≡ services.old.group }
{
    let number = hart.register(17);
    raw.log(
        no,
        hart.steps,
        What::Sys {
            number,
            a0: hart.register(10),
            a1: hart.register(11),
            a2: hart.register(12),
        },
    );
    match number {
        SERVICE_WRITE => {
            let value = write(hart, memory, services);
            answer(no, hart, value, limit, raw);
        }
        SERVICE_EXIT => leave(no, hart, Ending::Exited(exit_code(hart)), raw),
        SERVICE_EXIT_GROUP => {
            end_group(hart, services);
            leave(no, hart, Ending::Group, raw);
        }
        SERVICE_START => {
            let value = start(hart, memory, services);
            answer(no, hart, value, limit, raw);
        }
        _ => answer(no, hart, negative(ENOSYS), limit, raw),
    }
}
