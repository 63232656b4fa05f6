//! Steps of a hart.

ghost use Rattle.std.specs.Prelude.{◌≡◌, ◌<◌, ◌≤◌, ◌+◌, if◌then◌else◌, true, false, None, Some, IsSome, length};
ghost use Rattle.std.specs.Option.{option_map_or};
ghost use Rattle.flat_model.specs.Image.{word_at};
ghost use Rattle.flat_model.specs.Instruction.{decoded, ends_block};
ghost use Rattle.flat_model.specs.Blocks.{length_of};
ghost use Rattle.flat_model.specs.Effect.{effect_of, touches_shared, word_touches_shared};
ghost use Rattle.flat_model.specs.Outcome.{outcome};
ghost use Rattle.flat_model.specs.Step.{starts_block, IsPrivateStep, IsSharedStep};
ghost use Rattle.guest_memory.specs.Memory.{spans_in, harts_of};
ghost use Rattle.rv_exec.specs.Going.{HasRegisters, HasBegun, Ends, GoesStraight, TellsFew, calls, word_calls};
ghost use Rattle.rv_exec.specs.Sharing.{shared_of, machine_on, IsMemoryOf, KeepsLayout, KeepsPlaces, HasRoom};

use crate::accesses::{load, store};
use crate::atomics::{Operation, operate};
use crate::calls::call;
use crate::effects::{address, alone};
use crate::endings::{begin, begin_absent, fail};
use crate::harts::Hart;
use crate::raw_logs::RawLog;
use crate::services::Services;
use flat_model::{FaultKind, Image, Ins};
use guest_memory::{Memory, Near};
use rv_decode::decode;

/// Carries out an instruction up to the end of its step.
#[inline(always)]
fn carry_out(
    no: u8,
    hart: &mut Hart,
    ins: &Ins,
    memory: &mut Memory,
    services: &mut Services,
    limit: u64,
    near: &mut Near,
    raw: &mut RawLog,
)
    requires registers { HasRegisters ins.now }
    requires begun { HasBegun hart.old }
    requires no { no < harts_of memory.old }
    requires room { length raw.old.events + 3 ≤ 2048 }
    requires output { HasRoom services.old }
    requires starts { length services.old.starts ≡ harts_of memory.old }
    ensures ended { Ends (outcome (spans_in memory.old) (harts_of memory.old) no hart.old (shared_of memory.old services.old)
        (effect_of hart.old ins.now)) limit no (ends_block ins.now) hart.old hart.new memory.new services.new raw.old raw.new }
    ensures layout { KeepsLayout memory.old memory.new }
    ensures places { KeepsPlaces services.old services.new }
    ensures quiet { calls ins.now ≡ false → services.new ≡ services.old }
    ensures group { hart.new.ending ≡ None → services.new.group ≡ services.old.group }
{
    match *ins {
        Ins::Load { op, rd, rs1, off } => {
            let addr = address(hart, rs1, off);
            load(no, hart, memory, op, rd, addr, limit, near, raw);
        }
        Ins::Store { op, rs1, rs2, off } => {
            let addr = address(hart, rs1, off);
            let value = hart.register(rs2);
            store(no, hart, memory, op, addr, value, limit, near, raw);
        }
        Ins::Atomic {
            op,
            wide,
            rd,
            rs1,
            rs2,
            ..
        } => {
            let what = Operation {
                op,
                wide,
                rd,
                addr: hart.register(rs1),
                value: hart.register(rs2),
            };
            operate(no, hart, memory, what, limit, raw);
        }
        Ins::Ecall => call(no, hart, memory, services, limit, raw),
        _ => {
            alone(no, hart, ins, limit, raw);
        }
    }
}

/// A step at a pc where no word is.
fn absent_step(no: u8, hart: &mut Hart, image: &Image, limit: u64, raw: &mut RawLog)
    requires absent { word_at image.now hart.old.pc ≡ None }
    requires awake { hart.old.parked ≡ false }
    requires running { hart.old.ending ≡ None }
    requires below_limit { hart.old.steps < limit }
    requires room { length raw.old.events + 2 ≤ 2048 }
    ensures step { IsPrivateStep image.now limit no hart.old hart.new raw.old.events raw.new.events }
    ensures kept { raw.new.kept ≡ raw.old.kept }
    ensures few { TellsFew hart.old hart.new raw.old.events raw.new.events }
    ensures awake { hart.new.parked ≡ false }
    ensures counted { hart.new.steps ≡ hart.old.steps + 1 }
    ensures ended { IsSome hart.new.ending }
{
    begin_absent(no, hart, raw);
    fail(no, hart, FaultKind::Fetch, raw);
}

/// A step at a word that is no instruction.
fn illegal_step(
    no: u8,
    hart: &mut Hart,
    image: &Image,
    word: u32,
    limit: u64,
    n: u32,
    raw: &mut RawLog,
)
    requires fetched { word_at image.now hart.old.pc ≡ Some word }
    requires illegal { decoded word ≡ None }
    requires awake { hart.old.parked ≡ false }
    requires running { hart.old.ending ≡ None }
    requires below_limit { hart.old.steps < limit }
    requires room { length raw.old.events + 6 ≤ 2048 }
    requires block { starts_block hart.old ≡ true → n ≡ length_of image.now hart.old.pc }
    ensures step { IsPrivateStep image.now limit no hart.old hart.new raw.old.events raw.new.events }
    ensures kept { raw.new.kept ≡ raw.old.kept }
    ensures few { TellsFew hart.old hart.new raw.old.events raw.new.events }
    ensures awake { hart.new.parked ≡ false }
    ensures counted { hart.new.steps ≡ hart.old.steps + 1 }
    ensures ended { IsSome hart.new.ending }
{
    begin(no, hart, word, n, raw);
    fail(no, hart, FaultKind::Illegal, raw);
}

/// One step of hart `no` at a word that was decoded, with what the harts share and with its events in the log. Where it
/// starts a block, `n` is the block's length. The output has room for one call of `write`.
#[inline(always)]
pub fn coded_step(
    no: u8,
    hart: &mut Hart,
    image: &Image,
    word: u32,
    ins: &Ins,
    memory: &mut Memory,
    services: &mut Services,
    limit: u64,
    n: u32,
    near: &mut Near,
    raw: &mut RawLog,
)
    requires fetched { word_at image.now hart.old.pc ≡ Some word }
    requires decoded { decoded word ≡ Some ins.now }
    requires awake { hart.old.parked ≡ false }
    requires running { hart.old.ending ≡ None }
    requires going_on { services.old.group ≡ None }
    requires below_limit { hart.old.steps < limit }
    requires room { length raw.old.events + 6 ≤ 2048 }
    requires output { HasRoom services.old }
    requires block { starts_block hart.old ≡ true → n ≡ length_of image.now hart.old.pc }
    requires no { no < harts_of memory.old }
    requires starts { length services.old.starts ≡ harts_of memory.old }
    requires memory { IsMemoryOf image.now memory.old }

    // It is one step of the flat machine, with its events.
    ensures step { IsSharedStep (machine_on image.now memory.old limit) no hart.old hart.new (shared_of memory.old services.old)
        (shared_of memory.new services.new) raw.old.events raw.new.events }

    // What the next step needs.
    ensures kept { raw.new.kept ≡ raw.old.kept }
    ensures few { TellsFew hart.old hart.new raw.old.events raw.new.events }
    ensures awake { hart.new.parked ≡ false }
    ensures counted { hart.new.steps ≡ hart.old.steps + 1 }
    ensures within_limit { hart.new.ending ≡ None → hart.new.steps < limit }
    ensures straight { GoesStraight hart.old hart.new }
    ensures going_on { hart.new.ending ≡ None → services.new.group ≡ None }
    ensures layout { KeepsLayout memory.old memory.new }
    ensures places { KeepsPlaces services.old services.new }
    ensures quiet { calls ins.now ≡ false → services.new ≡ services.old }
    ensures steady { hart.new.ending ≡ None → 0 < hart.new.since → services.new ≡ services.old }
{
    begin(no, hart, word, n, raw);
    carry_out(no, hart, ins, memory, services, limit, near, raw);
}

/// Whether the instruction is a load, a store, an instruction of A or ECALL.
fn touches_shared(ins: &Ins) -> bool
    ensures shared { result ≡ touches_shared ins.now }
{
    matches!(
        ins,
        Ins::Load { .. } | Ins::Store { .. } | Ins::Atomic { .. } | Ins::Ecall
    )
}

/// What `private_step` answers.
#[derive(Clone, Copy, Debug, PartialEq, Eq)]
pub enum Private {
    /// The hart made a step.
    Did,
    /// The next word is a load, a store, an instruction of A or ECALL, and nothing was done.
    Shared,
}

/// A step at a decoded word that touches nothing shared.
fn lone_step(
    no: u8,
    hart: &mut Hart,
    image: &Image,
    word: u32,
    ins: &Ins,
    limit: u64,
    n: u32,
    raw: &mut RawLog,
)
    requires fetched { word_at image.now hart.old.pc ≡ Some word }
    requires decoded { decoded word ≡ Some ins.now }
    requires lone { touches_shared ins.now ≡ false }
    requires awake { hart.old.parked ≡ false }
    requires running { hart.old.ending ≡ None }
    requires below_limit { hart.old.steps < limit }
    requires room { length raw.old.events + 6 ≤ 2048 }
    requires block { starts_block hart.old ≡ true → n ≡ length_of image.now hart.old.pc }
    ensures step { IsPrivateStep image.now limit no hart.old hart.new raw.old.events raw.new.events }
    ensures kept { raw.new.kept ≡ raw.old.kept }
    ensures few { TellsFew hart.old hart.new raw.old.events raw.new.events }
    ensures awake { hart.new.parked ≡ false }
    ensures counted { hart.new.steps ≡ hart.old.steps + 1 }
    ensures within_limit { hart.new.ending ≡ None → hart.new.steps < limit }
    ensures straight { GoesStraight hart.old hart.new }
{
    begin(no, hart, word, n, raw);
    alone(no, hart, ins, limit, raw);
}

/// One step of hart `no` at a word that touches nothing that is shared, with its events in the log. Where it starts a
/// block, `n` is the block's length.
pub fn private_step(
    no: u8,
    hart: &mut Hart,
    image: &Image,
    limit: u64,
    n: u32,
    raw: &mut RawLog,
) -> Private
    requires awake { hart.old.parked ≡ false }
    requires running { hart.old.ending ≡ None }
    requires below_limit { hart.old.steps < limit }
    requires room { length raw.old.events + 6 ≤ 2048 }
    requires block { starts_block hart.old ≡ true → n ≡ length_of image.now hart.old.pc }

    // It is shared exactly where the next word is a load, a store, an instruction of A or ECALL, and then nothing changes.
    ensures shared { result ≡ (if word_touches_shared (word_at image.now hart.old.pc) then Private.Shared else Private.Did) }
    ensures unchanged { result ≡ Private.Shared → hart.new ≡ hart.old }
    ensures untold { result ≡ Private.Shared → raw.new ≡ raw.old }

    // Else it is one step of the flat machine, in every world whose group hasn't ended, with its events.
    ensures step { result ≡ Private.Did → IsPrivateStep image.now limit no hart.old hart.new raw.old.events raw.new.events }

    // What the next step needs.
    ensures kept { raw.new.kept ≡ raw.old.kept }
    ensures few { result ≡ Private.Did → TellsFew hart.old hart.new raw.old.events raw.new.events }
    ensures awake { hart.new.parked ≡ false }
    ensures counted { result ≡ Private.Did → hart.new.steps ≡ hart.old.steps + 1 }
    ensures within_limit { hart.new.ending ≡ None → hart.new.steps < limit }
    ensures straight { result ≡ Private.Did → GoesStraight hart.old hart.new }
{
    let Some(word) = image.word(hart.pc) else {
        absent_step(no, hart, image, limit, raw);
        return Private::Did;
    };
    let Some(ins) = decode(word) else {
        illegal_step(no, hart, image, word, limit, n, raw);
        return Private::Did;
    };
    if touches_shared(&ins) {
        return Private::Shared;
    }
    lone_step(no, hart, image, word, &ins, limit, n, raw);
    Private::Did
}

/// One step of hart `no` with what the harts share, at any word, with its events in the log. Where it starts a block,
/// `n` is the block's length. The output has room for one call of `write`.
pub fn shared_step(
    no: u8,
    hart: &mut Hart,
    image: &Image,
    memory: &mut Memory,
    services: &mut Services,
    limit: u64,
    n: u32,
    raw: &mut RawLog,
)
    requires awake { hart.old.parked ≡ false }
    requires running { hart.old.ending ≡ None }
    requires going_on { services.old.group ≡ None }
    requires below_limit { hart.old.steps < limit }
    requires room { length raw.old.events + 6 ≤ 2048 }
    requires output { HasRoom services.old }
    requires block { starts_block hart.old ≡ true → n ≡ length_of image.now hart.old.pc }
    requires no { no < harts_of memory.old }
    requires starts { length services.old.starts ≡ harts_of memory.old }
    requires memory { IsMemoryOf image.now memory.old }

    // It is one step of the flat machine, with its events.
    ensures step { IsSharedStep (machine_on image.now memory.old limit) no hart.old hart.new (shared_of memory.old services.old)
        (shared_of memory.new services.new) raw.old.events raw.new.events }

    // What the next step needs.
    ensures kept { raw.new.kept ≡ raw.old.kept }
    ensures few { TellsFew hart.old hart.new raw.old.events raw.new.events }
    ensures awake { hart.new.parked ≡ false }
    ensures counted { hart.new.steps ≡ hart.old.steps + 1 }
    ensures within_limit { hart.new.ending ≡ None → hart.new.steps < limit }
    ensures straight { GoesStraight hart.old hart.new }
    ensures going_on { hart.new.ending ≡ None → services.new.group ≡ None }
    ensures layout { KeepsLayout memory.old memory.new }
    ensures places { KeepsPlaces services.old services.new }
    ensures quiet { word_calls (word_at image.now hart.old.pc) ≡ false → services.new ≡ services.old }
    ensures steady { hart.new.ending ≡ None → 0 < hart.new.since → services.new ≡ services.old }
{
    let Some(word) = image.word(hart.pc) else {
        return absent_step(no, hart, image, limit, raw);
    };
    let Some(ins) = decode(word) else {
        return illegal_step(no, hart, image, word, limit, n, raw);
    };
    let mut near = Near::default();
    coded_step(
        no, hart, image, word, &ins, memory, services, limit, n, &mut near, raw,
    );
}
