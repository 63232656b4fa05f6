//! How a step begins and how it ends. A hart's step and its block are counted where the step begins.

ghost use Rattle.std.specs.Prelude.{◌≡◌, ◌<◌, ◌≤◌, ◌+◌, ◌%◌, ◌^◌, ◌==◌, ◌∷◌, [], ◌++◌, true};
ghost use Rattle.std.specs.Prelude.{false, if◌then◌else◌, length, None, Some};
ghost use Rattle.flat_model.specs.Effect.{following, gives, jumps, branches};
ghost use Rattle.flat_model.specs.Step.{begun, starts_block, since_after, first_told, start_told, exit_told, as_events};
ghost use Rattle.rv_exec.specs.Logged.{Logs};
ghost use Rattle.rv_exec.specs.Going.{HasBegun, finished};

use crate::harts::Hart;
use crate::raw_logs::RawLog;
use flat_model::limits::{BLOCK_WORDS, PAGE_BYTES};
use flat_model::{Done, Ending, FaultKind, What};
use rv_alu::plus_signed;

/// Logs `Init` where a hart makes its first step.
fn log_first(no: u8, hart: &Hart, raw: &mut RawLog)
    requires room { length raw.old.events + 1 ≤ 2048 }
    ensures logged { Logs raw.old (as_events no hart.now.steps (if hart.now.steps == 1 then What.Init ∷ [] else [])) raw.new }
    ensures few { length raw.new.events ≤ length raw.old.events + 1 }
{
    if hart.steps == 1 {
        raw.log(no, hart.steps, What::Init);
    }
}

/// Counts the block that the hart's step starts, and logs it.
#[inline(never)]
fn start_block(no: u8, hart: &mut Hart, n: u32, raw: &mut RawLog)
    requires counted { hart.old.blocks < hart.old.steps }
    requires room { length raw.old.events + 2 ≤ 2048 }
    ensures counted { hart.new ≡ record hart.old { blocks = hart.old.blocks + 1 } }
    ensures logged { Logs raw.old (as_events no hart.old.steps
        ((if hart.old.steps == 1 then What.Init ∷ [] else []) ++ What.Block hart.old.pc n ∷ [])) raw.new }
    ensures few { length raw.new.events ≤ length raw.old.events + 2 }
{
    log_first(no, hart, raw);
    hart.blocks += 1;
    raw.log(no, hart.steps, What::Block { pc: hart.pc, n });
}

/// Counts a step at a present word, and the block where it starts one.
#[inline(always)]
fn count(no: u8, hart: &mut Hart, n: u32, raw: &mut RawLog)
    requires steps { hart.old.steps + 1 < 2 ^ 64 }
    requires running { hart.old.ending ≡ None }
    requires room { length raw.old.events + 2 ≤ 2048 }
    ensures begun { hart.new ≡ begun hart.old true }
    ensures ready { HasBegun hart.new }
    ensures logged { Logs raw.old (as_events no (hart.old.steps + 1) (first_told hart.old ++
        (if starts_block hart.old then What.Block hart.old.pc n ∷ [] else []))) raw.new }
    ensures few { length raw.new.events ≤ length raw.old.events + 2 }
    ensures fewer { starts_block hart.old ≡ false → length raw.new.events ≤ length raw.old.events }
{
    hart.steps += 1;
    if hart.since == 0 {
        start_block(no, hart, n, raw);
    }
}

/// Begins a step at the word, with `Init`, `Block` and `Insn` where they are due.
#[inline(always)]
pub(crate) fn begin(no: u8, hart: &mut Hart, word: u32, n: u32, raw: &mut RawLog)
    requires steps { hart.old.steps + 1 < 2 ^ 64 }
    requires running { hart.old.ending ≡ None }
    requires room { length raw.old.events + 3 ≤ 2048 }
    ensures begun { hart.new ≡ begun hart.old true }
    ensures ready { HasBegun hart.new }
    ensures logged { Logs raw.old (as_events no (hart.old.steps + 1) (start_told hart.old (Some word) n)) raw.new }
    ensures few { length raw.new.events ≤ length raw.old.events + 3 }
    ensures fewer { starts_block hart.old ≡ false → length raw.new.events ≤ length raw.old.events + 1 }
    ensures pc { hart.new.pc < 2 ^ 64 }
    ensures aligned { hart.new.pc % 4 ≡ 0 }
{
    count(no, hart, n, raw);
    raw.log(no, hart.steps, What::Insn { pc: hart.pc, word });
}

/// Begins a step where no word is, with `Init` where it is due.
pub(crate) fn begin_absent(no: u8, hart: &mut Hart, raw: &mut RawLog)
    requires steps { hart.old.steps + 1 < 2 ^ 64 }
    requires room { length raw.old.events + 1 ≤ 2048 }
    ensures begun { hart.new ≡ begun hart.old false }
    ensures logged { Logs raw.old (as_events no (hart.old.steps + 1) (first_told hart.old)) raw.new }
    ensures few { length raw.new.events ≤ length raw.old.events + 1 }
{
    hart.steps += 1;
    log_first(no, hart, raw);
}

/// Ends a hart by a fault.
#[inline(never)]
pub(crate) fn fail(no: u8, hart: &mut Hart, kind: FaultKind, raw: &mut RawLog)
    requires room { length raw.old.events + 1 ≤ 2048 }
    ensures failed { hart.new ≡ record hart.old { ending = Some (Ending.Fault kind hart.old.pc) } }
    ensures logged { Logs raw.old (as_events no hart.old.steps (exit_told hart.new.ending)) raw.new }
{
    let ending = Ending::Fault { kind, pc: hart.pc };
    hart.ending = Some(ending);
    raw.log(no, hart.steps, What::Exit { ending });
}

/// Ends a hart by a service.
pub(crate) fn leave(no: u8, hart: &mut Hart, ending: Ending, raw: &mut RawLog)
    requires room { length raw.old.events + 1 ≤ 2048 }
    ensures left { hart.new ≡ record hart.old { pc = following hart.old; since = 0; ending = Some ending } }
    ensures logged { Logs raw.old (as_events no hart.old.steps (exit_told hart.new.ending)) raw.new }
{
    hart.pc = hart.pc.wrapping_add(4);
    hart.since = 0;
    hart.ending = Some(ending);
    raw.log(no, hart.steps, What::Exit { ending });
}

/// Ends a hart that has made all the steps of its limit.
#[inline(never)]
fn stop(no: u8, hart: &mut Hart, raw: &mut RawLog)
    requires room { length raw.old.events + 1 ≤ 2048 }
    ensures stopped { hart.new ≡ record hart.old { ending = Some Ending.Limit } }
    ensures logged { Logs raw.old (as_events no hart.old.steps (What.Exit Ending.Limit ∷ [])) raw.new }
{
    let ending = Ending::Limit;
    hart.ending = Some(ending);
    raw.log(no, hart.steps, What::Exit { ending });
}

/// The steps since the last block start once the hart has gone on to `target` behind a word that ends a block,
/// or doesn't; 0 where the next step starts a block.
#[inline(always)]
fn since_after(since: u16, ends: bool, target: u64) -> u16
    requires since { since < 512 }
    ensures since { result ≡ since_after since ends target }
    ensures small { result < 512 }
    ensures counted { result ≤ since + 1 }
{
    if ends || target % PAGE_BYTES == 0 || since + 1 == BLOCK_WORDS as u16 {
        0
    } else {
        since + 1
    }
}

/// Goes on at `target` with `value` in `rd`, behind a word that ends a block, or doesn't. The hart ends where its limit
/// is reached.
#[inline(always)]
pub(crate) fn go_on(
    no: u8,
    hart: &mut Hart,
    ends: bool,
    rd: u8,
    value: u64,
    target: u64,
    limit: u64,
    raw: &mut RawLog,
)
    requires begun { HasBegun hart.old }
    requires rd { rd < 32 }
    requires aligned { target % 4 ≡ 0 }
    requires room { length raw.old.events + 1 ≤ 2048 }
    ensures gone { hart.new ≡ finished limit hart.old ends (Done.Goes rd value target) }
    ensures logged { Logs raw.old (as_events no hart.old.steps (exit_told hart.new.ending)) raw.new }
{
    if rd != 0 {
        hart.x[rd as usize] = value;
    }
    hart.since = since_after(hart.since, ends, target);
    hart.pc = target;
    if hart.steps == limit {
        stop(no, hart, raw);
    }
}

/// Goes on behind the instruction, which ends no block, with `value` in `rd`.
#[inline(always)]
pub(crate) fn give(no: u8, hart: &mut Hart, rd: u8, value: u64, limit: u64, raw: &mut RawLog)
    requires begun { HasBegun hart.old }
    requires rd { rd < 32 }
    requires room { length raw.old.events + 1 ≤ 2048 }
    ensures gone { hart.new ≡ finished limit hart.old false (gives hart.old rd value) }
    ensures logged { Logs raw.old (as_events no hart.old.steps (exit_told hart.new.ending)) raw.new }
{
    let target = hart.pc.wrapping_add(4);
    go_on(no, hart, false, rd, value, target, limit, raw);
}

/// Goes on at `target`, which has to be a multiple of 4, with `value` in `rd`.
#[inline(always)]
pub(crate) fn jump(
    no: u8,
    hart: &mut Hart,
    rd: u8,
    value: u64,
    target: u64,
    limit: u64,
    raw: &mut RawLog,
)
    requires begun { HasBegun hart.old }
    requires rd { rd < 32 }
    requires room { length raw.old.events + 1 ≤ 2048 }
    ensures gone { hart.new ≡ finished limit hart.old true (jumps rd value target) }
    ensures logged { Logs raw.old (as_events no hart.old.steps (exit_told hart.new.ending)) raw.new }
{
    if target % 4 == 0 {
        go_on(no, hart, true, rd, value, target, limit, raw);
    } else {
        fail(no, hart, FaultKind::MisalignedJump, raw);
    }
}

/// Goes on `off` bytes away where the branch is taken, else behind it.
#[inline(always)]
pub(crate) fn branch(no: u8, hart: &mut Hart, taken: bool, off: i32, limit: u64, raw: &mut RawLog)
    requires begun { HasBegun hart.old }
    requires room { length raw.old.events + 1 ≤ 2048 }
    ensures gone { hart.new ≡ finished limit hart.old true (branches hart.old taken off) }
    ensures logged { Logs raw.old (as_events no hart.old.steps (exit_told hart.new.ending)) raw.new }
{
    let pc = hart.pc;
    if taken {
        jump(no, hart, 0, 0, plus_signed(pc, off), limit, raw);
    } else {
        go_on(no, hart, true, 0, 0, pc.wrapping_add(4), limit, raw);
    }
}
