//! LR, SC and the AMOs (RISC-V Unprivileged ISA 20191213, chapter 8).

ghost use Rattle.std.specs.Prelude.{◌≡◌, ◌<◌, ◌≤◌, ◌+◌, ◌%◌, ◌==◌, length};
ghost use Rattle.flat_model.specs.Outcome.{loads_reserved, stores_conditional, modifies, operates, operates_aligned, atomic_size};
ghost use Rattle.guest_memory.specs.Memory.{spans_in, harts_of};
ghost use Rattle.rv_exec.specs.Going.{HasBegun, EndsAccess};
ghost use Rattle.rv_exec.specs.Sharing.{shared_of, KeepsLayout};

use crate::endings::{fail, give};
use crate::harts::Hart;
use crate::raw_logs::RawLog;
use flat_model::limits::{READS, READS_AND_WRITES, WRITES};
use flat_model::{AtomicOp, FaultKind, What};
use guest_memory::Memory;
use rv_alu::{amo_result, atomic_result, atomic_shift, low_bytes};

/// An LR, SC or AMO, on 8 bytes where it is wide and else on 4.
#[derive(Clone, Copy)]
pub(crate) struct Operation {
    pub op: AtomicOp,
    pub wide: bool,
    pub rd: u8,
    pub addr: u64,
    /// The value of rs2.
    pub value: u64,
}

/// Carries out LR at an aligned address up to the end of its step.
fn load_reserved(
    no: u8,
    hart: &mut Hart,
    memory: &mut Memory,
    what: Operation,
    limit: u64,
    raw: &mut RawLog,
)
    requires begun { HasBegun hart.old }
    requires no { no < harts_of memory.old }
    requires rd { what.rd < 32 }
    requires room { length raw.old.events + 2 ≤ 2048 }
    ensures ended { EndsAccess (λ services. loads_reserved (spans_in memory.old) no hart.old
        (shared_of memory.old services) what.wide what.rd what.addr) limit no hart.old hart.new memory.new raw.old raw.new }
    ensures layout { KeepsLayout memory.old memory.new }
{
    let Operation { wide, rd, addr, .. } = what;
    let shift = atomic_shift(wide);
    match memory.read(addr, shift) {
        Ok(bits) => {
            memory.reserve(no, addr);
            raw.log(
                no,
                hart.steps,
                What::Mem {
                    pc: hart.pc,
                    addr,
                    shift,
                    signed: !wide,
                    rw: READS,
                    read: bits,
                    written: 0,
                },
            );
            give(no, hart, rd, atomic_result(wide, bits), limit, raw);
        }
        Err(_) => fail(no, hart, FaultKind::Load, raw),
    }
}

/// Carries out SC at an aligned address up to the end of its step.
fn store_conditional(
    no: u8,
    hart: &mut Hart,
    memory: &mut Memory,
    what: Operation,
    limit: u64,
    raw: &mut RawLog,
)
    requires begun { HasBegun hart.old }
    requires no { no < harts_of memory.old }
    requires rd { what.rd < 32 }
    requires address { what.addr % atomic_size what.wide ≡ 0 }
    requires room { length raw.old.events + 2 ≤ 2048 }
    ensures ended { EndsAccess (λ services. stores_conditional (spans_in memory.old) no hart.old
        (shared_of memory.old services) what.wide what.rd what.addr what.value) limit no hart.old hart.new memory.new raw.old raw.new }
    ensures layout { KeepsLayout memory.old memory.new }
{
    let Operation {
        wide,
        rd,
        addr,
        value,
        ..
    } = what;
    let shift = atomic_shift(wide);
    match memory.store_conditional(no, addr, shift, value) {
        Ok(true) => {
            raw.log(
                no,
                hart.steps,
                What::Mem {
                    pc: hart.pc,
                    addr,
                    shift,
                    signed: false,
                    rw: WRITES,
                    read: 0,
                    written: low_bytes(value, shift),
                },
            );
            give(no, hart, rd, 0, limit, raw);
        }
        Ok(false) => give(no, hart, rd, 1, limit, raw),
        Err(_) => fail(no, hart, FaultKind::Store, raw),
    }
}

/// Carries out an AMO at an aligned address up to the end of its step.
fn modify(
    no: u8,
    hart: &mut Hart,
    memory: &mut Memory,
    what: Operation,
    limit: u64,
    raw: &mut RawLog,
)
    requires begun { HasBegun hart.old }
    requires no { no < harts_of memory.old }
    requires rd { what.rd < 32 }
    requires room { length raw.old.events + 2 ≤ 2048 }
    ensures ended { EndsAccess (λ services. modifies (spans_in memory.old) no hart.old
        (shared_of memory.old services) what.op what.wide what.rd what.addr what.value) limit no hart.old hart.new memory.new raw.old
        raw.new }
    ensures layout { KeepsLayout memory.old memory.new }
{
    let Operation {
        op,
        wide,
        rd,
        addr,
        value,
    } = what;
    let shift = atomic_shift(wide);
    let Ok(found) = memory.read(addr, shift) else {
        return fail(no, hart, FaultKind::Store, raw);
    };
    let new = amo_result(op, wide, found, value);
    let Ok(()) = memory.write(no, addr, shift, new) else {
        return fail(no, hart, FaultKind::Store, raw);
    };
    raw.log(
        no,
        hart.steps,
        What::Mem {
            pc: hart.pc,
            addr,
            shift,
            signed: !wide,
            rw: READS_AND_WRITES,
            read: found,
            written: new,
        },
    );
    give(no, hart, rd, atomic_result(wide, found), limit, raw);
}

/// Carries out an LR, SC or AMO at an aligned address up to the end of its step.
fn operate_aligned(
    no: u8,
    hart: &mut Hart,
    memory: &mut Memory,
    what: Operation,
    limit: u64,
    raw: &mut RawLog,
)
    requires begun { HasBegun hart.old }
    requires no { no < harts_of memory.old }
    requires rd { what.rd < 32 }
    requires address { what.addr % atomic_size what.wide ≡ 0 }
    requires room { length raw.old.events + 2 ≤ 2048 }
    ensures ended { EndsAccess (λ services. operates_aligned (spans_in memory.old) no hart.old
        (shared_of memory.old services) what.op what.wide what.rd what.addr what.value) limit no hart.old hart.new memory.new raw.old
        raw.new }
    ensures layout { KeepsLayout memory.old memory.new }
{
    match what.op {
        AtomicOp::Lr => load_reserved(no, hart, memory, what, limit, raw),
        AtomicOp::Sc => store_conditional(no, hart, memory, what, limit, raw),
        _ => modify(no, hart, memory, what, limit, raw),
    }
}

/// Whether the address is naturally aligned.
fn is_aligned(wide: bool, addr: u64) -> bool
    ensures aligned { result ≡ (addr % atomic_size wide == 0) }
{
    if wide { addr % 8 == 0 } else { addr % 4 == 0 }
}

/// Carries out an LR, SC or AMO up to the end of its step.
#[inline(never)]
pub(crate) fn operate(
    no: u8,
    hart: &mut Hart,
    memory: &mut Memory,
    what: Operation,
    limit: u64,
    raw: &mut RawLog,
)
    requires begun { HasBegun hart.old }
    requires no { no < harts_of memory.old }
    requires rd { what.rd < 32 }
    requires room { length raw.old.events + 2 ≤ 2048 }
    ensures ended { EndsAccess (λ services. operates (spans_in memory.old) no hart.old
        (shared_of memory.old services) what.op what.wide what.rd what.addr what.value) limit no hart.old hart.new memory.new raw.old
        raw.new }
    ensures layout { KeepsLayout memory.old memory.new }
{
    if !is_aligned(what.wide, what.addr) {
        return fail(no, hart, FaultKind::MisalignedAtomic, raw);
    }
    operate_aligned(no, hart, memory, what, limit, raw);
}
