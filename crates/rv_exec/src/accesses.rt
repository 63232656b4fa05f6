//! Loads and stores (RISC-V Unprivileged ISA 20191213, 2.6 and 5.3).

ghost use Rattle.std.specs.Prelude.{◌≡◌, ◌<◌, ◌≤◌, ◌+◌, length};
ghost use Rattle.flat_model.specs.Outcome.{loads, stores, store_shift};
ghost use Rattle.guest_memory.specs.Memory.{spans_in, harts_of};
ghost use Rattle.rv_exec.specs.Going.{HasBegun, EndsAccess};
ghost use Rattle.rv_exec.specs.Sharing.{shared_of, KeepsLayout};

use crate::endings::{fail, give};
use crate::harts::Hart;
use crate::raw_logs::RawLog;
use flat_model::limits::{READS, WRITES};
use flat_model::{FaultKind, LoadOp, StoreOp, What};
use guest_memory::{Memory, Near};
use rv_alu::{load_result, load_shift, load_signed, low_bytes};

/// Carries out a load up to the end of its step.
#[inline(always)]
pub(crate) fn load(
    no: u8,
    hart: &mut Hart,
    memory: &Memory,
    op: LoadOp,
    rd: u8,
    addr: u64,
    limit: u64,
    near: &mut Near,
    raw: &mut RawLog,
)
    requires begun { HasBegun hart.old }
    requires rd { rd < 32 }
    requires room { length raw.old.events + 2 ≤ 2048 }
    ensures ended { EndsAccess (λ services. loads (spans_in memory.now) hart.old
        (shared_of memory.now services) op rd addr) limit no hart.old hart.new memory.now raw.old raw.new }
{
    let shift = load_shift(op);
    match memory.read_near(near, addr, shift) {
        Ok(found) => {
            raw.log(
                no,
                hart.steps,
                What::Mem {
                    pc: hart.pc,
                    addr,
                    shift,
                    signed: load_signed(op),
                    rw: READS,
                    read: found,
                    written: 0,
                },
            );
            give(no, hart, rd, load_result(op, found), limit, raw);
        }
        Err(_) => fail(no, hart, FaultKind::Load, raw),
    }
}

/// The bytes of a store's access, as a power of 2.
#[inline(always)]
fn store_shift(op: StoreOp) -> u8
    ensures shift { result ≡ store_shift op }
    ensures small { result ≤ 3 }
{
    match op {
        StoreOp::Sb => 0,
        StoreOp::Sh => 1,
        StoreOp::Sw => 2,
        StoreOp::Sd => 3,
    }
}

/// Carries out a store up to the end of its step.
#[inline(always)]
pub(crate) fn store(
    no: u8,
    hart: &mut Hart,
    memory: &mut Memory,
    op: StoreOp,
    addr: u64,
    value: u64,
    limit: u64,
    near: &mut Near,
    raw: &mut RawLog,
)
    requires begun { HasBegun hart.old }
    requires no { no < harts_of memory.old }
    requires room { length raw.old.events + 2 ≤ 2048 }
    ensures ended { EndsAccess (λ services. stores (spans_in memory.old) no hart.old
        (shared_of memory.old services) op addr value) limit no hart.old hart.new memory.new raw.old raw.new }
    ensures layout { KeepsLayout memory.old memory.new }
{
    let shift = store_shift(op);
    match memory.write_near(near, no, addr, shift, value) {
        Ok(()) => {
            raw.log(
                no,
                hart.steps,
                What::Mem {
                    pc: hart.pc,
                    addr,
                    shift,
                    signed: false,
                    rw: WRITES,
                    read: 0,
                    written: low_bytes(value, shift),
                },
            );
            give(no, hart, 0, 0, limit, raw);
        }
        Err(_) => fail(no, hart, FaultKind::Store, raw),
    }
}
