//! What the instructions that touch nothing shared do to their hart (RISC-V Unprivileged ISA 20191213, chapters RV32I,
//! RV64I, Zifencei and M).

ghost use Rattle.std.specs.Prelude.{◌≡◌, ◌<◌, ◌≤◌, ◌+◌, true, not, length};
ghost use Rattle.flat_model.specs.Effect.{address, without_bit_0, effect_of, touches_shared};
ghost use Rattle.flat_model.specs.Instruction.{ends_block};
ghost use Rattle.rv_exec.specs.Going.{HasRegisters, HasBegun, EndsAlone};

use crate::endings::{branch, fail, give, jump};
use crate::harts::Hart;
use crate::raw_logs::RawLog;
use flat_model::{FaultKind, Ins};
use rv_alu::{branch_taken, imm_result, plus_signed, reg_result, word_extended};

/// The address of an access: a register and a signed offset.
#[inline(always)]
pub(crate) fn address(hart: &Hart, rs1: u8, off: i32) -> u64
    requires rs1 { rs1 < 32 }
    ensures address { result ≡ address hart.now rs1 off }
{
    plus_signed(hart.register(rs1), off)
}

/// The target of JALR: bit 0 is cleared.
#[inline(always)]
fn without_bit_0(target: u64) -> u64
    ensures target { result ≡ without_bit_0 target }
{
    target - target % 2
}

/// Carries out an instruction that touches nothing shared, up to the end of its step. Answers false and does nothing
/// at another one.
#[inline(always)]
pub(crate) fn alone(no: u8, hart: &mut Hart, ins: &Ins, limit: u64, raw: &mut RawLog) -> bool
    requires registers { HasRegisters ins.now }
    requires begun { HasBegun hart.old }
    requires room { length raw.old.events + 1 ≤ 2048 }
    ensures did { result ≡ not (touches_shared ins.now) }
    ensures ended { result ≡ true → EndsAlone (effect_of hart.old ins.now) limit no (ends_block ins.now) hart.old hart.new raw.old raw.new }
{
    let pc = hart.pc;
    let next = pc.wrapping_add(4);
    match ins {
        Ins::Lui { rd, top } => {
            let value = word_extended(u64::from(*top) * 4096);
            give(no, hart, *rd, value, limit, raw);
            true
        }
        Ins::Auipc { rd, top } => {
            let value = pc.wrapping_add(word_extended(u64::from(*top) * 4096));
            give(no, hart, *rd, value, limit, raw);
            true
        }
        Ins::Jal { rd, off } => {
            jump(no, hart, *rd, next, plus_signed(pc, *off), limit, raw);
            true
        }
        Ins::Jalr { rd, rs1, off } => {
            let target = without_bit_0(address(hart, *rs1, *off));
            jump(no, hart, *rd, next, target, limit, raw);
            true
        }
        Ins::Branch { op, rs1, rs2, off } => {
            let taken = branch_taken(*op, hart.register(*rs1), hart.register(*rs2));
            branch(no, hart, taken, *off, limit, raw);
            true
        }
        Ins::Imm { op, rd, rs1, imm } => {
            let value = imm_result(*op, hart.register(*rs1), *imm);
            give(no, hart, *rd, value, limit, raw);
            true
        }
        Ins::Reg { op, rd, rs1, rs2 } => {
            let value = reg_result(*op, hart.register(*rs1), hart.register(*rs2));
            give(no, hart, *rd, value, limit, raw);
            true
        }
        Ins::Fence { .. } | Ins::FenceI { .. } => {
            give(no, hart, 0, 0, limit, raw);
            true
        }
        Ins::Ebreak => {
            fail(no, hart, FaultKind::Break, raw);
            true
        }
        Ins::Load { .. } | Ins::Store { .. } | Ins::Atomic { .. } | Ins::Ecall => false,
    }
}
