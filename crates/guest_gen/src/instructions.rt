//! The instructions of a program.

ghost use Rattle.std.specs.Prelude.{◌≡◌, ◌++◌, ◌≤◌, true, false, pos, OnOk, IfOk};
ghost use Rattle.guest_gen.specs.Instructions.{start, section, sections, arrival, last_hart, every_hart, instructions};

use flat_model::{AtomicOp, BranchOp, ImmOp, Ins, NoMemory, RegOp};
use std::alloc::Global;

/// The register that is always 0.
const ZERO: u8 = 0;

/// Adds a number to a register.
fn addi(rd: u8, rs1: u8, imm: i32) -> Ins
    ensures { result ≡ Ins.Imm ImmOp.Addi rd rs1 imm }
{
    Ins::Imm {
        op: ImmOp::Addi,
        rd,
        rs1,
        imm,
    }
}

/// Adds a register to the 8 bytes at the address in another, and gives what was there.
fn amoadd(rd: u8, rs1: u8, rs2: u8) -> Ins
    ensures { result ≡ Ins.Atomic AtomicOp.Add true false false rd rs1 rs2 }
{
    Ins::Atomic {
        op: AtomicOp::Add,
        wide: true,
        aq: false,
        rl: false,
        rd,
        rs1,
        rs2,
    }
}

/// Goes on with the next instruction, in a new block.
fn jump_on() -> Ins
    ensures { result ≡ Ins.Jal 0 (pos 4) }
{
    Ins::Jal { rd: ZERO, off: 4 }
}

fn start() -> [Ins; 4]
    ensures { result ≡ start }
{
    [
        Ins::Lui {
            rd: 8,
            top: 0x20000,
        },
        addi(6, 10, 1),
        addi(9, 11, 0),
        jump_on(),
    ]
}

fn section(i: u32) -> [Ins; 4]
    ensures { result ≡ section i }
{
    [
        addi(5, ZERO, (i % 2048) as i32),
        Ins::Reg {
            op: RegOp::Mul,
            rd: 5,
            rs1: 5,
            rs2: 6,
        },
        amoadd(ZERO, 8, 5),
        jump_on(),
    ]
}

fn arrival() -> [Ins; 5]
    ensures { result ≡ arrival }
{
    [
        addi(5, ZERO, 1),
        addi(7, 8, 8),
        amoadd(28, 7, 5),
        addi(9, 9, -1),
        Ins::Branch {
            op: BranchOp::Bne,
            rs1: 28,
            rs2: 9,
            off: 24,
        },
    ]
}

fn last_hart() -> [Ins; 5]
    ensures { result ≡ last_hart }
{
    [
        addi(10, ZERO, 1),
        addi(11, 8, 0),
        addi(12, ZERO, 8),
        addi(17, ZERO, 64),
        Ins::Ecall,
    ]
}

fn every_hart() -> [Ins; 3]
    ensures { result ≡ every_hart }
{
    [addi(10, ZERO, 0), addi(17, ZERO, 93), Ins::Ecall]
}

/// The sections from 1 to n.
fn put_sections(code: &mut Vec<Ins>, n: u32) -> Result<(), NoMemory>
    requires { n ≤ 100000 }
    ensures { OnOk result (code.new.items ≡ code.old.items ++ sections 1 n) }
{
    for i in 0..n {
        code.extend_from_slice(&section(i + 1))?;
    }
    Ok(())
}

/// All instructions of the program of `n`.
#[tactic(auto, unfolding(crate::specs::Instructions::instructions))]
pub(crate) fn instructions(alloc: Global, n: u32) -> Result<Vec<Ins>, NoMemory>
    requires { n ≤ 100000 }
    ensures { IfOk result (λ code. code.items ≡ instructions n) }
{
    let mut code = Vec::new(alloc);
    code.extend_from_slice(&start())?;
    put_sections(&mut code, n)?;
    code.extend_from_slice(&arrival())?;
    code.extend_from_slice(&last_hart())?;
    code.extend_from_slice(&every_hart())?;
    Ok(code)
}
