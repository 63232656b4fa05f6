//! An instruction's text, and a word's line.

ghost use Rattle.std.specs.Prelude.{◌≡◌, ◌++◌, ◌≤◌, OnOk, OnErr, codes};
ghost use Rattle.flat_model.specs.Texts.{hex};
ghost use Rattle.rv_text.specs.Line.{text_of, head_of, atomic_head, operands_of, raw_text, word_text, line_of, Extends};

use crate::names::{
    atomic_name, branch_name, imm_name, load_name, order_suffix, reg_name, store_name, width_suffix,
};
use crate::operands::{
    put_atomic, put_fence, put_memory, put_offset, put_registers, put_top, put_with_number,
};
use flat_model::{AtomicOp, Ins, NoMemory};
use number_text::{put_hex, put_text};
use rv_decode::decode;

/// Puts the last `len` hexadecimal digits of `n` at the end of `out`, at most 16, in lower case and with leading zeros.
/// Where memory runs out, `out` is as it was.
pub fn hex(n: u64, len: u32, out: &mut Vec<u8>) -> Result<(), NoMemory>
    requires few { len ≤ 16 }
    ensures ok { OnOk result (out.new.items ≡ out.old.items ++ hex len n) }
    ensures err { OnErr result (out.new.items ≡ out.old.items) }
{
    put_hex(out, n, len)
}

/// Puts the line of the word at `pc` at the end of `out`: the address, the word and its instruction's text.
pub fn line(pc: u64, word: u32, out: &mut Vec<u8>) -> Result<(), NoMemory>
    ensures ok { OnOk result (out.new.items ≡ out.old.items ++ line_of pc word) }
    ensures err { OnErr result (out.new.items ≡ out.old.items) }
{
    let before = out.len();
    let written = put_line(out, pc, word);
    if written.is_err() {
        out.truncate(before);
    }
    written
}

#[tactic(auto, unfolding(crate::specs::Line::line_of))]
fn put_line(out: &mut Vec<u8>, pc: u64, word: u32) -> Result<(), NoMemory>
    ensures ok { OnOk result (out.new.items ≡ out.old.items ++ line_of pc word) }
    ensures err { OnErr result (Extends out.old.items out.new.items) }
{
    put_hex(out, pc, 16)?;
    put_text(out, " ")?;
    put_hex(out, u64::from(word), 8)?;
    put_text(out, " ")?;
    put_word(out, word)?;
    put_text(out, "\n")
}

fn put_word(out: &mut Vec<u8>, word: u32) -> Result<(), NoMemory>
    ensures ok { OnOk result (out.new.items ≡ out.old.items ++ word_text word) }
    ensures err { OnErr result (Extends out.old.items out.new.items) }
{
    match decode(word) {
        Some(ins) => put_instruction(out, &ins),
        None => put_raw(out, word),
    }
}

/// The text of a word outside the table.
fn put_raw(out: &mut Vec<u8>, word: u32) -> Result<(), NoMemory>
    ensures ok { OnOk result (out.new.items ≡ out.old.items ++ raw_text word) }
    ensures err { OnErr result (Extends out.old.items out.new.items) }
{
    put_text(out, ".word 0x")?;
    put_hex(out, u64::from(word), 8)
}

/// Puts a name and a space.
fn put_name(out: &mut Vec<u8>, name: &str) -> Result<(), NoMemory>
    ensures ok { OnOk result (out.new.items ≡ out.old.items ++ (name.now ++ codes " ")) }
    ensures err { OnErr result (Extends out.old.items out.new.items) }
{
    put_text(out, name)?;
    put_text(out, " ")
}

/// The text of an instruction of the table.
fn put_instruction(out: &mut Vec<u8>, ins: &Ins) -> Result<(), NoMemory>
    ensures ok { OnOk result (out.new.items ≡ out.old.items ++ text_of ins.now) }
    ensures err { OnErr result (Extends out.old.items out.new.items) }
{
    put_head(out, ins)?;
    put_operands(out, ins)
}

/// The name with its suffixes and, where operands follow, a space.
fn put_head(out: &mut Vec<u8>, ins: &Ins) -> Result<(), NoMemory>
    ensures ok { OnOk result (out.new.items ≡ out.old.items ++ head_of ins.now) }
    ensures err { OnErr result (Extends out.old.items out.new.items) }
{
    match *ins {
        Ins::Lui { .. } => put_text(out, "lui "),
        Ins::Auipc { .. } => put_text(out, "auipc "),
        Ins::Jal { .. } => put_text(out, "jal "),
        Ins::Jalr { .. } => put_text(out, "jalr "),
        Ins::Branch { op, .. } => put_name(out, branch_name(op)),
        Ins::Load { op, .. } => put_name(out, load_name(op)),
        Ins::Store { op, .. } => put_name(out, store_name(op)),
        Ins::Imm { op, .. } => put_name(out, imm_name(op)),
        Ins::Reg { op, .. } => put_name(out, reg_name(op)),
        Ins::Atomic {
            op,
            wide,
            aq,
            rl,
            ..
        } => put_atomic_name(out, op, wide, aq, rl),
        Ins::Fence { .. } => put_text(out, "fence "),
        Ins::FenceI { .. } => put_text(out, "fence.i"),
        Ins::Ecall => put_text(out, "ecall"),
        Ins::Ebreak => put_text(out, "ebreak"),
    }
}

fn put_atomic_name(
    out: &mut Vec<u8>,
    op: AtomicOp,
    wide: bool,
    aq: bool,
    rl: bool,
) -> Result<(), NoMemory>
    ensures ok { OnOk result (out.new.items ≡ out.old.items ++ atomic_head op wide aq rl) }
    ensures err { OnErr result (Extends out.old.items out.new.items) }
{
    put_text(out, atomic_name(op))?;
    put_text(out, width_suffix(wide))?;
    put_name(out, order_suffix(aq, rl))
}

fn put_operands(out: &mut Vec<u8>, ins: &Ins) -> Result<(), NoMemory>
    ensures ok { OnOk result (out.new.items ≡ out.old.items ++ operands_of ins.now) }
    ensures err { OnErr result (Extends out.old.items out.new.items) }
{
    match *ins {
        Ins::Lui { rd, top } | Ins::Auipc { rd, top } => put_top(out, rd, top),
        Ins::Jal { rd, off } => put_offset(out, rd, off),
        Ins::Jalr { rd, rs1, off } => put_memory(out, rd, off, rs1),
        Ins::Load { rd, rs1, off, .. } => put_memory(out, rd, off, rs1),
        Ins::Branch { rs1, rs2, off, .. } => put_with_number(out, rs1, rs2, off),
        Ins::Store { rs1, rs2, off, .. } => put_memory(out, rs2, off, rs1),
        Ins::Imm { rd, rs1, imm, .. } => put_with_number(out, rd, rs1, imm),
        Ins::Reg { rd, rs1, rs2, .. } => put_registers(out, rd, rs1, rs2),
        Ins::Atomic {
            op,
            rd,
            rs1,
            rs2,
            ..
        } => put_atomic(out, op, rd, rs1, rs2),
        Ins::Fence { pred, succ, .. } => put_fence(out, pred, succ),
        Ins::FenceI { .. } | Ins::Ecall | Ins::Ebreak => Ok(()),
    }
}
