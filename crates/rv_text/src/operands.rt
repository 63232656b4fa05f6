//! Operands as text, put at the end of a line.

ghost use Rattle.std.specs.Prelude.{◌≡◌, ◌++◌, ◌<◌, OnOk, OnErr};
ghost use Rattle.rv_text.specs.Line.{register, top_operands, offset_operands, memory_operands, number_operands, register_operands};
ghost use Rattle.rv_text.specs.Line.{address_operands, source_operands, atomic_operands, fence_operands, Extends};

use flat_model::{AtomicOp, NoMemory};
use number_text::{put_decimal, put_short_hex, put_signed, put_text};

/// The name of a register.
fn put_register(out: &mut Vec<u8>, n: u8) -> Result<(), NoMemory>
    ensures ok { OnOk result (out.new.items ≡ out.old.items ++ register n) }
    ensures err { OnErr result (Extends out.old.items out.new.items) }
{
    put_text(out, "x")?;
    put_decimal(out, u64::from(n))
}

pub(crate) fn put_top(out: &mut Vec<u8>, rd: u8, top: u32) -> Result<(), NoMemory>
    ensures ok { OnOk result (out.new.items ≡ out.old.items ++ top_operands rd top) }
    ensures err { OnErr result (Extends out.old.items out.new.items) }
{
    put_register(out, rd)?;
    put_text(out, ", 0x")?;
    put_short_hex(out, u64::from(top))
}

pub(crate) fn put_offset(out: &mut Vec<u8>, rd: u8, off: i32) -> Result<(), NoMemory>
    ensures ok { OnOk result (out.new.items ≡ out.old.items ++ offset_operands rd off) }
    ensures err { OnErr result (Extends out.old.items out.new.items) }
{
    put_register(out, rd)?;
    put_text(out, ", ")?;
    put_signed(out, i64::from(off))
}

pub(crate) fn put_memory(
    out: &mut Vec<u8>,
    register: u8,
    off: i32,
    base: u8,
) -> Result<(), NoMemory>
    ensures ok { OnOk result (out.new.items ≡ out.old.items ++ memory_operands register off base) }
    ensures err { OnErr result (Extends out.old.items out.new.items) }
{
    put_register(out, register)?;
    put_text(out, ", ")?;
    put_signed(out, i64::from(off))?;
    put_text(out, "(")?;
    put_register(out, base)?;
    put_text(out, ")")
}

pub(crate) fn put_with_number(
    out: &mut Vec<u8>,
    first: u8,
    second: u8,
    number: i32,
) -> Result<(), NoMemory>
    ensures ok { OnOk result (out.new.items ≡ out.old.items ++ number_operands first second number) }
    ensures err { OnErr result (Extends out.old.items out.new.items) }
{
    put_register(out, first)?;
    put_text(out, ", ")?;
    put_register(out, second)?;
    put_text(out, ", ")?;
    put_signed(out, i64::from(number))
}

pub(crate) fn put_registers(out: &mut Vec<u8>, rd: u8, rs1: u8, rs2: u8) -> Result<(), NoMemory>
    ensures ok { OnOk result (out.new.items ≡ out.old.items ++ register_operands rd rs1 rs2) }
    ensures err { OnErr result (Extends out.old.items out.new.items) }
{
    put_register(out, rd)?;
    put_text(out, ", ")?;
    put_register(out, rs1)?;
    put_text(out, ", ")?;
    put_register(out, rs2)
}

pub(crate) fn put_fence(out: &mut Vec<u8>, pred: u8, succ: u8) -> Result<(), NoMemory>
    ensures ok { OnOk result (out.new.items ≡ out.old.items ++ fence_operands pred succ) }
    ensures err { OnErr result (Extends out.old.items out.new.items) }
{
    put_decimal(out, u64::from(pred))?;
    put_text(out, ", ")?;
    put_decimal(out, u64::from(succ))
}

/// The address in brackets, and before it rs2 where the operation has one.
pub(crate) fn put_atomic(
    out: &mut Vec<u8>,
    op: AtomicOp,
    rd: u8,
    rs1: u8,
    rs2: u8,
) -> Result<(), NoMemory>
    ensures ok { OnOk result (out.new.items ≡ out.old.items ++ atomic_operands op rd rs1 rs2) }
    ensures err { OnErr result (Extends out.old.items out.new.items) }
{
    match op {
        AtomicOp::Lr => put_address(out, rd, rs1),
        _ => put_source(out, rd, rs1, rs2),
    }
}

fn put_address(out: &mut Vec<u8>, rd: u8, rs1: u8) -> Result<(), NoMemory>
    ensures ok { OnOk result (out.new.items ≡ out.old.items ++ address_operands rd rs1) }
    ensures err { OnErr result (Extends out.old.items out.new.items) }
{
    put_register(out, rd)?;
    put_text(out, ", (")?;
    put_register(out, rs1)?;
    put_text(out, ")")
}

fn put_source(out: &mut Vec<u8>, rd: u8, rs1: u8, rs2: u8) -> Result<(), NoMemory>
    ensures ok { OnOk result (out.new.items ≡ out.old.items ++ source_operands rd rs1 rs2) }
    ensures err { OnErr result (Extends out.old.items out.new.items) }
{
    put_register(out, rd)?;
    put_text(out, ", ")?;
    put_register(out, rs2)?;
    put_text(out, ", (")?;
    put_register(out, rs1)?;
    put_text(out, ")")
}
