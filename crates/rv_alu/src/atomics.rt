//! What the atomics compute (chapter 8). A D form, which is `wide`, works on 64 bits, and a W form on 32.

ghost use Rattle.std.specs.Prelude.{◌≡◌, ◌+◌, ◌%◌, ◌^◌, ◌<◌, false, int_lt};
ghost use Rattle.std.specs.Int.{cast_signed};
ghost use mir.Val.{bits};
ghost use Rattle.flat_model.specs.Arithmetic.{amo_result, atomic_bits, atomic_result, atomic_width};

use crate::words::{low_word, word_extended};
use flat_model::AtomicOp;

/// What LR and the AMOs leave in rd, for the number `raw` that the bytes in memory give (sections 8.2 and 8.4).
#[inline(always)]
pub fn atomic_result(wide: bool, raw: u64) -> u64
    ensures result { result ≡ atomic_result wide raw }
{
    if wide { raw } else { word_extended(raw) }
}

/// The sum in the atomic's width.
#[inline(always)]
fn sum(wide: bool, a: u64, b: u64) -> u64
    ensures sum { result ≡ (a + b) % 2 ^ bits (atomic_width wide) }
{
    if wide {
        a.wrapping_add(b)
    } else {
        u64::from(low_word(a.wrapping_add(b)))
    }
}

/// Whether `a` is less than `b`, both signed numbers of the atomic's width.
#[inline(always)]
fn less_signed(wide: bool, a: u64, b: u64) -> bool
    requires a { wide ≡ false → a < 2 ^ 32 }
    requires b { wide ≡ false → b < 2 ^ 32 }
    ensures less { result ≡ int_lt (cast_signed (atomic_width wide) a) (cast_signed (atomic_width wide) b) }
{
    if wide {
        a.cast_signed() < b.cast_signed()
    } else {
        low_word(a).cast_signed() < low_word(b).cast_signed()
    }
}

/// The bits that the atomic works on.
#[inline(always)]
fn atomic_bits(wide: bool, v: u64) -> u64
    ensures bits { result ≡ atomic_bits wide v }
    ensures small { wide ≡ false → result < 2 ^ 32 }
{
    if wide { v } else { u64::from(low_word(v)) }
}

/// What an AMO writes, for the number `a` that it finds in memory and the number `b` in rs2 (section 8.4).
/// AMOSWAP writes `b`; so it does for LR and SC, which are no AMOs.
#[inline(always)]
pub fn amo_result(op: AtomicOp, wide: bool, a: u64, b: u64) -> u64
    ensures written { result ≡ amo_result op wide a b }
{
    let a = atomic_bits(wide, a);
    let b = atomic_bits(wide, b);
    match op {
        AtomicOp::Add => sum(wide, a, b),
        AtomicOp::Xor => a ^ b,
        AtomicOp::And => a & b,
        AtomicOp::Or => a | b,
        AtomicOp::Min => if less_signed(wide, a, b) { a } else { b },
        AtomicOp::Max => if less_signed(wide, a, b) { b } else { a },
        AtomicOp::Minu => a.min(b),
        AtomicOp::Maxu => a.max(b),
        AtomicOp::Swap | AtomicOp::Lr | AtomicOp::Sc => b,
    }
}
