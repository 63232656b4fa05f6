//! What a load leaves in its register.

ghost use Rattle.std.specs.Prelude.{◌≡◌};
ghost use Rattle.std.specs.Int.{w8, w16};
ghost use Rattle.flat_model.specs.Arithmetic.{load_result, sign_extended};

use crate::words::word_extended;
use flat_model::LoadOp;

/// The low 8 bits, sign-extended to 64.
#[inline(always)]
fn byte_extended(v: u64) -> u64
    ensures extended { result ≡ sign_extended w8 v }
{
    let byte = (v % 0x100) as u8;
    i64::from(byte.cast_signed()).cast_unsigned()
}

/// The low 16 bits, sign-extended to 64.
#[inline(always)]
fn half_extended(v: u64) -> u64
    ensures extended { result ≡ sign_extended w16 v }
{
    let half = (v % 0x1_0000) as u16;
    i64::from(half.cast_signed()).cast_unsigned()
}

/// What a load makes of the number `raw` that its bytes give, the first the lowest (section 5.3).
#[inline(always)]
pub fn load_result(op: LoadOp, raw: u64) -> u64
    ensures loaded { result ≡ load_result op raw }
{
    match op {
        LoadOp::Lb => byte_extended(raw),
        LoadOp::Lh => half_extended(raw),
        LoadOp::Lw => word_extended(raw),
        LoadOp::Ld | LoadOp::Lbu | LoadOp::Lhu | LoadOp::Lwu => raw,
    }
}
