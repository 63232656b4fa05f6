//! How wide the accesses of loads and atomics are: an access of shift `s` has 2^s bytes.

ghost use Rattle.std.specs.Prelude.{◌≡◌, ◌≤◌};
ghost use Rattle.flat_model.specs.Arithmetic.{atomic_shift, load_shift, load_signed, low_bytes};

use flat_model::LoadOp;

/// The shift of a load: it reads 2^shift bytes (section 5.3).
#[inline(always)]
pub fn load_shift(op: LoadOp) -> u8
    ensures shift { result ≡ load_shift op }
    ensures small { result ≤ 3 }
{
    match op {
        LoadOp::Lb | LoadOp::Lbu => 0,
        LoadOp::Lh | LoadOp::Lhu => 1,
        LoadOp::Lw | LoadOp::Lwu => 2,
        LoadOp::Ld => 3,
    }
}

/// Whether a load sign-extends what it reads. LD, which fills its register, is counted as unsigned.
#[inline(always)]
pub fn load_signed(op: LoadOp) -> bool
    ensures signed { result ≡ load_signed op }
{
    matches!(op, LoadOp::Lb | LoadOp::Lh | LoadOp::Lw)
}

/// The shift of an atomic: 3 for the D forms, which are `wide`, and 2 for the W forms (chapter 8).
#[inline(always)]
pub fn atomic_shift(wide: bool) -> u8
    ensures shift { result ≡ atomic_shift wide }
    ensures small { result ≤ 3 }
{
    if wide { 3 } else { 2 }
}

/// The low 2^shift bytes of a register, as a store writes them (section 5.3).
#[inline(always)]
pub fn low_bytes(value: u64, shift: u8) -> u64
    requires small { shift ≤ 3 }
    ensures low { result ≡ low_bytes shift value }
{
    match shift {
        0 => value % 0x100,
        1 => value % 0x1_0000,
        2 => value % 0x1_0000_0000,
        _ => value,
    }
}
