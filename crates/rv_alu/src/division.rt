//! Quotients and remainders of registers and of words (section 7.2). No division traps: by 0 the quotient is all
//! ones and the remainder is the dividend.

ghost use Rattle.std.specs.Prelude.{◌≡◌};
ghost use Rattle.std.specs.Int.{w32, w64};
ghost use Rattle.flat_model.specs.Arithmetic.{quotient, quotient_unsigned, remainder, remainder_unsigned};

/// DIV: the signed quotient, rounded towards zero. -2^63 by -1 gives -2^63.
#[inline(always)]
pub(crate) fn quotient(a: u64, b: u64) -> u64
    ensures quotient { result ≡ quotient w64 a b }
{
    if b == 0 {
        u64::MAX
    } else {
        a.cast_signed()
            .wrapping_div(b.cast_signed())
            .cast_unsigned()
    }
}

/// REM: the remainder of the signed division, with the sign of `a`. -2^63 by -1 gives 0.
#[inline(always)]
pub(crate) fn remainder(a: u64, b: u64) -> u64
    ensures remainder { result ≡ remainder w64 a b }
{
    if b == 0 {
        a
    } else {
        a.cast_signed()
            .wrapping_rem(b.cast_signed())
            .cast_unsigned()
    }
}

/// DIVU: the unsigned quotient.
#[inline(always)]
pub(crate) fn quotient_unsigned(a: u64, b: u64) -> u64
    ensures quotient { result ≡ quotient_unsigned w64 a b }
{
    if b == 0 { u64::MAX } else { a / b }
}

/// REMU: the remainder of the unsigned division.
#[inline(always)]
pub(crate) fn remainder_unsigned(a: u64, b: u64) -> u64
    ensures remainder { result ≡ remainder_unsigned a b }
{
    if b == 0 { a } else { a % b }
}

/// The quotient of DIVW: signed, rounded towards zero. -2^31 by -1 gives -2^31.
#[inline(always)]
pub(crate) fn word_quotient(a: u32, b: u32) -> u32
    ensures quotient { result ≡ quotient w32 a b }
{
    if b == 0 {
        u32::MAX
    } else {
        a.cast_signed()
            .wrapping_div(b.cast_signed())
            .cast_unsigned()
    }
}

/// The remainder of REMW, with the sign of `a`. -2^31 by -1 gives 0.
#[inline(always)]
pub(crate) fn word_remainder(a: u32, b: u32) -> u32
    ensures remainder { result ≡ remainder w32 a b }
{
    if b == 0 {
        a
    } else {
        a.cast_signed()
            .wrapping_rem(b.cast_signed())
            .cast_unsigned()
    }
}

/// The quotient of DIVUW.
#[inline(always)]
pub(crate) fn word_quotient_unsigned(a: u32, b: u32) -> u32
    ensures quotient { result ≡ quotient_unsigned w32 a b }
{
    if b == 0 { u32::MAX } else { a / b }
}

/// The remainder of REMUW.
#[inline(always)]
pub(crate) fn word_remainder_unsigned(a: u32, b: u32) -> u32
    ensures remainder { result ≡ remainder_unsigned a b }
{
    if b == 0 { a } else { a % b }
}
