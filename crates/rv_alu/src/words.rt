//! Sums with signed offsets, and 32-bit words in 64-bit registers.

ghost use Rattle.std.specs.Prelude.{◌≡◌};
ghost use Rattle.flat_model.specs.Arithmetic.{low_word, plus_signed, word_extended};

/// The sum of a register and a signed offset, modulo 2^64 (section 2.6).
#[inline(always)]
pub fn plus_signed(a: u64, off: i32) -> u64
    ensures sum { result ≡ plus_signed a off }
{
    a.wrapping_add_signed(i64::from(off))
}

/// The low 32 bits of a register.
#[inline(always)]
pub(crate) fn low_word(v: u64) -> u32
    ensures low { result ≡ low_word v }
{
    (v % 0x1_0000_0000) as u32
}

/// A word, sign-extended to 64 bits: what each W instruction leaves in its register (section 5.2).
#[inline(always)]
pub(crate) fn extended(word: u32) -> u64
    ensures extended { result ≡ word_extended word }
{
    i64::from(word.cast_signed()).cast_unsigned()
}

/// The low 32 bits of `v`, sign-extended to 64 (section 5.2).
#[inline(always)]
pub fn word_extended(v: u64) -> u64
    ensures extended { result ≡ word_extended v }
{
    extended(low_word(v))
}
