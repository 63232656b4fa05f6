//! The high halves of products (section 7.1).

ghost use Rattle.std.specs.Prelude.{◌≡◌, ◌*◌, ◌/◌, ◌^◌, ◌*ℤ◌, pos};
ghost use Rattle.flat_model.specs.Arithmetic.{high_half};

/// The high 64 of the 128 bits of a signed product.
#[inline(always)]
fn high_half(product: i128) -> u64
    ensures high { result ≡ high_half product }
{
    ((product >> 64) as i64).cast_unsigned()
}

/// MULH: both factors signed.
#[inline(always)]
pub(crate) fn high_signed(a: i64, b: i64) -> u64
    ensures high { result ≡ high_half (a *ℤ b) }
{
    high_half(i128::from(a) * i128::from(b))
}

/// MULHSU: `a` signed, `b` unsigned.
#[inline(always)]
pub(crate) fn high_signed_by_unsigned(a: i64, b: u64) -> u64
    ensures high { result ≡ high_half (a *ℤ pos b) }
{
    high_half(i128::from(a) * i128::from(b))
}

/// MULHU: both factors unsigned.
#[inline(always)]
pub(crate) fn high_unsigned(a: u64, b: u64) -> u64
    ensures high { result ≡ a * b / 2 ^ 64 }
{
    ((u128::from(a) * u128::from(b)) >> 64) as u64
}
