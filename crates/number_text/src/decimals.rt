//! Numbers in decimal.

ghost use Rattle.std.specs.Prelude.{◌≡◌, ◌+◌, ◌++◌, ◌≤◌, length, vec_len, vec_capacity, IsOk, OnOk, OnErr, decimal};
ghost use Rattle.std.specs.Fmt.{signed_decimal};

use crate::pieces::put_text;
use flat_model::NoMemory;
use itoa::Buffer;

/// Puts a number in decimal at the end of `out`.
pub fn put_decimal(out: &mut Vec<u8>, n: u64) -> Result<(), NoMemory>
    ensures ok { OnOk result (out.new.items ≡ out.old.items ++ decimal n) }
    ensures err { OnErr result (out.new.items ≡ out.old.items) }
    ensures room { vec_len out.old + length (decimal n) ≤ vec_capacity out.old → IsOk result }
    ensures capacity { vec_capacity out.old ≤ vec_capacity out.new }
{
    let mut digits = Buffer::new();
    put_text(out, digits.format(n))
}

/// Puts a number of up to 128 bits in decimal at the end of `out`.
pub fn put_wide_decimal(out: &mut Vec<u8>, n: u128) -> Result<(), NoMemory>
    ensures ok { OnOk result (out.new.items ≡ out.old.items ++ decimal n) }
    ensures err { OnErr result (out.new.items ≡ out.old.items) }
    ensures room { vec_len out.old + length (decimal n) ≤ vec_capacity out.old → IsOk result }
    ensures capacity { vec_capacity out.old ≤ vec_capacity out.new }
{
    let mut wide_digits = Buffer::new();
    put_text(out, wide_digits.format(n))
}

/// Puts a signed number in decimal at the end of `out`, with a minus sign where it is negative.
pub fn put_signed(out: &mut Vec<u8>, n: i64) -> Result<(), NoMemory>
    ensures ok { OnOk result (out.new.items ≡ out.old.items ++ signed_decimal n) }
    ensures err { OnErr result (out.new.items ≡ out.old.items) }
    ensures room { vec_len out.old + length (signed_decimal n) ≤ vec_capacity out.old → IsOk result }
    ensures capacity { vec_capacity out.old ≤ vec_capacity out.new }
{
    let mut signed_digits = Buffer::new();
    put_text(out, signed_digits.format(n))
}
