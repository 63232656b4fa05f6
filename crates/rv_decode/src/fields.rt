//! The fields and immediates of a word.

ghost use Rattle.std.specs.Prelude.{◌≡◌, ◌+◌, ◌*◌, ◌^◌, ◌<◌, ◌≤◌, ◌==◌, pos, neg_ℤ, ◌≤ℤ◌};
ghost use Rattle.std.specs.Prelude.{◌<ℤ◌, ◌%◌};
ghost use Rattle.flat_model.specs.Instruction.{field, flag, signed_at, i_immediate, s_immediate, b_immediate, j_immediate, IsEven};
ghost use Rattle.flat_model.specs.Instruction.{IsTwelveBits, IsBranchOffset, IsJumpOffset};

/// The `len` bits of `word` from bit `low` on.
pub(crate) fn field(word: u32, low: u32, len: u32) -> u32
    requires start { low < 32 }
    requires length { len < 32 }
    ensures value { result ≡ field word low len }
    ensures bound { result < 2 ^ len }
{
    (word >> low) & ((1 << len) - 1)
}

/// A register number: the five bits from `low` on.
pub(crate) fn register_field(word: u32, low: u32) -> u8
    requires { low < 32 }
    ensures value { result ≡ field word low 5 }
    ensures bound { result < 32 }
{
    field(word, low, 5) as u8
}

/// A field of four bits.
pub(crate) fn nibble(word: u32, low: u32) -> u8
    requires { low < 32 }
    ensures value { result ≡ field word low 4 }
    ensures bound { result < 16 }
{
    field(word, low, 4) as u8
}

pub(crate) fn flag(word: u32, bit: u32) -> bool
    requires { bit < 32 }
    ensures { result ≡ flag word bit }
{
    field(word, bit, 1) == 1
}

/// `n` as a signed number whose top bit weighs `half`.
fn signed_at(half: u32, n: u32) -> i32
    requires size { half ≤ 2 ^ 20 }
    requires below { n < 2 * half }
    ensures value { result ≡ signed_at half n }
    ensures low { neg_ℤ (pos half) ≤ℤ result }
    ensures high { result <ℤ pos half }
    ensures even { half % 2 ≡ 0 → n % 2 ≡ 0 → IsEven result }
{
    if n < half {
        n as i32
    } else {
        n as i32 - 2 * half as i32
    }
}

pub(crate) fn i_immediate(word: u32) -> i32
    ensures value { result ≡ i_immediate word }
    ensures in_range { IsTwelveBits result }
{
    signed_at(1 << 11, field(word, 20, 12))
}

pub(crate) fn s_immediate(word: u32) -> i32
    ensures value { result ≡ s_immediate word }
    ensures in_range { IsTwelveBits result }
{
    signed_at(1 << 11, field(word, 25, 7) * 32 + field(word, 7, 5))
}

pub(crate) fn b_immediate(word: u32) -> i32
    ensures value { result ≡ b_immediate word }
    ensures in_range { IsBranchOffset result }
{
    let bits = field(word, 31, 1) * 4096
        + field(word, 7, 1) * 2048
        + field(word, 25, 6) * 32
        + field(word, 8, 4) * 2;
    signed_at(1 << 12, bits)
}

pub(crate) fn j_immediate(word: u32) -> i32
    ensures value { result ≡ j_immediate word }
    ensures in_range { IsJumpOffset result }
{
    let bits = field(word, 31, 1) * 1_048_576
        + field(word, 12, 8) * 4096
        + field(word, 20, 1) * 2048
        + field(word, 21, 10) * 2;
    signed_at(1 << 20, bits)
}
