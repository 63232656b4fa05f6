//! Numbers in hexadecimal, in lower case.

ghost use Rattle.std.specs.Prelude.{◌≡◌, ◌+◌, ◌-◌, ◌*◌, ◌++◌, ◌<◌, ◌≤◌, ◌^◌, length, vec_len};
ghost use Rattle.std.specs.Prelude.{vec_capacity, IsOk, OnOk, OnErr};
ghost use Rattle.flat_model.specs.Fields.{field};
ghost use Rattle.flat_model.specs.Texts.{hex_digit, hex};
ghost use Rattle.number_text.specs.ShortHex.{short_hex};

use crate::pieces::put_bytes;
use flat_model::NoMemory;

/// Puts the last `len` hexadecimal digits of `n` at the end of `out`, at most 16, with leading zeros.
pub fn put_hex(out: &mut Vec<u8>, n: u64, len: u32) -> Result<(), NoMemory>
    requires few { len ≤ 16 }
    ensures ok { OnOk result (out.new.items ≡ out.old.items ++ hex len n) }
    ensures err { OnErr result (out.new.items ≡ out.old.items) }
    ensures room { vec_len out.old + len ≤ vec_capacity out.old → IsOk result }
    ensures capacity { vec_capacity out.old ≤ vec_capacity out.new }
{
    let digits = digits_of(n);
    put_bytes(out, &digits[16 - len as usize..])
}

/// Puts a number in hexadecimal at the end of `out`, without leading zeros: `0` for 0.
pub fn put_short_hex(out: &mut Vec<u8>, n: u64) -> Result<(), NoMemory>
    ensures ok { OnOk result (out.new.items ≡ out.old.items ++ short_hex n) }
    ensures err { OnErr result (out.new.items ≡ out.old.items) }
    ensures room { vec_len out.old + length (short_hex n) ≤ vec_capacity out.old → IsOk result }
    ensures capacity { vec_capacity out.old ≤ vec_capacity out.new }
{
    put_hex(out, n, hex_len(n))
}

/// How many hexadecimal digits a number has without leading zeros.
fn hex_len(n: u64) -> u32
    ensures bound { result ≤ 16 }
    ensures digits { hex result n ≡ short_hex n }
{
    let mut len = 1;
    while len < 16 && n >> (4 * len) > 0 {
        len += 1;
    }
    len
}

/// All 16 hexadecimal digits of a number.
#[tactic(auto, unfolding(flat_model::specs::Texts::hex))]
fn digits_of(n: u64) -> [u8; 16]
    ensures { result ≡ hex 16 n }
{
    [
        digit_at(n, 15),
        digit_at(n, 14),
        digit_at(n, 13),
        digit_at(n, 12),
        digit_at(n, 11),
        digit_at(n, 10),
        digit_at(n, 9),
        digit_at(n, 8),
        digit_at(n, 7),
        digit_at(n, 6),
        digit_at(n, 5),
        digit_at(n, 4),
        digit_at(n, 3),
        digit_at(n, 2),
        digit_at(n, 1),
        digit_at(n, 0),
    ]
}

/// The hexadecimal digit of a number that has `place` others after it.
fn digit_at(n: u64, place: u32) -> u8
    requires { place < 16 }
    ensures { result ≡ hex_digit (field n (4 * place) 4) }
{
    let digit = ((n >> (4 * place)) & 0xf) as u8;
    if digit < 10 {
        b'0' + digit
    } else {
        b'a' - 10 + digit
    }
}
