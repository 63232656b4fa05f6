//! Numbers in words.

ghost use Rattle.std.specs.Prelude.{◌≡◌, ◌<◌, IfSome};
ghost use Rattle.flat_model.specs.declared.limits.TheConstants.{ENTRIES_MOST};
ghost use Rattle.run_script.specs.Numbers.{digit, with_digit, number, entry_number};

use flat_model::limits::ENTRIES_MOST;

/// The base of decimal numbers, and how many digits they have at most.
pub const DECIMAL: u64 = 10;

pub const DECIMAL_DIGITS: usize = 20;

/// The base of addresses, and how many digits they have at most.
pub const HEXADECIMAL: u64 = 16;

pub const HEXADECIMAL_DIGITS: usize = 16;

fn digit(base: u64, byte: u8) -> Option<u64>
    ensures value { result ≡ digit base byte }
    ensures small { IfSome result (λ d. d < 16) }
{
    match byte {
        b'0'..=b'9' => Some(u64::from(byte - b'0')),
        b'a'..=b'f' if base == HEXADECIMAL => Some(u64::from(byte - b'a') + 10),
        b'A'..=b'F' if base == HEXADECIMAL => Some(u64::from(byte - b'A') + 10),
        _ => None,
    }
}

fn with_digit(base: u64, n: u64, d: u64) -> Option<u64>
    ensures { result ≡ with_digit base n d }
{
    n.checked_mul(base)?.checked_add(d)
}

/// The number that a text of 1 to `most` digits spells, where it is below 2^64.
pub fn number(base: u64, most: usize, text: &[u8]) -> Option<u64>
    ensures { result ≡ number base most text.now }
{
    if text.is_empty() || text.len() > most {
        return None;
    }
    let mut n = 0u64;
    for byte in text {
        n = with_digit(base, n, digit(base, *byte)?)?;
    }
    Some(n)
}

/// The number of an entry, below `ENTRIES_MOST`.
pub fn entry_number(text: &[u8]) -> Option<u8>
    ensures value { result ≡ entry_number text.now }
    ensures range { IfSome result (λ n. n < ENTRIES_MOST) }
{
    let n = number(DECIMAL, DECIMAL_DIGITS, text)?;
    if n >= u64::from(ENTRIES_MOST) {
        return None;
    }
    Some(n as u8)
}
