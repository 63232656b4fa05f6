//! Numbers in words.

ghost use Rattle.std.specs.Prelude.{◌≡◌, ◌<◌, ◌≤◌, IfSome};
ghost use Rattle.command_words.specs.Numbers.{digit, with_digit, number, number_within};

/// The greatest number of a generated program.
pub const GENERATED_MOST: u32 = 100_000;

/// How many digits a number has at most.
const DIGITS_MOST: usize = 20;

fn digit(byte: u8) -> Option<u64>
    ensures value { result ≡ digit byte }
    ensures small { IfSome result (λ d. d < 10) }
{
    match byte {
        b'0'..=b'9' => Some(u64::from(byte - b'0')),
        _ => None,
    }
}

fn with_digit(n: u64, d: u64) -> Option<u64>
    ensures { result ≡ with_digit n d }
{
    n.checked_mul(10)?.checked_add(d)
}

/// The number that a text of 1 to 20 digits spells, where it is below 2^64.
fn number(text: &[u8]) -> Option<u64>
    ensures { result ≡ number text.now }
{
    if text.is_empty() || text.len() > DIGITS_MOST {
        return None;
    }
    let mut n = 0u64;
    for byte in text {
        n = with_digit(n, digit(*byte)?)?;
    }
    Some(n)
}

/// The number that a text spells, where it is 1 to `most`.
pub fn number_within(most: u64, text: &str) -> Option<u64>
    ensures value { result ≡ number_within most text.now }
    ensures some { IfSome result (λ n. 1 ≤ n) }
    ensures most { IfSome result (λ n. n ≤ most) }
{
    match number(text.as_bytes()) {
        Some(n) if 1 <= n && n <= most => Some(n),
        _ => None,
    }
}
