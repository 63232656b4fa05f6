//! Cutting a text at a byte.

ghost use Rattle.std.specs.Prelude.{◌≡◌, ◌+◌, ◌<◌, ◌==◌, length, position, option_map, IfSome};
ghost use Rattle.std.specs.Str.{bytes_eq};
ghost use Rattle.run_script.specs.Bytes.{before, after, tail_len};

/// Whether the text is the word.
pub fn is(text: &[u8], word: &str) -> bool
    ensures { result ≡ bytes_eq text.now word.now }
{
    text == word.as_bytes()
}

/// What stands before the first byte `at`, and what stands after it, where there is one.
pub fn cut(text: &[u8], at: u8) -> (&[u8], Option<&[u8]>)
    ensures front { result.0.now ≡ before at text.now }
    ensures back { option_map (λ rest. rest.now) result.1 ≡ after at text.now }
    ensures lengths { IfSome result.1 (λ rest. length result.0.now + length rest.now + 1 ≡ length text.now) }
{
    match first_at(text, at) {
        None => (text, None),
        Some(place) => (&text[..place], Some(&text[place + 1..])),
    }
}

// The place of the first byte `at`.
fn first_at(text: &[u8], at: u8) -> Option<usize>
    ensures first { result ≡ position (λ b. b == at) text.now }
    ensures within { IfSome result (λ i. i < length text.now) }
{
    text.iter().position(|byte| *byte == at)
}

/// How many bytes stand after the last byte `at`, where there is one.
pub fn tail_len(text: &[u8], at: u8) -> Option<usize>
    ensures length { result ≡ tail_len at text.now }
    ensures within { IfSome result (λ n. n < length text.now) }
{
    text.iter().rev().position(|byte| *byte == at)
}
