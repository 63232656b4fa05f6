//! Numbers in the bytes of one region, little-endian.

ghost use Rattle.std.specs.Prelude.{◌≡◌, ◌+◌, ◌-◌, ◌^◌, ◌≤◌, ◌++◌, length, take, drop};
ghost use Rattle.flat_model.specs.Access.{number_of, bytes_of_number};

/// The number that at most eight bytes hold.
#[inline(always)]
pub fn number(bytes: &[u8]) -> u64
    requires { length bytes.now ≤ 8 }
    ensures { result ≡ number_of bytes.now }
{
    let mut raw = [0u8; 8];
    raw[..bytes.len()].copy_from_slice(bytes);
    u64::from_le_bytes(raw)
}

/// The bytes of a number.
#[inline(always)]
#[tactic(auto, unfolding(flat_model::specs::Access::bytes_of_number))]
pub fn bytes_of_number(value: u64) -> [u8; 8]
    ensures bytes { result ≡ bytes_of_number value }
{
    value.to_le_bytes()
}

/// Puts the source's bytes at a place.
#[inline(always)]
fn put(bytes: &mut [u8], place: usize, source: &[u8])
    requires { place + length source.now ≤ length bytes.old }
    ensures { bytes.new ≡ take place bytes.old ++ (source.now ++ drop (place + length source.now) bytes.old) }
{
    let end = place + source.len();
    bytes[place..end].copy_from_slice(source);
}

/// The number that the 2^shift bytes at a place hold.
#[inline(always)]
pub fn number_at(bytes: &[u8], place: usize, shift: u8) -> u64
    requires size { shift ≤ 3 }
    requires inside { place + 2 ^ shift ≤ length bytes.now }
    ensures { result ≡ number_of (take (2 ^ shift) (drop place bytes.now)) }
{
    match shift {
        0 => number(&bytes[place..place + 1]),
        1 => number(&bytes[place..place + 2]),
        2 => number(&bytes[place..place + 4]),
        _ => number(&bytes[place..place + 8]),
    }
}

/// Puts the 2^shift low bytes of a number at a place.
#[inline(always)]
pub fn put_number(bytes: &mut [u8], place: usize, shift: u8, value: u64)
    requires size { shift ≤ 3 }
    requires inside { place + 2 ^ shift ≤ length bytes.old }
    ensures { bytes.new ≡ take place bytes.old ++ (take (2 ^ shift) (bytes_of_number value) ++ drop (place + 2 ^ shift) bytes.old) }
{
    let raw = bytes_of_number(value);
    match shift {
        0 => put(bytes, place, &raw[..1]),
        1 => put(bytes, place, &raw[..2]),
        2 => put(bytes, place, &raw[..4]),
        _ => put(bytes, place, &raw[..8]),
    }
}
