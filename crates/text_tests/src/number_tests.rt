//! Numbers with their text: the decimals are the bounds that Rust's documentation gives for its types, and the
//! hexadecimal texts are spelt by hand from the literals beside them.

use number_text::{
    put_bytes, put_decimal, put_hex, put_short_hex, put_signed, put_text, put_wide_decimal,
};
use std::test::Fail;

#[test]
fn bounds_of_each_type_have_their_text(rt: HostRuntime) -> Result<(), Fail> {
    let mut out = Vec::new(rt.alloc());
    put_decimal(&mut out, 0)?;
    put_text(&mut out, " ")?;
    put_decimal(&mut out, u64::MAX)?;
    put_bytes(&mut out, b" ")?;
    put_wide_decimal(&mut out, u128::MAX)?;
    put_text(&mut out, " ")?;
    put_signed(&mut out, i64::MIN)?;
    put_text(&mut out, " ")?;
    put_signed(&mut out, i64::from(i32::MAX))?;
    assert_eq!(rt;
        out.as_slice(),
        b"0 18446744073709551615 340282366920938463463374607431768211455 -9223372036854775808 2147483647".as_slice()
    );
    Ok(())
}

/// A number, a count of digits, its last digits, and all its digits without leading zeros.
const HEXADECIMAL: [(u64, u32, &str, &str); 7] = [
    (0, 0, "", "0"),
    (0, 1, "0", "0"),
    (0x20, 8, "00000020", "20"),
    (0xf_ffff, 16, "00000000000fffff", "fffff"),
    (0x1000_0000, 7, "0000000", "10000000"),
    (
        0x0123_4567_89ab_cdef,
        16,
        "0123456789abcdef",
        "123456789abcdef",
    ),
    (u64::MAX, 16, "ffffffffffffffff", "ffffffffffffffff"),
];

#[test]
fn hexadecimal_numbers_have_their_text(rt: HostRuntime) -> Result<(), Fail> {
    for (n, len, last, short) in HEXADECIMAL.iter() {
        let mut out = Vec::new(rt.alloc());
        put_hex(&mut out, *n, *len)?;
        put_text(&mut out, " ")?;
        put_short_hex(&mut out, *n)?;
        let expected = format!(in rt.alloc(); "{last} {short}")?;
        assert_eq!(rt; out.as_slice(), expected.as_bytes(), "{short}");
    }
    Ok(())
}
