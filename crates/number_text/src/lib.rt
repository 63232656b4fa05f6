//! Numbers and plain text, put at the end of a buffer: decimals, signed decimals and hexadecimal digits in lower case.
//! A call that finds no memory leaves the buffer as it was, and one for whose text the buffer has room never fails.
#![tactic(auto)]

pub use decimals::{put_decimal, put_signed, put_wide_decimal};
pub use hexadecimal::{put_hex, put_short_hex};
pub use pieces::{put_bytes, put_text};

mod decimals;
mod hexadecimal;
mod pieces;
