//! The log of a shelf.

/// What a hart did in a hold.
#[derive(Clone, Copy, Debug, PartialEq, Eq)]
pub enum Entry {
    /// It came to a number, which its box then hears.
    Step { hart: u8, number: u32 },
    /// It put its box on the shelf.
    Parked { hart: u8 },
}
