//! How large a cache may be.

/// The sets of a cache, at most; it has at least one.
pub const SETS_MOST: u32 = 4096;

/// The lines of a set, at most; it holds at least one.
pub const WAYS_MOST: u8 = 16;
