//! Hits of set-associative caches that replace the least recently used line of a set: one cache for each hart, and one
//! that all harts share. `specs/Hits.antt` says what a hit is, and `specs/Touches.antt` which lines an access touches.
#![tactic(auto)]

pub use caching::{Cache, is_line_size};
pub use studies::Caches;
pub use tallies::Tallied;

mod caching;
mod counting;
pub mod limits;
mod studies;
mod tallies;
