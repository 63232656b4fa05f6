//! Finds the block of code that begins at an address: straight-line code within one page, at most 512 words.
//! `flat_model`'s `specs/Blocks.antt` says how long a block is.
#![tactic(auto)]

pub use blocks::{Block, Site};
pub use caching::BlockCache;
pub use finding::{find, length};
pub use laws::{block_is_one, length_is_one};

mod blocks;
mod caching;
mod finding;
mod kept_blocks;
mod laws;
mod walks;
