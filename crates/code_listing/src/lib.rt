//! The texts that list an image's code: its instructions, or its blocks.
#![tactic(auto)]

pub use listings::{ListingOf, listing};

mod entries;
mod listings;
