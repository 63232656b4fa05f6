//! Resolved lists: which subscriptions hear which events of a block is found out once, and delivery walks lists of slots.
#![tactic(auto)]

pub use blocks::{BlockList, build};
pub use caching::ListCache;
pub use delivery::{deliver, deliver_on};
pub use kept_lists::KeptList;
pub use words::deliver_words;

mod additions;
mod blocks;
mod caching;
mod delivery;
mod kept_lists;
mod lists;
mod slots;
mod sorts;
mod words;
