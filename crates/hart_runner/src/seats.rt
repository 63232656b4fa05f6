//! What a hart has beside the state that it shares.

use flat_model::Image;
use guest_memory::Near;
use host_state::Specs;
use rv_exec::{Hart, RawLog};
use std::alloc::Global;
use std::sync::Arc;
use watcher_api::{Asks, Attached, Watcher};

/// A hart with its boxes, which live with its thread.
#[derive(Drop)]
pub struct Seat<W: Watcher> {
    /// The number of the hart.
    pub no: u8,
    pub image: Arc<Image>,
    /// The steps that the hart makes at most.
    pub limit: u64,
    pub hart: Hart,
    /// The hart's sets, and their filters.
    pub attached: Attached<W>,
    pub specs: Specs,
    /// Counts the lists of sets that the hart has had.
    pub generation: u64,
    /// What its boxes asked for in its last Turn.
    pub asks: Asks,
    /// Where its last access lay.
    pub near: Near,
    /// The events of its last Turn.
    pub raw: RawLog,
    /// For the orders of script lines that fall due in its Turns.
    pub alloc: Global,
}
