//! What a replay holds of a hart.

use flat_model::limits::PLUGINS_MOST;
use host_state::Specs;
use instr_lists::ListCache;
use rv_exec::{Hart, RawLog};
use watcher_api::{Asks, Attached, Watcher};

/// A hart that hasn't left, with its boxes.
#[derive(Drop)]
pub struct Berth<W: Watcher> {
    /// The hart as it was when it was looked at last.
    pub hart: Hart,
    /// Its sets, and their filters.
    pub attached: Attached<W>,
    pub specs: Specs,
    /// Counts the lists of sets that the hart has had.
    pub generation: u64,
    /// What its boxes asked for first,
    pub asks: Asks,
    /// and for each plug-in how many steps the hart has made since, of which 512 count at most.
    pub since: [u32; PLUGINS_MOST as usize],
    /// The events of its last step.
    pub raw: RawLog,
    /// The lists of its blocks.
    pub lists: ListCache,
}
