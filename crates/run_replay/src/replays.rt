//! Replays.

ghost use Rattle.std.specs.Prelude.{◌≡◌};

use crate::berths::Berth;
use block_finder::BlockCache;
use host_state::HostState;
use std::alloc::Global;
use watcher_api::{Closer, Held, Watcher};

/// What follows a journal: the state of the run so far, and what each hart has that hasn't left.
#[derive(Drop)]
pub struct Replay<W: Watcher, C: Closer<Held<W>>> {
    pub alloc: Global,
    pub state: HostState<W, C>,
    /// By hart.
    pub berths: Vec<Option<Berth<W>>>,
    pub blocks: BlockCache,
}

/// What became of an entry.
#[derive(Clone, Copy, Debug, PartialEq, Eq)]
pub enum Followed {
    /// It stands in the log, and the lines of the script that are due behind it.
    Went,
    /// It stands in the log, but a line that is due behind it can't stand in time any more, so no entry may follow.
    Overdue,
    /// It breaks a rule.
    Breaks,
}

impl<W: Watcher, C: Closer<Held<W>>> Replay<W, C> {
    /// The state so far.
    pub fn into_state(self) -> HostState<W, C>
        ensures state { result ≡ self.state }
    {
        self.state
    }
}
