//! Runners.

use crate::pacing::Pace;
use crate::seats::Seat;
use crate::tapes::Tape;
use baton_gate::Pass;
use block_finder::BlockCache;
use host_state::HostState;
use instr_lists::ListCache;
use std::sync::Arc;
use watcher_api::{Closer, Held, Watcher};

/// What runs a hart: its pass of the gate, the hart with its boxes while it has neither left nor failed, and the blocks and
/// lists that it keeps.
#[derive(Drop)]
pub struct Runner<W: Watcher, C: Closer<Held<W>>> {
    pub pass: Pass<Box<HostState<W, C>>>,
    pub seat: Option<Seat<W>>,
    pub blocks: BlockCache,
    pub lists: ListCache,
    /// The blocks of its last hold behind the first.
    pub tape: Tape,
    /// How far the harts of the run have come.
    pub pace: Arc<Pace>,
}

/// What a turn did.
#[derive(Clone, Copy, Debug, PartialEq, Eq)]
pub enum Turned {
    /// It recorded an entry, and the hart hasn't left.
    Went,
    /// The hart has left.
    Left,
    /// It recorded nothing: the hart is parked, or has just got its start.
    Waited,
}
