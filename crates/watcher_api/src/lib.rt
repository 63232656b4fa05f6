//! Boxes that hear the events of a hart: what a box stands for, the box that keeps every event, a box that is held
//! beside what it heard, the sets that are attached to a hart, and how a set was withdrawn, with the boxes and columns
//! given back; none where an Idle plug-in was uninstalled.
#![tactic(auto)]

pub use asks::Asks;
pub use attached::Attached;
pub use attached_sets::{AttachedSet, names_its_entries};
pub use closers::{Closer, Notices, Parked, Returned};
pub use held_acts::HeldAct;
pub use holders::Held;
pub use laws::rows_by_key;
pub use racks::Rack;
pub use recorders::Recorder;
pub use refusers::Refuser;
pub use seats::Seats;
pub use tallies::{MOST_ROWS, exec_row, key_of, mem_row, rows_of};
pub use watchers::{Watcher, asked};

mod asks;
mod attached;
mod attached_sets;
mod closers;
mod held_acts;
mod holders;
mod laws;
mod racks;
mod recorders;
mod refusers;
mod seats;
mod tallies;
mod watchers;
