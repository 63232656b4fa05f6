//! Walks over journals: the steps that a journal tells, made again on one thread, with their events one by one; and where two
//! journals of one image part, hart by hart.
#![tactic(auto)]

pub use comparing::compare;
pub use laws::{harts_tell_their_own, stuck_is_no_run};
pub use through::walk_through;
pub use verdicts::Verdict;
pub use walks::{Walk, Walked};

mod comparing;
mod laws;
mod lone_runs;
mod seeking;
mod stepping;
mod through;
mod verdicts;
mod walks;
