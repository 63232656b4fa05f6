//! The plain types that all crates speak of and, in `specs/`, the definitions that their contracts cite:
//! the flat machine, the instruction table, the journal's log and the texts.
#![tactic(auto)]

pub use effects::{Done, Effect};
pub use events::{Class, Ending, Event, FaultKind, What};
pub use images::{Image, Region};
pub use instructions::{AtomicOp, BranchOp, ImmOp, Ins, LoadOp, RegOp, StoreOp};
pub use journals::{Entry, How, Item, Mode, Order, Origin, Plan, PlugState, Timed};
pub use orders::OrderRefusal;
pub use plugins::{Act, Ask, Cond, Filter, Kind, KindName, Op, Row, SetSpec, Sub, Subs};
pub use refusals::{NoMemory, NotThisRun, Refused};
pub use traces::Trace;

mod effects;
mod events;
mod images;
mod instructions;
mod journals;
pub mod laws;
pub mod limits;
mod orders;
mod plugins;
mod refusals;
mod traces;
