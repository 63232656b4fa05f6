//! What each item that a call adds makes of the state that the harts share, and that the state stays in order; and what the
//! sets of a hart have made of its steps. The definitions stand in `specs/`; here is what holds of them.
#![tactic(auto)]

pub mod arriving;
pub mod closing;
pub mod fitting;
pub mod going;
pub mod hearing;
pub mod leaving;
pub mod lying;
pub mod opening;
pub mod ordering;
pub mod returning;
pub mod summing;
pub mod taking;
pub mod turning;
pub mod waking;
pub mod withdrawing;
