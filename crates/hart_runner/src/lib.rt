//! The turns of a hart: its part of each hold of the shared state, and the calls of its boxes between holds.
#![tactic(auto)]

pub use pacing::Pace;
pub use runners::{Runner, Turned};
pub use seats::Seat;
pub use tapes::{Piece, Tape};

mod delivering;
mod entering;
mod falling_due;
mod going_ahead;
mod holding;
mod making_way;
mod pacing;
mod parts;
mod runners;
mod seats;
mod stretching;
mod tapes;
mod turns;
