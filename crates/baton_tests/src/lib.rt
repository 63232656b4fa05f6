//! Three values that a gate keeps, and threads that take turns with them.
#![tactic(auto)]

pub mod bounds;
pub mod entries;
pub mod parcel;
pub mod passes;
pub mod shelf;
pub mod tape;
#[cfg(test)]
mod tests;
pub mod turns;
