//! One shared value, which threads take from a gate and give back.
//!
//! Whoever takes it knows that its log began with all that this thread had seen, and that no later item is
//! of this thread's own party. `docs/architecture.md`, "The baton", says what rests on it.
#![tactic(auto)]

pub use gate::Gate;
pub use kept::Kept;
pub use passes::Pass;

mod gate;
mod kept;
mod passes;
mod rule;
mod views;
