//! Controllers: parties of a run that are no harts. They give orders while it goes on, and settle completions.
#![tactic(auto)]

pub use controllers::Controller;
pub use hands::ClosingInHand;
pub use laws::closings_stay_in_hand;

mod controllers;
mod hands;
mod holds;
mod laws;
mod parts;
