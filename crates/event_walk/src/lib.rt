//! What a set of subscriptions makes of a hart's events: which events each subscription hears, in their order, and what
//! becomes of the hart's column. The definitions stand in `specs/`; here is what holds of them.
#![tactic(auto)]

ghost use Rattle.event_walk.specs.Walk.{WalksInARow, KeepsItsSizes};

/// To walk some events and then others is to walk them all.
#[tactic(auto, using(crate::proofs::Walks::walks_in_a_row))]
pub fn walks_in_a_row()
    ensures law { WalksInARow }
{}

/// A walk keeps the numbers of subscriptions and of entries.
pub fn walk_keeps_sizes()
    ensures law { KeepsItsSizes }
{}
