//! Events of a block.

ghost use Rattle.kept_order.specs.Lying.{EventsLieInBlocks};

/// The events of steps through a block lie in it.
#[tactic(auto, using(crate::proofs::InBlocks::events_lie_in_blocks))]
pub fn events_lie_in_blocks()
    ensures law { EventsLieInBlocks }
{}
