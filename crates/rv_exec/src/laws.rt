//! What holds of the steps of the flat machine, stated on functions that do nothing.

ghost use Rattle.rv_exec.specs.Laws.{EventsAreOfTheirStep, BlocksFollow};

/// The events of a step have its hart, its number and its pc.
#[tactic(auto, using(crate::proofs::Whose::events_are_of_their_step))]
pub fn events_are_of_their_step()
    ensures events { EventsAreOfTheirStep }
{}

/// Behind the words of a block the next one starts.
#[tactic(auto, using(crate::proofs::Blocks::blocks_follow))]
pub fn blocks_follow()
    ensures blocks { BlocksFollow }
{}
