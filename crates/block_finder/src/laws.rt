//! What holds of blocks, stated on functions that do nothing.

ghost use Rattle.flat_model.specs.Blocks.{LengthIsOne, LengthIsComputed};
ghost use Rattle.block_finder.specs.Block.{BlockIsOne};

/// A block has one length, and it is the number that is computed.
#[tactic(auto, using(crate::proofs::Computed::length_is_computed))]
pub fn length_is_one()
    ensures one { LengthIsOne }
    ensures computed { LengthIsComputed }
{}

/// There is one block at an address, so all that find one there find the same.
pub fn block_is_one()
    ensures one { BlockIsOne }
{}
