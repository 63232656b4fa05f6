//! Harts that leave.

ghost use Rattle.kept_order.specs.Leaving.{LeavesKeepOrder};

/// A hart that leaves keeps the state in order.
#[tactic(auto, using(crate::proofs::Leaves::leaves_keep_order))]
pub fn leaves_keep_order()
    ensures law { LeavesKeepOrder }
{}
