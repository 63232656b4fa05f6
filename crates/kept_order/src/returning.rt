//! Sets that harts give back.

ghost use Rattle.kept_order.specs.Returning.{BacksKeepOrder, BacksTakeSets, BacksChangeLittle};

/// A Back keeps the state in order: the set is parked.
pub fn backs_keep_order()
    ensures law { BacksKeepOrder }
{}

/// A hart that has given a plug-in back has its other sets as before.
pub fn backs_take_sets()
    ensures law { BacksTakeSets }
{}

/// A Back changes little of what the rules see: the hart owes it no more.
#[tactic(auto, using(crate::proofs::BackChanges::backs_change_little))]
pub fn backs_change_little()
    ensures law { BacksChangeLittle }
{}
