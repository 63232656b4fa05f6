//! Sets that a hart takes.

ghost use Rattle.kept_order.specs.Taking.{TakesKeepOrder, TakesAddSets, TakenIsAll, GotsChangeLittle, GotsKeepHartsGoing};

/// A hart that takes a set keeps the state in order.
pub fn takes_keep_order()
    ensures law { TakesKeepOrder }
{}

/// It has then one set more.
#[tactic(auto, using(crate::proofs::Takes::takes_add_sets))]
pub fn takes_add_sets()
    ensures law { TakesAddSets }
{}

/// Once a hart that owes no Back may take no set, none waits for it.
#[tactic(auto, using(crate::proofs::Takes::taken_is_all))]
pub fn taken_is_all()
    ensures law { TakenIsAll }
{}

/// Takes change nothing of what the rules see.
pub fn gots_change_little()
    ensures law { GotsChangeLittle }
{}

/// A hart that may step still may once sets were taken.
pub fn gots_keep_harts_going()
    ensures law { GotsKeepHartsGoing }
{}
