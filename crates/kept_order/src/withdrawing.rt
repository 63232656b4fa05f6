//! Orders of boxes and controllers, and what the withdrawal of a set leaves as it was.

ghost use Rattle.kept_order.specs.Withdrawing.{UnplannedOrdersPassNothingBy, WithdrawalsMoveNothing};
ghost use Rattle.kept_order.specs.Withdrawing.{LiveMayBeWithdrawn, AsksStand, PluginsAreFew};

/// Behind an order of a box or a controller the plan wants nothing, where it wanted nothing before.
#[tactic(auto, using(crate::proofs::Unplanned::unplanned_orders_pass_nothing_by))]
pub fn unplanned_orders_pass_nothing_by()
    ensures law { UnplannedOrdersPassNothingBy }
{}

/// A withdrawal moves no set and lets every hart be, and the asks of its plug-in wait no longer.
pub fn withdrawals_move_nothing()
    ensures law { WithdrawalsMoveNothing }
{}

/// A plug-in that is Live may be withdrawn, so an order that a box asks for may stand.
#[tactic(auto, using(crate::proofs::Withdrawals::live_may_be_withdrawn, crate::proofs::Withdrawals::asks_stand))]
pub fn asks_stand()
    ensures live { LiveMayBeWithdrawn }
    ensures asks { AsksStand }
{}

/// A legal log installs 8 plug-ins at most.
#[tactic(auto, using(crate::proofs::Withdrawals::plugins_are_few))]
pub fn plugins_are_few()
    ensures law { PluginsAreFew }
{}
