//! Orders that come while a run goes on.

ghost use Rattle.kept_order.specs.Ordering.{WithdrawalsKeepOrder, RegistrationsKeepOrder};

/// A withdrawal keeps the state in order, and nothing moves.
pub fn withdrawals_keep_order()
    ensures law { WithdrawalsKeepOrder }
{}

/// A registration of a plug-in that is Idle keeps the state in order: its set waits for each hart.
pub fn registrations_keep_order()
    ensures law { RegistrationsKeepOrder }
{}
