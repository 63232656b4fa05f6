//! Steps.

ghost use Rattle.kept_order.specs.Turning.{TurnsKeepOrder};

/// Steps of a hart for which no set waits keep the state in order.
#[tactic(auto, using(crate::proofs::Turns::turns_keep_order))]
pub fn turns_keep_order()
    ensures law { TurnsKeepOrder }
{}
