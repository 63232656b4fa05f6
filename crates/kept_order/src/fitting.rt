//! The lengths of Turns.

ghost use Rattle.kept_order.specs.Fitting.{TurnsFit};

/// A Turn that goes on fits where a journal keeps the number of its steps.
#[tactic(auto, using(crate::proofs::TurnLengths::turns_fit))]
pub fn turns_fit()
    ensures law { TurnsFit }
{}
