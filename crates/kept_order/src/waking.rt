//! Parked harts.

ghost use Rattle.kept_order.specs.Waking.{ParkedHartsWake};

/// A parked hart stays as it is while others hold the state, until it has its start.
#[tactic(auto, using(crate::proofs::Wakings::parked_harts_wake))]
pub fn parked_harts_wake()
    ensures law { ParkedHartsWake }
{}
