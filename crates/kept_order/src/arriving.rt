//! Sets that wait for harts, with their filters.

ghost use Rattle.kept_order.specs.Arriving.{ArrivalsStay, InstallsArrive, TakesArrive};

/// Steps, and a hart that leaves, change nothing of what waits.
pub fn arrivals_stay()
    ensures law { ArrivalsStay }
{}

/// An install adds its set for each hart.
#[tactic(auto, using(crate::proofs::Arrivals::installs_arrive))]
pub fn installs_arrive()
    ensures law { InstallsArrive }
{}

/// A hart that takes a set takes it from where it waits.
pub fn takes_arrive()
    ensures law { TakesArrive }
{}
