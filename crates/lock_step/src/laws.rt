//! What holds of walks, stated on functions that do nothing.

ghost use Rattle.lock_step.specs.Tellings.{HartsTellTheirOwn};
ghost use Rattle.lock_step.specs.Walks.{StuckIsNoRun};

/// What a hart tells is what of all events in a log is its own.
#[tactic(auto, using(crate::proofs::Tellings::harts_tell_their_own))]
pub fn harts_tell_their_own()
    ensures law { HartsTellTheirOwn }
{}

/// A journal at which a walk can't go on is no run.
pub fn stuck_is_no_run()
    ensures law { StuckIsNoRun }
{}
