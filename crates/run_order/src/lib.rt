//! When the state that the harts share is in order, and when a hart's runner is: what each holds is what its log says. The
//! definitions stand in `specs/`; here is what holds of them.
#![tactic(auto)]

ghost use Rattle.run_order.specs.Laws.{SetsStay, HartStays, TurnsKeepShelves, InstallsWait, TakesMoveSets, LeavesParkSets};

/// The sets that a hart has stay as they are while others add to the log.
#[tactic(auto, using(crate::proofs::Staying::sets_stay))]
pub fn sets_stay()
    ensures law { SetsStay }
{}

/// A hart that has its start stays as it is while others add to the log.
#[tactic(auto, using(crate::proofs::Staying::hart_stays))]
pub fn hart_stays()
    ensures law { HartStays }
{}

/// A Turn moves no set that waits or is parked, and lets none of them hear.
pub fn turns_keep_shelves()
    ensures law { TurnsKeepShelves }
{}

/// An install adds a row to each shelf: its set waits for each hart and has heard nothing, and none is parked.
pub fn installs_wait()
    ensures law { InstallsWait }
{}

/// A hart that takes a set takes it from where it waits, and nothing else moves.
pub fn takes_move_sets()
    ensures law { TakesMoveSets }
{}

/// A hart that leaves parks the sets that it has, and nothing else moves.
pub fn leaves_park_sets()
    ensures law { LeavesParkSets }
{}
