//! The rules of journals: what a set has heard on a hart in a log, what the plan of a run wants next, which logs are legal and
//! whole, and where the boxes of a set are. The definitions stand in `specs/`; here is what holds of them.
#![tactic(auto)]

ghost use Rattle.run_rules.specs.Laws.{HearsByStepsAlone, HartsMoveByTheirSteps, TurnsAreLegal, LinesAreInTime, OpensAsPlanned};
ghost use Rattle.run_rules.specs.Laws.{KeepsItsOpening, LaterSetsHearNothing, LogsAreOfTheirJournals, PlacesFit, OthersLeaveSetsAlone};
ghost use Rattle.run_rules.specs.Laws.{EndingsGoWithStates, LastSetsListenWhileLive};

/// No item but a step of a hart changes what a set has made of the hart's events.
#[tactic(auto, using(crate::proofs::Tails::hears_by_steps_alone))]
pub fn hears_by_steps_alone()
    ensures law { HearsByStepsAlone }
{}

/// A hart that has its start is moved on by its own steps alone.
pub fn harts_move_by_their_steps()
    ensures law { HartsMoveByTheirSteps }
{}

/// A Turn of up to 512 steps, begun where nothing is passed by and no ask waits, keeps the rules.
pub fn turns_are_legal()
    ensures law { TurnsAreLegal }
{}

/// A line of the script that falls due in such a Turn stands in time behind it.
#[tactic(auto, using(crate::proofs::Lines::lines_are_in_time))]
pub fn lines_are_in_time()
    ensures law { LinesAreInTime }
{}

/// A legal log opens with the plan's installs, in order, and keeps them as it goes on.
pub fn opens_as_planned()
    ensures planned { OpensAsPlanned }
    ensures kept { KeepsItsOpening }
{}

/// A set that hasn't been registered yet has made nothing of any event.
#[tactic(auto, using(crate::proofs::Growing::later_sets_hear_nothing))]
pub fn later_sets_hear_nothing()
    ensures law { LaterSetsHearNothing }
{}

/// What the rules make of the shared state's log is what they make of its journal.
pub fn logs_are_of_their_journals()
    ensures law { LogsAreOfTheirJournals }
{}

/// In a legal log of the shared state, where a set is goes with what the registry says of its plug-in and the hart.
#[tactic(auto, using(crate::proofs::Fitting::places_fit))]
pub fn places_fit()
    ensures law { PlacesFit }
{}

/// Items of other parties neither bring a hart a set nor take one from it, and let none hear.
pub fn others_leave_sets_alone()
    ensures law { OthersLeaveSetsAlone }
{}

/// The sets of a plug-in have each ended, but for the last of a plug-in that is Live: it alone listens.
pub fn endings_go_with_states()
    ensures endings { EndingsGoWithStates }
    ensures listening { LastSetsListenWhileLive }
{}
