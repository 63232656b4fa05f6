//! What a replay holds of a hart while it follows a journal, and that this is what the log says. The definitions stand in
//! `specs/`; here is what holds of them.
#![tactic(auto)]

ghost use Rattle.replay_order.specs.Seats.{AsksAreNoted, OthersLeaveSeats, LooksAgain};
ghost use Rattle.replay_order.specs.Steps.{StepsLie, StepsAreHeard, StepsKeepSeats};
ghost use Rattle.replay_order.specs.Takes.{TakesKeepSeats};
ghost use Rattle.replay_order.specs.Entries.{TakesOneMore, TurnsBeginAnew, BrokenRulesBreakJournals, BrokenStepsBreakTurns};
ghost use Rattle.replay_order.specs.Entries.{WholeJournalsHaveWholeLogs, WantsNothingMore};
ghost use Rattle.replay_order.specs.Openings.{FirstSeatsSit, OtherOpeningsBreak};

/// What a Live plug-in asks for on a hart is what the seat has noted.
#[tactic(auto, using(crate::proofs::Seats::asks_are_noted))]
pub fn asks_are_noted()
    ensures law { AsksAreNoted }
{}

/// Others leave a seat as it is.
pub fn others_leave_seats()
    ensures law { OthersLeaveSeats }
{}

/// A hart that is looked at again sits.
#[tactic(auto, using(crate::proofs::Seats::looks_again))]
pub fn looks_again()
    ensures law { LooksAgain }
{}

/// The events of a step lie in the block at its pc.
#[tactic(auto, using(crate::proofs::Lying::steps_lie))]
pub fn steps_lie()
    ensures law { StepsLie }
{}

/// Sets to which a step was delivered are those that the log with this step tells.
pub fn steps_are_heard()
    ensures law { StepsAreHeard }
{}

/// A hart that has heard its step sits behind it.
pub fn steps_keep_seats()
    ensures law { StepsKeepSeats }
{}

/// A hart that takes sets sits with them.
pub fn takes_keep_seats()
    ensures law { TakesKeepSeats }
{}

/// Entries, one after the other.
#[tactic(auto, using(crate::proofs::Entries::takes_one_more))]
pub fn entries_follow()
    ensures one { TakesOneMore }
    ensures turns { TurnsBeginAnew }
{}

/// An entry that breaks its rule makes no legal journal.
#[tactic(auto, using(crate::proofs::Entries::broken_rules_break_journals, crate::proofs::Entries::broken_steps_break_turns))]
pub fn broken_rules_break_journals()
    ensures rules { BrokenRulesBreakJournals }
    ensures steps { BrokenStepsBreakTurns }
{}

/// A whole journal has a whole log.
#[tactic(auto, using(crate::proofs::Entries::whole_journals_have_whole_logs))]
pub fn whole_journals_have_whole_logs()
    ensures law { WholeJournalsHaveWholeLogs }
{}

/// A plan without a script wants nothing more, once it wanted nothing.
#[tactic(auto, using(crate::proofs::Entries::wants_nothing_more))]
pub fn wants_nothing_more()
    ensures law { WantsNothingMore }
{}

/// Harts before any hold sit.
pub fn first_seats_sit()
    ensures law { FirstSeatsSit }
{}

/// Entries that don't begin with the plan's start orders break a rule.
pub fn other_openings_break()
    ensures law { OtherOpeningsBreak }
{}
