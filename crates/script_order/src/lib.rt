//! The lines of a plan's script: which of them are due behind a Turn, where each may stand, and what its order leaves to a hart.
//! The definitions stand in `specs/`; here is what holds of them.
#![tactic(auto)]

ghost use Rattle.script_order.specs.Judging.{NextIsByTurn, JudgingBegins, JudgingOpens};
ghost use Rattle.script_order.specs.Judging.{AllowedLinesStand, RefusedLinesPass, JudgingEnds};
ghost use Rattle.script_order.specs.Letting.{OrdersLetHartsBe};
ghost use Rattle.script_order.specs.Totals.{JournalsTellTotals};

/// The first line that is judged behind a Turn.
pub fn judging_begins()
    ensures next { NextIsByTurn }
    ensures law { JudgingBegins }
{}

/// Behind the installs of the start the first line of all is judged.
pub fn judging_opens()
    ensures law { JudgingOpens }
{}

/// Lines are judged one after the other, until the plan wants nothing.
pub fn lines_are_judged()
    ensures stand { AllowedLinesStand }
    ensures pass { RefusedLinesPass }
    ensures end { JudgingEnds }
{}

/// An order lets every hart be.
pub fn orders_let_harts_be()
    ensures law { OrdersLetHartsBe }
{}

/// A journal tells the steps of its log, and those of the Turn in which the log ends.
pub fn journals_tell_totals()
    ensures law { JournalsTellTotals }
{}
