//! Journals that were worked out by hand, each with what the rules of journals say of it: it is whole, or it breaks a rule at a
//! stated place. Stand-ins make the guest's steps, so that what the rules say computes. A judge finds the place, and is proved
//! to find the one that the rules mean.
#![tactic(auto)]

ghost use Rattle.worked_journals.specs.Judge.{JudgesExactly};
ghost use Rattle.worked_journals.specs.Cases.{IsWhole, AreSo};
ghost use Rattle.worked_journals.specs.Asks as asks;
ghost use Rattle.worked_journals.specs.TwoAsks as two_asks;
ghost use Rattle.worked_journals.specs.Lines as lines;
ghost use Rattle.worked_journals.specs.Ends as ends;
ghost use Rattle.worked_journals.specs.Parks as parks;
ghost use Rattle.worked_journals.specs.Controls as controls;
ghost use Rattle.worked_journals.specs.Bounds as bounds;
ghost use Rattle.worked_journals.specs.Hears as hears;

/// The judge answers None exactly for whole journals, and else the first entry that breaks a rule, or the number of entries.
pub fn judge_is_exact()
    ensures law { JudgesExactly }
{}

/// A plug-in asks for its uninstall on two harts: the journal, and what becomes of it where an entry is dropped, moved, doubled
/// or changed.
pub fn an_ask_has_its_order()
    ensures journal { IsWhole asks.asking asks.asked_journal }
    ensures dropped { AreSo asks.asking asks.dropped }
    ensures moved { AreSo asks.asking asks.moved }
    ensures doubled { AreSo asks.asking asks.doubled }
    ensures changed { AreSo asks.asking asks.changed }
{}

/// Two plug-ins ask in one Turn, and one set asks twice.
pub fn the_first_ask_counts()
    ensures both { AreSo two_asks.both two_asks.both_cases }
    ensures twice { AreSo two_asks.twice two_asks.twice_cases }
{}

/// A script resets and registers a plug-in: the journal, and what becomes of it where an entry is dropped, moved, doubled or
/// changed.
pub fn a_line_has_its_place()
    ensures journal { IsWhole lines.scripted lines.scripted_journal }
    ensures dropped { AreSo lines.scripted lines.dropped }
    ensures moved { AreSo lines.scripted lines.moved }
    ensures doubled { AreSo lines.scripted lines.doubled }
    ensures changed { AreSo lines.scripted lines.changed }
{}

/// Lines of moment 0, with installs and without, and a line that falls due in the Turn of an ask.
pub fn a_line_is_judged_once()
    ensures early { AreSo lines.early lines.early_cases }
    ensures unprepared { AreSo lines.unprepared lines.unprepared_cases }
    ensures meeting { AreSo lines.meeting lines.meeting_cases }
{}

/// Harts leave once they or the group have ended.
pub fn harts_leave_at_their_end()
    ensures alone { AreSo ends.alone ends.alone_cases }
    ensures grouped { AreSo ends.grouped ends.grouped_cases }
    ensures counted { AreSo ends.counted ends.counted_cases }
    ensures unwatched { AreSo ends.unwatched ends.unwatched_cases }
    ensures accessing { AreSo ends.accessing ends.accessing_cases }
{}

/// A parked hart makes no step before its start, gives back, and leaves once nobody is left who could start it.
pub fn parked_harts_wait()
    ensures waiting { AreSo parks.waiting parks.waiting_cases }
    ensures starting { AreSo parks.starting parks.starting_cases }
{}

/// Orders of those who are no harts.
pub fn controls_order()
    ensures ordered { AreSo controls.ordered controls.ordered_cases }
{}

/// A line stands fewer than 512 steps past its moment, and fewer than 512 steps of a Turn follow the one that asks.
pub fn turns_are_bounded()
    ensures late { bounds.IsLateIn bounds.late }
    ensures eager { bounds.IsEagerIn bounds.eager }
{}

/// What boxes have heard in the journals above, what became of columns, and what is asked for.
pub fn boxes_hear_their_spans()
    ensures up_to_the_ask { hears.HearsUpToTheAsk }
    ensures by_the_script { hears.HearsByTheScript }
    ensures accesses { hears.HearsAccesses }
    ensures added { IsWhole hears.adding_run hears.added_journal }
    ensures per_hart { hears.CountsPerHart }
    ensures asks_first { hears.AsksFirst }
{}
