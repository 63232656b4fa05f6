//! What the sets of a hart have made of its steps.

ghost use Rattle.kept_order.specs.Hearing.{SpecsAreOfSets, TurnsAreHeard, AsksWait, TurnsMoveNoSets};

/// The sets of a hart with their filters have the acts of the attached sets.
#[tactic(auto, using(crate::proofs::HeardTurns::specs_are_of_sets))]
pub fn specs_are_of_sets()
    ensures law { SpecsAreOfSets }
{}

/// Sets to which the events of a Turn were delivered are those that the log with this Turn tells.
pub fn turns_are_heard()
    ensures law { TurnsAreHeard }
{}

/// Where the plug-ins whose sets aren't attached asked for nothing, all asks are those that wait after the Turn.
pub fn asks_wait()
    ensures law { AsksWait }
{}

/// A Turn brings a hart no set and takes none.
#[tactic(auto, using(crate::proofs::HeardTurns::turns_move_no_sets))]
pub fn turns_move_no_sets()
    ensures law { TurnsMoveNoSets }
{}
