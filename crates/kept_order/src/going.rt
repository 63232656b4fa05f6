//! Runners between their holds, and Turns.

ghost use Rattle.kept_order.specs.Going.{OthersLeaveRunnersAlone, LeftIsLeft, TurnsBegin, TurnsGoOn, PrivateTurnsGoOn};
ghost use Rattle.kept_order.specs.Going.{HartsRun, RowsGoOn};

/// What a runner has stays as it is while others hold the state.
pub fn others_leave_runners_alone()
    ensures seated { OthersLeaveRunnersAlone }
    ensures left { LeftIsLeft }
{}

/// A Turn may begin where nothing is passed by, and goes on while its hart runs.
pub fn turns_go_on()
    ensures begin { TurnsBegin }
    ensures next { TurnsGoOn }
    ensures private { PrivateTurnsGoOn }
    ensures runs { HartsRun }
{}

/// Steps in a row tell their events one after the other.
pub fn rows_go_on()
    ensures law { RowsGoOn }
{}
