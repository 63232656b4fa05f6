//! What the closers of plug-ins were told, and where the sets of a whole state are.

ghost use Rattle.kept_order.specs.Summing.{EndedSetsAreTold, LiveSetsAreThere, SetsKeepWidths};

/// A set that has ended hears nothing more, and its notice has its boxes and columns.
pub fn ended_sets_are_told()
    ensures law { EndedSetsAreTold }
{}

/// A set that hasn't ended is in the state, where the hart has left.
pub fn live_sets_are_there()
    ensures law { LiveSetsAreThere }
{}

/// A set keeps the numbers of its entries and subscriptions.
pub fn sets_keep_widths()
    ensures law { SetsKeepWidths }
{}
