//! Completions.

ghost use Rattle.kept_order.specs.Closing.{ClosingsKeepOrder, DonesKeepOrder};

/// A party that takes a closing keeps the state in order, and is handed what the closer is to be told.
pub fn closings_keep_order()
    ensures law { ClosingsKeepOrder }
{}

/// A Done keeps the state in order: the closer is back with one notice more.
pub fn dones_keep_order()
    ensures law { DonesKeepOrder }
{}
