//! What holds of the definitions of rows, stated on a function that does nothing.

ghost use Rattle.watcher_api.specs.KeyLaws.{KeysAscend, KeysOccur, RowsCount};

/// The rows by key are one for each key that occurs, ascending, each that of the events with its key.
pub fn rows_by_key()
    ensures ascend { KeysAscend }
    ensures occur { KeysOccur }
    ensures count { RowsCount }
{}
