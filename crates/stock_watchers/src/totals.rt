//! Two sums of events by key.

ghost use Rattle.std.specs.Prelude.{◌≡◌, map, Some, IfOk, OnOk, OnErr};
ghost use Rattle.std.specs.BTreeMap.{get, keys, IsOrdered, IsUnchanged, Updates};
ghost use Rattle.std.specs.BTreeSet.{insert_key};
ghost use Rattle.std.specs.Ordering.{nat_cmp};
ghost use Rattle.stock_watchers.specs.Totals.{more_by, total_row};

use flat_model::{NoMemory, Row};
use std::alloc::Global;
use std::collections::BTreeMap;

/// What the events with one key add up to, modulo 2^64.
#[derive(Clone, Copy, Debug)]
pub(crate) struct Total {
    pub(crate) first: u64,
    pub(crate) second: u64,
}

/// Adds to the sums of a key.
pub(crate) fn add(
    totals: &mut BTreeMap<u64, Total>,
    key: u64,
    first: u64,
    second: u64,
) -> Result<(), NoMemory>
    ensures added { OnOk result (Updates nat_cmp totals.old totals.new key (Some (more_by first second (get nat_cmp totals.old key)))) }
    ensures keys { OnOk result (keys totals.new ≡ insert_key nat_cmp (keys totals.old) key) }
    ensures refused { OnErr result (IsUnchanged totals.old totals.new) }
{
    if let Some(total) = totals.get_mut(&key) {
        *total = Total {
            first: total.first.wrapping_add(first),
            second: total.second.wrapping_add(second),
        };
        return Ok(());
    }
    totals.insert(key, Total { first, second })?;
    Ok(())
}

/// The rows of all keys, ascending.
pub(crate) fn total_rows(alloc: Global, totals: &BTreeMap<u64, Total>) -> Result<Vec<Row>, NoMemory>
    ensures rows { IfOk result (λ tally. tally.items ≡ map total_row totals.now.entries) }
    ensures ordered { IsOrdered nat_cmp totals.now }
{
    let rows = totals.iter().map(
        |pair| -> Row
            ensures { result ≡ total_row (pair.entry.0.now, pair.entry.1.now) }
        { total_row(pair.0, pair.1) },
    );
    Ok(rows.collect(alloc)?)
}

/// The row of a key.
fn total_row(key: &u64, total: &Total) -> Row
    ensures { result ≡ total_row (key.now, total.now) }
{
    Row {
        key: *key,
        a: total.first,
        b: total.second,
        c: 0,
        d: 0,
    }
}
