//! Numbers of events by a few small keys.

ghost use Rattle.std.specs.Prelude.{◌≡◌, ◌<◌, length, slice_set, slice_index_or, None, IfOk};
ghost use Rattle.stock_watchers.specs.Numbers.{one_more, number_row, number_rows};

use flat_model::{NoMemory, Row};
use std::alloc::Global;

/// Counts one event more at the key. A number is `None` until its key occurs.
#[inline]
pub(crate) fn count(numbers: &mut [Option<u64>], key: u64)
    requires { key < length numbers.old }
    ensures { numbers.new ≡ slice_set numbers.old key (one_more (slice_index_or numbers.old key None)) }
{
    let place = key as usize;
    numbers[place] = match numbers[place] {
        None => Some(1),
        Some(n) => Some(n.wrapping_add(1)),
    };
}

/// The row of each of the keys that has a number.
pub(crate) fn number_rows(
    alloc: Global,
    keys: &[u64],
    numbers: &[Option<u64>],
) -> Result<Vec<Row>, NoMemory>
    ensures { IfOk result (λ tally. tally.items ≡ number_rows keys.now numbers.now) }
{
    let rows = keys.iter().filter_map(
        |key| -> Option<Row>
            ensures { result ≡ number_row key.now (slice_index_or numbers.entry.now key.now None) }
        { number_row(*key, numbers) },
    );
    Ok(rows.collect(alloc)?)
}

/// The row of a key, where it has a number.
fn number_row(key: u64, numbers: &[Option<u64>]) -> Option<Row>
    ensures { result ≡ number_row key (slice_index_or numbers.now key None) }
{
    let number = match numbers.get(key as usize) {
        Some(number) => *number,
        None => None,
    };
    match number {
        Some(a) => Some(Row {
            key,
            a,
            b: 0,
            c: 0,
            d: 0,
        }),
        None => None,
    }
}
