//! The rows of the harts' boxes as one list.

ghost use Rattle.std.specs.Prelude.{◌≡◌, [], map, fold, Some, option_copied, IfOk, OnOk};
ghost use Rattle.std.specs.BTreeMap.{get, keys, IsOrdered, Updates};
ghost use Rattle.std.specs.BTreeSet.{insert_key};
ghost use Rattle.std.specs.Ordering.{nat_cmp};
ghost use Rattle.report_text.specs.Merging.{by_key, heat_of, heat_cmp, row_of_heat, hottest_first, joined, merged};
ghost use Rattle.report_text.specs.Totals.{IsSummed, plus};

use flat_model::{KindName, NoMemory, Row};
use std::alloc::Global;
use std::cmp::Reverse;
use std::collections::{BTreeMap, BTreeSet};

/// A row of a hot block, in the order in which these stand: most runs first, and then the least pc.
#[derive(Clone, Copy, Debug, PartialEq, Eq, PartialOrd, Ord)]
pub(crate) struct Heat {
    pub(crate) runs: Reverse<u64>,
    pub(crate) pc: u64,
    pub(crate) b: u64,
    pub(crate) c: u64,
    pub(crate) d: u64,
}

impl Heat {
    fn of(row: &Row) -> Heat
        ensures { result ≡ heat_of row.now }
    {
        Heat {
            runs: Reverse(row.a),
            pc: row.key,
            b: row.b,
            c: row.c,
            d: row.d,
        }
    }

    fn row(&self) -> Row
        ensures { result ≡ row_of_heat self.now }
    {
        Row {
            key: self.pc,
            a: self.runs.0,
            b: self.b,
            c: self.c,
            d: self.d,
        }
    }
}

/// The rows of a kind that the boxes of a subscription tallied, one list for each hart, as one list: those of `Mem` and `Exec` one
/// after the other; of other kinds a row for each key, ascending, in which each field is the sum of those of its rows modulo 2^64.
/// Those of `Hot` stand by their runs, descending, and then by their pc. `Own` has none.
#[tactic(auto, unfolding(crate::specs::Merging::merged))]
pub fn merge(alloc: Global, name: KindName, tallies: &[Vec<Row>]) -> Result<Vec<Row>, NoMemory>
    ensures rows { IfOk result (λ rows. rows.items ≡ merged name (map (λ tally. tally.items) tallies.now)) }
{
    match name {
        KindName::Mem | KindName::Exec => together(alloc, tallies),
        KindName::Counts | KindName::Classes | KindName::Pages => {
            let rows = together(alloc, tallies)?;
            by_key(alloc, rows.as_slice())
        }
        KindName::Hot => {
            let rows = together(alloc, tallies)?;
            let rows = by_key(alloc, rows.as_slice())?;
            hottest_first(alloc, rows.as_slice())
        }
        KindName::Own { .. } => Ok(Vec::new(alloc)),
    }
}

/// The lists one after the other.
fn together(alloc: Global, tallies: &[Vec<Row>]) -> Result<Vec<Row>, NoMemory>
    ensures rows { IfOk result (λ rows. rows.items ≡ joined (map (λ tally. tally.items) tallies.now)) }
{
    let mut rows = Vec::new(alloc);
    for tally in tallies {
        rows.extend_from_slice(tally.as_slice())?;
    }
    Ok(rows)
}

/// A row for each key, ascending.
fn by_key(alloc: Global, rows: &[Row]) -> Result<Vec<Row>, NoMemory>
    ensures rows { IfOk result (λ sums. sums.items ≡ by_key rows.now) }
{
    let totals = totals_of(alloc, rows)?;
    sums(alloc, &totals)
}

/// The sums, by their keys.
fn sums(alloc: Global, totals: &BTreeMap<u64, Row>) -> Result<Vec<Row>, NoMemory>
    ensures rows { IfOk result (λ sums. sums.items ≡ map (λ entry. entry.1) totals.now.entries) }
{
    Ok(totals.values().copied().collect(alloc)?)
}

/// The sums of each key.
fn totals_of(alloc: Global, rows: &[Row]) -> Result<BTreeMap<u64, Row>, NoMemory>
    ensures summed { IfOk result (λ totals. IsSummed totals rows.now) }
    ensures ordered { IfOk result (λ totals. IsOrdered nat_cmp totals) }
{
    let mut totals = BTreeMap::new(alloc);
    for row in rows {
        add(&mut totals, row)?;
    }
    Ok(totals)
}

/// Adds a row to the sum of its key.
fn add(totals: &mut BTreeMap<u64, Row>, row: &Row) -> Result<(), NoMemory>
    ensures added { OnOk result (Updates nat_cmp totals.old totals.new row.now.key
        (Some (plus (get nat_cmp totals.old row.now.key) row.now))) }
    ensures keys { OnOk result (keys totals.new ≡ insert_key nat_cmp (keys totals.old) row.now.key) }
    ensures ordered { OnOk result (IsOrdered nat_cmp totals.new) }
{
    let sum = plus(totals.get(&row.key), row);
    totals.insert(row.key, sum)?;
    Ok(())
}

/// The sum with a row more, modulo 2^64; where there is none, from nothing.
fn plus(total: Option<&Row>, row: &Row) -> Row
    ensures sum { result ≡ plus (option_copied total.entry) row.now }
{
    let (a, b, c, d) = match total {
        Some(total) => (total.a, total.b, total.c, total.d),
        None => (0, 0, 0, 0),
    };
    Row {
        key: row.key,
        a: a.wrapping_add(row.a),
        b: b.wrapping_add(row.b),
        c: c.wrapping_add(row.c),
        d: d.wrapping_add(row.d),
    }
}

/// The rows by their runs, descending, and then by their pc.
fn hottest_first(alloc: Global, rows: &[Row]) -> Result<Vec<Row>, NoMemory>
    ensures rows { IfOk result (λ sorted. sorted.items ≡ hottest_first rows.now) }
{
    let heats = heats_of(alloc, rows)?;
    heat_rows(alloc, heats)
}

/// The rows of hot blocks, in their order.
fn heat_rows(alloc: Global, heats: BTreeSet<Heat>) -> Result<Vec<Row>, NoMemory>
    ensures rows { IfOk result (λ rows. rows.items ≡ map row_of_heat heats.keys) }
{
    let mut heats = heats;
    let mut rows = Vec::new(alloc);
    while let Some(heat) = heats.pop_first() {
        rows.push(heat.row())?;
    }
    Ok(rows)
}

/// The rows as hot blocks, in their order.
fn heats_of(alloc: Global, rows: &[Row]) -> Result<BTreeSet<Heat>, NoMemory>
    ensures keys { IfOk result (λ heats. heats.keys ≡ fold (insert_key heat_cmp) [] (map heat_of rows.now)) }
{
    let mut heats = BTreeSet::new(alloc);
    for row in rows {
        heats.insert(Heat::of(row))?;
    }
    Ok(heats)
}
