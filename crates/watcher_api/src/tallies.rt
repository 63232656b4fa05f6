//! The rows of each kind, from a list of events: plain and slow.

ghost use Rattle.std.specs.Prelude.{◌≡◌, ◌<◌, ◌%◌, ◌^◌, count_by, filter_map, length, sum_by, IfOk};
ghost use Rattle.watcher_api.specs.Tallies.{
  rows,
  rows_named,
  traced,
  tallied,
  counted,
  ascending,
  row_of,
  row_at,
  with_key,
  key_of,
  kind_number,
  class_number,
  exec_row,
  mem_row,
  goes,
  words,
};

use flat_model::limits::{PAGE_BYTES, READS, WRITES};
use flat_model::{Class, Event, Kind, KindName, NoMemory, Row, What};
use rv_decode::word_class;
use std::alloc::Global;
use std::collections::BTreeSet;

/// How many rows a kind keeps that has a row for each event.
pub const MOST_ROWS: usize = 65_536;

/// The rows that a box of the kind tallies for these events.
#[tactic(auto, unfolding(crate::specs::Tallies::rows))]
pub fn rows_of(alloc: Global, kind: Kind, events: &[Event]) -> Result<Vec<Row>, NoMemory>
    ensures { IfOk result (λ tally. tally.items ≡ rows kind events.now) }
{
    let name = kind.name;
    match name {
        KindName::Counts => counted(alloc, &name, &[0, 1, 2, 3, 4, 5, 6], events),
        KindName::Classes => counted(alloc, &name, &[0, 1, 2, 3, 4, 5, 6, 7, 8], events),
        KindName::Hot | KindName::Pages => tallied(alloc, &name, events),
        KindName::Mem => mem_rows(alloc, events),
        KindName::Exec => exec_rows(alloc, events),
        KindName::Own { .. } => Ok(Vec::new(alloc)),
    }
}

/// A row for each access, the first 65,536.
#[tactic(auto, unfolding(crate::specs::Tallies::traced))]
fn mem_rows(alloc: Global, events: &[Event]) -> Result<Vec<Row>, NoMemory>
    ensures { IfOk result (λ tally. tally.items ≡ traced mem_row events.now) }
{
    Ok(
        events
            .iter()
            .filter_map(mem_row)
            .take(MOST_ROWS)
            .collect(alloc)?,
    )
}

/// A row for each executed instruction, the first 65,536.
#[tactic(auto, unfolding(crate::specs::Tallies::traced))]
fn exec_rows(alloc: Global, events: &[Event]) -> Result<Vec<Row>, NoMemory>
    ensures { IfOk result (λ tally. tally.items ≡ traced exec_row events.now) }
{
    Ok(
        events
            .iter()
            .filter_map(exec_row)
            .take(MOST_ROWS)
            .collect(alloc)?,
    )
}

/// The row of an access; `None` for another event.
pub fn mem_row(e: &Event) -> Option<Row>
    ensures { result ≡ mem_row e.now }
{
    let hart = u64::from(e.hart);
    match e.what {
        What::Mem {
            pc,
            addr,
            shift,
            signed,
            rw,
            read,
            written,
        } => Some(Row {
            key: addr,
            a: read,
            b: pc,
            c: u64::from(shift) + 4 * u64::from(signed) + 8 * u64::from(rw) + 256 * hart,
            d: written,
        }),
        _ => None,
    }
}

/// The row of an executed instruction; `None` for another event.
pub fn exec_row(e: &Event) -> Option<Row>
    ensures { result ≡ exec_row e.now }
{
    match e.what {
        What::Insn { pc, word } => Some(Row {
            key: pc,
            a: u64::from(word),
            b: e.step,
            c: u64::from(e.hart),
            d: 0,
        }),
        _ => None,
    }
}

/// The row of each of the keys that occurs.
#[tactic(auto, unfolding(crate::specs::Tallies::counted))]
fn counted(
    alloc: Global,
    name: &KindName,
    keys: &[u64],
    events: &[Event],
) -> Result<Vec<Row>, NoMemory>
    ensures { IfOk result (λ tally. tally.items ≡ counted name.now keys.now events.now) }
{
    let rows = keys.iter().filter_map(
        |key| -> Option<Row>
            ensures { result ≡ row_at name.entry.now events.entry.now key.now }
        { row_at(name, *key, events) },
    );
    Ok(rows.collect(alloc)?)
}

/// A row for each key that occurs, ascending.
#[tactic(auto, unfolding(crate::specs::Tallies::tallied))]
fn tallied(alloc: Global, name: &KindName, events: &[Event]) -> Result<Vec<Row>, NoMemory>
    ensures { IfOk result (λ tally. tally.items ≡ tallied name.now events.now) }
{
    let keys = keys_of(alloc, name, events)?;
    let rows = keys.iter().map(
        |key| -> Row
            ensures { result ≡ row_of name.entry.now key.now (with_key name.entry.now key.now events.entry.now) }
        { row_of(name, *key, events) },
    );
    Ok(rows.collect(alloc)?)
}

/// The keys that occur.
#[tactic(auto, unfolding(crate::specs::Tallies::ascending))]
fn keys_of(alloc: Global, name: &KindName, events: &[Event]) -> Result<BTreeSet<u64>, NoMemory>
    ensures { IfOk result (λ keys. keys.keys ≡ ascending (filter_map (key_of name.now) events.now)) }
{
    let mut keys = BTreeSet::new(alloc);
    for e in events {
        if let Some(key) = key_of(name, e) {
            keys.insert(key)?;
        }
    }
    Ok(keys)
}

/// The key under which a kind counts an event; `None` where it counts none. Mem, Exec and Own count none.
pub fn key_of(name: &KindName, e: &Event) -> Option<u64>
    ensures { result ≡ key_of name.now e.now }
{
    match (name, &e.what) {
        (KindName::Counts, what) => Some(kind_number(what)),
        (KindName::Hot, What::Block { pc, .. }) => Some(*pc),
        (KindName::Classes, What::Insn { word, .. }) => Some(class_number(&word_class(*word))),
        (KindName::Pages, What::Mem { addr, .. }) => Some(*addr / PAGE_BYTES),
        _ => None,
    }
}

/// The number of a kind of event, which is that of its bit in a filter.
fn kind_number(what: &What) -> u64
    ensures { result ≡ kind_number what.now }
{
    match what {
        What::Init => 0,
        What::Block { .. } => 1,
        What::Insn { .. } => 2,
        What::Mem { .. } => 3,
        What::Sys { .. } => 4,
        What::SysRet { .. } => 5,
        What::Exit { .. } => 6,
    }
}

/// The number of a class, which is that of its bit in a filter.
fn class_number(class: &Class) -> u64
    ensures { result ≡ class_number class.now }
{
    match class {
        Class::Alu => 0,
        Class::MulDiv => 1,
        Class::Load => 2,
        Class::Store => 3,
        Class::Branch => 4,
        Class::Jump => 5,
        Class::Atomic => 6,
        Class::System => 7,
        Class::Illegal => 8,
    }
}

/// The row of a key, where it occurs.
fn row_at(name: &KindName, key: u64, events: &[Event]) -> Option<Row>
    ensures { result ≡ row_at name.now events.now key }
{
    if number(name, key, events) == 0 {
        return None;
    }
    Some(row_of(name, key, events))
}

/// The row of the events with a key.
fn row_of(name: &KindName, key: u64, events: &[Event]) -> Row
    ensures { result ≡ row_of name.now key (with_key name.now key events.now) }
{
    match name {
        KindName::Hot => Row {
            key,
            a: number(name, key, events),
            b: words_of(key, events),
            c: 0,
            d: 0,
        },
        KindName::Pages => Row {
            key,
            a: accesses(key, READS, events),
            b: accesses(key, WRITES, events),
            c: 0,
            d: 0,
        },
        _ => Row {
            key,
            a: number(name, key, events),
            b: 0,
            c: 0,
            d: 0,
        },
    }
}

/// How many of the events have the key.
fn number(name: &KindName, key: u64, events: &[Event]) -> u64
    ensures number { result ≡ length (with_key name.now key events.now) }
    ensures fits { result < 2 ^ 64 }
{
    events
        .iter()
        .filter(|e| key_of(name, e) == Some(key))
        .count() as u64
}

/// The words of all blocks at a pc, modulo 2^64.
fn words_of(pc: u64, events: &[Event]) -> u64
    ensures { result ≡ sum_by (λ e. words e.what) (with_key KindName.Hot pc events.now) % 2 ^ 64 }
{
    let mut sum: u64 = 0;
    for e in events {
        match e.what {
            What::Block { pc: start, n } if start == pc => sum = sum.wrapping_add(u64::from(n)),
            _ => {}
        }
    }
    sum
}

/// How many accesses of a page go in the direction, READS or WRITES.
fn accesses(page: u64, direction: u8, events: &[Event]) -> u64
    ensures number { result ≡ count_by (λ e. goes direction e.what) (with_key KindName.Pages page events.now) }
    ensures fits { result < 2 ^ 64 }
{
    events
        .iter()
        .filter(|e| key_of(&KindName::Pages, e) == Some(page))
        .filter(|e| goes(direction, &e.what))
        .count() as u64
}

/// Whether it is an access in the direction, READS or WRITES.
fn goes(direction: u8, what: &What) -> bool
    ensures { result ≡ goes direction what.now }
{
    match what {
        What::Mem { rw, .. } => *rw & direction != 0,
        _ => false,
    }
}
