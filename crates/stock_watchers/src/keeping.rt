//! What a box keeps for its kind.

ghost use Rattle.std.specs.Prelude.{◌≡◌, List, [], ◌∷◌, ◌++◌, MatchResult, IfOk};
ghost use Rattle.std.specs.BTreeMap.{IsUnchanged};
ghost use Rattle.flat_model.specs.declared.events.Event.{Event};
ghost use Rattle.watcher_api.specs.Tallies.{rows_named};
ghost use Rattle.stock_watchers.specs.Keeping.{Keeps, HasHeard, HasMissed};
ghost use Rattle.stock_watchers.specs.Numbers.{IsNumbered};
ghost use Rattle.stock_watchers.specs.Totals.{IsTotalled};

use crate::numbers::{count, number_rows};
use crate::totals::{Total, add, total_rows};
use crate::traces::{trace_access, trace_instruction};
use flat_model::limits::{PAGE_BYTES, READS, WRITES};
use flat_model::{Event, KindName, NoMemory, Row, What};
use std::alloc::Global;
use std::collections::BTreeMap;
use watcher_api::key_of;

/// What the rows of a kind need of the events; nothing for a kind of the caller's own.
#[derive(Drop)]
pub(crate) enum Kept {
    Nothing,
    /// By the numbers of the kinds of event.
    Counts([Option<u64>; 7]),
    /// By the pc of the block: runs and words.
    Hot(BTreeMap<u64, Total>),
    Mem(Vec<Row>),
    Exec(Vec<Row>),
    /// By the numbers of the classes.
    Classes([Option<u64>; 9]),
    /// By the number of the page: loads and stores.
    Pages(BTreeMap<u64, Total>),
}

impl Kept {
    /// What is kept for a kind before any event.
    pub(crate) fn of_none(alloc: Global, name: KindName) -> Kept
        ensures { Keeps result name [] }
    {
        match name {
            KindName::Counts => Kept::Counts([None; 7]),
            KindName::Hot => Kept::Hot(BTreeMap::new(alloc)),
            KindName::Mem => Kept::Mem(Vec::new(alloc)),
            KindName::Exec => Kept::Exec(Vec::new(alloc)),
            KindName::Classes => Kept::Classes([None; 9]),
            KindName::Pages => Kept::Pages(BTreeMap::new(alloc)),
            KindName::Own { .. } => Kept::Nothing,
        }
    }

    /// Keeps what the rows need of one event more; where memory runs out, nothing of it.
    pub(crate) fn hear(&mut self, e: &Event) -> Result<(), NoMemory>
        ensures { MatchResult result (λ _. HasHeard self.old self.new e.now) (λ _. HasMissed self.old self.new) }
    {
        match self {
            Kept::Nothing => Ok(()),
            Kept::Counts(numbers) => {
                count_kind(numbers, e);
                Ok(())
            }
            Kept::Hot(totals) => add_block(totals, e),
            Kept::Mem(rows) => trace_access(rows, e),
            Kept::Exec(rows) => trace_instruction(rows, e),
            Kept::Classes(numbers) => {
                count_class(numbers, e);
                Ok(())
            }
            Kept::Pages(totals) => add_access(totals, e),
        }
    }

    /// The rows of the kind.
    pub(crate) fn rows(&self, alloc: Global) -> Result<Vec<Row>, NoMemory>
        ensures { IfOk result (λ tally.
            (name : KindName) (heard : List Event) → Keeps self.now name heard → tally.items ≡ rows_named name heard) }
    {
        match self {
            Kept::Nothing => Ok(Vec::new(alloc)),
            Kept::Counts(numbers) => number_rows(alloc, &[0, 1, 2, 3, 4, 5, 6], numbers),
            Kept::Classes(numbers) => number_rows(alloc, &[0, 1, 2, 3, 4, 5, 6, 7, 8], numbers),
            Kept::Hot(totals) => total_rows(alloc, totals),
            Kept::Pages(totals) => total_rows(alloc, totals),
            Kept::Mem(rows) | Kept::Exec(rows) => Ok(Vec::from_slice(alloc, rows)?),
        }
    }
}

/// Counts an event by its kind.
#[inline]
fn count_kind(numbers: &mut [Option<u64>; 7], e: &Event)
    ensures { (heard : List Event)
        → IsNumbered KindName.Counts numbers.old heard → IsNumbered KindName.Counts numbers.new (heard ++ e.now ∷ []) }
{
    if let Some(key) = key_of(&KindName::Counts, e) {
        count(numbers, key);
    }
}

/// Counts an executed instruction by the class of its word.
fn count_class(numbers: &mut [Option<u64>; 9], e: &Event)
    ensures { (heard : List Event)
        → IsNumbered KindName.Classes numbers.old heard → IsNumbered KindName.Classes numbers.new (heard ++ e.now ∷ []) }
{
    if let Some(key) = key_of(&KindName::Classes, e) {
        count(numbers, key);
    }
}

/// Adds a block to the runs and the words at its pc.
fn add_block(totals: &mut BTreeMap<u64, Total>, e: &Event) -> Result<(), NoMemory>
    ensures { MatchResult result
        (λ _. (heard : List Event) → IsTotalled KindName.Hot totals.old heard → IsTotalled KindName.Hot totals.new (heard ++ e.now ∷ []))
        (λ _. IsUnchanged totals.old totals.new) }
{
    match e.what {
        What::Block { pc, n } => {
            add(totals, pc, 1, u64::from(n))?;
            Ok(())
        }
        _ => Ok(()),
    }
}

/// Adds an access to the loads and the stores of the page where it begins.
fn add_access(totals: &mut BTreeMap<u64, Total>, e: &Event) -> Result<(), NoMemory>
    ensures { MatchResult result
        (λ _. (heard : List Event)
        → IsTotalled KindName.Pages totals.old heard → IsTotalled KindName.Pages totals.new (heard ++ e.now ∷ []))
        (λ _. IsUnchanged totals.old totals.new) }
{
    match e.what {
        What::Mem { addr, rw, .. } => {
            let loads = rw & READS != 0;
            let stores = rw & WRITES != 0;
            let page = addr / PAGE_BYTES;
            add(totals, page, u64::from(loads), u64::from(stores))?;
            Ok(())
        }
        _ => Ok(()),
    }
}
