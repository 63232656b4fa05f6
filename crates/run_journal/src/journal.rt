//! Entries with neighbouring Turns of one hart joined, and the number of their steps.

ghost use Rattle.std.specs.Prelude.{◌≡◌, ◌+◌, ◌-◌, ◌≤◌, ◌<◌, ◌^◌, ◌++◌, ◌∷◌, ◌↔◌, [], None};
ghost use Rattle.std.specs.Prelude.{false, IsTrue, IfSome, IfOk, OnOk, OnErr};
ghost use Rattle.std.specs.Prelude.{length, slice_index_or, slice_set, vec_len, vec_capacity};
ghost use Rattle.flat_model.specs.Log.{log, with_entry, total_steps, HasSteps, IsJoined, last_turn, turning, are_one};
ghost use Rattle.run_journal.specs.Journal.{IsSmall, joined_turn, recorded, steps_in};

use flat_model::{Entry, NoMemory};
use std::alloc::Global;
use std::marker::Model;

/// Entries in their order. No Turn is next to a Turn of its hart, and none is without steps.
#[derive(Debug, Drop)]
pub struct Journal {
    entries: Vec<Entry>,
    steps: u128,
}

impl Model for Journal {
    ghost use Rattle.std.specs.Prelude.{◌-◌, vec_len, vec_capacity};
    ghost use Rattle.run_journal.specs.Journal.{JournalState, IsCounted};

    ghost Value = { JournalState };

    ghost view = { λ j. record { entries = j.entries.items; spare = vec_capacity j.entries - vec_len j.entries } };

    ghost invariant = { λ j. IsCounted j.entries.items j.steps };
}

impl Journal {
    /// A journal without entries.
    pub fn new(alloc: Global) -> Result<Journal, NoMemory>
        ensures { IfOk result (λ journal. journal.entries ≡ []) }
    {
        Ok(Journal {
            entries: Vec::new(alloc),
            steps: 0,
        })
    }

    /// Makes room for `n` more entries at least.
    pub fn reserve(&mut self, n: usize) -> Result<(), NoMemory>
        ensures entries { self.new.entries ≡ self.old.entries }
        ensures room { OnOk result (n ≤ self.new.spare) }
        ensures kept { self.old.spare ≤ self.new.spare }
        ensures unchanged { OnErr result (self.new ≡ self.old) }
    {
        self.entries.reserve(n)?;
        Ok(())
    }

    /// How many more entries there is room for.
    pub fn spare(&self) -> usize
        ensures spare { result ≡ self.now.spare }
    {
        self.entries.capacity() - self.entries.len()
    }

    /// Adds an entry. A Turn that follows a Turn of its hart is joined to it.
    pub fn push(&mut self, entry: Entry)
        requires room { 0 < self.old.spare }
        requires steps { HasSteps entry }
        requires fits { IfSome (joined_turn self.old.entries entry) IsSmall }

        ensures recorded { self.new.entries ≡ recorded self.old.entries entry }
        ensures appends { log self.new.entries ≡ with_entry entry (log self.old.entries) }
        ensures joined { IsJoined self.new.entries }
        ensures alone { are_one (last_turn None self.old.entries) (turning entry) ≡ false
            → self.new.entries ≡ self.old.entries ++ entry ∷ [] }
        ensures room_left { self.old.spare ≤ self.new.spare + 1 }
    {
        self.steps += steps_in(&entry);
        record(&mut self.entries, entry);
    }

    /// The number of steps of all harts.
    pub fn total(&self) -> u128
        ensures { result ≡ total_steps (log self.now.entries) }
    {
        self.steps
    }

    /// The number of entries.
    pub fn len(&self) -> usize
        ensures { result ≡ length self.now.entries }
    {
        self.entries.len()
    }

    pub fn is_empty(&self) -> bool
        ensures { IsTrue result ↔ (self.now.entries ≡ []) }
    {
        self.entries.is_empty()
    }

    /// The entry with index `i`, from 0.
    pub fn get(&self, i: usize) -> &Entry
        requires { i < length self.now.entries }
        ensures { result.now ≡ slice_index_or self.now.entries i result.now }
    {
        &self.entries[i]
    }

    pub fn entries(&self) -> &[Entry]
        ensures entries { result.now ≡ self.now.entries }
        ensures joined { IsJoined self.now.entries }
    {
        &self.entries
    }
}

/// The steps that an entry stands for.
fn steps_in(entry: &Entry) -> u128
    ensures steps { result ≡ steps_in entry.now }
    ensures small { result < 2 ^ 32 }
{
    match entry {
        Entry::Turn { hart: _, n } => u128::from(*n),
        _ => 0,
    }
}

/// Adds an entry, or joins it to the last.
fn record(entries: &mut Vec<Entry>, entry: Entry)
    requires room { vec_len entries.old < vec_capacity entries.old }
    requires fits { IfSome (joined_turn entries.old.items entry) IsSmall }
    ensures entries { entries.new.items ≡ recorded entries.old.items entry }
    ensures length { vec_len entries.new ≤ vec_len entries.old + 1 }
    ensures capacity { vec_capacity entries.old ≤ vec_capacity entries.new }
{
    match joined(entries, &entry) {
        Some(turn) => replace_last(entries, turn),
        None => entries.push(entry).unwrap(),
    }
}

fn replace_last(entries: &mut Vec<Entry>, turn: Entry)
    requires { 0 < vec_len entries.old }
    ensures entries { entries.new.items ≡ slice_set entries.old.items (vec_len entries.old - 1) turn }
    ensures length { vec_len entries.new ≡ vec_len entries.old }
    ensures capacity { vec_capacity entries.new ≡ vec_capacity entries.old }
{
    let last = entries.len() - 1;
    entries[last] = turn;
}

/// The Turn that joins `entry` and the last of `entries`, where both are Turns of one hart.
fn joined(entries: &[Entry], entry: &Entry) -> Option<Entry>
    requires { IfSome (joined_turn entries.now entry.now) IsSmall }
    ensures { result ≡ joined_turn entries.now entry.now }
{
    match (entries.last(), entry) {
        (Some(Entry::Turn { hart: last, n }), Entry::Turn { hart, n: more }) if last == hart => {
            Some(Entry::Turn {
                hart: *hart,
                n: *n + *more,
            })
        }
        _ => None,
    }
}
