//! Scoreboards: each hart has a column of entries for each set of subscriptions, which inline acts change
//! and conditions read. Entries are unsigned 64-bit numbers.
#![tactic(auto)]

ghost use Rattle.std.specs.Prelude.{◌≡◌, ◌<◌, IfOk, All, List, ℕ, length, slice_index, map};
ghost use Rattle.flat_model.specs.Columns.{opening_column, after_act, holds, entry_sum};

use flat_model::{Cond, NoMemory, Op};
use std::alloc::Global;
use std::marker::Model;

/// The entries of one hart.
#[derive(Debug, Drop)]
pub struct Column {
    entries: Vec<u64>,
}

impl Model for Column {
    ghost Value = { List ℕ };

    ghost view = { λ c. c.entries.items };
}

impl Column {
    /// A column of as many entries, all 0.
    pub fn new(alloc: Global, entries: u8) -> Result<Column, NoMemory>
        ensures { IfOk result (λ column. column ≡ opening_column entries) }
    {
        let entries = vec![in alloc; 0u64; entries as usize]?;
        Ok(Column { entries })
    }

    /// How many entries there are.
    pub fn len(&self) -> usize
        ensures { result ≡ length self.now }
    {
        self.entries.len()
    }

    /// Carries out an inline act on an entry, from 0.
    pub fn apply(&mut self, op: Op, entry: u8, imm: u64)
        requires { entry < length self.old }
        ensures { self.new ≡ after_act op entry imm self.old }
    {
        let place = &mut self.entries[entry as usize];
        *place = match op {
            Op::Add => place.wrapping_add(imm),
            Op::Store => imm,
        };
    }

    /// Whether the condition holds between an entry and `imm`.
    pub fn holds(&self, cond: Cond, entry: u8, imm: u64) -> bool
        requires { entry < length self.now }
        ensures { result ≡ holds cond (slice_index self.now entry) imm }
    {
        let value = self.get(entry);
        match cond {
            Cond::Never => false,
            Cond::Always => true,
            Cond::Eq => value == imm,
            Cond::Ne => value != imm,
            Cond::Lt => value < imm,
            Cond::Le => value <= imm,
            Cond::Gt => value > imm,
            Cond::Ge => value >= imm,
        }
    }

    /// The value of an entry.
    pub fn get(&self, entry: u8) -> u64
        requires { entry < length self.now }
        ensures { result ≡ slice_index self.now entry }
    {
        self.entries[entry as usize]
    }
}

/// A hart's column that nobody changes any more.
#[derive(Debug, Drop)]
pub struct ParkedColumn {
    pub hart: u8,
    pub column: Column,
}

/// The sum of an entry over the columns, modulo 2^64.
pub fn sum(columns: &[ParkedColumn], entry: u8) -> u64
    requires { All (λ parked. entry < length parked.column) columns.now }
    ensures { result ≡ entry_sum entry (map (λ parked. parked.column) columns.now) }
{
    let mut total = 0u64;
    for parked in columns {
        total = total.wrapping_add(parked.column.get(entry));
    }
    total
}
