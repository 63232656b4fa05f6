//! The events of a turn, before they are delivered.

ghost use Rattle.std.specs.Prelude.{◌≡◌, ◌<◌, ◌-◌, true, false, [], ◌∷◌, length, IfOk};
ghost use Rattle.flat_model.specs.Step.{as_events};
ghost use Rattle.rv_exec.specs.Logged.{Logs};

use flat_model::{Event, NoMemory, Trace, What};
use std::alloc::Global;
use std::marker::Model;

/// How many events a log has room for.
pub const EVENTS_MOST: usize = 2048;

/// The events that steps have given, in order, at most 2,048 of them. A silent log stores none.
#[derive(Drop)]
pub struct RawLog {
    stored: Vec<Event>,
    stores: bool,
    told: Trace<Event>,
}

impl Model for RawLog {
    ghost use Rattle.rv_exec.specs.Logged.{LogState};

    ghost Value = { LogState };

    ghost use Rattle.std.specs.Prelude.{◌≡◌, ◌≤◌, true, vec_capacity};

    ghost view = { λ log. record { events = log.told.items; kept = log.stores } };

    ghost invariant = { λ log. log.stores ≡ true → (2048 ≤ vec_capacity log.stored) × (log.stored.items ≡ log.told.items) };
}

impl RawLog {
    /// An empty log, with its room taken.
    pub fn new(alloc: Global) -> Result<RawLog, NoMemory>
        ensures empty { IfOk result (λ log. log ≡ record { events = []; kept = true }) }
    {
        let stored = Vec::with_capacity(alloc, EVENTS_MOST)?;
        Ok(RawLog {
            stored,
            stores: true,
            told: Trace::new(),
        })
    }

    /// An empty log for events that nobody reads: it stores none, and takes no memory.
    pub fn silent(alloc: Global) -> RawLog
        ensures empty { result ≡ record { events = []; kept = false } }
    {
        RawLog {
            stored: Vec::new(alloc),
            stores: false,
            told: Trace::new(),
        }
    }

    /// Whether the log stores its events.
    pub fn is_kept(&self) -> bool
        ensures kept { result ≡ self.now.kept }
    {
        self.stores
    }

    /// The events so far.
    pub fn events(&self) -> &[Event]
        requires kept { self.now.kept ≡ true }
        ensures events { result.now ≡ self.now.events }
    {
        self.stored.as_slice()
    }

    /// How many more events there is room for.
    pub fn room(&self) -> usize
        requires kept { self.now.kept ≡ true }
        ensures room { result ≡ 2048 - length self.now.events }
    {
        EVENTS_MOST.saturating_sub(self.stored.len())
    }

    /// Forgets the events and keeps the room.
    pub fn clear(&mut self)
        ensures empty { self.new ≡ record self.old { events = [] } }
    {
        self.stored.clear();
        self.told = Trace::new();
    }

    /// Appends an event of a hart's step.
    #[inline(always)]
    pub(crate) fn log(&mut self, hart: u8, step: u64, what: What)
        requires room { length self.old.events < 2048 }
        ensures logged { Logs self.old (as_events hart step (what ∷ [])) self.new }
    {
        let event = Event { hart, step, what };
        self.told = self.told.and(&event);
        if self.stores {
            self.stored.push_reserved(event);
        }
    }
}
