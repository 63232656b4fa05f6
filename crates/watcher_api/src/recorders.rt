//! The box that keeps every event.

ghost use Rattle.std.specs.Prelude.{◌≡◌, ◌<◌, ◌^◌, List, length};
ghost use Rattle.flat_model.specs.declared.events.Event.{Event};

use crate::tallies::rows_of;
use crate::watchers::{Watcher, asked};
use flat_model::{Ask, Event, Kind, NoMemory, Row};
use std::alloc::Global;

/// A box that keeps every event that it hears.
#[derive(Debug, Drop)]
pub struct Recorder {
    kind: Option<Kind>,
    events: Vec<Event>,
}

impl Recorder {
    /// A blank box.
    pub fn blank(alloc: Global) -> Recorder
        ensures { ⟦<Recorder as Watcher>⟧.kind_of result ≡ None }
    {
        Recorder {
            kind: None,
            events: Vec::new(alloc),
        }
    }

    /// How many events it has heard.
    pub fn heard(&self) -> u64
        ensures heard { (events : List Event) → ⟦<Recorder as Watcher>⟧.stands self.now events → result ≡ length events }
        ensures bounded { result < 2 ^ 63 }
    {
        self.events.len() as u64
    }

    /// The events that it has heard, in order.
    pub fn events(&self) -> &[Event]
        ensures heard { (events : List Event) → ⟦<Recorder as Watcher>⟧.stands self.now events → result.now ≡ events }
    {
        &self.events
    }
}

impl Watcher for Recorder {
    ghost kind_of = { λ b. b.kind };

    ghost stands = { λ b events. b.events.items ≡ events };

    fn prepare(&mut self, kind: Kind) {
        self.kind = Some(kind);
        self.events.clear();
    }

    fn call(&mut self, e: &Event) -> Result<Ask, NoMemory> {
        let Some(kind) = self.kind else {
            return Ok(Ask::Stay);
        };
        self.events.push(*e)?;
        Ok(asked(&kind, self.events.len() as u64))
    }

    fn tally(&self, alloc: Global) -> Result<Vec<Row>, NoMemory> {
        match self.kind {
            Some(kind) => rows_of(alloc, kind, &self.events),
            None => Ok(Vec::new(alloc)),
        }
    }
}
