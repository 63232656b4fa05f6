//! A box for tests of what becomes of a run when a box has no memory.

ghost use Rattle.std.specs.Prelude.{◌≡◌, None};

use crate::recorders::Recorder;
use crate::watchers::Watcher;
use flat_model::{Ask, Event, Kind, NoMemory, Row};
use std::alloc::Global;

/// A recorder whose call of number `refused` answers that memory ran out, and so does each call after it.
#[derive(Debug, Drop)]
pub struct Refuser {
    refused: u64,
    inner: Recorder,
}

impl Refuser {
    /// A blank box that refuses its call of this number, from 1.
    pub fn blank(alloc: Global, refused: u64) -> Refuser
        ensures { ⟦<Refuser as Watcher>⟧.kind_of result ≡ None }
    {
        Refuser {
            refused,
            inner: Recorder::blank(alloc),
        }
    }
}

impl Watcher for Refuser {
    ghost kind_of = { λ b. ⟦<Recorder as Watcher>⟧.kind_of b.inner };

    ghost stands = { λ b events. ⟦<Recorder as Watcher>⟧.stands b.inner events };

    fn prepare(&mut self, kind: Kind) {
        self.inner.prepare(kind);
    }

    fn call(&mut self, e: &Event) -> Result<Ask, NoMemory> {
        if self.inner.heard() + 1 >= self.refused {
            return Err(NoMemory);
        }
        self.inner.call(e)
    }

    fn tally(&self, alloc: Global) -> Result<Vec<Row>, NoMemory> {
        self.inner.tally(alloc)
    }
}
