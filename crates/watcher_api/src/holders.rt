//! A box beside what it has heard, so that those who hold it see plain data.

ghost use Rattle.std.specs.Prelude.{◌≡◌, ◌+◌, [], length, IfOk, MatchResult};
ghost use Rattle.flat_model.specs.Kinds.{ask_at};
ghost use Rattle.watcher_api.specs.Tallies.{rows};
ghost use Rattle.watcher_api.specs.Heard.{with_event};

use crate::watchers::Watcher;
use flat_model::{Ask, Event, Kind, NoMemory, Row, Trace};
use std::alloc::Global;
use std::marker::Model;

/// A prepared box. Its value is its kind and the list of the events that it heard; the list takes no memory.
#[derive(Drop)]
pub struct Held<W: Watcher> {
    kind: Kind,
    inner: W,
    heard: Trace<Event>,
}

impl<W: Watcher> Model for Held<W> {
    ghost use Rattle.std.specs.Prelude.{◌≡◌, Some};
    ghost use Rattle.watcher_api.specs.Heard.{Heard};

    ghost Value = { Heard };

    ghost view = { λ b. record { kind = b.kind; events = b.heard.items } };

    ghost invariant = { λ b. (W.kind_of b.inner ≡ Some b.kind) × W.stands b.inner b.heard.items };
}

impl<W: Watcher> Held<W> {
    /// Prepares a blank box.
    pub fn new(inner: W, kind: Kind) -> Held<W>
        requires { W.kind_of inner ≡ None }
        ensures { result ≡ record { kind = kind; events = [] } }
    {
        let mut inner = inner;
        inner.prepare(kind);
        Held {
            kind,
            inner,
            heard: Trace::new(),
        }
    }

    /// Hears one event; a call that is refused has heard nothing.
    pub fn call(&mut self, e: &Event) -> Result<Ask, NoMemory>
        ensures heard { MatchResult result (λ _. self.new ≡ with_event self.old e.now) (λ _. self.new ≡ self.old) }
        ensures asks { IfOk result (λ ask. ask ≡ ask_at self.old.kind (length self.old.events + 1)) }
    {
        let ask = self.inner.call(e)?;
        self.heard = self.heard.and(e);
        Ok(ask)
    }

    /// Its kind.
    pub fn kind(&self) -> Kind
        ensures kind { result ≡ self.now.kind }
    {
        self.kind
    }

    /// The rows of its kind for the events that it heard.
    pub fn tally(&self, alloc: Global) -> Result<Vec<Row>, NoMemory>
        ensures { IfOk result (λ tally. tally.items ≡ rows self.now.kind self.now.events) }
    {
        self.inner.tally(alloc)
    }

    /// The box itself, which stands for what it heard.
    pub fn into_inner(self) -> W
        ensures kind { W.kind_of result ≡ Some self.kind }
        ensures stands { W.stands result self.events }
    {
        self.inner
    }
}
