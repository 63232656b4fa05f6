//! Room for a set that is to be registered.

ghost use Rattle.std.specs.Prelude.{IfOk};
ghost use Rattle.watcher_api.specs.Attachment.{IsRoomFor};

use crate::held_acts::HeldAct;
use crate::holders::Held;
use crate::watchers::Watcher;
use flat_model::{NoMemory, SetSpec};
use score_boards::Column;
use std::alloc::Global;
use std::marker::Model;

/// Room for a set: a hart's entries, and a place for each act. A set that has its room is made without memory.
#[derive(Drop)]
pub struct Seats<W: Watcher> {
    pub(crate) column: Column,
    pub(crate) held: Vec<HeldAct<Held<W>>>,
}

impl<W: Watcher> Model for Seats<W> {
    ghost use Rattle.std.specs.Prelude.{◌≡◌, [], vec_capacity};
    ghost use Rattle.watcher_api.specs.Attachment.{Room};

    ghost Value = { Room };

    ghost view = { λ s. record { column = s.column; acts = vec_capacity s.held } };

    ghost invariant = { λ s. s.held.items ≡ [] };
}

impl<W: Watcher> Seats<W> {
    /// Takes the room of a set.
    pub fn new(alloc: Global, spec: &SetSpec) -> Result<Seats<W>, NoMemory>
        ensures room { IfOk result (IsRoomFor spec.now) }
    {
        let column = Column::new(alloc, spec.entries)?;
        let held = Vec::with_capacity(alloc, spec.subs.as_slice().len())?;
        Ok(Seats { column, held })
    }
}
