//! Room for what the closers of plug-ins are told.

ghost use Rattle.std.specs.Prelude.{◌≡◌, ◌<◌, ◌≤◌, ℕ, length, slice_index_or, slice_set, IfOk, OnOk};
ghost use Rattle.host_state.specs.Rooms.{IsRoomFor, AddsRoom, no_room};

use flat_model::NoMemory;
use flat_model::limits::CALLING_MOST;
use score_boards::ParkedColumn;
use std::alloc::Global;
use std::marker::Model;
use std::mem::replace;
use watcher_api::{Held, Parked, Watcher};

/// Room for the boxes and columns of a set that goes out.
#[derive(Drop)]
pub(crate) struct ClosingRoom<W: Watcher> {
    pub boxes: Vec<Parked<Held<W>>>,
    pub columns: Vec<ParkedColumn>,
}

impl<W: Watcher> Model for ClosingRoom<W> {
    ghost use Rattle.std.specs.Prelude.{◌≡◌, [], vec_capacity};
    ghost use Rattle.host_state.specs.Rooms.{Room};

    ghost Value = { Room };

    ghost view = { λ r. record { boxes = vec_capacity r.boxes; columns = vec_capacity r.columns } };

    ghost invariant = { λ r. (r.boxes.items ≡ []) × (r.columns.items ≡ []) };
}

/// Makes room for one plug-in more, for any set of so many harts.
pub(crate) fn add_room<W: Watcher>(
    alloc: Global,
    harts: u8,
    rooms: &mut Vec<ClosingRoom<W>>,
) -> Result<(), NoMemory>
    ensures added { OnOk result (AddsRoom harts rooms.old.items rooms.new.items) }
{
    rooms.push(ClosingRoom::new(alloc, harts)?)?;
    Ok(())
}

/// Takes the room at a place, which has none then.
pub(crate) fn take_room<W: Watcher>(
    alloc: Global,
    rooms: &mut [ClosingRoom<W>],
    place: usize,
) -> ClosingRoom<W>
    requires there { place < length rooms.old }
    ensures taken { result ≡ slice_index_or rooms.old place no_room }
    ensures left { rooms.new ≡ slice_set rooms.old place no_room }
{
    replace(&mut rooms[place], ClosingRoom::none(alloc))
}

impl<W: Watcher> ClosingRoom<W> {
    /// Room for the boxes and columns of any set that so many harts give back.
    pub(crate) fn new(alloc: Global, harts: u8) -> Result<ClosingRoom<W>, NoMemory>
        ensures room { IfOk result (IsRoomFor harts) }
    {
        Ok(ClosingRoom {
            boxes: Vec::with_capacity(alloc, usize::from(harts) * CALLING_MOST as usize)?,
            columns: Vec::with_capacity(alloc, usize::from(harts))?,
        })
    }

    /// No room.
    pub(crate) fn none(alloc: Global) -> ClosingRoom<W>
        ensures none { result ≡ no_room }
    {
        ClosingRoom {
            boxes: Vec::new(alloc),
            columns: Vec::new(alloc),
        }
    }
}
