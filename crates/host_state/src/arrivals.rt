//! Sets on their way to a hart.

ghost use Rattle.std.specs.Prelude.{◌≡◌, ◌<◌, ◌≤◌, ◌+◌, ◌*◌, [], Some, length, map, option_map, replicate, vec_len, vec_capacity};
ghost use Rattle.std.specs.Prelude.{All, IfOk};
ghost use Rattle.flat_model.specs.Acts.{calling};
ghost use Rattle.watcher_api.specs.Attachment.{IsWithin, IsRoomFor, opening};

use flat_model::{NoMemory, SetSpec};
use std::alloc::Global;
use watcher_api::{AttachedSet, Closer, Held, Rack, Seats, Watcher};

/// A set that waits for a hart, with its filters.
#[derive(Drop)]
pub(crate) struct Arrival<W: Watcher> {
    pub set: AttachedSet<W>,
    pub spec: SetSpec,
}

/// Room for a set that is to wait for a hart, with its filters.
#[derive(Drop)]
pub(crate) struct ArrivalRoom<W: Watcher> {
    seats: Seats<W>,
    spec: SetSpec,
    ghost enough: { IsRoomFor spec seats },
}

/// Room for a set that is to wait for each hart.
#[derive(Drop)]
pub(crate) struct RowRoom<W: Watcher> {
    places: Vec<ArrivalRoom<W>>,
    row: Vec<Option<Arrival<W>>>,
}

/// Room for a set that is to wait for a hart.
fn room_for_one<W: Watcher>(alloc: Global, spec: &SetSpec) -> Result<ArrivalRoom<W>, NoMemory>
    ensures spec { IfOk result (λ room. room.spec ≡ spec.now) }
{
    let seats = Seats::new(alloc, spec)?;
    let spec = spec.copied(alloc)?;
    Ok(ArrivalRoom { seats, spec })
}

/// Room for a set that is to wait for each hart.
pub(crate) fn room_for_row<W: Watcher>(
    alloc: Global,
    spec: &SetSpec,
    harts: u8,
) -> Result<RowRoom<W>, NoMemory>
    ensures specs { IfOk result (λ room. All (λ place. place.spec ≡ spec.now) room.places.items) }
    ensures places { IfOk result (λ room. vec_len room.places ≡ harts) }
    ensures row { IfOk result (λ room. room.row.items ≡ []) }
    ensures enough { IfOk result (λ room. harts ≤ vec_capacity room.row) }
{
    let row = Vec::with_capacity(alloc, usize::from(harts))?;
    let mut places = Vec::new(alloc);
    for _hart in 0..harts {
        places.push(room_for_one(alloc, spec)?)?;
    }
    Ok(RowRoom { places, row })
}

/// A set that has just been registered, in one of these rooms, with boxes of the rack.
fn arrival_in<W: Watcher, C: Closer<Held<W>>>(
    places: &mut Vec<ArrivalRoom<W>>,
    plugin: u8,
    spec: &SetSpec,
    rack: &mut Rack<W, C>,
) -> Arrival<W>
    requires number { 1 ≤ plugin }
    requires most { plugin ≤ 8 }
    requires subs { length spec.now.subs ≤ 16 }
    requires entries { All (λ s. IsWithin spec.now.entries s.act) spec.now.subs }
    requires boxes { calling spec.now.subs ≤ vec_len rack.old.watchers }
    requires some { 0 < vec_len places.old }
    requires specs { All (λ place. place.spec ≡ spec.now) places.old.items }
    ensures set { result.set ≡ opening plugin spec.now }
    ensures spec { result.spec ≡ spec.now }
    ensures left { vec_len rack.new.watchers + calling spec.now.subs ≡ vec_len rack.old.watchers }
    ensures closers { rack.new.closers ≡ rack.old.closers }
    ensures places { vec_len places.new + 1 ≡ vec_len places.old }
    ensures specs { All (λ place. place.spec ≡ spec.now) places.new.items }
{
    let place = places.pop().unwrap();
    Arrival {
        set: AttachedSet::seated(plugin, spec, place.seats, &mut rack.watchers),
        spec: place.spec,
    }
}

/// The same for each hart. It takes no memory.
pub(crate) fn arrivals_in<W: Watcher, C: Closer<Held<W>>>(
    room: RowRoom<W>,
    plugin: u8,
    spec: &SetSpec,
    harts: u8,
    rack: &mut Rack<W, C>,
) -> Vec<Option<Arrival<W>>>
    requires number { 1 ≤ plugin }
    requires most { plugin ≤ 8 }
    requires subs { length spec.now.subs ≤ 16 }
    requires entries { All (λ s. IsWithin spec.now.entries s.act) spec.now.subs }
    requires boxes { harts * calling spec.now.subs ≤ vec_len rack.old.watchers }
    requires specs { All (λ place. place.spec ≡ spec.now) room.places.items }
    requires places { vec_len room.places ≡ harts }
    requires row { room.row.items ≡ [] }
    requires enough { harts ≤ vec_capacity room.row }
    ensures sets { map (option_map (λ a. a.set)) result.items ≡ replicate harts (Some (opening plugin spec.now)) }
    ensures specs { map (option_map (λ a. a.spec)) result.items ≡ replicate harts (Some spec.now) }
    ensures left { vec_len rack.new.watchers + harts * calling spec.now.subs ≡ vec_len rack.old.watchers }
    ensures closers { rack.new.closers ≡ rack.old.closers }
{
    let RowRoom {
        mut places,
        mut row,
    } = room;
    for _hart in 0..harts {
        row.push_reserved(Some(arrival_in(&mut places, plugin, spec, rack)));
    }
    row
}
