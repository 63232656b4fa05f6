//! Completions: what is withdrawn goes out to the party that tells its closer, and the closer comes back.

ghost use Rattle.std.specs.Prelude.{◌≡◌, ◌∷◌, [], ◌++◌, ◌<◌, ◌≤◌, ◌+◌, ◌-◌, ℕ, true, false, None, map, length, replicate};
ghost use Rattle.std.specs.Prelude.{slice_set, slice_index_or, vec_len, vec_capacity, is_some, option_map, IfSome, MatchOption};
ghost use Rattle.std.specs.Option.{option_map_or};
ghost use Rattle.std.specs.List.{cons_option, flat_map, filter_map, range_with_len};
ghost use Rattle.flat_model.specs.declared.journals.Item.TheVariants.{Told};
ghost use Rattle.flat_model.specs.declared.limits.TheConstants.{SUBS_MOST, CALLING_MOST};
ghost use Rattle.flat_model.specs.Registry.{plugin_of, is_installed};
ghost use Rattle.run_rules.specs.Legal.{Legal};
ghost use Rattle.run_rules.specs.Places.{StateRule};
ghost use Rattle.run_order.specs.Laws.{with_place};
ghost use Rattle.run_order.specs.Sets.{as_notice, notice_of, notices_of, boxes_back, how_closed};
ghost use Rattle.run_order.specs.InOrder.{task_run};
ghost use Rattle.kept_order.specs.Closing.{is_due};
ghost use Rattle.host_state.specs.Closing.{NoneIsDue, IsLeastDue, IsOutWith, IsClosing, IsLeastReady, HasPlace, IsSmall, parked_column};
ghost use Rattle.host_state.specs.Closing.{is_ready, box_of, parked_box, boxes_in, set_at};
ghost use Rattle.host_state.specs.Rooms.{IsRoomFor, no_room};
ghost use Rattle.host_state.specs.Tables.{rows_of, row_at};

use crate::arrivals::Arrival;
use crate::committing::with_item;
use crate::returning::back_from;
use crate::rooms::{ClosingRoom, take_room};
use crate::states::HostState;
use crate::tables::take_at;
use flat_model::{Entry, How, Item, PlugState};
use plug_registry::Registry;
use score_boards::ParkedColumn;
use watcher_api::{AttachedSet, Closer, Held, HeldAct, Parked, Returned, Watcher};

/// A completion on its way to its closer.
#[derive(Drop)]
pub struct Closing<W: Watcher, C: Closer<Held<W>>> {
    /// The number of the plug-in that is complete.
    pub plugin: u8,
    pub closer: C,
    /// What the closer is to be told.
    pub back: Returned<Held<W>>,
}

/// Whether there is a closer at a place.
fn is_there<C>(closers: &[Option<C>], place: u8) -> bool
    ensures there { result ≡ is_some (slice_index_or closers.now place None) }
{
    matches!(closers.get(usize::from(place)), Some(Some(_)))
}

/// The least plug-in that is complete and whose closer is there.
fn least_ready<C>(registry: &Registry, closers: &[Option<C>]) -> Option<u8>
    ensures least { MatchOption result
        ((p : ℕ) → 1 ≤ p → p ≤ length registry.now.table.plugins → is_ready registry.now.table closers.now p ≡ false)
        (IsLeastReady registry.now.table closers.now) }
{
    for place in 0..registry.count() {
        if registry.complete(place + 1) && is_there(closers, place) {
            return Some(place + 1);
        }
    }
    None
}

/// How the set of a plug-in is withdrawn that is complete.
fn how_withdrawn(registry: &Registry, plugin: u8) -> How
    requires installed { is_installed registry.now.table plugin ≡ true }
    ensures how { result ≡ how_closed (plugin_of registry.now.table plugin).state }
{
    match registry.state(plugin) {
        Some(PlugState::Resetting) => How::Reset,
        _ => How::Uninstall,
    }
}

/// Parks the box of an act, where it has one.
fn park_box<W: Watcher>(hart: u8, sub: u8, act: HeldAct<Held<W>>, boxes: &mut Vec<Parked<Held<W>>>)
    requires room { is_some (box_of act) ≡ true → vec_len boxes.old < vec_capacity boxes.old }
    ensures boxes { boxes.new.items ≡ boxes.old.items ++ cons_option (option_map (parked_box hart sub) (box_of act)) [] }
    ensures capacity { vec_capacity boxes.new ≡ vec_capacity boxes.old }
{
    match act {
        HeldAct::Call(watcher) | HeldAct::Cond { watcher, .. } => {
            boxes.push_reserved(Parked { hart, sub, watcher });
        }
        HeldAct::Inline { .. } => {}
    }
}

/// Parks the boxes of a set's acts, each with the index of its subscription.
fn park_boxes<W: Watcher>(hart: u8, held: Vec<HeldAct<Held<W>>>, boxes: &mut Vec<Parked<Held<W>>>)
    requires few { length held.items ≤ SUBS_MOST }
    requires room { vec_len boxes.old + length (boxes_in hart 0 held.items) ≤ vec_capacity boxes.old }
    ensures boxes { boxes.new.items ≡ boxes.old.items ++ boxes_in hart 0 held.items }
    ensures capacity { vec_capacity boxes.new ≡ vec_capacity boxes.old }
{
    let mut sub = 0u8;
    for act in held {
        park_box(hart, sub, act, boxes);
        sub += 1;
    }
}

/// Parks the boxes and the column of a hart's set.
fn park_set<W: Watcher>(
    hart: u8,
    set: AttachedSet<W>,
    boxes: &mut Vec<Parked<Held<W>>>,
    columns: &mut Vec<ParkedColumn>,
)
    requires few { length set.acts ≤ SUBS_MOST }
    requires room { vec_len boxes.old + length (boxes_back hart set) ≤ vec_capacity boxes.old }
    requires column_room { vec_len columns.old < vec_capacity columns.old }
    ensures boxes { boxes.new.items ≡ boxes.old.items ++ boxes_back hart set }
    ensures columns { columns.new.items ≡ columns.old.items ++ record { hart = hart; column = set.column } ∷ [] }
    ensures capacity { vec_capacity boxes.new ≡ vec_capacity boxes.old }
    ensures column_capacity { vec_capacity columns.new ≡ vec_capacity columns.old }
{
    let (held, column) = set.into_parts();
    park_boxes(hart, held, boxes);
    columns.push_reserved(ParkedColumn { hart, column });
}

/// Parks what goes out of the places of a hart: the set that waits there or is parked there.
fn park_place<W: Watcher>(
    waiting: &mut [Vec<Option<Arrival<W>>>],
    parked: &mut [Vec<Option<AttachedSet<W>>>],
    row: usize,
    hart: u8,
    boxes: &mut Vec<Parked<Held<W>>>,
    columns: &mut Vec<ParkedColumn>,
)
    requires waiting_row { row < length waiting.old }
    requires waiting_place { hart < length (row_at (rows_of waiting.old) row) }
    requires parked_row { row < length parked.old }
    requires parked_place { hart < length (row_at (rows_of parked.old) row) }
    requires few { IfSome (set_at (λ a. a.set) (row_at (rows_of waiting.old) row) (row_at (rows_of parked.old) row) hart)
        (λ a. IsSmall a) }
    requires room { IfSome (set_at (λ a. a.set) (row_at (rows_of waiting.old) row) (row_at (rows_of parked.old) row) hart)
        (λ a. (vec_len boxes.old + CALLING_MOST ≤ vec_capacity boxes.old) × (vec_len columns.old < vec_capacity columns.old)) }
    ensures waiting { rows_of waiting.new ≡ with_place (rows_of waiting.old) row hart None }
    ensures parked { rows_of parked.new ≡ with_place (rows_of parked.old) row hart None }
    ensures boxes { boxes.new.items ≡ boxes.old.items ++ option_map_or (boxes_back hart)
        (set_at (λ a. a.set) (row_at (rows_of waiting.old) row) (row_at (rows_of parked.old) row) hart) [] }
    ensures columns { columns.new.items ≡ columns.old.items ++ cons_option (option_map (parked_column hart)
        (set_at (λ a. a.set) (row_at (rows_of waiting.old) row) (row_at (rows_of parked.old) row) hart)) [] }
    ensures capacity { vec_capacity boxes.new ≡ vec_capacity boxes.old }
    ensures column_capacity { vec_capacity columns.new ≡ vec_capacity columns.old }
    ensures few_boxes { vec_len boxes.new ≤ vec_len boxes.old + CALLING_MOST }
    ensures few_columns { vec_len columns.new ≤ vec_len columns.old + 1 }
{
    let place = usize::from(hart);
    let with_hart = take_at(parked, row, place);
    if let Some(set) = back_from(waiting, row, place, with_hart) {
        park_set(hart, set, boxes, columns);
    }
}

/// Parks what goes out of a plug-in's row, hart by hart.
fn park_row<W: Watcher>(
    waiting: &mut [Vec<Option<Arrival<W>>>],
    parked: &mut [Vec<Option<AttachedSet<W>>>],
    row: usize,
    harts: u8,
    room: ClosingRoom<W>,
) -> (Vec<Parked<Held<W>>>, Vec<ParkedColumn>)
    requires waiting_row { row < length waiting.old }
    requires waiting_width { length (row_at (rows_of waiting.old) row) ≡ harts }
    requires parked_row { row < length parked.old }
    requires parked_width { length (row_at (rows_of parked.old) row) ≡ harts }
    requires places { (h : ℕ) → h < harts
        → IfSome (set_at (λ a. a.set) (row_at (rows_of waiting.old) row) (row_at (rows_of parked.old) row) h) (HasPlace harts room) }
    ensures waiting { rows_of waiting.new ≡ slice_set (rows_of waiting.old) row (replicate harts None) }
    ensures parked { rows_of parked.new ≡ slice_set (rows_of parked.old) row (replicate harts None) }
    ensures boxes { result.0.items ≡ flat_map (λ h. option_map_or (boxes_back h)
        (set_at (λ a. a.set) (row_at (rows_of waiting.old) row) (row_at (rows_of parked.old) row) h) []) (range_with_len 0 harts) }
    ensures columns { result.1.items ≡ filter_map (λ h. option_map (parked_column h)
        (set_at (λ a. a.set) (row_at (rows_of waiting.old) row) (row_at (rows_of parked.old) row) h)) (range_with_len 0 harts) }
{
    let ClosingRoom {
        mut boxes,
        mut columns,
    } = room;
    for hart in 0..harts {
        park_place(waiting, parked, row, hart, &mut boxes, &mut columns);
    }
    (boxes, columns)
}

impl<W: Watcher, C: Closer<Held<W>>> HostState<W, C> {
    /// The least plug-in that is complete and whose closing isn't out.
    fn due(&self) -> Option<u8>
        ensures due { MatchOption result (NoneIsDue self.now) (IsLeastDue self.now) }
    {
        least_ready(&self.registry, self.closers.as_slice())
    }

    /// Takes the closing of a plug-in that is complete and whose closing isn't out. It takes no memory.
    pub fn take_closing_of(&mut self, party: u8, plugin: u8) -> Closing<W, C>
        requires open { self.old.short ≡ false }
        requires due { is_due (task_run self.old.task) plugin self.old.past ≡ true }
        ensures plugin { result.plugin ≡ plugin }
        ensures out { IsOutWith party self.old self.new plugin (map as_notice (C.notices result.closer)) (as_notice result.back) }
        ensures rest { self.new ≡ record self.old {
          past = self.new.past;
          waiting = self.new.waiting;
          arriving = self.new.arriving;
          parked = self.new.parked;
          closers = self.new.closers;
          rooms = self.new.rooms;
        } }
    {
        let how = how_withdrawn(&self.registry, plugin);
        let row = usize::from(plugin - 1);
        let closer = self.closers[row].take().unwrap();
        let room = take_room(self.alloc, &mut self.rooms, row);
        let harts = self.task.harts();
        let (boxes, columns) = park_row(&mut self.waiting, &mut self.parked, row, harts, room);
        self.past = with_item(&self.past, Item::Took { party, plugin });
        let back = Returned {
            plugin,
            how,
            boxes,
            columns,
        };
        Closing {
            plugin,
            closer,
            back,
        }
    }

    /// Takes the closing of the least plug-in that is complete and whose closing isn't out; `None` exactly where there is
    /// none. It takes no memory.
    pub fn take_closing(&mut self, party: u8) -> Option<Closing<W, C>>
        requires open { self.old.short ≡ false }
        ensures taken { MatchOption result
            ((self.new ≡ self.old) × NoneIsDue self.old)
            (λ c. IsClosing party self.old self.new c.plugin (map as_notice (C.notices c.closer)) (as_notice c.back)) }
        ensures rest { self.new ≡ record self.old {
          past = self.new.past;
          waiting = self.new.waiting;
          arriving = self.new.arriving;
          parked = self.new.parked;
          closers = self.new.closers;
          rooms = self.new.rooms;
        } }
    {
        let plugin = self.due()?;
        Some(self.take_closing_of(party, plugin))
    }

    /// Puts the closer of a plug-in back, which was told of its closing, and records the Done.
    pub fn done(&mut self, party: u8, plugin: u8, closer: C)
        requires open { self.old.short ≡ false }
        requires room { 0 < self.old.journal.spare }
        requires legal { Legal (task_run self.old.task) (Told party plugin ∷ self.old.past) }
        requires rule { StateRule (task_run self.old.task) (Told party plugin) self.old.past }
        requires told { map as_notice (C.notices closer) ≡ notices_of (task_run self.old.task) plugin self.old.past
            ++ notice_of (task_run self.old.task) plugin self.old.past ∷ [] }
        ensures done { self.new.past ≡ Told party plugin ∷ self.old.past }
        ensures rest { self.new ≡ record self.old {
          past = self.new.past;
          journal = self.new.journal;
          registry = self.new.registry;
          closers = self.new.closers;
        } }
        ensures room { self.old.journal.spare ≤ self.new.journal.spare + 1 }
    {
        self.closers[usize::from(plugin - 1)] = Some(closer);
        self.registry.done(plugin);
        self.journal.push(Entry::Done { party, plugin });
        self.past = with_item(&self.past, Item::Told { party, plugin });
    }
}
