//! Sets that harts give back.

ghost use Rattle.std.specs.Prelude.{◌≡◌, ◌∷◌, ◌<◌, ◌≤◌, ◌+◌, false, None, length, slice_index_or, option_map};
ghost use Rattle.std.specs.Option.{option_or};
ghost use Rattle.flat_model.specs.declared.journals.Item.TheVariants.{GaveBack};
ghost use Rattle.run_rules.specs.Legal.{Legal};
ghost use Rattle.run_rules.specs.Places.{is_with_hart};
ghost use Rattle.run_order.specs.Sets.{sets_for};
ghost use Rattle.run_order.specs.InOrder.{task_run};
ghost use Rattle.run_order.specs.Laws.{with_place};
ghost use Rattle.kept_order.specs.Hearing.{specs_for};
ghost use Rattle.kept_order.specs.Returning.{with_some};
ghost use Rattle.host_state.specs.Tables.{rows_of, row_at};

use crate::arrivals::Arrival;
use crate::committing::with_item;
use crate::specs::Specs;
use crate::states::HostState;
use crate::tables::{put_at, take_at};
use flat_model::{Entry, Item};
use watcher_api::{Attached, AttachedSet, Closer, Held, Watcher};

/// The set that waits at a place, which is empty then; where none waits, the one that was with the hart.
pub(crate) fn back_from<W: Watcher>(
    rows: &mut [Vec<Option<Arrival<W>>>],
    row: usize,
    place: usize,
    with_hart: Option<AttachedSet<W>>,
) -> Option<AttachedSet<W>>
    requires row { row < length rows.old }
    requires place { place < length (row_at (rows_of rows.old) row) }
    ensures back { result ≡ option_or (option_map (λ a. a.set) (slice_index_or (row_at (rows_of rows.old) row) place None)) with_hart }
    ensures left { rows_of rows.new ≡ with_place (rows_of rows.old) row place None }
{
    match take_at(rows, row, place) {
        Some(arrival) => Some(arrival.set),
        None => with_hart,
    }
}

/// Parks a set at a place, where there is one.
fn park<W: Watcher>(
    rows: &mut [Vec<Option<AttachedSet<W>>>],
    row: usize,
    place: usize,
    set: Option<AttachedSet<W>>,
)
    requires row { row < length rows.old }
    requires place { place < length (row_at (rows_of rows.old) row) }
    ensures parked { rows_of rows.new ≡ with_some (rows_of rows.old) row place set }
{
    if let Some(set) = set {
        put_at(rows, row, place, set);
    }
}

impl<W: Watcher, C: Closer<Held<W>>> HostState<W, C> {
    /// The hart gives the plug-in back: its set is parked, from the hart or from where it waited.
    pub fn collect(&mut self, no: u8, plugin: u8, attached: &mut Attached<W>, specs: &mut Specs)
        requires open { self.old.short ≡ false }
        requires legal { Legal (task_run self.old.task) (GaveBack no plugin ∷ self.old.past) }
        requires room { 0 < self.old.journal.spare }
        requires attached { attached.old ≡ sets_for is_with_hart (task_run self.old.task) no self.old.past }
        requires specs { specs.old ≡ specs_for (task_run self.old.task) no self.old.past }
        ensures back { self.new.past ≡ GaveBack no plugin ∷ self.old.past }
        ensures rest { self.new ≡ record self.old {
          past = self.new.past;
          journal = self.new.journal;
          registry = self.new.registry;
          waiting = self.new.waiting;
          arriving = self.new.arriving;
          parked = self.new.parked;
        } }
        ensures attached { attached.new ≡ sets_for is_with_hart (task_run self.new.task) no self.new.past }
        ensures specs { specs.new ≡ specs_for (task_run self.new.task) no self.new.past }
        ensures room { self.old.journal.spare ≤ self.new.journal.spare + 1 }
    {
        let row = usize::from(plugin - 1);
        let place = usize::from(no);
        let set = back_from(&mut self.waiting, row, place, attached.take(plugin));
        park(&mut self.parked, row, place, set);
        specs.take(plugin);
        self.registry.back(no, plugin);
        self.journal.push(Entry::Back { hart: no, plugin });
        self.past = with_item(&self.past, Item::GaveBack { hart: no, plugin });
    }
}
