//! What the sets of plug-ins have made of a run that is whole.

ghost use Rattle.std.specs.Prelude.{◌≡◌, ◌<◌, ◌≤◌, ◌-◌, ◌&&◌, not, true, false, if◌then◌else◌, Some, None, length, map};
ghost use Rattle.std.specs.Prelude.{option_map, option_copied, slice_index_or, is_some};
ghost use Rattle.std.specs.Option.{option_or};
ghost use Rattle.flat_model.specs.Columns.{entry_sum};
ghost use Rattle.flat_model.specs.Registry.{is_installed, plugin_of, sets_of, ending_of, has_left};
ghost use Rattle.run_rules.specs.Heard.{is_live, column};
ghost use Rattle.run_rules.specs.Legal.{Whole};
ghost use Rattle.run_order.specs.Sets.{attachment_of, harts_of, as_notice, notices_of, is_closing_out};
ghost use Rattle.run_order.specs.InOrder.{task_run};
ghost use Rattle.kept_order.specs.Summing.{HasSet, set_made};
ghost use Rattle.host_state.specs.Registered.{registered, last_registered};
ghost use Rattle.host_state.specs.Tables.{rows_of, row_at};

use crate::arrivals::Arrival;
use crate::states::HostState;
use watcher_api::{AttachedSet, Closer, Held, Returned, Watcher};

/// The closer at a place.
fn closer_at<C>(closers: &[Option<C>], place: usize) -> Option<&C>
    ensures closer { option_copied result ≡ slice_index_or closers.now place None }
{
    closers.get(place)?.as_ref()
}

/// The set that waits at a place, or is parked there where none waits.
fn set_at<'a, W: Watcher>(
    waiting: &'a [Vec<Option<Arrival<W>>>],
    parked: &'a [Vec<Option<AttachedSet<W>>>],
    row: usize,
    place: usize,
) -> Option<&'a AttachedSet<W>>
    requires waiting_row { row < length waiting.now }
    requires waiting_place { place < length (row_at (rows_of waiting.now) row) }
    requires parked_row { row < length parked.now }
    requires parked_place { place < length (row_at (rows_of parked.now) row) }
    ensures set { option_copied result
        ≡ option_or (option_map (λ a. a.set) (slice_index_or (row_at (rows_of waiting.now) row) place None))
        (slice_index_or (row_at (rows_of parked.now) row) place None) }
{
    match &waiting[row][place] {
        Some(arrival) => Some(&arrival.set),
        None => parked[row][place].as_ref(),
    }
}

impl<W: Watcher, C: Closer<Held<W>>> HostState<W, C> {
    /// The closer of a plug-in, which has the notices of its Dones; `None` exactly where there is no such plug-in or its
    /// closing is out.
    pub fn closer(&self, plugin: u8) -> Option<&C>
        ensures closer { option_map (λ c. map as_notice (C.notices c)) (option_copied result)
            ≡ (if is_installed self.now.registry.table plugin && not (is_closing_out (task_run self.now.task) plugin self.now.past)
            then Some (notices_of (task_run self.now.task) plugin self.now.past) else None) }
    {
        if plugin == 0 {
            return None;
        }
        closer_at(self.closers.as_slice(), usize::from(plugin - 1))
    }

    /// The last set of a plug-in that is Live, of a hart that has left.
    pub(crate) fn live_set(&self, plugin: u8, hart: u8) -> &AttachedSet<W>
        requires least { 1 ≤ plugin }
        requires most { plugin ≤ length self.now.registry.table.plugins }
        requires hart { hart < self.now.task.machine.harts }
        requires left { has_left self.now.registry.table hart ≡ true }
        requires live { is_live (plugin_of self.now.registry.table plugin).state ≡ true }
        ensures set { result.now ≡ attachment_of (task_run self.now.task) plugin hart self.now.past }
    {
        let row = usize::from(plugin - 1);
        let place = usize::from(hart);
        let Some(set) = set_at(&self.waiting, &self.parked, row, place) else {
            unreachable!()
        };
        set
    }

    /// An entry of the last set of a plug-in that is Live, summed over the harts modulo 2^64.
    fn live_sum(&self, plugin: u8, entry: u8) -> u64
        requires whole { Whole (task_run self.now.task) self.now.past }
        requires least { 1 ≤ plugin }
        requires most { plugin ≤ length self.now.registry.table.plugins }
        requires live { is_live (plugin_of self.now.registry.table plugin).state ≡ true }
        requires entry { entry < (last_registered self.now plugin).entries }
        ensures sum { result ≡ entry_sum entry
            (map (λ h. (attachment_of (task_run self.now.task) plugin h self.now.past).column) (harts_of (task_run self.now.task))) }
    {
        let mut total = 0u64;
        for hart in 0..self.task.harts() {
            total = total.wrapping_add(self.live_set(plugin, hart).column().get(entry));
        }
        total
    }

    /// The notice of a set that has ended, by its place.
    pub(crate) fn told(&self, plugin: u8, set: usize) -> &Returned<Held<W>>
        requires whole { Whole (task_run self.now.task) self.now.past }
        requires least { 1 ≤ plugin }
        requires ended { is_some (ending_of self.now.registry.table plugin set) ≡ true }
        ensures told { HasSet (harts_of (task_run self.now.task)) (λ h. set_made (task_run self.now.task) plugin set h self.now.past)
            (as_notice result.now) }
    {
        let row = usize::from(plugin - 1);
        let Some(closer) = closer_at(self.closers.as_slice(), row) else {
            unreachable!()
        };
        closer.notice(set)
    }

    /// An entry, by its place from 0, of a set of a plug-in, summed over the harts modulo 2^64. Plug-ins and their sets are
    /// numbered from 1.
    pub fn sum(&self, plugin: u8, set: u64, entry: u8) -> u64
        requires whole { Whole (task_run self.now.task) self.now.past }
        requires first { 1 ≤ set }
        requires last { set ≤ length (sets_of self.now.registry.table plugin) }
        requires entry { entry < (registered self.now plugin (set - 1)).entries }
        ensures sum { result ≡ entry_sum entry
            (map (λ h. column (task_run self.now.task) plugin (set - 1) h self.now.past) (harts_of (task_run self.now.task))) }
    {
        let place = (set - 1) as usize;
        if self.registry.ending(plugin, place).is_some() {
            score_boards::sum(self.told(plugin, place).columns.as_slice(), entry)
        } else {
            self.live_sum(plugin, entry)
        }
    }
}
