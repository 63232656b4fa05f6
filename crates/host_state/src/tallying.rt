//! What the boxes of plug-ins tally for a run that is whole.

ghost use Rattle.std.specs.Prelude.{◌≡◌, ◌<◌, ◌≤◌, ◌-◌, ◌==◌, ℕ, true, length, map, filter, IsSome, IfOk};
ghost use Rattle.flat_model.specs.Registry.{plugin_of, sets_of};
ghost use Rattle.watcher_api.specs.Attachment.{box_at};
ghost use Rattle.watcher_api.specs.Tallies.{rows};
ghost use Rattle.run_rules.specs.Heard.{is_live, heard};
ghost use Rattle.run_rules.specs.Legal.{Whole};
ghost use Rattle.run_order.specs.Sets.{attachment_of, harts_of};
ghost use Rattle.run_order.specs.InOrder.{task_run};
ghost use Rattle.host_state.specs.Registered.{registered, called_by, rows_if, box_rows};

use crate::states::HostState;
use flat_model::{NoMemory, Row};
use std::alloc::Global;
use watcher_api::{Closer, Held, Parked, Watcher};

/// The rows of a subscription's boxes, which a closer was told of.
fn told_tally<W: Watcher>(
    boxes: &[Parked<Held<W>>],
    alloc: Global,
    sub: u8,
) -> Result<Vec<Vec<Row>>, NoMemory>
    ensures rows { IfOk result (λ lists. map (λ v. v.items) lists.items
        ≡ map (λ b. rows b.watcher.kind b.watcher.events) (filter (λ b. b.sub == sub) boxes.now)) }
{
    let mut lists = Vec::new(alloc);
    for parked in boxes {
        if parked.sub == sub {
            lists.push(parked.watcher.tally(alloc)?)?;
        }
    }
    Ok(lists)
}

impl<W: Watcher, C: Closer<Held<W>>> HostState<W, C> {
    /// The rows of a subscription's boxes of the last set of a plug-in that is Live, one list for each hart in order.
    fn live_tally(&self, alloc: Global, plugin: u8, sub: u8) -> Result<Vec<Vec<Row>>, NoMemory>
        requires whole { Whole (task_run self.now.task) self.now.past }
        requires least { 1 ≤ plugin }
        requires most { plugin ≤ length self.now.registry.table.plugins }
        requires live { is_live (plugin_of self.now.registry.table plugin).state ≡ true }
        requires calls { (h : ℕ) → IsSome (box_at sub (attachment_of (task_run self.now.task) plugin h self.now.past)) }
        ensures rows { IfOk result (λ lists. map (λ v. v.items) lists.items
            ≡ map (λ h. box_rows (box_at sub (attachment_of (task_run self.now.task) plugin h self.now.past)))
            (harts_of (task_run self.now.task))) }
    {
        let mut lists = Vec::new(alloc);
        for hart in 0..self.task.harts() {
            let Some(watcher) = self.live_set(plugin, hart).watcher(sub) else {
                unreachable!()
            };
            lists.push(watcher.tally(alloc)?)?;
        }
        Ok(lists)
    }

    /// The rows of the boxes of a subscription, by its index from 0, of a set of a plug-in, one list for each hart in order.
    /// Plug-ins and their sets are numbered from 1.
    pub fn tally(
        &self,
        alloc: Global,
        plugin: u8,
        set: u64,
        sub: u8,
    ) -> Result<Vec<Vec<Row>>, NoMemory>
        requires whole { Whole (task_run self.now.task) self.now.past }
        requires first { 1 ≤ set }
        requires last { set ≤ length (sets_of self.now.registry.table plugin) }
        requires calls { IsSome (called_by (registered self.now plugin (set - 1)) sub) }
        ensures rows { IfOk result (λ lists. map (λ v. v.items) lists.items
            ≡ map (λ h. rows_if (called_by (registered self.now plugin (set - 1)) sub)
            (heard (task_run self.now.task) plugin (set - 1) sub h self.now.past)) (harts_of (task_run self.now.task))) }
    {
        let place = (set - 1) as usize;
        if self.registry.ending(plugin, place).is_some() {
            told_tally(self.told(plugin, place).boxes.as_slice(), alloc, sub)
        } else {
            self.live_tally(alloc, plugin, sub)
        }
    }
}
