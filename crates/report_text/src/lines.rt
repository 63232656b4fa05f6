//! The lines of a report, one after the other.

ghost use Rattle.std.specs.Prelude.{◌≡◌, ◌<◌, ◌≤◌, ◌+◌, ◌++◌, [], None, Some, length, slice_index_or, IfOk, OnOk, MatchOption};
ghost use Rattle.flat_model.specs.Registry.{sets_of};
ghost use Rattle.watcher_api.specs.Attachment.{called_kind};
ghost use Rattle.run_rules.specs.Legal.{Whole};
ghost use Rattle.run_order.specs.InOrder.{task_run};
ghost use Rattle.host_state.specs.Registered.{called_by};
ghost use Rattle.report_text.specs.Report.{set_in, merged_rows};
ghost use Rattle.report_text.specs.Places.{rest_at, harts_from, plugins_from, sets_from, subs_from, entries_from, IsSet, IsPlace, Goes};

use crate::hart_lines::hart_line;
use crate::merging::merge;
use crate::row_lines::put_row;
use crate::set_lines::{put_entry, put_set, put_sub};
use crate::statuses::left_hart;
use flat_model::{Act, Kind, KindName, NoMemory, Row, SetSpec};
use host_state::HostState;
use number_text::put_bytes;
use std::alloc::Global;
use watcher_api::{Closer, Held, Watcher};

/// Where a report has come to. Plug-ins are numbered from 1, and all else from 0.
#[derive(Clone, Copy, Debug)]
pub(crate) enum Place {
    /// The harts from this one on, and then the plug-ins.
    Harts {
        hart: u8,
    },
    /// The entries of a set from this one on, and then its subscriptions.
    Entries {
        plugin: u8,
        set: usize,
        entry: u8,
    },
    /// The rows of a subscription from this one on, and then the subscriptions behind it.
    Rows {
        plugin: u8,
        set: usize,
        sub: u8,
        row: usize,
    },
    End,
}

/// The lines of a report that are still to come. Of rows it holds those of one subscription.
#[derive(Drop)]
pub(crate) struct Lines {
    place: Place,
    name: KindName,
    rows: Vec<Row>,
}

/// The kind of the box that an act calls; `None` where it calls none.
fn kind_of(act: &Act) -> Option<Kind>
    ensures kind { result ≡ called_kind act.now }
{
    match act {
        Act::Call { kind } | Act::Cond { kind, .. } => Some(*kind),
        Act::Inline { .. } => None,
    }
}

/// The set at a place of a plug-in.
fn set_of<W: Watcher, C: Closer<Held<W>>>(
    state: &HostState<W, C>,
    plugin: u8,
    set: usize,
) -> &SetSpec
    requires set { IsSet state.now plugin set }
    ensures set { result.now ≡ set_in state.now.registry.table plugin set }
{
    &state.specs(plugin)[set]
}

/// The number of the set at a place.
fn number_of<W: Watcher, C: Closer<Held<W>>>(state: &HostState<W, C>, plugin: u8, set: usize) -> u64
    requires set { IsSet state.now plugin set }
    ensures number { result ≡ set + 1 }
{
    let sets = state.specs(plugin).len();
    (sets - (sets - set - 1)) as u64
}

/// The first set from a place of a plug-in on, where there is one.
#[tactic(auto, using(crate::proofs::Coming::installed_set, crate::proofs::Coming::sets_go_over, crate::proofs::Coming::sets_end))]
fn find_set<W: Watcher, C: Closer<Held<W>>>(
    state: &HostState<W, C>,
    plugin: u8,
    set: usize,
) -> Option<(u8, usize)>
    requires least { 1 ≤ plugin }
    ensures found { MatchOption result (sets_from state.now plugin set ≡ [])
        (λ found. IsSet state.now found.0 found.1 × (sets_from state.now plugin set ≡ sets_from state.now found.0 found.1)) }
{
    let mut plugin = plugin;
    let mut set = set;
    loop {
        if set < state.specs(plugin).len() {
            return Some((plugin, set));
        }
        if plugin >= state.registry().count() {
            return None;
        }
        plugin += 1;
        set = 0;
    }
}

/// The first subscription of a set from an index on that calls a box, and the kind of the box.
fn find_call<W: Watcher, C: Closer<Held<W>>>(
    state: &HostState<W, C>,
    plugin: u8,
    set: usize,
    from: usize,
) -> Option<(u8, Kind)>
    requires set { IsSet state.now plugin set }
    ensures found { MatchOption result (subs_from state.now plugin set from ≡ sets_from state.now plugin (set + 1))
        (λ found. (called_by (set_in state.now.registry.table plugin set) found.0 ≡ Some found.1)
        × (subs_from state.now plugin set from ≡ subs_from state.now plugin set found.0)) }
{
    let _ = state.task();
    let subs = set_of(state, plugin, set).subs.as_slice();
    for sub in from..subs.len() {
        if let Some(kind) = kind_of(&subs[sub].act) {
            return Some((sub as u8, kind));
        }
    }
    None
}

/// The merged rows of the boxes of a subscription.
fn rows_of<W: Watcher, C: Closer<Held<W>>>(
    state: &HostState<W, C>,
    alloc: Global,
    plugin: u8,
    set: usize,
    sub: u8,
    kind: Kind,
) -> Result<Vec<Row>, NoMemory>
    requires whole { Whole (task_run state.now.task) state.now.past }
    requires set { IsSet state.now plugin set }
    requires calls { called_by (set_in state.now.registry.table plugin set) sub ≡ Some kind }
    ensures rows { IfOk result (λ rows. rows.items ≡ merged_rows (task_run state.now.task) state.now.past plugin set sub kind) }
{
    let tallies = state.tally(alloc, plugin, number_of(state, plugin, set), sub)?;
    merge(alloc, kind.name, tallies.as_slice())
}

impl Lines {
    /// The lines of a whole report.
    pub(crate) fn new(alloc: Global) -> Lines
        ensures place { result.place ≡ Place.Harts 0 }
    {
        Lines {
            place: Place::Harts { hart: 0 },
            name: KindName::Counts,
            rows: Vec::new(alloc),
        }
    }

    /// Puts the next line at the end of `out`, and says whether there was one.
    pub(crate) fn next<W: Watcher, C: Closer<Held<W>>>(
        &mut self,
        state: &HostState<W, C>,
        alloc: Global,
        out: &mut Vec<u8>,
    ) -> Result<bool, NoMemory>
        requires whole { Whole (task_run state.now.task) state.now.past }
        requires place { IsPlace state.now self.old.place }
        ensures goes { IfOk result (λ more. Goes (rest_at state.now self.old.place self.old.name self.old.rows.items)
            out.old.items out.new.items (rest_at state.now self.new.place self.new.name self.new.rows.items) more) }
        ensures place { OnOk result (IsPlace state.now self.new.place) }
    {
        match self.place {
            Place::Harts { hart } => self.next_hart(state, alloc, hart, out),
            Place::Entries { plugin, set, entry } => {
                self.next_entry(state, alloc, plugin, set, entry, out)
            }
            Place::Rows {
                plugin,
                set,
                sub,
                row,
            } => self.next_row(state, alloc, plugin, set, sub, row, out),
            Place::End => Ok(false),
        }
    }

    /// Goes on with the harts from one on.
    fn next_hart<W: Watcher, C: Closer<Held<W>>>(
        &mut self,
        state: &HostState<W, C>,
        alloc: Global,
        hart: u8,
        out: &mut Vec<u8>,
    ) -> Result<bool, NoMemory>
        requires whole { Whole (task_run state.now.task) state.now.past }
        ensures goes { IfOk result (λ more. Goes (harts_from state.now hart ++ plugins_from state.now 1)
            out.old.items out.new.items (rest_at state.now self.new.place self.new.name self.new.rows.items) more) }
        ensures place { OnOk result (IsPlace state.now self.new.place) }
    {
        if hart < state.task().harts() {
            let line = hart_line(alloc, hart, state.group(), left_hart(state, hart))?;
            put_bytes(out, line.as_slice())?;
            self.place = Place::Harts { hart: hart + 1 };
            Ok(true)
        } else {
            self.next_set(state, 1, 0, out)
        }
    }

    /// Goes on with the sets from a place of a plug-in on.
    fn next_set<W: Watcher, C: Closer<Held<W>>>(
        &mut self,
        state: &HostState<W, C>,
        plugin: u8,
        set: usize,
        out: &mut Vec<u8>,
    ) -> Result<bool, NoMemory>
        requires least { 1 ≤ plugin }
        ensures goes { IfOk result (λ more. Goes (sets_from state.now plugin set)
            out.old.items out.new.items (rest_at state.now self.new.place self.new.name self.new.rows.items) more) }
        ensures place { OnOk result (IsPlace state.now self.new.place) }
    {
        let Some((plugin, set)) = find_set(state, plugin, set) else {
            self.place = Place::End;
            return Ok(false);
        };
        put_set(
            out,
            plugin,
            number_of(state, plugin, set),
            state.registry().ending(plugin, set),
        )?;
        self.place = Place::Entries {
            plugin,
            set,
            entry: 0,
        };
        Ok(true)
    }

    /// Goes on with the entries of a set from one on.
    fn next_entry<W: Watcher, C: Closer<Held<W>>>(
        &mut self,
        state: &HostState<W, C>,
        alloc: Global,
        plugin: u8,
        set: usize,
        entry: u8,
        out: &mut Vec<u8>,
    ) -> Result<bool, NoMemory>
        requires whole { Whole (task_run state.now.task) state.now.past }
        requires set { IsSet state.now plugin set }
        ensures goes { IfOk result (λ more. Goes (entries_from state.now plugin set entry)
            out.old.items out.new.items (rest_at state.now self.new.place self.new.name self.new.rows.items) more) }
        ensures place { OnOk result (IsPlace state.now self.new.place) }
    {
        if entry < set_of(state, plugin, set).entries {
            put_entry(
                out,
                entry,
                state.sum(plugin, number_of(state, plugin, set), entry),
            )?;
            self.place = Place::Entries {
                plugin,
                set,
                entry: entry + 1,
            };
            Ok(true)
        } else {
            self.next_sub(state, alloc, plugin, set, 0, out)
        }
    }

    /// Goes on with the subscriptions of a set from one on.
    fn next_sub<W: Watcher, C: Closer<Held<W>>>(
        &mut self,
        state: &HostState<W, C>,
        alloc: Global,
        plugin: u8,
        set: usize,
        from: usize,
        out: &mut Vec<u8>,
    ) -> Result<bool, NoMemory>
        requires whole { Whole (task_run state.now.task) state.now.past }
        requires set { IsSet state.now plugin set }
        ensures goes { IfOk result (λ more. Goes (subs_from state.now plugin set from)
            out.old.items out.new.items (rest_at state.now self.new.place self.new.name self.new.rows.items) more) }
        ensures place { OnOk result (IsPlace state.now self.new.place) }
    {
        let Some((sub, kind)) = find_call(state, plugin, set, from) else {
            let _ = state.specs(plugin).len();
            return self.next_set(state, plugin, set + 1, out);
        };
        let rows = rows_of(state, alloc, plugin, set, sub, kind)?;
        put_sub(out, sub, kind.name)?;
        self.name = kind.name;
        self.rows = rows;
        self.place = Place::Rows {
            plugin,
            set,
            sub,
            row: 0,
        };
        Ok(true)
    }

    /// Goes on with the rows of a subscription from one on.
    fn next_row<W: Watcher, C: Closer<Held<W>>>(
        &mut self,
        state: &HostState<W, C>,
        alloc: Global,
        plugin: u8,
        set: usize,
        sub: u8,
        row: usize,
        out: &mut Vec<u8>,
    ) -> Result<bool, NoMemory>
        requires whole { Whole (task_run state.now.task) state.now.past }
        requires set { IsSet state.now plugin set }
        ensures goes { IfOk result (λ more. Goes (rest_at state.now (Place.Rows plugin set sub row) self.old.name self.old.rows.items)
            out.old.items out.new.items (rest_at state.now self.new.place self.new.name self.new.rows.items) more) }
        ensures place { OnOk result (IsPlace state.now self.new.place) }
    {
        if row < self.rows.len() {
            put_row(out, self.name, &self.rows[row])?;
            self.place = Place::Rows {
                plugin,
                set,
                sub,
                row: row + 1,
            };
            Ok(true)
        } else {
            self.next_sub(state, alloc, plugin, set, usize::from(sub) + 1, out)
        }
    }
}
