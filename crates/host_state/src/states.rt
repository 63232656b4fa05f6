//! The state.

use crate::arrivals::Arrival;
use crate::rooms::ClosingRoom;
use crate::tasks::Task;
use baton_gate::Kept;
use flat_model::{Item, Trace};
use guest_memory::Memory;
use plug_registry::Registry;
use run_journal::Journal;
use rv_exec::{Hart, Services};
use std::alloc::Global;
use std::marker::Model;
use watcher_api::{AttachedSet, Closer, Held, Rack, Watcher};

/// What the harts of a run share. Its value is plain data, of which the log says all: each state is in order.
#[derive(Drop)]
pub struct HostState<W: Watcher, C: Closer<Held<W>>> {
    pub(crate) alloc: Global,
    pub(crate) task: Task,
    pub(crate) memory: Memory,
    pub(crate) services: Services,
    pub(crate) registry: Registry,
    pub(crate) journal: Journal,
    pub(crate) past: Trace<Item>,
    // By plug-in and hart.
    pub(crate) waiting: Vec<Vec<Option<Arrival<W>>>>,
    pub(crate) parked: Vec<Vec<Option<AttachedSet<W>>>>,
    // The harts that have left.
    pub(crate) kept: Vec<Option<Hart>>,
    pub(crate) closers: Vec<Option<C>>,
    // By plug-in, for what its closer is told next.
    pub(crate) rooms: Vec<ClosingRoom<W>>,
    // What no set has yet.
    pub(crate) rack: Rack<W, C>,
    pub(crate) failed: Vec<bool>,
    pub(crate) short: bool,
}

impl<W: Watcher, C: Closer<Held<W>>> Model for HostState<W, C> {
    ghost use Rattle.std.specs.Prelude.{map, option_map, vec_len};
    ghost use Rattle.run_order.specs.Sets.{as_notice};
    ghost use Rattle.host_state.specs.State.{StateValue, IsSound};

    ghost Value = { StateValue };

    ghost view = { λ s. record {
      task = s.task;
      memory = s.memory;
      services = s.services;
      registry = s.registry;
      journal = s.journal;
      past = s.past.items;
      waiting = map (λ row. map (option_map (λ a. a.set)) row.items) s.waiting.items;
      arriving = map (λ row. map (option_map (λ a. a.spec)) row.items) s.waiting.items;
      parked = map (λ row. row.items) s.parked.items;
      harts = s.kept.items;
      closers = map (option_map (λ c. map as_notice (C.notices c))) s.closers.items;
      rooms = s.rooms.items;
      boxes = vec_len s.rack.watchers;
      spare_closers = vec_len s.rack.closers;
      failed = s.failed.items;
      short = s.short;
    } };

    ghost invariant = { λ s. IsSound (record {
      task = s.task;
      memory = s.memory;
      services = s.services;
      registry = s.registry;
      journal = s.journal;
      past = s.past.items;
      waiting = map (λ row. map (option_map (λ a. a.set)) row.items) s.waiting.items;
      arriving = map (λ row. map (option_map (λ a. a.spec)) row.items) s.waiting.items;
      parked = map (λ row. row.items) s.parked.items;
      harts = s.kept.items;
      closers = map (option_map (λ c. map as_notice (C.notices c))) s.closers.items;
      rooms = s.rooms.items;
      boxes = vec_len s.rack.watchers;
      spare_closers = vec_len s.rack.closers;
      failed = s.failed.items;
      short = s.short;
    }) };
}

impl<W: Watcher, C: Closer<Held<W>>> Kept for HostState<W, C> {
    type Item = Item;

    type Frame = Task;

    ghost use Rattle.flat_model.specs.Log.{party};
    ghost use Rattle.host_state.specs.State.{IsCaughtUp};

    ghost log = { λ s. s.past };

    ghost party = { party };

    ghost frame = { λ s. s.task };

    ghost caught_up = { IsCaughtUp };
}
