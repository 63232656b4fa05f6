//! The sets that are attached to a hart.

ghost use Rattle.std.specs.Prelude.{◌≡◌, ◌<◌, ◌≤◌, ℕ, [], true, length, take, drop, All, IfOk, MatchOption, MatchResult};
ghost use Rattle.std.specs.Prelude.{option_map, option_and_then, option_copied};
ghost use Rattle.watcher_api.specs.Attachment.{calls_at, set_of, box_at, without, with_set};
ghost use Rattle.watcher_api.specs.Acting.{act_in, acts_at, column_at, acts_of, ask_of, walks_of, with_act};
ghost use Rattle.watcher_api.specs.Acting.{IsAbsent, IsPlaceOf, AreInOrder};

use crate::asks::Asks;
use crate::attached_sets::AttachedSet;
use crate::holders::Held;
use crate::watchers::Watcher;
use flat_model::limits::PLUGINS_MOST;
use flat_model::{Event, NoMemory};
use score_boards::Column;
use std::alloc::Global;
use std::marker::Model;

/// A hart's sets, in the order of their plug-ins' numbers: at most one of each plug-in.
#[derive(Drop)]
pub struct Attached<W: Watcher> {
    sets: Vec<AttachedSet<W>>,
}

impl<W: Watcher> Model for Attached<W> {
    ghost use Rattle.std.specs.Prelude.{◌≤◌, List, All, vec_capacity};
    ghost use Rattle.watcher_api.specs.Attachment.{Attachment};
    ghost use Rattle.watcher_api.specs.Acting.{AreInOrder, AreNumbered};

    ghost Value = { List Attachment };

    ghost view = { λ a. a.sets.items };

    ghost invariant = { λ a. (8 ≤ vec_capacity a.sets) × AreInOrder a.sets.items × AreNumbered a.sets.items };
}

impl<W: Watcher> Attached<W> {
    /// No sets, with room for one of each plug-in.
    pub fn new(alloc: Global) -> Result<Attached<W>, NoMemory>
        ensures none { IfOk result (λ attached. attached ≡ []) }
    {
        Ok(Attached {
            sets: Vec::with_capacity(alloc, usize::from(PLUGINS_MOST))?,
        })
    }

    /// How many sets there are.
    pub fn len(&self) -> usize
        ensures length { result ≡ length self.now }
        ensures ordered { AreInOrder self.now }
    {
        self.sets.len()
    }

    /// Carries out the act of a subscription, by the place of its set and its index there, at an event; what its box
    /// asks for is noted where its plug-in has asked for nothing yet. A call that is refused has changed nothing.
    #[inline]
    pub fn hear(
        &mut self,
        set: usize,
        sub: usize,
        e: &Event,
        asks: &mut Asks,
    ) -> Result<(), NoMemory>
        requires set { set < length self.old }
        requires sub { sub < length (acts_at self.old set) }
        ensures same { acts_of self.new ≡ acts_of self.old }
        ensures done { MatchResult result
            (λ _. walks_of asks.new.first self.new
            ≡ with_act set sub (act_in (acts_at self.old set) sub) e.now (walks_of asks.old.first self.old))
            (λ _. (self.new ≡ self.old) × (asks.new.first ≡ asks.old.first)
            × (calls_at (act_in (acts_at self.old set) sub) (column_at self.old set) ≡ true)) }
        ensures others { (p : ℕ) → 1 ≤ p → IsAbsent p self.old → ask_of p asks.new.first ≡ ask_of p asks.old.first }
    {
        let place = &mut self.sets[set];
        let ask = place.hear(sub, e)?;
        asks.note(place.plugin(), ask);
        Ok(())
    }

    /// How many sets have a smaller number.
    fn place(&self, plugin: u8) -> usize
        ensures within { result ≤ length self.now }
        ensures below { All (λ a. a.plugin < plugin) (take result self.now) }
        ensures above { All (λ a. plugin ≤ a.plugin) (drop result self.now) }
    {
        for (place, set) in self.sets.iter().enumerate() {
            if plugin <= set.plugin() {
                return place;
            }
        }
        self.sets.len()
    }

    /// The place of a plug-in's set.
    fn position(&self, plugin: u8) -> Option<usize>
        ensures place { MatchOption result (IsAbsent plugin self.now) (IsPlaceOf plugin self.now) }
    {
        for (place, set) in self.sets.iter().enumerate() {
            if set.plugin() == plugin {
                return Some(place);
            }
        }
        None
    }

    /// The set of a plug-in; `None` exactly where none is attached.
    fn set(&self, plugin: u8) -> Option<&AttachedSet<W>>
        ensures set { option_copied result ≡ set_of plugin self.now }
    {
        let place = self.position(plugin)?;
        Some(&self.sets[place])
    }

    /// The hart's entries of a plug-in's set; `None` exactly where none is attached.
    pub fn column(&self, plugin: u8) -> Option<&Column>
        ensures column { option_copied result ≡ option_map (λ a. a.column) (set_of plugin self.now) }
    {
        Some(self.set(plugin)?.column())
    }

    /// The box of a subscription of a plug-in's set; `None` exactly where there is none.
    pub fn watcher(&self, plugin: u8, sub: u8) -> Option<&Held<W>>
        ensures watcher { option_copied result ≡ option_and_then (box_at sub) (set_of plugin self.now) }
    {
        self.set(plugin)?.watcher(sub)
    }

    /// Puts a set in at its place. It takes no memory.
    pub fn put(&mut self, set: AttachedSet<W>)
        requires absent { IsAbsent set.plugin self.old }
        ensures put { self.new ≡ with_set set self.old }
    {
        let place = self.place(set.plugin());
        self.sets.insert(place, set).unwrap();
    }

    /// Takes the set of a plug-in out; `None` exactly where none is attached.
    pub fn take(&mut self, plugin: u8) -> Option<AttachedSet<W>>
        ensures taken { result ≡ set_of plugin self.old }
        ensures left { self.new ≡ without plugin self.old }
    {
        let place = self.position(plugin)?;
        Some(self.sets.remove(place))
    }

    /// The sets, in their order.
    pub fn into_sets(self) -> Vec<AttachedSet<W>>
        ensures sets { result.items ≡ self }
    {
        self.sets
    }
}
