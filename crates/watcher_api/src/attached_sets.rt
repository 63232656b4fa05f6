//! A set of subscriptions at a hart: its acts with their boxes, and the hart's column.

ghost use Rattle.std.specs.Prelude.{◌≡◌, ◌<◌, ◌≤◌, ◌+◌, ◌↔◌, if◌then◌else◌, [], None, true, length, map, option_copied, vec_len};
ghost use Rattle.std.specs.Prelude.{All, IfOk, IsTrue, OnOk, OnErr, MatchResult};
ghost use Rattle.flat_model.specs.Acts.{calls, calling};
ghost use Rattle.watcher_api.specs.Attachment.{IsWithin, IsRoomFor, opening, calls_at, box_at};
ghost use Rattle.watcher_api.specs.HeldActs.{act_of, heard_of};
ghost use Rattle.watcher_api.specs.Acting.{act_in, HasActed};

use crate::held_acts::{HeldAct, carry_out};
use crate::holders::Held;
use crate::seats::Seats;
use crate::watchers::Watcher;
use flat_model::{Act, Ask, Event, NoMemory, SetSpec};
use score_boards::Column;
use std::alloc::Global;
use std::marker::Model;

/// A set that is attached to a hart, or on its way there or back. Its value has no filters: those are resolved where the
/// lists of a block are built.
#[derive(Drop)]
pub struct AttachedSet<W: Watcher> {
    plugin: u8,
    column: Column,
    held: Vec<HeldAct<Held<W>>>,
}

impl<W: Watcher> Model for AttachedSet<W> {
    ghost use Rattle.std.specs.Prelude.{◌≤◌, All, map, length};
    ghost use Rattle.watcher_api.specs.Attachment.{Attachment, IsWithin};
    ghost use Rattle.watcher_api.specs.HeldActs.{act_of, heard_of};

    ghost Value = { Attachment };

    ghost view = { λ s. record {
      plugin = s.plugin;
      acts = map act_of s.held.items;
      heard = map heard_of s.held.items;
      column = s.column;
    } };

    ghost invariant = { λ s. (1 ≤ s.plugin) × (s.plugin ≤ 8) × (length s.held.items ≤ 16)
        × All (λ held. IsWithin (length s.column) (act_of held)) s.held.items };
}

/// Whether an act names one of so many entries, or none.
fn is_within(entries: u8, act: &Act) -> bool
    ensures { IsTrue result ↔ IsWithin entries act.now }
{
    match *act {
        Act::Call { .. } => true,
        Act::Inline { entry, .. } | Act::Cond { entry, .. } => entry < entries,
    }
}

/// Whether each act of a set names one of its entries, or none.
pub fn names_its_entries(spec: &SetSpec) -> bool
    ensures named { IsTrue result ↔ All (λ s. IsWithin spec.now.entries s.act) spec.now.subs }
{
    for sub in spec.subs.as_slice() {
        if !is_within(spec.entries, &sub.act) {
            return false;
        }
    }
    true
}

/// An act with a blank box from the end of these, where it calls one.
fn with_box<W: Watcher>(act: &Act, watchers: &mut Vec<W>) -> HeldAct<Held<W>>
    requires blank { All (λ w. W.kind_of w ≡ None) watchers.old.items }
    requires enough { calls act.now ≡ true → 0 < vec_len watchers.old }
    ensures act { act_of result ≡ act.now }
    ensures heard { heard_of result ≡ [] }
    ensures blank { All (λ w. W.kind_of w ≡ None) watchers.new.items }
    ensures left { vec_len watchers.new + (if calls act.now then 1 else 0) ≡ vec_len watchers.old }
{
    match *act {
        Act::Call { kind } => HeldAct::Call(Held::new(watchers.pop().unwrap(), kind)),
        Act::Inline { op, entry, imm } => HeldAct::Inline { op, entry, imm },
        Act::Cond {
            cond,
            entry,
            imm,
            then_store,
            kind,
        } => HeldAct::Cond {
            cond,
            entry,
            imm,
            then_store,
            watcher: Held::new(watchers.pop().unwrap(), kind),
        },
    }
}

impl<W: Watcher> AttachedSet<W> {
    /// A set that has just been registered, with blank boxes from the end of these. Where there is no memory the boxes
    /// stay.
    pub fn new(
        alloc: Global,
        plugin: u8,
        spec: &SetSpec,
        watchers: &mut Vec<W>,
    ) -> Result<AttachedSet<W>, NoMemory>
        requires number { 1 ≤ plugin }
        requires most { plugin ≤ 8 }
        requires subs { length spec.now.subs ≤ 16 }
        requires entries { All (λ s. IsWithin spec.now.entries s.act) spec.now.subs }
        requires blank { All (λ w. W.kind_of w ≡ None) watchers.old.items }
        requires enough { calling spec.now.subs ≤ vec_len watchers.old }
        ensures opening { IfOk result (λ set. set ≡ opening plugin spec.now) }
        ensures left { OnOk result (vec_len watchers.new + calling spec.now.subs ≡ vec_len watchers.old) }
        ensures blank { All (λ w. W.kind_of w ≡ None) watchers.new.items }
        ensures refused { OnErr result (watchers.new.items ≡ watchers.old.items) }
    {
        let seats = Seats::new(alloc, spec)?;
        Ok(AttachedSet::seated(plugin, spec, seats, watchers))
    }

    /// The same in room that was taken for it, which takes no memory.
    pub fn seated(
        plugin: u8,
        spec: &SetSpec,
        seats: Seats<W>,
        watchers: &mut Vec<W>,
    ) -> AttachedSet<W>
        requires number { 1 ≤ plugin }
        requires most { plugin ≤ 8 }
        requires subs { length spec.now.subs ≤ 16 }
        requires entries { All (λ s. IsWithin spec.now.entries s.act) spec.now.subs }
        requires room { IsRoomFor spec.now seats }
        requires blank { All (λ w. W.kind_of w ≡ None) watchers.old.items }
        requires enough { calling spec.now.subs ≤ vec_len watchers.old }
        ensures opening { result ≡ opening plugin spec.now }
        ensures left { vec_len watchers.new + calling spec.now.subs ≡ vec_len watchers.old }
        ensures blank { All (λ w. W.kind_of w ≡ None) watchers.new.items }
    {
        let Seats { column, mut held } = seats;
        for sub in spec.subs.as_slice() {
            held.push_reserved(with_box(&sub.act, watchers));
        }
        AttachedSet {
            plugin,
            column,
            held,
        }
    }

    /// The number of its plug-in, from 1.
    pub fn plugin(&self) -> u8
        ensures number { result ≡ self.now.plugin }
        ensures least { 1 ≤ result }
        ensures most { result ≤ 8 }
    {
        self.plugin
    }

    /// Carries out the act of the subscription with an index, at an event; what its box asks for then.
    #[inline]
    pub(crate) fn hear(&mut self, sub: usize, e: &Event) -> Result<Ask, NoMemory>
        requires there { sub < length self.old.acts }
        ensures done { MatchResult result
            (λ ask. HasActed sub e.now self.old self.new ask)
            (λ _. (self.new ≡ self.old) × (calls_at (act_in self.old.acts sub) self.old.column ≡ true)) }
    {
        carry_out(&mut self.held[sub], &mut self.column, e)
    }

    /// The hart's entries.
    pub fn column(&self) -> &Column
        ensures column { result.now ≡ self.now.column }
    {
        &self.column
    }

    /// The box of the subscription with an index; `None` exactly where there is none.
    pub fn watcher(&self, sub: u8) -> Option<&Held<W>>
        ensures watcher { option_copied result ≡ box_at sub self.now }
    {
        match self.held.get(usize::from(sub))? {
            HeldAct::Call(watcher) | HeldAct::Cond { watcher, .. } => Some(watcher),
            HeldAct::Inline { .. } => None,
        }
    }

    /// The set's acts with their boxes, by the indices of their subscriptions, and its column.
    pub fn into_parts(self) -> (Vec<HeldAct<Held<W>>>, Column)
        ensures acts { map act_of result.0.items ≡ self.acts }
        ensures heard { map heard_of result.0.items ≡ self.heard }
        ensures column { result.1 ≡ self.column }
    {
        let AttachedSet {
            plugin: _,
            column,
            held,
        } = self;
        (held, column)
    }
}
