//! The caches of harts, and the one that they share.

ghost use Rattle.std.specs.Prelude.{◌≡◌, ◌+◌, ◌^◌, ◌<◌, ◌≤◌, ◌++◌, ◌∷◌, [], List, length, slice_get};
ghost use Rattle.std.specs.Prelude.{IfOk, OnOk, OnErr, IfSome, IsTrue};
ghost use Rattle.flat_model.specs.declared.events.Event.{Event};
ghost use Rattle.flat_model.specs.declared.limits.TheConstants.{HARTS_MOST};
ghost use Rattle.cache_model.specs.declared.limits.TheConstants.{SETS_MOST, WAYS_MOST};
ghost use Rattle.cache_model.specs.Hits.{tallied, is_line_size};
ghost use Rattle.cache_model.specs.Touches.{touched_by, touches, touches_of, lines_of, IsInReach};

use crate::counting::Counted;
use crate::tallies::Tallied;
use flat_model::{Event, NoMemory, What};
use std::alloc::Global;
use std::marker::Model;

/// A cache for each hart and one that all share, of one shape. A clause sees the lines that were touched in each.
#[derive(Drop)]
pub struct Caches {
    harts: Vec<Counted>,
    shared: Counted,
}

impl Model for Caches {
    ghost use Rattle.std.specs.Prelude.{◌≡◌, map, All};
    ghost use Rattle.cache_model.specs.Studies.{Studied};

    ghost Value = { Studied };

    ghost view = { λ c. record { shape = c.shared.shape; harts = map (λ own. own.touches) c.harts.items; shared = c.shared.touches } };

    ghost invariant = { λ c. All (λ own. own.shape ≡ c.shared.shape) c.harts.items };
}

impl Caches {
    ghost use Rattle.cache_model.specs.Studies.{with_lines, TouchesFirst, IsOf};

    /// Caches of so many sets of so many lines of `line` bytes, for 1 to 32 harts, in which nothing was touched.
    pub fn new(alloc: Global, harts: u8, sets: u32, ways: u8, line: u32) -> Result<Caches, NoMemory>
        requires harts { (1 ≤ harts) × (harts ≤ HARTS_MOST) }
        requires sets { (1 ≤ sets) × (sets ≤ SETS_MOST) }
        requires ways { (1 ≤ ways) × (ways ≤ WAYS_MOST) }
        requires line { IsTrue (is_line_size line) }
        ensures shape { IfOk result (λ caches. caches.shape ≡ record { sets = sets; ways = ways; line = line }) }
        ensures harts { IfOk result (λ caches. length caches.harts ≡ harts) }
        ensures untouched { IfOk result (λ caches. IsOf [] caches) }
    {
        let mut own = Vec::new(alloc);
        for _ in 0..harts {
            own.push(Counted::new(alloc, sets, ways, line)?)?;
        }
        Ok(Caches {
            harts: own,
            shared: Counted::new(alloc, sets, ways, line)?,
        })
    }

    /// Touches the lines of an access in its hart's cache and in the shared one; another event touches nothing. Where there
    /// is no memory, the first of the lines may have been touched.
    #[inline]
    pub fn event(&mut self, e: &Event) -> Result<(), NoMemory>
        requires hart { e.now.hart < length self.old.harts }
        requires reach { IsInReach e.now.what }
        ensures touched { let lines = touched_by self.old.shape.line e.now.what in
            OnOk result (self.new ≡ with_lines self.old e.now.hart lines lines) }
        ensures events { OnOk result ((before : List Event) → IsOf before self.old → IsOf (before ++ e.now ∷ []) self.new) }
        ensures refused { OnErr result (TouchesFirst self.old self.new e.now.hart (touched_by self.old.shape.line e.now.what)) }
        ensures shape { self.new.shape ≡ self.old.shape }
        ensures harts { length self.new.harts ≡ length self.old.harts }
    {
        match e.what {
            What::Mem { addr, shift, .. } => self.access(e.hart, addr, shift),
            _ => Ok(()),
        }
    }

    #[inline]
    fn access(&mut self, hart: u8, addr: u64, shift: u8) -> Result<(), NoMemory>
        requires hart { hart < length self.old.harts }
        requires shift { shift ≤ 3 }
        requires reach { addr + 2 ^ shift ≤ 2 ^ 64 }
        ensures touched { let lines = lines_of self.old.shape.line addr shift in
            OnOk result (self.new ≡ with_lines self.old hart lines lines) }
        ensures refused { OnErr result (TouchesFirst self.old self.new hart (lines_of self.old.shape.line addr shift)) }
        ensures shape { self.new.shape ≡ self.old.shape }
        ensures harts { length self.new.harts ≡ length self.old.harts }
    {
        self.harts[usize::from(hart)].access(addr, shift)?;
        self.shared.access(addr, shift)
    }

    /// The touches and hits in the cache of hart `no` so far.
    pub fn hart(&self, no: u8) -> Tallied
        requires hart { no < length self.now.harts }
        ensures tallied { IfSome (slice_get self.now.harts no) (λ touches. result ≡ tallied self.now.shape touches) }
        ensures events { (events : List Event) → IsOf events self.now
            → result ≡ tallied self.now.shape (touches_of self.now.shape.line no events) }
    {
        self.harts[usize::from(no)].so_far()
    }

    /// The touches and hits in the shared cache so far.
    pub fn shared(&self) -> Tallied
        ensures tallied { result ≡ tallied self.now.shape self.now.shared }
        ensures events { (events : List Event) → IsOf events self.now
            → result ≡ tallied self.now.shape (touches self.now.shape.line events) }
    {
        self.shared.so_far()
    }
}
