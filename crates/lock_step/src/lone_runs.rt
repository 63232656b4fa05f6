//! A run whose harts step one after the other on one thread.

ghost use Rattle.std.specs.Prelude.{◌≡◌, ◌<◌, ◌≤◌, ◌*◌, ◌∷◌, ◌||◌, ℕ, [], true, not, is_some, length, IfOk, OnOk, OnErr};
ghost use Rattle.flat_model.specs.declared.journals.Item.TheVariants.{Step};
ghost use Rattle.flat_model.specs.Worlds.{next_step};
ghost use Rattle.rv_exec.specs.Sharing.{starts_of};
ghost use Rattle.lock_step.specs.Runs.{can_step};
ghost use Rattle.lock_step.specs.Tellings.{all_told, of_hart};
ghost use Rattle.lock_step.specs.Kept.{AreFirst, woken};

use crate::stepping::{block_start, step_in};
use block_finder::BlockCache;
use flat_model::{Event, Image, Item, Mode, NoMemory, Trace};
use guest_memory::{Memory, Near};
use rv_exec::{Hart, HartStart, RawLog, Services};
use std::alloc::Global;
use std::marker::Model;

/// A run of an image, and the world that its steps have made. A hart that another one's step gave its start is woken where it
/// is looked at.
#[derive(Drop)]
pub(crate) struct LoneRun<'a> {
    image: &'a Image,
    count: u8,
    limit: u64,
    mode: Mode,
    harts: Vec<Hart>,
    memory: Memory,
    services: Services,
    cache: BlockCache,
    near: Near,
    raw: RawLog,
    past: Trace<Item>,
}

impl<'a> Model for LoneRun<'a> {
    ghost use Rattle.lock_step.specs.Kept.{LoneState, IsKept};

    ghost Value = { LoneState };

    ghost view = { λ a. record {
      machine = record { image = a.image.now; harts = a.count; limit = a.limit };
      mode = a.mode;
      past = a.past.items;
      events = a.raw.events;
    } };

    ghost invariant = { λ a. IsKept (record { image = a.image.now; harts = a.count; limit = a.limit }) a.mode a.past.items
        a.harts.items a.memory a.services a.cache a.raw };
}

/// The harts from the first.
fn first_harts(alloc: Global, image: &Image, harts: u8, mode: Mode) -> Result<Vec<Hart>, NoMemory>
    ensures first { IfOk result (λ first. AreFirst image.now mode harts first.items) }
{
    let mut first = Vec::new(alloc);
    for no in 0..harts {
        first.push(Hart::first(image, no, harts, mode))?;
    }
    Ok(first)
}

/// The start of hart `no`, if it has one.
#[inline]
fn start_of(services: &Services, no: u8) -> Option<HartStart>
    ensures start { result ≡ starts_of services.now no }
{
    *services.starts.get(usize::from(no))?
}

/// Whether the hart is neither parked nor ended, in a group that goes on.
#[inline]
fn goes_on(hart: &Hart, services: &Services) -> bool
    ensures goes { result ≡ not ((hart.now.parked || is_some hart.now.ending) || is_some services.now.group) }
{
    !hart.parked && hart.ending.is_none() && services.group.is_none()
}

/// Wakes hart `no` where it was parked and has this start since.
#[inline]
fn wake(no: u8, harts: u8, hart: &mut Hart, start: Option<HartStart>)
    ensures woken { hart.new ≡ woken no harts hart.old start }
{
    if !hart.parked {
        return;
    }
    if let Some(start) = start {
        *hart = Hart::started(no, harts, start);
    }
}

impl<'a> LoneRun<'a> {
    /// A run before its first step.
    pub(crate) fn new(
        alloc: Global,
        image: &'a Image,
        harts: u8,
        limit: u64,
        mode: Mode,
    ) -> Result<LoneRun<'a>, NoMemory>
        requires some_hart { 1 ≤ harts }
        requires most { harts ≤ 32 }
        requires some_step { 1 ≤ limit }
        ensures opening { IfOk result (λ run. run ≡ record {
          machine = record { image = image.now; harts = harts; limit = limit };
          mode = mode;
          past = [];
          events = [];
        }) }
    {
        Ok(LoneRun {
            image,
            count: harts,
            limit,
            mode,
            harts: first_harts(alloc, image, harts, mode)?,
            memory: Memory::new(alloc, image, harts)?,
            services: Services::new(alloc, image, harts, mode)?,
            cache: BlockCache::new(alloc)?,
            near: Near::default(),
            raw: RawLog::new(alloc)?,
            past: Trace::new(),
        })
    }

    /// The events of the last step, in its order; none before the first step. A step has 6 at most.
    pub(crate) fn events(&self) -> &[Event]
        ensures events { result.now ≡ self.now.events }
        ensures few { (h : ℕ) → h < self.now.machine.harts
            → length (of_hart h (all_told self.now.machine self.now.mode self.now.past)) ≤ 6 * self.now.machine.limit }
    {
        self.raw.events()
    }

    /// Whether hart `no` is one of the run's and runs, in a group that goes on.
    pub(crate) fn can_step(&mut self, no: u8) -> bool
        ensures can { result ≡ can_step self.old.machine self.old.mode self.old.past no }
        ensures same { self.new ≡ self.old }
    {
        if no >= self.count {
            return false;
        }
        let count = self.count;
        let place = usize::from(no);
        let start = start_of(&self.services, no);
        let hart = &mut self.harts[place];
        wake(no, count, hart, start);
        goes_on(hart, &self.services)
    }

    /// Makes a step of hart `no`.
    pub(crate) fn step(&mut self, no: u8) -> Result<(), NoMemory>
        requires can { can_step self.old.machine self.old.mode self.old.past no ≡ true }
        ensures stepped { OnOk result (self.new ≡ record self.old {
          past = Step no ∷ self.old.past;
          events = (next_step self.old.machine self.old.mode self.old.past no).events;
        }) }
        ensures some { OnOk result (0 < length self.new.events) }
        ensures same { OnErr result (self.new ≡ self.old) }
    {
        let (image, count, limit) = (self.image, self.count, self.limit);
        let place = usize::from(no);
        self.services.make_room()?;
        let start = start_of(&self.services, no);
        let hart = &mut self.harts[place];
        wake(no, count, hart, start);
        let block = self.cache.lookup(image, block_start(hart))?;
        self.raw.clear();
        step_in(
            no,
            hart,
            image,
            block,
            &mut self.memory,
            &mut self.services,
            limit,
            &mut self.near,
            &mut self.raw,
        );
        self.past = self.past.before(&Item::Step { hart: no });
        Ok(())
    }
}
