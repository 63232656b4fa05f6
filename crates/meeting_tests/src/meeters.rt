//! Boxes that wait for one another, and boxes that find no memory.

ghost use Rattle.std.specs.Prelude.{◌≡◌, ◌≤◌, [], None, All, IfOk, vec_len};
ghost use Rattle.flat_model.specs.declared.limits.TheConstants.{PLUGINS_MOST, RACK_BOXES};

use flat_model::limits::{PLUGINS_MOST, RACK_BOXES};
use flat_model::{Ask, Event, Kind, NoMemory, Row};
use std::alloc::Global;
use std::hint::spin_loop;
use std::sync::Arc;
use std::sync::atomic::{AtomicU64, Ordering};
use watcher_api::{Closer, Held, Notices, Rack, Recorder, Refuser, Watcher};

/// Where boxes meet: how many have come, and how many of them met another.
#[derive(Drop)]
pub struct Meeting {
    come: AtomicU64,
    met: AtomicU64,
}

impl Meeting {
    pub fn new() -> Meeting {
        Meeting {
            come: AtomicU64::new(0),
            met: AtomicU64::new(0),
        }
    }

    /// How many boxes met another.
    pub fn met(&self) -> u64 {
        self.met.load(Ordering::SeqCst)
    }

    /// Comes, and waits a while for another.
    fn come(&self) {
        self.come.fetch_add(1, Ordering::SeqCst);
        for _try in 0..1_000_000u32 {
            if self.come.load(Ordering::SeqCst) > 1 {
                self.met.fetch_add(1, Ordering::SeqCst);
                return;
            }
            spin_loop();
        }
    }
}

/// A box that waits in its first call until the box of another hart is called too.
#[derive(Drop)]
pub struct Meeter {
    inner: Recorder,
    meeting: Arc<Meeting>,
}

impl Watcher for Meeter {
    ghost kind_of = { λ b. ⟦<Recorder as Watcher>⟧.kind_of b.inner };

    ghost stands = { λ b events. ⟦<Recorder as Watcher>⟧.stands b.inner events };

    fn prepare(&mut self, kind: Kind) {
        self.inner.prepare(kind);
    }

    fn call(&mut self, e: &Event) -> Result<Ask, NoMemory> {
        if self.inner.heard() == 0 {
            self.meeting.come();
        }
        self.inner.call(e)
    }

    fn tally(&self, alloc: Global) -> Result<Vec<Row>, NoMemory> {
        self.inner.tally(alloc)
    }
}

fn closers<W: Watcher>(alloc: Global) -> Result<Vec<Notices<Held<W>>>, NoMemory>
    ensures untold { IfOk result (λ closers.
        All (λ c. ⟦<Notices<Held<W>> as Closer<Held<W>>>⟧.notices c ≡ []) closers.items) }
    ensures count { IfOk result (λ closers. vec_len closers ≡ PLUGINS_MOST) }
{
    let mut closers = Vec::new(alloc);
    for _made in 0..PLUGINS_MOST {
        closers.push(Notices::new(alloc))?;
    }
    Ok(closers)
}

fn meeting_boxes(alloc: Global, meeting: &Arc<Meeting>) -> Result<Vec<Meeter>, NoMemory>
    ensures blank { IfOk result (λ boxes. All (λ w. ⟦<Meeter as Watcher>⟧.kind_of w ≡ None) boxes.items) }
    ensures count { IfOk result (λ boxes. vec_len boxes ≡ RACK_BOXES) }
{
    let mut boxes = Vec::new(alloc);
    for _made in 0..RACK_BOXES {
        boxes.push(Meeter {
            inner: Recorder::blank(alloc),
            meeting: Arc::clone(meeting)?,
        })?;
    }
    Ok(boxes)
}

/// A rack of boxes that meet there.
pub fn meeters(
    alloc: Global,
    meeting: &Arc<Meeting>,
) -> Result<Rack<Meeter, Notices<Held<Meeter>>>, NoMemory>
    ensures boxes { IfOk result (λ rack. RACK_BOXES ≤ vec_len rack.watchers) }
    ensures closers { IfOk result (λ rack. PLUGINS_MOST ≤ vec_len rack.closers) }
{
    Ok(Rack {
        watchers: meeting_boxes(alloc, meeting)?,
        closers: closers(alloc)?,
    })
}

fn refusing_boxes(alloc: Global, refused: u64) -> Result<Vec<Refuser>, NoMemory>
    ensures blank { IfOk result (λ boxes. All (λ w. ⟦<Refuser as Watcher>⟧.kind_of w ≡ None) boxes.items) }
    ensures count { IfOk result (λ boxes. vec_len boxes ≡ RACK_BOXES) }
{
    let mut boxes = Vec::new(alloc);
    for _made in 0..RACK_BOXES {
        boxes.push(Refuser::blank(alloc, refused))?;
    }
    Ok(boxes)
}

/// A rack of boxes that find no memory at their call of this number, from 1.
pub fn refusers(
    alloc: Global,
    refused: u64,
) -> Result<Rack<Refuser, Notices<Held<Refuser>>>, NoMemory>
    ensures boxes { IfOk result (λ rack. RACK_BOXES ≤ vec_len rack.watchers) }
    ensures closers { IfOk result (λ rack. PLUGINS_MOST ≤ vec_len rack.closers) }
{
    Ok(Rack {
        watchers: refusing_boxes(alloc, refused)?,
        closers: closers(alloc)?,
    })
}
