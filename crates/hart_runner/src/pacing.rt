//! The pace of the harts of a run.

use flat_model::NoMemory;
use flat_model::limits::HARTS_MOST;
use rv_exec::Hart;
use std::alloc::Global;
use std::sync::Arc;
use std::sync::atomic::AtomicU64;
use std::sync::atomic::Ordering::Relaxed;
use std::thread::yield_now;

/// What stands for a hart that none waits for.
const RESTS: u64 = u64::MAX;

/// So many steps a hart may be ahead of another.
const LEAD_MOST: u64 = 1024;

/// After so many pauses a hart waits no longer for one that doesn't move.
const PAUSES_MOST: u32 = 20_000;

/// Whether a hart is where it was before, with the same registers: it waits until another hart lets it go on.
pub(crate) fn goes_round(hart: &Hart, before: &Hart) -> bool {
    hart.pc == before.pc && hart.x == before.x
}

/// How far a hart has come.
#[derive(Drop)]
struct Mark {
    /// Its steps, counted from where it joined the others; `RESTS` while it is parked or goes round, and once it has left.
    made: AtomicU64,
    /// Its holds; `RESTS` while it is parked, and once it has left.
    holds: AtomicU64,
}

/// How far the harts of a run have come. A hart that goes round until another has come would use up its steps while that one's thread
/// isn't scheduled: so one that goes round, or is ahead of others, leaves the processor to them.
#[derive(Drop)]
pub struct Pace {
    marks: Vec<Mark>,
}

impl Pace {
    /// The pace of so many harts, none of which has begun.
    pub fn new(alloc: Global, harts: u8) -> Result<Arc<Pace>, NoMemory> {
        let mut marks = Vec::with_capacity(alloc, usize::from(harts))?;
        for _ in 0..harts {
            marks.push(Mark {
                made: AtomicU64::new(0),
                holds: AtomicU64::new(0),
            })?;
        }
        Ok(Arc::new(alloc, Pace { marks })?)
    }

    /// The fewest steps of another hart that is on its way, where there is one.
    fn fewest_but(&self, no: u8) -> Option<u64> {
        let mut fewest = RESTS;
        for (place, mark) in self.marks.iter().enumerate() {
            if place != usize::from(no) {
                fewest = fewest.min(mark.made.load(Relaxed));
            }
        }
        if fewest == RESTS {
            return None;
        }
        Some(fewest)
    }

    /// Tells how many steps hart `no` has made.
    fn tell_made(&self, no: u8, made: u64) {
        if let Some(mark) = self.marks.get(usize::from(no)) {
            mark.made.store(made, Relaxed);
        }
    }

    /// Tells how many holds hart `no` has made.
    fn tell_holds(&self, no: u8, holds: u64) {
        if let Some(mark) = self.marks.get(usize::from(no)) {
            mark.holds.store(holds, Relaxed);
        }
    }
}

/// The holds of each hart at some moment.
type Holds = [u64; HARTS_MOST as usize];

/// Where a hart stands in the pace of its run.
#[derive(Clone, Copy)]
pub(crate) struct Stride {
    // The others' fewest steps where it joined them.
    from: u64,
    // Its own steps there; None while it rests.
    joined: Option<u64>,
    // The steps of a hart for which it has waited in vain.
    in_vain: Option<u64>,
    // Its holds.
    holds: u64,
    // The others' holds when it last went round.
    seen: Holds,
    // The holds of harts for which it has waited in vain when it went round.
    stuck: Holds,
}

impl Stride {
    pub(crate) fn new() -> Stride {
        Stride {
            from: 0,
            joined: None,
            in_vain: None,
            holds: 0,
            seen: [0; HARTS_MOST as usize],
            stuck: [RESTS; HARTS_MOST as usize],
        }
    }

    /// Counts a hold of hart `no`.
    pub(crate) fn count(&mut self, pace: &Pace, no: u8) {
        self.holds = self.holds.wrapping_add(1).min(RESTS - 1);
        pace.tell_holds(no, self.holds);
    }

    /// Lets hart `no`, which has made `steps`, wait until it isn't far ahead of another that moves.
    pub(crate) fn keep(&mut self, pace: &Pace, no: u8, steps: u64) {
        let joined = match self.joined {
            Some(joined) => joined,
            None => {
                self.from = pace.fewest_but(no).unwrap_or(0);
                self.joined = Some(steps);
                steps
            }
        };
        let made = self
            .from
            .wrapping_add(steps.wrapping_sub(joined))
            .min(RESTS - 1);
        pace.tell_made(no, made);
        for _pause in 0..PAUSES_MOST {
            let Some(fewest) = pace.fewest_but(no) else {
                return;
            };
            if made <= fewest.saturating_add(LEAD_MOST) || self.in_vain == Some(fewest) {
                return;
            }
            yield_now();
        }
        self.in_vain = pace.fewest_but(no);
    }

    /// Lets hart `no`, which goes round, wait until each other hart that moves has made a hold since it last went round.
    pub(crate) fn go_round(&mut self, pace: &Pace, no: u8) {
        self.joined = None;
        pace.tell_made(no, RESTS);
        for _pause in 0..PAUSES_MOST {
            if !self.awaits_any(pace, no) {
                break;
            }
            yield_now();
        }
        self.look(pace);
    }

    /// Whether another hart, which isn't stuck, has made no hold since this one last went round.
    fn awaits_any(&self, pace: &Pace, no: u8) -> bool {
        for (place, mark) in pace.marks.iter().enumerate() {
            let holds = mark.holds.load(Relaxed);
            if place != usize::from(no)
                && holds != RESTS
                && self.seen.get(place) == Some(&holds)
                && self.stuck.get(place) != Some(&holds)
            {
                return true;
            }
        }
        false
    }

    /// Looks at the others' holds. Those who have made none since the last look are stuck.
    fn look(&mut self, pace: &Pace) {
        for (place, mark) in pace.marks.iter().enumerate() {
            let holds = mark.holds.load(Relaxed);
            if let (Some(seen), Some(stuck)) = (
                self.seen.get_mut(place),
                self.stuck.get_mut(place),
            ) {
                if *seen == holds {
                    *stuck = holds;
                }
                *seen = holds;
            }
        }
    }

    /// Lets hart `no` rest.
    pub(crate) fn rest(&mut self, pace: &Pace, no: u8) {
        self.joined = None;
        pace.tell_made(no, RESTS);
        pace.tell_holds(no, RESTS);
    }
}
