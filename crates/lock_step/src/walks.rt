//! Walks over journals.

ghost use Rattle.std.specs.Prelude.{◌≡◌, ◌≤◌, ◌<◌, ◌+◌, ◌*◌, ◌∷◌, ◌++◌, ℕ, [], length, slice_index_or, IfOk};
ghost use Rattle.flat_model.specs.declared.limits.TheConstants.{HARTS_MOST, TOTAL_MOST};
ghost use Rattle.lock_step.specs.Tellings.{all_told, of_hart};

use crate::lone_runs::LoneRun;
use crate::seeking::seek;
use flat_model::{Entry, Event, Image, Mode, NoMemory, NotThisRun, Refused, Trace};
use run_journal::Journal;
use std::alloc::Global;
use std::marker::Model;

/// What a walk comes to next.
#[derive(Clone, Copy, Debug, PartialEq, Eq)]
pub enum Walked {
    /// An event of the journal's next step, or its next one.
    Event(Event),
    /// All steps of the journal were made, and their events given.
    End,
}

/// A walk over a journal. It makes the journal's steps on one thread and gives their events one by one; it keeps those of one
/// step, and a machine.
#[derive(Drop)]
pub struct Walk<'a> {
    run: LoneRun<'a>,
    entries: &'a [Entry],
    /// The index of the entry that the walk has come to.
    place: usize,
    /// How many steps of that entry were made.
    made: u32,
    /// How many events of the last step were given.
    passed: usize,
    given: Trace<Event>,
}

impl<'a> Model for Walk<'a> {
    ghost use Rattle.std.specs.Prelude.{◌≡◌};
    ghost use Rattle.lock_step.specs.Walks.{WalkState};
    ghost use Rattle.lock_step.specs.Positions.{IsWalking};

    ghost Value = { WalkState };

    ghost view = { λ a. record { machine = a.run.machine; mode = a.run.mode; entries = a.entries.now; given = a.given.items } };

    ghost invariant = { λ a. IsWalking a.run a.entries.now a.place a.made a.passed a.given.items };
}

/// Gives the next event of the last step.
#[inline]
fn give(run: &LoneRun<'_>, passed: &mut usize, given: &mut Trace<Event>) -> Event
    requires more { passed.old < length run.now.events }
    ensures event { result ≡ slice_index_or run.now.events passed.old result }
    ensures passed { passed.new ≡ passed.old + 1 }
    ensures given { given.new.items ≡ given.old.items ++ result ∷ [] }
    ensures few { (h : ℕ) → h < run.now.machine.harts
        → length (of_hart h (all_told run.now.machine run.now.mode run.now.past)) ≤ 6 * run.now.machine.limit }
{
    let event = run.events()[*passed];
    *passed += 1;
    *given = given.and(&event);
    event
}

impl<'a> Walk<'a> {
    ghost use Rattle.lock_step.specs.Walks.{opening_walk, HasMoved};

    /// A walk over a journal of a run of the image on 1 to 32 harts, for at most `limit` steps each, at least 1, and
    /// 32,000,000 in all.
    pub fn new(
        alloc: Global,
        image: &'a Image,
        harts: u8,
        limit: u64,
        mode: Mode,
        journal: &'a Journal,
    ) -> Result<Walk<'a>, NoMemory>
        requires some_hart { 1 ≤ harts }
        requires harts { harts ≤ HARTS_MOST }
        requires some_step { 1 ≤ limit }
        requires steps { harts * limit ≤ TOTAL_MOST }
        ensures opening { IfOk result (λ walk. walk ≡ opening_walk image.now harts limit mode journal.now.entries) }
    {
        Ok(Walk {
            run: LoneRun::new(alloc, image, harts, limit, mode)?,
            entries: journal.entries(),
            place: 0,
            made: 0,
            passed: 0,
            given: Trace::new(),
        })
    }

    /// The next event, in the order of the journal's log and, within a step, in the step's order, or `End` exactly where the
    /// events of all steps were given. An error exactly where the journal's next step is of no hart of the run, of one
    /// that is parked or has ended, or of one whose group has ended, with the index of the step's entry; it is answered
    /// again from then on. Want of memory changes nothing.
    pub fn next(&mut self) -> Result<Walked, Refused<NotThisRun>>
        ensures moved { HasMoved result self.old self.new }
    {
        if self.passed < self.run.events().len() {
            let event = give(&self.run, &mut self.passed, &mut self.given);
            return Ok(Walked::Event(event));
        }
        let entries = self.entries;
        let Some(hart) = seek(entries, &mut self.place, &mut self.made) else {
            return Ok(Walked::End);
        };
        if !self.run.can_step(hart) {
            return Err(Refused::Because(NotThisRun {
                place: self.place as u64,
            }));
        }
        self.run.step(hart)?;
        self.made += 1;
        self.passed = 0;
        let event = give(&self.run, &mut self.passed, &mut self.given);
        Ok(Walked::Event(event))
    }
}
