//! The comparison of two journals.

ghost use Rattle.std.specs.Prelude.{◌≡◌, ◌≤◌, ◌<◌, ◌*◌, ◌-◌, ◌∷◌, ◌++◌, ℕ, [], length, MatchOption, IfOk};
ghost use Rattle.flat_model.specs.declared.limits.TheConstants.{HARTS_MOST, TOTAL_MOST};
ghost use Rattle.flat_model.specs.Log.{log};
ghost use Rattle.flat_model.specs.Worlds.{events, unplaced};
ghost use Rattle.lock_step.specs.Runs.{IsRun};
ghost use Rattle.lock_step.specs.Comparing.{HasCome, HasFound, IsJudged};
ghost use Rattle.lock_step.specs.Verdicts.{IsVerdict};

use crate::verdicts::Verdict;
use crate::walks::{Walk, Walked};
use flat_model::{Event, Image, Mode, NoMemory, Refused};
use run_journal::Journal;
use std::alloc::Global;

/// The next event of a walk over a journal that is a run; none at the journal's end.
fn next_event(walk: &mut Walk<'_>) -> Result<Option<Event>, NoMemory>
    requires runs { IsRun walk.old.machine walk.old.mode (log walk.old.entries) }
    ensures come { IfOk result (λ next. HasCome next walk.old walk.new) }
{
    match walk.next() {
        Ok(Walked::Event(event)) => Ok(Some(event)),
        Ok(Walked::End) => Ok(None),
        Err(Refused::NoMemory) => Err(NoMemory),
        Err(Refused::Because(_)) => unreachable!(),
    }
}

/// Goes on to the hart's next event; none where the journal has no further one.
fn next_of(walk: &mut Walk<'_>, hart: u8) -> Result<Option<Event>, NoMemory>
    requires hart { hart < walk.old.machine.harts }
    requires runs { IsRun walk.old.machine walk.old.mode (log walk.old.entries) }
    ensures found { IfOk result (λ next. HasFound hart next walk.old walk.new) }
{
    while let Some(event) = next_event(walk)? {
        if event.hart == hart {
            return Ok(Some(event));
        }
    }
    Ok(None)
}

/// What the next events of two lists at an index, from 1, tell, before which the lists are the same; none where they are the same.
fn judged(first: Option<Event>, second: Option<Event>, index: u64) -> Option<Verdict>
    requires index { 1 ≤ index }
    ensures judged { IsJudged result first second index }
{
    match (first, second) {
        (None, None) => Some(Verdict::Same { events: index - 1 }),
        (None, Some(_)) => Some(Verdict::Ends { which: 1, index }),
        (Some(_), None) => Some(Verdict::Ends { which: 2, index }),
        (Some(first), Some(second)) if first != second => Some(Verdict::Differs {
            index,
            first_step: first.step,
            second_step: second.step,
        }),
        (Some(_), Some(_)) => None,
    }
}

/// Where the runs of two journals of an image part for a hart. Both are walked side by side, and no list of events is kept: the
/// memory is that of two machines.
pub fn compare(
    alloc: Global,
    image: &Image,
    harts: u8,
    limit: u64,
    mode: Mode,
    first: &Journal,
    second: &Journal,
    hart: u8,
) -> Result<Verdict, NoMemory>
    requires some_hart { 1 ≤ harts }
    requires harts { harts ≤ HARTS_MOST }
    requires some_step { 1 ≤ limit }
    requires steps { harts * limit ≤ TOTAL_MOST }
    requires hart { hart < harts }
    requires first { IsRun (record { image = image.now; harts = harts; limit = limit }) mode (log first.now.entries) }
    requires second { IsRun (record { image = image.now; harts = harts; limit = limit }) mode (log second.now.entries) }
    ensures verdict { IfOk result (λ verdict. IsVerdict
        (unplaced (events (record { image = image.now; harts = harts; limit = limit }) mode hart (log first.now.entries)))
        (unplaced (events (record { image = image.now; harts = harts; limit = limit }) mode hart (log second.now.entries)))
        verdict) }
{
    let mut one = Walk::new(alloc, image, harts, limit, mode, first)?;
    let mut other = Walk::new(alloc, image, harts, limit, mode, second)?;
    let mut index = 1;
    'both: loop {
        let next = next_of(&mut one, hart)?;
        let beside = next_of(&mut other, hart)?;
        if let Some(verdict) = judged(next, beside, index) {
            return Ok(verdict);
        }
        index += 1;
    }
}
