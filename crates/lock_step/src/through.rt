//! Journals that are walked through.

ghost use Rattle.std.specs.Prelude.{◌≡◌, ◌≤◌, ◌*◌};
ghost use Rattle.flat_model.specs.declared.limits.TheConstants.{HARTS_MOST, TOTAL_MOST};
ghost use Rattle.lock_step.specs.Walks.{opening_walk, IsWalkedThrough};

use crate::walks::{Walk, Walked};
use flat_model::{Image, Mode, NotThisRun, Refused};
use run_journal::Journal;
use std::alloc::Global;

/// Walks through a journal to its end: whether it is a run of the image. An error exactly where it isn't, with the index of the
/// entry whose step can't be made.
pub fn walk_through(
    alloc: Global,
    image: &Image,
    harts: u8,
    limit: u64,
    mode: Mode,
    journal: &Journal,
) -> Result<(), Refused<NotThisRun>>
    requires some_hart { 1 ≤ harts }
    requires harts { harts ≤ HARTS_MOST }
    requires some_step { 1 ≤ limit }
    requires steps { harts * limit ≤ TOTAL_MOST }
    ensures through { IsWalkedThrough (opening_walk image.now harts limit mode journal.now.entries) result }
{
    let mut walk = Walk::new(alloc, image, harts, limit, mode, journal)?;
    'on: loop {
        match walk.next() {
            Ok(Walked::Event(_)) => {}
            Ok(Walked::End) => return Ok(()),
            Err(why) => return Err(why),
        }
    }
}
