//! Private steps in a row.

ghost use Rattle.std.specs.Prelude.{◌≡◌, ◌<◌, ◌≤◌, ◌+◌, ℕ, true, false, None, length};
ghost use Rattle.flat_model.specs.Blocks.{length_of};
ghost use Rattle.flat_model.specs.Step.{starts_block};
ghost use Rattle.private_runs.specs.Runs.{ArePrivateSteps, AreOfRun, Stops, GoesStraightBy};

use flat_model::Image;
use rv_exec::{Hart, Private, RawLog, private_step};

/// Makes the steps of hart `no` that touch nothing that is shared, up to the end of its block and `most` of them, with
/// their events in the log, and answers how many they are. Where the first starts a block, `n` is the block's length.
/// A step at an absent or an illegal word touches nothing that is shared. It takes no memory.
pub fn private_run(
    no: u8,
    hart: &mut Hart,
    image: &Image,
    limit: u64,
    n: u32,
    most: u32,
    raw: &mut RawLog,
) -> u32
    requires awake { hart.old.parked ≡ false }
    requires running { hart.old.ending ≡ None }
    requires below_limit { hart.old.steps < limit }
    requires room { length raw.old.events + (most + 7) ≤ 2048 }
    requires block { starts_block hart.old ≡ true → n ≡ length_of image.now hart.old.pc }

    // They are steps of the flat machine, in every world whose group hasn't ended, with their events.
    ensures steps { ArePrivateSteps image.now limit no result hart.old hart.new raw.old.events raw.new.events }

    // Each is private, and only the first may start a block.
    ensures private { AreOfRun image.now limit no result hart.old }

    // They are as many as can be, and this is why.
    ensures most { result ≤ most }
    ensures greatest { (k : ℕ) → k ≤ most → AreOfRun image.now limit no k hart.old → k ≤ result }
    ensures stops { Stops image.now most result hart.new }

    // Where there are none, nothing changes.
    ensures unchanged { result ≡ 0 → hart.new ≡ hart.old }
    ensures untold { result ≡ 0 → raw.new ≡ raw.old }

    // What the next step needs.
    ensures kept { raw.new.kept ≡ raw.old.kept }
    ensures few { length raw.new.events ≤ length raw.old.events + (result + 3) }
    ensures awake { hart.new.parked ≡ false }
    ensures counted { hart.new.steps ≡ hart.old.steps + result }
    ensures within_limit { hart.new.ending ≡ None → hart.new.steps < limit }
    ensures straight { GoesStraightBy result hart.old hart.new }
{
    for made in 0..most {
        if let Private::Shared = private_step(no, hart, image, limit, n, raw) {
            return made;
        }
        if hart.ending.is_some() || hart.since == 0 {
            return made + 1;
        }
    }
    most
}
