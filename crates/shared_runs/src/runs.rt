//! Steps in a row, with what the harts share.

ghost use Rattle.std.specs.Prelude.{◌≡◌, ◌<◌, ◌≤◌, ◌+◌, ◌*◌, ℕ, true, false, min, length, None, IsSome};
ghost use Rattle.flat_model.specs.Image.{word_at};
ghost use Rattle.flat_model.specs.Blocks.{length_of};
ghost use Rattle.flat_model.specs.Step.{starts_block, steps_of, IsSharedStep};
ghost use Rattle.guest_memory.specs.Memory.{harts_of};
ghost use Rattle.rv_exec.specs.Going.{GoesStraight, TellsFew};
ghost use Rattle.rv_exec.specs.Sharing.{shared_of, machine_on, IsMemoryOf, KeepsLayout, KeepsPlaces, HasRoom};
ghost use Rattle.block_finder.specs.Block.{IsBlock, IsSite};
ghost use Rattle.shared_runs.specs.Runs.{AreSharedSteps, RunsOn, MayStep};

use block_finder::{Block, Site};
use flat_model::Image;
use guest_memory::{Memory, Near};
use rv_exec::{Hart, RawLog, Services, coded_step, shared_step};

/// One step at a site of a block of `n` words.
#[inline(always)]
fn step_at(
    no: u8,
    hart: &mut Hart,
    image: &Image,
    site: &Site,
    memory: &mut Memory,
    services: &mut Services,
    limit: u64,
    n: u32,
    near: &mut Near,
    raw: &mut RawLog,
)
    requires site { IsSite image.now hart.old.pc site.now }
    requires may { MayStep image.now no limit hart.old memory.old services.old raw.old }
    requires block { starts_block hart.old ≡ true → n ≡ length_of image.now hart.old.pc }
    ensures step { IsSharedStep (machine_on image.now memory.old limit) no hart.old hart.new
        (shared_of memory.old services.old) (shared_of memory.new services.new) raw.old.events raw.new.events }
    ensures kept { raw.new.kept ≡ raw.old.kept }
    ensures few { TellsFew hart.old hart.new raw.old.events raw.new.events }
    ensures awake { hart.new.parked ≡ false }
    ensures counted { hart.new.steps ≡ hart.old.steps + 1 }
    ensures within_limit { hart.new.ending ≡ None → hart.new.steps < limit }
    ensures straight { GoesStraight hart.old hart.new }
    ensures going_on { hart.new.ending ≡ None → services.new.group ≡ None }
    ensures layout { KeepsLayout memory.old memory.new }
    ensures places { KeepsPlaces services.old services.new }
    ensures output { hart.new.ending ≡ None → 0 < hart.new.since → HasRoom services.new }
{
    match &site.ins {
        Some(ins) => coded_step(
            no, hart, image, site.word, ins, memory, services, limit, n, near, raw,
        ),
        None => shared_step(no, hart, image, memory, services, limit, n, raw),
    }
}

/// The step behind the words of a block, where no word is. It ends the hart.
#[inline(never)]
fn step_behind(
    no: u8,
    hart: &mut Hart,
    image: &Image,
    memory: &mut Memory,
    services: &mut Services,
    limit: u64,
    raw: &mut RawLog,
)
    requires absent { word_at image.now hart.old.pc ≡ None }
    requires inside { 0 < hart.old.since }
    requires may { MayStep image.now no limit hart.old memory.old services.old raw.old }
    ensures step { IsSharedStep (machine_on image.now memory.old limit) no hart.old hart.new
        (shared_of memory.old services.old) (shared_of memory.new services.new) raw.old.events raw.new.events }
    ensures ended { IsSome hart.new.ending }
    ensures kept { raw.new.kept ≡ raw.old.kept }
    ensures few { TellsFew hart.old hart.new raw.old.events raw.new.events }
    ensures awake { hart.new.parked ≡ false }
    ensures counted { hart.new.steps ≡ hart.old.steps + 1 }
    ensures layout { KeepsLayout memory.old memory.new }
    ensures places { KeepsPlaces services.old services.new }
{
    shared_step(no, hart, image, memory, services, limit, 0, raw);
}

/// Makes the steps of hart `no` from word `first` of a block on, with what the harts share, until it leaves the block or
/// ends, with their events in the log, and answers how many they are. Where no word is behind those of the block, the
/// step there is among them. The output has room for one call of `write`. It takes no memory.
pub fn shared_run(
    no: u8,
    hart: &mut Hart,
    image: &Image,
    block: &Block,
    first: u32,
    memory: &mut Memory,
    services: &mut Services,
    limit: u64,
    near: &mut Near,
    raw: &mut RawLog,
) -> u32
    requires block { IsBlock image.now block.now.pc block.now }
    requires within { first < length block.now.sites }
    requires place { hart.old.pc ≡ block.now.pc + 4 * first }
    requires since { hart.old.since ≡ first }
    requires awake { hart.old.parked ≡ false }
    requires running { hart.old.ending ≡ None }
    requires below_limit { hart.old.steps < limit }
    requires going_on { services.old.group ≡ None }

    // The log has the events of the block's steps so far at most: 5 of the first one, and 3 of each later one.
    requires few { length raw.old.events ≤ 3 * first + 2 * min first 1 }
    requires output { HasRoom services.old }
    requires no { no < harts_of memory.old }
    requires starts { length services.old.starts ≡ harts_of memory.old }
    requires memory { IsMemoryOf image.now memory.old }

    // They are steps of the flat machine, with their events.
    ensures steps { AreSharedSteps (machine_on image.now memory.old limit) no result hart.old hart.new
        (shared_of memory.old services.old) (shared_of memory.new services.new) raw.old.events raw.new.events }

    // Each is a step of a hart that runs, in a group that goes on.
    ensures each { (j : ℕ) → j < result
        → RunsOn (steps_of (machine_on image.now memory.old limit) no j hart.old (shared_of memory.old services.old)) }

    // Only the first may start a block; they are some, and lead out of the block or to the hart's end.
    ensures inside { (j : ℕ) → 0 < j → j < result → starts_block
        (steps_of (machine_on image.now memory.old limit) no j hart.old (shared_of memory.old services.old)).hart ≡ false }
    ensures some { 0 < result }
    ensures most { first + result ≤ 512 }
    ensures words { first + result ≤ length block.now.sites + 1 }
    ensures leaves { hart.new.ending ≡ None → hart.new.since ≡ 0 }

    // What the next step needs.
    ensures kept { raw.new.kept ≡ raw.old.kept }
    ensures room { length raw.new.events ≤ 2048 }
    ensures awake { hart.new.parked ≡ false }
    ensures counted { hart.new.steps ≡ hart.old.steps + result }
    ensures within_limit { hart.new.ending ≡ None → hart.new.steps < limit }
    ensures going_on { hart.new.ending ≡ None → services.new.group ≡ None }
    ensures layout { KeepsLayout memory.old memory.new }
    ensures places { KeepsPlaces services.old services.new }
{
    let mut made = 0;
    for site in &block.sites[first as usize..] {
        step_at(
            no, hart, image, site, memory, services, limit, block.n, near, raw,
        );
        made += 1;
        if hart.ending.is_some() || hart.since == 0 {
            return made;
        }
    }
    step_behind(no, hart, image, memory, services, limit, raw);
    made + 1
}
