//! One step of a hart, by the block that is kept for it.

ghost use Rattle.std.specs.Prelude.{◌≡◌, ◌%◌, true};
ghost use Rattle.flat_model.specs.Step.{starts_block};
ghost use Rattle.flat_model.specs.Blocks.{length_of};
ghost use Rattle.rv_exec.specs.Sharing.{machine_on};
ghost use Rattle.block_finder.specs.Block.{IsBlock, IsSite};
ghost use Rattle.lock_step.specs.Stepping.{IsReady, HasStepped};

use block_finder::{Block, Site};
use flat_model::Image;
use guest_memory::{Memory, Near};
use rv_exec::{Hart, RawLog, Services, coded_step, shared_step};

/// The address at which the hart's block began, where the hart has gone straight since then.
#[inline]
pub(crate) fn block_start(hart: &Hart) -> u64
    ensures aligned { result % 4 ≡ 0 }
    ensures here { starts_block hart.now ≡ true → result ≡ hart.now.pc }
{
    hart.pc.saturating_sub(4 * u64::from(hart.since))
}

/// One step at a word that a block of `n` words has.
#[inline]
fn step_at(
    no: u8,
    hart: &mut Hart,
    image: &Image,
    site: &Site,
    memory: &mut Memory,
    services: &mut Services,
    limit: u64,
    n: u32,
    near: &mut Near,
    raw: &mut RawLog,
)
    requires site { IsSite image.now hart.old.pc site.now }
    requires ready { IsReady image.now no limit hart.old memory.old services.old raw.old }
    requires block { starts_block hart.old ≡ true → n ≡ length_of image.now hart.old.pc }
    ensures stepped { HasStepped (machine_on image.now memory.old limit) no hart.old hart.new memory.old memory.new
        services.old services.new raw.old raw.new }
{
    match &site.ins {
        Some(ins) => coded_step(
            no, hart, image, site.word, ins, memory, services, limit, n, near, raw,
        ),
        None => shared_step(no, hart, image, memory, services, limit, n, raw),
    }
}

/// One step of hart `no`, with its events in the log. The block is that of the address where the hart's block began, if it
/// has gone straight: its word is used where it is the hart's, and else the word is looked up.
#[inline]
pub(crate) fn step_in(
    no: u8,
    hart: &mut Hart,
    image: &Image,
    block: &Block,
    memory: &mut Memory,
    services: &mut Services,
    limit: u64,
    near: &mut Near,
    raw: &mut RawLog,
)
    requires block { IsBlock image.now block.now.pc block.now }
    requires start { starts_block hart.old ≡ true → block.now.pc ≡ hart.old.pc }
    requires ready { IsReady image.now no limit hart.old memory.old services.old raw.old }
    ensures stepped { HasStepped (machine_on image.now memory.old limit) no hart.old hart.new memory.old memory.new
        services.old services.new raw.old raw.new }
{
    let pc = hart.pc;
    match block.sites.get(usize::from(hart.since)) {
        Some(site) if site.pc == pc => step_at(
            no, hart, image, site, memory, services, limit, block.n, near, raw,
        ),
        _ => shared_step(no, hart, image, memory, services, limit, block.n, raw),
    }
}
