//! Steps of harts with what they share.

ghost use Rattle.std.specs.Prelude.{◌≡◌, ◌<◌, ◌≤◌, length};
ghost use Rattle.guest_memory.specs.Memory.{harts_of};
ghost use Rattle.rv_exec.specs.Sharing.{IsMemoryOf};

use block_finder::length;
use elf_image::load;
use flat_model::limits::LIMIT_DEFAULT;
use flat_model::{Image, Mode, NoMemory, Refused};
use guest_memory::Memory;
use rv_exec::{Hart, Private, RawLog, Services, private_step, shared_step};
use std::alloc::Global;
use std::test::Fail;

/// The image of a file.
pub fn image_of(alloc: Global, file: &[u8]) -> Result<Image, Fail> {
    match load(alloc, file) {
        Ok(image) => Ok(image),
        Err(Refused::Because(_)) => Err("a refused file".into()),
        Err(Refused::NoMemory) => Err("no memory".into()),
    }
}

/// One step of hart `no`, where it runs and the group goes on.
fn step(
    no: u8,
    hart: &mut Hart,
    image: &Image,
    memory: &mut Memory,
    services: &mut Services,
    raw: &mut RawLog,
) -> Result<(), NoMemory>
    requires no { no < harts_of memory.old }
    requires memory { IsMemoryOf image.now memory.old }
    requires starts { length services.old.starts ≡ harts_of memory.old }
    ensures harts { harts_of memory.new ≡ harts_of memory.old }
    ensures memory { IsMemoryOf image.now memory.new }
    ensures starts { length services.new.starts ≡ length services.old.starts }
{
    raw.clear();
    services.make_room()?;
    if hart.parked
        || hart.ending.is_some()
        || services.group.is_some()
        || hart.steps >= LIMIT_DEFAULT
    {
        return Ok(());
    }
    let n = length(image, hart.pc);
    shared_step(no, hart, image, memory, services, LIMIT_DEFAULT, n, raw);
    Ok(())
}

/// So many steps of hart `no`, fewer where it ends before.
fn steps(
    count: u32,
    no: u8,
    hart: &mut Hart,
    image: &Image,
    memory: &mut Memory,
    services: &mut Services,
    raw: &mut RawLog,
) -> Result<(), NoMemory>
    requires no { no < harts_of memory.old }
    requires memory { IsMemoryOf image.now memory.old }
    requires starts { length services.old.starts ≡ harts_of memory.old }
    ensures harts { harts_of memory.new ≡ harts_of memory.old }
    ensures memory { IsMemoryOf image.now memory.new }
    ensures starts { length services.new.starts ≡ length services.old.starts }
{
    for _ in 0..count {
        step(no, hart, image, memory, services, raw)?;
    }
    Ok(())
}

/// Gives a parked hart its start, where it has one.
fn begin(no: u8, harts: u8, hart: &mut Hart, services: &Services) {
    if !hart.parked {
        return;
    }
    if let Some(Some(start)) = services.starts.get(usize::from(no)) {
        *hart = Hart::started(no, harts, *start);
    }
}

/// The first two harts of a run, and how many harts have a start.
#[derive(Drop)]
pub struct Pair {
    pub first: Hart,
    pub second: Hart,
    pub given: usize,
}

/// What is left by these turns, each a hart's number, 0 or 1, and how many steps it makes at most.
pub fn after(
    alloc: Global,
    image: &Image,
    harts: u8,
    mode: Mode,
    turns: &[(u8, u32)],
) -> Result<Pair, NoMemory>
    requires some { 1 ≤ harts }
    requires most { harts ≤ 32 }
{
    let mut memory = Memory::new(alloc, image, harts)?;
    let mut services = Services::new(alloc, image, harts, mode)?;
    let mut raw = RawLog::new(alloc)?;
    let mut first = Hart::first(image, 0, harts, mode);
    let mut second = Hart::first(image, 1, harts, mode);
    for turn in turns {
        let (no, count) = *turn;
        if no >= harts {
            continue;
        }
        let hart = if no == 0 { &mut first } else { &mut second };
        begin(no, harts, hart, &services);
        steps(count, no, hart, image, &mut memory, &mut services, &mut raw)?;
    }
    let given = services
        .starts
        .iter()
        .filter(|start| start.is_some())
        .count();
    Ok(Pair {
        first,
        second,
        given,
    })
}

/// Hart 0 after so many steps at most, up to one that touches what is shared.
pub fn alone(alloc: Global, image: &Image, most: u64) -> Result<Hart, NoMemory> {
    let mut hart = Hart::first(image, 0, 1, Mode::All);
    let mut raw = RawLog::new(alloc)?;
    for _ in 0..most {
        if hart.parked || hart.ending.is_some() || hart.steps >= most {
            return Ok(hart);
        }
        raw.clear();
        let n = length(image, hart.pc);
        if let Private::Shared = private_step(0, &mut hart, image, most, n, &mut raw) {
            return Ok(hart);
        }
    }
    Ok(hart)
}
