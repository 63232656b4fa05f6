//! The regions that a run starts with.

ghost use Rattle.std.specs.Prelude.{◌≡◌, ◌≤◌, ◌<◌, IfOk, replicate, None};
ghost use Rattle.guest_memory.specs.Memory.{stack_bytes, stack_segment, with_stacks};

use flat_model::limits::{STACK_BYTES, STACK_STRIDE, STACKS_END};
use flat_model::{Image, NoMemory, Region};
use std::alloc::Global;

/// The image's regions and a stack for each hart.
pub fn opening_regions(alloc: Global, image: &Image, harts: u8) -> Result<Vec<Region>, NoMemory>
    requires { harts ≤ 32 }
    ensures { IfOk result (λ regions. regions.items ≡ with_stacks image.now.regions harts) }
{
    let mut regions = copies(alloc, &image.regions)?;
    for hart in 0..harts {
        let added = stack(alloc, hart)?;
        regions.push(added)?;
    }
    Ok(regions)
}

fn copies(alloc: Global, regions: &[Region]) -> Result<Vec<Region>, NoMemory>
    ensures { IfOk result (λ copies. copies.items ≡ regions.now) }
{
    let mut copies = Vec::new(alloc);
    for region in regions {
        copies.push(copied(alloc, region)?)?;
    }
    Ok(copies)
}

fn copied(alloc: Global, region: &Region) -> Result<Region, NoMemory>
    ensures { IfOk result (λ copy. copy ≡ region.now) }
{
    let mut bytes = Vec::with_capacity(alloc, region.bytes.len())?;
    bytes.extend_from_slice(&region.bytes)?;
    Ok(Region {
        base: region.base,
        bytes,
        r: region.r,
        w: region.w,
        x: region.x,
    })
}

/// The stack of a hart, all zero.
fn stack(alloc: Global, hart: u8) -> Result<Region, NoMemory>
    requires { hart < 32 }
    ensures { IfOk result (λ region. region ≡ stack_segment hart) }
{
    let bytes = zeros(alloc, STACK_BYTES as usize)?;
    Ok(Region {
        base: STACKS_END - (hart as u64 + 1) * STACK_STRIDE,
        bytes,
        r: true,
        w: true,
        x: false,
    })
}

fn zeros(alloc: Global, count: usize) -> Result<Vec<u8>, NoMemory>
    ensures { IfOk result (λ bytes. bytes.items ≡ replicate count 0) }
{
    let mut bytes = Vec::with_capacity(alloc, count)?;
    bytes.resize(count, 0)?;
    Ok(bytes)
}

/// No reservation for any hart.
pub fn no_reservations(alloc: Global, harts: u8) -> Result<Vec<Option<u64>>, NoMemory>
    ensures { IfOk result (λ reservations. reservations.items ≡ replicate harts None) }
{
    let mut reservations = Vec::new(alloc);
    for _hart in 0..harts {
        reservations.push(None)?;
    }
    Ok(reservations)
}
