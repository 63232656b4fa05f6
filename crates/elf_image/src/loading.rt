//! The image of a file.

ghost use Rattle.std.specs.Prelude.{◌≡◌, ◌+◌, ◌≤◌, length, map, filter, nat_lt, All, IfOk, MatchResult};
ghost use Rattle.elf_image.specs.Loads.{Loads, IsRefusal, segment_of};

use crate::headers::{ProgramHeader, entry, segments};
use crate::refusals::ImageRefusal;
use crate::rules::{check_headers, check_segments};
use flat_model::{Image, NoMemory, Refused, Region};
use std::alloc::Global;

/// The image of an ELF64 file, or the first rule that the file breaks.
/// It takes memory for at most 16 headers and for what the accepted segments have in memory.
pub fn load(alloc: Global, bytes: &[u8]) -> Result<Image, Refused<ImageRefusal>>
    ensures cases { MatchResult result (λ image. Loads bytes.now image) (λ refused. IsRefusal bytes.now refused) }
{
    check_headers(bytes)?;
    let loads = segments(alloc, bytes).map_err(|_| Refused::NoMemory)?;
    check_segments(bytes, &loads)?;
    let regions = regions(alloc, bytes, &loads).map_err(|_| Refused::NoMemory)?;
    Ok(Image {
        regions,
        entry: entry(bytes),
    })
}

/// A region for each segment that isn't empty in memory.
fn regions(alloc: Global, file: &[u8], loads: &[ProgramHeader]) -> Result<Vec<Region>, NoMemory>
    requires inside { All (λ h. h.offset + h.file_size ≤ length file.now) loads.now }
    requires sizes { All (λ h. h.file_size ≤ h.memory_size) loads.now }
    ensures { IfOk result (λ regions. regions.items ≡ map (segment_of file.now) (filter (λ h. nat_lt 0 h.memory_size) loads.now)) }
{
    let mut regions = Vec::new(alloc);
    for header in loads {
        if 0 < header.memory_size {
            regions.push(region(alloc, file, header)?)?;
        }
    }
    Ok(regions)
}

/// The segment in memory: its bytes of the file, and then zeros.
fn region(alloc: Global, file: &[u8], header: &ProgramHeader) -> Result<Region, NoMemory>
    requires inside { header.now.offset + header.now.file_size ≤ length file.now }
    requires sizes { header.now.file_size ≤ header.now.memory_size }
    ensures { IfOk result (λ region. region ≡ segment_of file.now header.now) }
{
    let start = header.offset as usize;
    let end = start + header.file_size as usize;
    let size = header.memory_size as usize;
    let mut bytes = Vec::with_capacity(alloc, size)?;
    bytes.extend_from_slice(&file[start..end])?;
    bytes.resize(size, 0)?;
    Ok(Region {
        base: header.address,
        bytes,
        r: header.is_readable(),
        w: header.is_writable(),
        x: header.is_executable(),
    })
}
