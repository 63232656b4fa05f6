//! Whole listings.

ghost use Rattle.std.specs.Prelude.{◌≡◌, ◌≤◌, ◌+◌, ◌*◌, ◌/◌, ◌%◌, IfOk, All};
ghost use Rattle.flat_model.specs.Image.{end_of};
ghost use Rattle.code_listing.specs.Listings.{AreInOrder, IsListing, code_bases, round_up};

use crate::entries::put_from;
use flat_model::limits::SEGMENTS_END;
use flat_model::{Image, NoMemory, Region};
use std::alloc::Global;

/// What a listing has a line for.
#[derive(Clone, Copy, Debug, PartialEq, Eq)]
pub enum ListingOf {
    /// Each word, with its instruction.
    Instructions,
    /// Each block, with its length.
    Blocks,
}

/// The first multiple of 4 at or above an address.
fn round_up(address: u64) -> u64
    requires low { address ≤ SEGMENTS_END }
    ensures up { result ≡ round_up address }
    ensures low { result ≤ SEGMENTS_END }
    ensures aligned { result % 4 ≡ 0 }
{
    (address + 3) / 4 * 4
}

/// The bases of the executable regions.
fn code_bases(alloc: Global, regions: &[Region]) -> Result<Vec<u64>, NoMemory>
    ensures bases { IfOk result (λ bases. bases.items ≡ code_bases regions.now) }
{
    let bases = regions
        .iter()
        .filter(|region| region.x)
        .map(|region| region.base)
        .collect(alloc)?;
    Ok(bases)
}

/// The bases of the executable regions, ascending.
fn ascending_bases(alloc: Global, regions: &[Region]) -> Result<Vec<u64>, NoMemory>
    requires low { All (λ s. end_of s ≤ SEGMENTS_END) regions.now }
    ensures order { IfOk result (λ bases. AreInOrder bases.items regions.now) }
    ensures low { IfOk result (λ bases. All (λ base. base ≤ SEGMENTS_END) bases.items) }
{
    let mut bases = code_bases(alloc, regions)?;
    bases.sort_unstable();
    Ok(bases)
}

/// The listing of the executable regions, by ascending base: of each the lines from its base, rounded up to a multiple
/// of 4, to the first absent word, in whichever region the words lie.
pub fn listing(alloc: Global, image: &Image, what: ListingOf) -> Result<Vec<u8>, NoMemory>
    ensures text { IfOk result (λ text. IsListing what image.now text.items) }
{
    let bases = ascending_bases(alloc, &image.regions)?;
    let mut text = Vec::new(alloc);
    for base in &bases {
        put_from(&mut text, image, what, round_up(*base))?;
    }
    Ok(text)
}
