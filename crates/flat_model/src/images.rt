//! The memory image that a file gives.

ghost use Rattle.std.specs.Prelude.{◌≡◌, ◌≤◌, ◌+◌, ◌&&◌, true, IfSome, All, AllPairs};
ghost use Rattle.std.specs.Option.{option_copied};
ghost use Rattle.flat_model.specs.Image.{AreApart, word_at, word_of, code_at, holds, end_of};

use crate::limits::SEGMENTS_END;
use std::marker::Model;

/// Bytes at an address, with their permissions.
#[derive(Debug, Drop)]
pub struct Region {
    /// The address of the first byte.
    pub base: u64,
    pub bytes: Vec<u8>,
    pub r: bool,
    pub w: bool,
    pub x: bool,
}

impl Model for Region {
    ghost use Rattle.flat_model.specs.Image.{Segment};

    ghost Value = { Segment };

    ghost view = { λ a. record { base = a.base; bytes = a.bytes.items; r = a.r; w = a.w; x = a.x } };
}

impl Region {
    /// Whether the four bytes at `pc` are code of this region.
    pub fn has_code(&self, pc: u64) -> bool
        ensures code { result ≡ (self.now.x && holds pc 4 self.now) }
    {
        let len = self.bytes.len() as u64;
        self.x && self.base <= pc && 4 <= len && pc - self.base <= len - 4
    }

    /// The little-endian word of the four bytes at `pc`, which lie in the region.
    pub fn word(&self, pc: u64) -> u32
        requires base { self.now.base ≤ pc }
        requires end { pc + 4 ≤ end_of self.now }
        ensures word { result ≡ word_of pc self.now }
    {
        let i = (pc - self.base) as usize;
        let four = &self.bytes[i..i + 4];
        u32::from_le_bytes([four[0], four[1], four[2], four[3]])
    }
}

/// What a file gives: its regions and the address of the first instruction.
#[derive(Debug, Drop)]
pub struct Image {
    pub regions: Vec<Region>,
    pub entry: u64,
}

impl Model for Image {
    ghost use Rattle.flat_model.specs.Image.{Program, IsImage};

    ghost Value = { Program };

    ghost view = { λ a. record { regions = a.regions.items; entry = a.entry } };

    ghost invariant = { λ a. IsImage (record { regions = a.regions.items; entry = a.entry }) };
}

impl Image {
    /// The present word at `pc`; `None` where it is absent or `pc` is not a multiple of 4.
    #[tactic(auto, unfolding(crate::specs::Image::word_at))]
    pub fn word(&self, pc: u64) -> Option<u32>
        ensures word { result ≡ word_at self.now pc }
        ensures low { IfSome result (λ _. pc + 4 ≤ SEGMENTS_END) }
    {
        if pc % 4 != 0 {
            return None;
        }
        let region = code_region(&self.regions, pc)?;
        Some(region.word(pc))
    }
}

/// The place of the last region that begins by `pc` where the regions ascend, as in the files that linkers make;
/// else it may be any.
#[inline(always)]
fn likely(regions: &[Region], pc: u64) -> usize {
    regions
        .partition_point(|region| region.base <= pc)
        .saturating_sub(1)
}

/// The region with the four bytes at `pc` as code: the likely one where it has them, and else the one that has.
#[inline(always)]
fn code_region(regions: &[Region], pc: u64) -> Option<&Region>
    requires apart { AllPairs AreApart regions.now }
    requires low { All (λ s. end_of s ≤ SEGMENTS_END) regions.now }
    ensures found { option_copied result ≡ code_at regions.now pc }
    ensures code { IfSome result (λ r. (r.now.x && holds pc 4 r.now) ≡ true) }
    ensures low { IfSome result (λ r. end_of r.now ≤ SEGMENTS_END) }
{
    let guess = likely(regions, pc);
    if guess < regions.len() {
        let region = &regions[guess];
        if region.has_code(pc) {
            return Some(region);
        }
    }
    search(regions, pc)
}

/// The first region with the four bytes at `pc` as code.
#[inline(never)]
fn search(regions: &[Region], pc: u64) -> Option<&Region>
    requires low { All (λ s. end_of s ≤ SEGMENTS_END) regions.now }
    ensures found { option_copied result ≡ code_at regions.now pc }
    ensures code { IfSome result (λ r. (r.now.x && holds pc 4 r.now) ≡ true) }
    ensures low { IfSome result (λ r. end_of r.now ≤ SEGMENTS_END) }
{
    regions.iter().find(|region| region.has_code(pc))
}
