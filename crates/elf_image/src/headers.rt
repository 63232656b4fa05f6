//! The program headers of an ELF64 file.

ghost use Rattle.std.specs.Prelude.{◌≡◌, ◌+◌, ◌*◌, ◌<◌, ◌≤◌, ◌&&◌, length, IfOk};
ghost use Rattle.elf_image.specs.Checks.{HasTable};
ghost use Rattle.elf_image.specs.Fields.{e_entry, e_phoff, e_phnum, header_at, segments};
ghost use Rattle.elf_image.specs.declared.format.TheConstants.{ELF_HEADER_BYTES, PROGRAM_HEADER_BYTES};
ghost use Rattle.elf_image.specs.Rules.{memory_end, has_code, is_executable, is_readable, is_writable, overlaps};

use crate::fields::{flag, u16_at, u32_at, u64_at};
use crate::format::*;
use flat_model::NoMemory;
use std::alloc::Global;

/// What the loader reads of a program header (ELF64, "Program header table").
#[derive(Clone, Copy, Debug)]
pub struct ProgramHeader {
    /// The place in the table, from 0.
    pub index: u32,
    /// `p_type`.
    pub kind: u32,
    /// `p_flags`: bit 0 executable, bit 1 writable, bit 2 readable.
    pub flags: u32,
    /// `p_offset`: where the segment's bytes begin in the file.
    pub offset: u64,
    /// `p_vaddr`: where the segment begins in memory.
    pub address: u64,
    /// `p_filesz`: how many bytes the file has of it.
    pub file_size: u64,
    /// `p_memsz`: how many bytes it has in memory.
    pub memory_size: u64,
}

impl ProgramHeader {
    pub(crate) fn is_executable(&self) -> bool
        ensures { result ≡ is_executable self.now }
    {
        flag(self.flags, PF_X_BIT)
    }

    pub(crate) fn is_writable(&self) -> bool
        ensures { result ≡ is_writable self.now }
    {
        flag(self.flags, PF_W_BIT)
    }

    pub(crate) fn is_readable(&self) -> bool
        ensures { result ≡ is_readable self.now }
    {
        flag(self.flags, PF_R_BIT)
    }

    /// Where the segment's bytes end in the file.
    pub(crate) fn file_end(&self) -> u128
        ensures { result ≡ self.now.offset + self.now.file_size }
    {
        self.offset as u128 + self.file_size as u128
    }

    /// The first address past the segment.
    pub(crate) fn memory_end(&self) -> u128
        ensures { result ≡ memory_end self.now }
    {
        self.address as u128 + self.memory_size as u128
    }

    /// Whether some address lies in both segments.
    pub(crate) fn overlaps(&self, other: &ProgramHeader) -> bool
        ensures { result ≡ overlaps self.now other.now }
    {
        (self.address.max(other.address) as u128) < self.memory_end().min(other.memory_end())
    }

    /// Whether the four bytes from `addr` on lie in the segment and can be executed.
    pub(crate) fn has_code(&self, addr: u64) -> bool
        ensures { result ≡ has_code addr self.now }
    {
        self.is_executable() && self.address <= addr && addr as u128 + 4 <= self.memory_end()
    }
}

/// The number of program headers.
pub(crate) fn header_count(file: &[u8]) -> u16
    requires { ELF_HEADER_BYTES ≤ length file.now }
    ensures { result ≡ e_phnum file.now }
{
    u16_at(file, E_PHNUM)
}

/// The address of the first instruction.
pub(crate) fn entry(file: &[u8]) -> u64
    requires { ELF_HEADER_BYTES ≤ length file.now }
    ensures { result ≡ e_entry file.now }
{
    u64_at(file, E_ENTRY)
}

/// The program header at a place of the table.
#[tactic(auto, unfolding(crate::specs::Fields::header_at))]
pub(crate) fn header(file: &[u8], index: u16) -> ProgramHeader
    requires table { HasTable file.now }
    requires place { index < e_phnum file.now }
    ensures { result ≡ header_at file.now (e_phoff file.now + PROGRAM_HEADER_BYTES * index) index }
{
    let start = u64_at(file, E_PHOFF) as usize + PROGRAM_HEADER_BYTES as usize * index as usize;
    ProgramHeader {
        index: index as u32,
        kind: u32_at(file, start + P_TYPE),
        flags: u32_at(file, start + P_FLAGS),
        offset: u64_at(file, start + P_OFFSET),
        address: u64_at(file, start + P_VADDR),
        file_size: u64_at(file, start + P_FILESZ),
        memory_size: u64_at(file, start + P_MEMSZ),
    }
}

/// How many segments are loadable.
#[tactic(auto, using(crate::proofs::Table::filter_more, crate::proofs::Table::filter_none))]
pub(crate) fn segment_count(file: &[u8]) -> u32
    requires { HasTable file.now }
    ensures { result ≡ length (segments file.now) }
{
    let mut count = 0u32;
    for index in 0..header_count(file) {
        if header(file, index).kind == PT_LOAD {
            count += 1;
        }
    }
    count
}

/// The loadable segments, in the order of the table.
#[tactic(auto, using(crate::proofs::Table::filter_more, crate::proofs::Table::filter_none))]
pub(crate) fn segments(alloc: Global, file: &[u8]) -> Result<Vec<ProgramHeader>, NoMemory>
    requires { HasTable file.now }
    ensures { IfOk result (λ loads. loads.items ≡ segments file.now) }
{
    let mut loads = Vec::new(alloc);
    for index in 0..header_count(file) {
        let header = header(file, index);
        if header.kind == PT_LOAD {
            loads.push(header)?;
        }
    }
    Ok(loads)
}
