//! The rules of a file that loads, in their order.

ghost use Rattle.std.specs.Prelude.{◌≡◌, ◌+◌, ◌<◌, ◌≤◌, ◌&&◌, length, OnOk, true, sum_by, find, nat_lt};
ghost use Rattle.std.specs.Option.{option_copied};
ghost use Rattle.std.specs.List.{list_any};
ghost use Rattle.flat_model.specs.declared.limits.TheConstants.{SEGMENTS_END};
ghost use Rattle.elf_image.specs.Checks.{HasTable, Answers, identity_rules, kind_rules, place_rules, header_rules, segment_rules};
ghost use Rattle.elf_image.specs.declared.format.TheConstants.{ELF_HEADER_BYTES};
ghost use Rattle.elf_image.specs.Fields.{segments};
ghost use Rattle.elf_image.specs.Rules.{unless, first_of, memory_end, is_writable, is_executable, is_riscv64, overlaps, overlap_of};
ghost use Rattle.elf_image.specs.Rules.{has_code};
ghost use Rattle.elf_image.specs.Rules.{no_interpreter, few_segments, inside_file, sizes_in_order, in_range, code_not_writable};
ghost use Rattle.elf_image.specs.Rules.{apart, small_enough, enters_code};

use crate::fields::{flag, u16_at, u32_at, u64_at};
use crate::format::*;
use crate::headers::{ProgramHeader, entry, header, header_count, segment_count};
use crate::refusals::ImageRefusal;
use flat_model::limits::{FILE_MOST, SEGMENTS_END, SEGMENTS_MOST};

/// Refuses unless the condition holds.
fn unless(holds: bool, refusal: ImageRefusal) -> Result<(), ImageRefusal>
    ensures rule { Answers result (unless holds refusal) }
    ensures held { OnOk result (holds ≡ true) }
{
    if holds { Ok(()) } else { Err(refusal) }
}

/// Class 64, little-endian, version 1, RISC-V.
fn is_riscv64(file: &[u8]) -> bool
    requires { ELF_HEADER_BYTES ≤ length file.now }
    ensures { result ≡ is_riscv64 file.now }
{
    file[EI_CLASS] == ELFCLASS64
        && file[EI_DATA] == ELFDATA2LSB
        && file[EI_VERSION] == EV_CURRENT
        && u16_at(file, E_MACHINE) == EM_RISCV
}

/// The file is an ELF64 file for RISC-V.
#[tactic(auto, unfolding(crate::specs::Rules::long_enough, crate::specs::Rules::has_magic, crate::specs::Rules::is_rv64))]
fn check_identity(file: &[u8]) -> Result<(), ImageRefusal>
    ensures rules { Answers result (first_of (identity_rules file.now)) }
    ensures header { OnOk result (ELF_HEADER_BYTES ≤ length file.now) }
{
    let need = ELF_HEADER_BYTES;
    let got = file.len() as u128;
    unless(need <= got, ImageRefusal::Short { need, got })?;
    unless(u32_at(file, EI_MAG) == ELFMAG, ImageRefusal::NotElf)?;
    unless(is_riscv64(file), ImageRefusal::NotRv64)
}

/// The file is a static executable without compressed instructions.
#[tactic(auto, unfolding(crate::specs::Rules::is_static, crate::specs::Rules::not_compressed))]
fn check_kind(file: &[u8]) -> Result<(), ImageRefusal>
    requires { ELF_HEADER_BYTES ≤ length file.now }
    ensures { Answers result (first_of (kind_rules file.now)) }
{
    unless(u16_at(file, E_TYPE) == ET_EXEC, ImageRefusal::NotStatic)?;
    let is_compressed = flag(u32_at(file, E_FLAGS), EF_RISCV_RVC_BIT);
    unless(!is_compressed, ImageRefusal::Compressed)
}

/// The rules of the program header table's place.
#[tactic(auto, unfolding(crate::specs::Rules::header_size, crate::specs::Rules::headers_inside))]
fn check_table(file: &[u8]) -> Result<(), ImageRefusal>
    requires { ELF_HEADER_BYTES ≤ length file.now }
    ensures rules { Answers result (first_of (place_rules file.now)) }
    ensures table { OnOk result (HasTable file.now) }
{
    let count = header_count(file);
    let size = u16_at(file, E_PHENTSIZE);
    unless(
        count == 0 || size == PROGRAM_HEADER_BYTES,
        ImageRefusal::BadHeaders { size },
    )?;
    let need = u64_at(file, E_PHOFF) as u128 + PROGRAM_HEADER_BYTES as u128 * count as u128;
    let got = file.len() as u128;
    unless(
        count == 0 || need <= got,
        ImageRefusal::HeadersPastEnd { need, got },
    )
}

/// No program header asks for an interpreter.
fn check_interpreter(file: &[u8]) -> Result<(), ImageRefusal>
    requires { HasTable file.now }
    ensures { Answers result (no_interpreter file.now) }
{
    for index in 0..header_count(file) {
        if header(file, index).kind == PT_INTERP {
            return Err(ImageRefusal::Interpreted {
                index: index as u32,
            });
        }
    }
    Ok(())
}

/// There are at most 16 loadable segments.
#[tactic(auto, unfolding(crate::specs::Rules::few_segments))]
fn check_count(file: &[u8]) -> Result<(), ImageRefusal>
    requires { HasTable file.now }
    ensures { Answers result (few_segments file.now) }
{
    let count = segment_count(file);
    unless(count <= SEGMENTS_MOST, ImageRefusal::TooMany { count })
}

/// The first segment whose bytes reach past the end of the file.
fn past_end(loads: &[ProgramHeader], len: u128) -> Option<&ProgramHeader>
    ensures { option_copied result ≡ find (λ h. nat_lt len (h.offset + h.file_size)) loads.now }
{
    loads.iter().find(|h| len < h.file_end())
}

/// The first segment that has more bytes in the file than in memory.
fn larger_in_file(loads: &[ProgramHeader]) -> Option<&ProgramHeader>
    ensures { option_copied result ≡ find (λ h. nat_lt h.memory_size h.file_size) loads.now }
{
    loads.iter().find(|h| h.memory_size < h.file_size)
}

/// The first segment that reaches into the stacks.
fn out_of_range(loads: &[ProgramHeader]) -> Option<&ProgramHeader>
    ensures { option_copied result ≡ find (λ h. nat_lt SEGMENTS_END (memory_end h)) loads.now }
{
    loads
        .iter()
        .find(|h| (SEGMENTS_END as u128) < h.memory_end())
}

/// The first segment that is writable and executable.
fn writable_code(loads: &[ProgramHeader]) -> Option<&ProgramHeader>
    ensures { option_copied result ≡ find (λ h. is_writable h && is_executable h) loads.now }
{
    loads.iter().find(|h| h.is_writable() && h.is_executable())
}

/// The first of the earlier segments that shares an address with this one.
fn overlapped<'a>(before: &'a [ProgramHeader], second: &ProgramHeader) -> Option<&'a ProgramHeader>
    ensures { option_copied result ≡ find (λ h. overlaps h second.now) before.now }
{
    before.iter().find(|h| h.overlaps(second))
}

/// The refusal of a segment that shares an address with an earlier one.
fn overlap(before: &[ProgramHeader], second: &ProgramHeader) -> Option<ImageRefusal>
    ensures { result ≡ overlap_of before.now second.now }
{
    let first = overlapped(before, second)?;
    Some(ImageRefusal::Overlap {
        first: first.index,
        second: second.index,
    })
}

/// Whether a segment has the word at the entry.
fn has_code(loads: &[ProgramHeader], entry: u64) -> bool
    ensures { result ≡ list_any (has_code entry) loads.now }
{
    loads.iter().any(|h| h.has_code(entry))
}

/// The bytes of each segment lie in the file.
#[tactic(auto, unfolding(crate::specs::Rules::inside_file))]
fn check_inside(file: &[u8], loads: &[ProgramHeader]) -> Result<(), ImageRefusal>
    requires { loads.now ≡ segments file.now }
    ensures { Answers result (inside_file file.now) }
{
    match past_end(loads, file.len() as u128) {
        Some(h) => Err(ImageRefusal::SegmentPastEnd { index: h.index }),
        None => Ok(()),
    }
}

/// No segment has more bytes in the file than in memory.
#[tactic(auto, unfolding(crate::specs::Rules::sizes_in_order))]
fn check_sizes(file: &[u8], loads: &[ProgramHeader]) -> Result<(), ImageRefusal>
    requires { loads.now ≡ segments file.now }
    ensures { Answers result (sizes_in_order file.now) }
{
    match larger_in_file(loads) {
        Some(h) => Err(ImageRefusal::SizesCross { index: h.index }),
        None => Ok(()),
    }
}

/// Each segment ends below the stacks.
#[tactic(auto, unfolding(crate::specs::Rules::in_range))]
fn check_range(file: &[u8], loads: &[ProgramHeader]) -> Result<(), ImageRefusal>
    requires { loads.now ≡ segments file.now }
    ensures { Answers result (in_range file.now) }
{
    match out_of_range(loads) {
        Some(h) => Err(ImageRefusal::AddressRange { index: h.index }),
        None => Ok(()),
    }
}

/// No segment is writable and executable.
#[tactic(auto, unfolding(crate::specs::Rules::code_not_writable))]
fn check_code(file: &[u8], loads: &[ProgramHeader]) -> Result<(), ImageRefusal>
    requires { loads.now ≡ segments file.now }
    ensures { Answers result (code_not_writable file.now) }
{
    match writable_code(loads) {
        Some(h) => Err(ImageRefusal::WritableCode { index: h.index }),
        None => Ok(()),
    }
}

/// No two segments share an address.
fn check_apart(file: &[u8], loads: &[ProgramHeader]) -> Result<(), ImageRefusal>
    requires { loads.now ≡ segments file.now }
    ensures { Answers result (apart file.now) }
{
    for (i, second) in loads.iter().enumerate() {
        if let Some(refusal) = overlap(&loads[..i], second) {
            return Err(refusal);
        }
    }
    Ok(())
}

/// The bytes of memory of all segments.
fn memory_size(loads: &[ProgramHeader]) -> u128
    ensures { result ≡ sum_by (λ h. h.memory_size) loads.now }
{
    let mut bytes = 0u128;
    for header in loads {
        bytes += header.memory_size as u128;
    }
    bytes
}

/// The segments have at most 64 MiB of memory.
#[tactic(auto, unfolding(crate::specs::Rules::small_enough))]
fn check_memory(file: &[u8], loads: &[ProgramHeader]) -> Result<(), ImageRefusal>
    requires { loads.now ≡ segments file.now }
    ensures { Answers result (small_enough file.now) }
{
    let bytes = memory_size(loads);
    unless(bytes <= FILE_MOST as u128, ImageRefusal::TooLarge { bytes })
}

/// The entry is a multiple of 4 in an executable segment.
#[tactic(auto, unfolding(crate::specs::Rules::enters_code))]
fn check_entry(file: &[u8], loads: &[ProgramHeader]) -> Result<(), ImageRefusal>
    requires header { ELF_HEADER_BYTES ≤ length file.now }
    requires loads { loads.now ≡ segments file.now }
    ensures { Answers result (enters_code file.now) }
{
    let entry = entry(file);
    unless(
        entry % 4 == 0 && has_code(loads, entry),
        ImageRefusal::EntryNotCode { entry },
    )
}

/// The rules of the headers.
pub(crate) fn check_headers(file: &[u8]) -> Result<(), ImageRefusal>
    ensures rules { Answers result (first_of (header_rules file.now)) }
    ensures table { OnOk result (HasTable file.now) }
{
    check_identity(file)?;
    check_kind(file)?;
    check_table(file)?;
    check_interpreter(file)?;
    check_count(file)
}

/// The rules of the loadable segments.
pub(crate) fn check_segments(file: &[u8], loads: &[ProgramHeader]) -> Result<(), ImageRefusal>
    requires header { ELF_HEADER_BYTES ≤ length file.now }
    requires loads { loads.now ≡ segments file.now }
    ensures { Answers result (first_of (segment_rules file.now)) }
{
    check_inside(file, loads)?;
    check_sizes(file, loads)?;
    check_range(file, loads)?;
    check_code(file, loads)?;
    check_apart(file, loads)?;
    check_memory(file, loads)?;
    check_entry(file, loads)
}
