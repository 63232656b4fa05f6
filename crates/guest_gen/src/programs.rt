//! The file of a program.

ghost use Rattle.std.specs.Prelude.{◌≡◌, ◌++◌, ◌≤◌, All, OnOk, IfOk};
ghost use Rattle.flat_model.specs.Instruction.{IsInRange};
ghost use Rattle.guest_gen.specs.Program.{elf_header, u32_bytes, u64_bytes, sizes, program_header, headers, IsCode, IsProgram};

use crate::instructions::instructions;
use flat_model::{Ins, NoMemory};
use rv_decode::encode;
use std::alloc::Global;

/// Where the code begins in memory.
const CODE: u64 = 0x1_0000;

/// Where the sum and the count of harts stand in memory.
const DATA: u64 = 0x2000_0000;

/// The bytes of the headers, behind which the code stands in the file.
const HEADERS: u64 = 176;

/// The kind of a segment that is loaded.
const PT_LOAD: u32 = 1;

/// The flags of a segment that may be read and executed, and of one that may be read and written.
const READ_EXECUTE: u32 = 5;

const READ_WRITE: u32 = 6;

/// Puts the ELF header.
fn put_elf_header(file: &mut Vec<u8>) -> Result<(), NoMemory>
    ensures header { OnOk result (file.new.items ≡ file.old.items ++ elf_header) }
{
    file.extend_from_slice(&[0x7f, b'E', b'L', b'F', 2, 1, 1, 0, 0, 0, 0, 0, 0, 0, 0, 0])?;
    file.extend_from_slice(&[2, 0, 243, 0, 0, 0, 0, 0])?;
    file.extend_from_slice(&[0, 0, 1, 0, 0, 0, 0, 0])?;
    file.extend_from_slice(&[64, 0, 0, 0, 0, 0, 0, 0])?;
    file.extend_from_slice(&[0; 8])?;
    file.extend_from_slice(&[0, 0, 0, 0, 0, 0, 56, 0, 2, 0, 0, 0, 0, 0, 0, 0])?;
    Ok(())
}

/// Puts a number of 4 bytes.
#[tactic(auto, unfolding(crate::specs::Program::u32_bytes))]
fn put_u32(file: &mut Vec<u8>, n: u32) -> Result<(), NoMemory>
    ensures bytes { OnOk result (file.new.items ≡ file.old.items ++ u32_bytes n) }
{
    file.extend_from_slice(&n.to_le_bytes())?;
    Ok(())
}

/// Puts a number of 8 bytes.
#[tactic(auto, unfolding(crate::specs::Program::u64_bytes))]
fn put_u64(file: &mut Vec<u8>, n: u64) -> Result<(), NoMemory>
    ensures bytes { OnOk result (file.new.items ≡ file.old.items ++ u64_bytes n) }
{
    file.extend_from_slice(&n.to_le_bytes())?;
    Ok(())
}

/// Puts the sizes of a segment, and its alignment, which is not given.
fn put_sizes(file: &mut Vec<u8>, in_file: u64, in_memory: u64) -> Result<(), NoMemory>
    ensures sizes { OnOk result (file.new.items ≡ file.old.items ++ sizes in_file in_memory) }
{
    put_u64(file, in_file)?;
    put_u64(file, in_memory)?;
    put_u64(file, 0)
}

/// Puts the program header of a segment that is loaded.
fn put_program_header(
    file: &mut Vec<u8>,
    flags: u32,
    address: u64,
    in_file: u64,
    in_memory: u64,
) -> Result<(), NoMemory>
    ensures header { OnOk result (file.new.items ≡ file.old.items ++ program_header flags HEADERS address in_file in_memory) }
{
    put_u32(file, PT_LOAD)?;
    put_u32(file, flags)?;
    put_u64(file, HEADERS)?;
    put_u64(file, address)?;
    put_u64(file, 0)?;
    put_sizes(file, in_file, in_memory)
}

/// Puts the headers of a file with so many bytes of code.
#[tactic(auto, unfolding(crate::specs::Program::headers))]
fn put_headers(file: &mut Vec<u8>, bytes: u64) -> Result<(), NoMemory>
    ensures headers { OnOk result (file.new.items ≡ file.old.items ++ headers bytes) }
{
    put_elf_header(file)?;
    put_program_header(file, READ_EXECUTE, CODE, bytes, bytes)?;
    put_program_header(file, READ_WRITE, DATA, 0, 16)
}

/// The words of instructions, one after the other.
fn words_of(alloc: Global, code: &[Ins]) -> Result<Vec<u8>, NoMemory>
    requires range { All IsInRange code.now }
    ensures code { IfOk result (λ bytes. IsCode code.now bytes.items) }
{
    let mut bytes = Vec::new(alloc);
    for ins in code {
        let word = encode(ins);
        put_u32(&mut bytes, word)?;
    }
    Ok(bytes)
}

/// The ELF file of the program of `n`, from 1 to 100,000.
pub fn program(alloc: Global, n: u32) -> Result<Vec<u8>, NoMemory>
    requires some { 1 ≤ n }
    requires most { n ≤ 100000 }
    ensures program { IfOk result (λ file. IsProgram n file.items) }
{
    let code = instructions(alloc, n)?;
    let words = words_of(alloc, code.as_slice())?;
    let mut file = Vec::new(alloc);
    put_headers(&mut file, 4 * code.len() as u64)?;
    file.extend_from_slice(words.as_slice())?;
    Ok(file)
}
