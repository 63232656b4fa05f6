//! The inputs of a call, each read and judged.

ghost use Rattle.std.specs.Prelude.{◌≡◌, ◌≤◌, ◌∷◌, ◌++◌, ℕ, [], map, length, take, MatchResult, None, Some, Ok, Err, IsOk};
ghost use Rattle.std.specs.Prelude.{string_bytes};
ghost use Rattle.flat_model.specs.declared.limits.TheConstants.{FILE_MOST, SCRIPT_MOST, JOURNAL_MOST};
ghost use Rattle.outer_io.specs.Counts.{IsFaultless};
ghost use Rattle.outer_io.specs.Files.{HasReadCause};
ghost use Rattle.elf_image.specs.Loads.{Loads, Refuses};
ghost use Rattle.call_inputs.specs.Inputs.{WasRead, IsImageOf, AreSpelt, AreInstalls, IsScriptFile, IsJournalFile};
ghost use Rattle.call_inputs.specs.Causes.{limit_of, ImageCause, WordsCause, ScriptCause, JournalCause, ReadCause};
ghost use Rattle.flat_model.specs.Plan.{IsPlan};
ghost use Rattle.journal_file.specs.File.{held};
ghost use Rattle.std.specs.Prelude.{◌≢◌, MatchOption, IfOk};

use crate::refusals::{Input, InstallRefusal, Refusal};
use elf_image::load;
use flat_model::limits::{FILE_MOST, JOURNAL_MOST, SCRIPT_MOST};
use flat_model::{Image, NoMemory, OrderRefusal, Plan, Refused, SetSpec, Timed};
use host_core::first_refused;
use journal_file::{JournalFile, RunHead};
use outer_io::{FileFault, Files};
use run_script::plugin_word;
use std::alloc::Global;

/// Reads the whole file of this name.
fn read_input<F: Files>(
    alloc: Global,
    files: &mut F,
    input: Input,
    name: &str,
) -> Result<Vec<u8>, Refusal>
    ensures cases { MatchResult result
        (λ bytes. WasRead (record { told = F.told files.old; contents = F.contents files.old }) name.now (limit_of input) bytes.items
        × IsFaultless (F.read_faults files.old) (F.read_faults files.new))
        (λ refusal. ReadCause (record { told = F.told files.old; contents = F.contents files.old }) name.now input
        (F.read_faults files.old) (F.read_faults files.new) refusal) }
    ensures writes { F.write_faults files.new ≡ F.write_faults files.old }
    ensures still_told { F.told files.new ≡ F.told files.old }
    ensures unchanged { F.contents files.new ≡ F.contents files.old }
{
    let mut bytes = Vec::new(alloc);
    match files.read(name, input.limit(), &mut bytes) {
        Ok(()) => Ok(bytes),
        Err(FileFault::Failed | FileFault::Missing) => Err(Refusal::CannotRead { input }),
        Err(FileFault::TooLong) => Err(Refusal::TooLong { input }),
        Err(FileFault::NoMemory) => Err(Refusal::OutOfMemory),
    }
}

/// Reads the ELF file of this name and loads it.
pub fn image<F: Files>(alloc: Global, files: &mut F, name: &str) -> Result<Image, Refusal>
    ensures cases { MatchResult result
        (λ image. IsImageOf (record { told = F.told files.old; contents = F.contents files.old }) name.now image
        × IsFaultless (F.read_faults files.old) (F.read_faults files.new))
        (λ refusal. ImageCause (record { told = F.told files.old; contents = F.contents files.old }) name.now
        (F.read_faults files.old) (F.read_faults files.new) refusal) }
    ensures writes { F.write_faults files.new ≡ F.write_faults files.old }
    ensures still_told { F.told files.new ≡ F.told files.old }
    ensures unchanged { F.contents files.new ≡ F.contents files.old }
{
    let bytes = match read_input(alloc, files, Input::File, name) {
        Ok(bytes) => bytes,
        Err(refusal) => return Err(refusal),
    };
    match load(alloc, bytes.as_slice()) {
        Ok(image) => Ok(image),
        Err(Refused::Because(refusal)) => Err(Refusal::Image(refusal)),
        Err(Refused::NoMemory) => Err(Refusal::OutOfMemory),
    }
}

/// Reads the script of this name.
pub fn script<F: Files>(alloc: Global, files: &mut F, name: &str) -> Result<Vec<Timed>, Refusal>
    ensures cases { MatchResult result
        (λ lines. IsScriptFile (record { told = F.told files.old; contents = F.contents files.old }) name.now lines.items
        × IsFaultless (F.read_faults files.old) (F.read_faults files.new))
        (λ refusal. ScriptCause (record { told = F.told files.old; contents = F.contents files.old }) name.now
        (F.read_faults files.old) (F.read_faults files.new) refusal) }
    ensures plan { IfOk result (λ lines. IsPlan lines.items) }
    ensures writes { F.write_faults files.new ≡ F.write_faults files.old }
    ensures still_told { F.told files.new ≡ F.told files.old }
    ensures unchanged { F.contents files.new ≡ F.contents files.old }
{
    let bytes = match read_input(alloc, files, Input::Script, name) {
        Ok(bytes) => bytes,
        Err(refusal) => return Err(refusal),
    };
    match run_script::script(alloc, bytes.as_slice()) {
        Ok(lines) => Ok(lines),
        Err(Refused::Because(refusal)) => Err(Refusal::Script(refusal)),
        Err(Refused::NoMemory) => Err(Refusal::OutOfMemory),
    }
}

/// Whether a journal file says nothing of its run, or tells of one with this head.
fn is_of(file: &JournalFile, head: &RunHead) -> Result<(), RunHead>
    ensures head { MatchResult result
        (λ _. MatchOption file.now.head (Unit {0}) (λ made. made ≡ head.now))
        (λ made. (file.now.head ≡ Some made) × (made ≢ head.now)) }
{
    match file.head {
        None => Ok(()),
        Some(made) => { if made == *head { Ok(()) } else { Err(made) } }
    }
}

/// Reads the journal file of this name, which is to be of a run with this head.
pub fn journal<F: Files>(
    alloc: Global,
    files: &mut F,
    name: &str,
    head: &RunHead,
) -> Result<JournalFile, Refusal>
    ensures cases { MatchResult result
        (λ file. (IsJournalFile (record { told = F.told files.old; contents = F.contents files.old }) name.now (held file)
        × MatchOption file.head (Unit {0}) (λ made. made ≡ head.now))
        × IsFaultless (F.read_faults files.old) (F.read_faults files.new))
        (λ refusal. JournalCause (record { told = F.told files.old; contents = F.contents files.old }) name.now head.now
        (F.read_faults files.old) (F.read_faults files.new) refusal) }
    ensures writes { F.write_faults files.new ≡ F.write_faults files.old }
    ensures still_told { F.told files.new ≡ F.told files.old }
    ensures unchanged { F.contents files.new ≡ F.contents files.old }
{
    let bytes = match read_input(alloc, files, Input::Journal, name) {
        Ok(bytes) => bytes,
        Err(refusal) => return Err(refusal),
    };
    let file = match journal_file::read(alloc, bytes.as_slice()) {
        Ok(file) => file,
        Err(Refused::Because(refusal)) => return Err(Refusal::Journal(refusal)),
        Err(Refused::NoMemory) => return Err(Refusal::OutOfMemory),
    };
    match is_of(&file, head) {
        Ok(()) => Ok(file),
        Err(head) => Err(Refusal::OtherRun { head }),
    }
}
