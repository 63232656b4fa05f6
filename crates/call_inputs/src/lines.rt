//! The line of a refusal.

ghost use Rattle.std.specs.Prelude.{◌≡◌, ◌++◌, IfOk, OnOk, codes};
ghost use Rattle.std.specs.Fmt.{decimal};
ghost use Rattle.call_inputs.specs.Lines.{refusal_status, index_text, pair_text, image_text, install_text, journal_text, head_text};
ghost use Rattle.flat_model.specs.Texts.{hex};
ghost use Rattle.run_script.specs.Texts.{spec_text, script_text};
ghost use Rattle.call_inputs.specs.Lines.{mode_text, refusal_text, refusal_line};

use crate::refusals::{InstallRefusal, Refusal};
use elf_image::ImageRefusal;
use flat_model::{Mode, NoMemory};
use journal_file::{FileRefusal, RunHead};
use number_text::{put_decimal, put_hex, put_text, put_wide_decimal};
use run_script::{ScriptRefusal, SpecRefusal};
use std::alloc::Global;

/// The line of want of memory, which takes none.
pub const OUT_OF_MEMORY: &[u8] = b"tcg_host: out of memory\n";

impl Refusal {
    /// The status of a call that is refused so.
    pub fn status(&self) -> u8
        ensures status { result ≡ refusal_status self.now }
    {
        match self {
            Refusal::Usage => 2,
            Refusal::CannotRead { .. } | Refusal::TooLong { .. } => 3,
            Refusal::Image(_) => 4,
            Refusal::OutOfMemory => 7,
            _ => 5,
        }
    }

    /// The line that says so. `name` is that of the input which it speaks of, if it speaks of one.
    pub fn line(&self, alloc: Global, name: &str) -> Result<Vec<u8>, NoMemory>
        ensures line { IfOk result (λ line. line.items ≡ refusal_line name.now self.now) }
    {
        let mut out = Vec::new(alloc);
        put_refusal_text(&mut out, name, self)?;
        put_text(&mut out, "\n")?;
        Ok(out)
    }
}

/// Puts two pieces of text.
fn put_both(out: &mut Vec<u8>, first: &str, second: &str) -> Result<(), NoMemory>
    ensures text { OnOk result (out.new.items ≡ out.old.items ++ (first.now ++ second.now)) }
{
    put_text(out, first)?;
    put_text(out, second)
}

/// Puts two numbers with what stands before each.
fn put_pair(
    out: &mut Vec<u8>,
    before: &str,
    first: u128,
    between: &str,
    second: u128,
) -> Result<(), NoMemory>
    ensures text { OnOk result (out.new.items ≡ out.old.items ++ pair_text before.now first between.now second) }
{
    put_text(out, before)?;
    put_wide_decimal(out, first)?;
    put_text(out, between)?;
    put_wide_decimal(out, second)
}

/// Puts a number with what stands before and after it.
fn put_index(out: &mut Vec<u8>, before: &str, index: u128, after: &str) -> Result<(), NoMemory>
    ensures text { OnOk result (out.new.items ≡ out.old.items ++ index_text before.now index after.now) }
{
    put_text(out, before)?;
    put_wide_decimal(out, index)?;
    put_text(out, after)
}

/// Puts the text of a rule of the loader that names one segment.
fn put_segment(out: &mut Vec<u8>, index: u32, after: &str) -> Result<(), NoMemory>
    ensures text { OnOk result (out.new.items ≡ out.old.items ++ index_text (codes "segment ") index after.now) }
{
    put_index(out, "segment ", u128::from(index), after)
}

/// Puts 16 hexadecimal digits with what stands before and after them.
fn put_address(out: &mut Vec<u8>, before: &str, address: u64, after: &str) -> Result<(), NoMemory>
    ensures text { OnOk result (out.new.items ≡ out.old.items ++ (before.now ++ (hex 16 address ++ after.now))) }
{
    put_text(out, before)?;
    put_hex(out, address, 16)?;
    put_text(out, after)
}

/// Puts the text of the rule that an ELF file breaks.
fn put_image_text(out: &mut Vec<u8>, refusal: &ImageRefusal) -> Result<(), NoMemory>
    ensures text { OnOk result (out.new.items ≡ out.old.items ++ image_text refusal.now) }
{
    match *refusal {
        ImageRefusal::Short { need, got } => {
            put_pair(out, "file too short: need ", need, ", got ", got)
        }
        ImageRefusal::NotElf => put_text(out, "not ELF"),
        ImageRefusal::NotRv64 => put_text(out, "not little-endian ELF64 for RISC-V"),
        ImageRefusal::NotStatic => put_text(out, "not a static executable"),
        ImageRefusal::Compressed => put_text(out, "compressed instructions"),
        ImageRefusal::BadHeaders { size } => {
            put_index(out, "program header size ", u128::from(size), "")
        }
        ImageRefusal::HeadersPastEnd { need, got } => put_pair(
            out,
            "program headers past the end: need ",
            need,
            ", got ",
            got,
        ),
        ImageRefusal::Interpreted { index } => {
            put_index(out, "needs an interpreter: header ", u128::from(index), "")
        }
        ImageRefusal::TooMany { count } => {
            put_index(out, "", u128::from(count), " loadable segments")
        }
        ImageRefusal::SegmentPastEnd { index } => put_segment(
            out,
            index,
            " past the end of the file",
        ),
        ImageRefusal::SizesCross { index } => {
            put_segment(out, index, " larger in the file than in memory")
        }
        ImageRefusal::AddressRange { index } => put_segment(
            out,
            index,
            " out of the address range",
        ),
        ImageRefusal::WritableCode { index } => put_segment(out, index, " writable and executable"),
        ImageRefusal::Overlap { first, second } => {
            put_pair(
                out,
                "segments ",
                u128::from(first),
                " and ",
                u128::from(second),
            )?;
            put_text(out, " overlap")
        }
        ImageRefusal::TooLarge { bytes } => put_index(out, "", bytes, " bytes of memory"),
        ImageRefusal::EntryNotCode { entry } => put_address(out, "entry 0x", entry, " is not code"),
    }
}

/// Puts why a set can't be installed.
fn put_install_text(out: &mut Vec<u8>, refusal: &InstallRefusal) -> Result<(), NoMemory>
    ensures text { OnOk result (out.new.items ≡ out.old.items ++ install_text refusal.now) }
{
    match *refusal {
        InstallRefusal::Full => put_text(out, "full"),
        InstallRefusal::FewBoxes { need, left } => {
            put_pair(
                out,
                "needs ",
                u128::from(need),
                " boxes, ",
                u128::from(left),
            )?;
            put_text(out, " left")
        }
    }
}

/// Puts the text of the rule that a journal file breaks.
fn put_journal_text(out: &mut Vec<u8>, refusal: &FileRefusal) -> Result<(), NoMemory>
    ensures text { OnOk result (out.new.items ≡ out.old.items ++ journal_text refusal.now) }
{
    match *refusal {
        FileRefusal::Short { place } => {
            put_index(out, "too short at entry ", u128::from(place), "")
        }
        FileRefusal::Magic => put_text(out, "not a journal"),
        FileRefusal::Version { got } => put_index(out, "version ", u128::from(got), ""),
        FileRefusal::BadHead => put_text(out, "bad head"),
        FileRefusal::BadEntry { place, byte } => put_pair(
            out,
            "bad byte ",
            u128::from(byte),
            " at entry ",
            u128::from(place),
        ),
        FileRefusal::Extra { bytes } => put_index(out, "", u128::from(bytes), " bytes too many"),
    }
}

/// The name of a mode.
fn mode_text(mode: Mode) -> &'static str
    ensures text { result.now ≡ mode_text mode }
{
    match mode {
        Mode::All => "all",
        Mode::First => "first",
    }
}

/// Puts what a journal file says of its run.
fn put_head_text(out: &mut Vec<u8>, head: &RunHead) -> Result<(), NoMemory>
    ensures text { OnOk result (out.new.items ≡ out.old.items ++ head_text head.now) }
{
    put_pair(
        out,
        "made with harts ",
        u128::from(head.harts()),
        " limit ",
        u128::from(head.limit()),
    )?;
    put_both(out, " start ", mode_text(head.mode()))
}

/// Puts the text of an input that was not read.
fn put_too_long(out: &mut Vec<u8>, name: &str, limit: usize) -> Result<(), NoMemory>
    ensures text { OnOk result (out.new.items ≡ out.old.items
        ++ ((codes "tcg_host: " ++ name.now) ++ index_text (codes " is longer than ") limit (codes " bytes"))) }
{
    put_both(out, "tcg_host: ", name)?;
    put_index(out, " is longer than ", limit as u128, " bytes")
}

/// Puts the text of an ELF file that is refused.
fn put_image(out: &mut Vec<u8>, refusal: &ImageRefusal) -> Result<(), NoMemory>
    ensures text { OnOk result (out.new.items ≡ out.old.items ++ (codes "tcg_host: image: " ++ image_text refusal.now)) }
{
    put_text(out, "tcg_host: image: ")?;
    put_image_text(out, refusal)
}

/// Puts two numbers with what stands before each, a separator and the text of a rule.
fn put_rule(
    out: &mut Vec<u8>,
    before: &str,
    first: u128,
    between: &str,
    second: u128,
    separator: &str,
    rule: &str,
) -> Result<(), NoMemory>
    ensures text { OnOk result (out.new.items
        ≡ out.old.items ++ (pair_text before.now first between.now second ++ (separator.now ++ rule.now))) }
{
    put_pair(out, before, first, between, second)?;
    put_both(out, separator, rule)
}

/// Puts the text of a plug-in word that is refused.
fn put_word(out: &mut Vec<u8>, number: u64, refusal: &SpecRefusal) -> Result<(), NoMemory>
    ensures text { OnOk result (out.new.items ≡ out.old.items ++ (pair_text (codes "tcg_host: plug-in ") number
        (codes ": column ") refusal.now.column ++ (codes ": " ++ spec_text refusal.now.rule))) }
{
    let (first, second) = (u128::from(number), u128::from(refusal.column));
    let rule = refusal.rule.text();
    put_rule(
        out,
        "tcg_host: plug-in ",
        first,
        ": column ",
        second,
        ": ",
        rule,
    )
}

/// Puts the text of a set that can't be installed.
fn put_install(out: &mut Vec<u8>, number: u64, refusal: &InstallRefusal) -> Result<(), NoMemory>
    ensures text { OnOk result (out.new.items
        ≡ out.old.items ++ (index_text (codes "tcg_host: plug-in ") number (codes ": ") ++ install_text refusal.now)) }
{
    put_index(out, "tcg_host: plug-in ", u128::from(number), ": ")?;
    put_install_text(out, refusal)
}

/// Puts the text of a script that is refused.
fn put_script(out: &mut Vec<u8>, refusal: &ScriptRefusal) -> Result<(), NoMemory>
    ensures text { OnOk result (out.new.items ≡ out.old.items ++ (pair_text (codes "tcg_host: script ") refusal.now.line
        (codes ":") refusal.now.column ++ (codes ": " ++ script_text refusal.now.rule))) }
{
    let (line, column) = (u128::from(refusal.line), u128::from(refusal.column));
    let rule = refusal.rule.text();
    put_rule(out, "tcg_host: script ", line, ":", column, ": ", rule)
}

/// Puts the text of a journal file that is refused.
fn put_journal(out: &mut Vec<u8>, refusal: &FileRefusal) -> Result<(), NoMemory>
    ensures text { OnOk result (out.new.items ≡ out.old.items ++ (codes "tcg_host: journal: " ++ journal_text refusal.now)) }
{
    put_text(out, "tcg_host: journal: ")?;
    put_journal_text(out, refusal)
}

/// Puts the text of a journal of another run.
fn put_other_run(out: &mut Vec<u8>, head: &RunHead) -> Result<(), NoMemory>
    ensures text { OnOk result (out.new.items ≡ out.old.items ++ (codes "tcg_host: journal: " ++ head_text head.now)) }
{
    put_text(out, "tcg_host: journal: ")?;
    put_head_text(out, head)
}

/// Puts the text of a refusal, for the input of this name.
fn put_refusal_text(out: &mut Vec<u8>, name: &str, refusal: &Refusal) -> Result<(), NoMemory>
    ensures text { OnOk result (out.new.items ≡ out.old.items ++ refusal_text name.now refusal.now) }
{
    match refusal {
        Refusal::Usage => put_text(out, "usage: tcg_host run, replay, blocks, disas or self"),
        Refusal::CannotRead { .. } => put_both(out, "tcg_host: cannot read ", name),
        Refusal::TooLong { input } => put_too_long(out, name, input.limit()),
        Refusal::Image(refusal) => put_image(out, refusal),
        Refusal::Word { number, refusal } => put_word(out, *number, refusal),
        Refusal::Install { number, refusal } => put_install(out, *number, refusal),
        Refusal::Script(refusal) => put_script(out, refusal),
        Refusal::Journal(refusal) => put_journal(out, refusal),
        Refusal::OtherRun { head } => put_other_run(out, head),
        Refusal::NotThisRun { place } => put_index(
            out,
            "tcg_host: journal: not a run of this image at entry ",
            u128::from(*place),
            "",
        ),
        Refusal::OutOfMemory => put_text(out, "tcg_host: out of memory"),
    }
}
