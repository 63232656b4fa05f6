//! The report's lines of rows, one for each.

ghost use Rattle.std.specs.Prelude.{◌≡◌, ◌++◌, OnOk};
ghost use Rattle.report_text.specs.RowLines.{
  event_word,
  class_word,
  access_word,
  tagged_text,
  both_text,
  value_text,
  named_line,
  hot_line,
  moved_text,
  mem_line,
  word_text,
  exec_line,
  page_line,
  row_line,
};

use flat_model::limits::{PAGE_BYTES, READS_AND_WRITES, WRITES};
use flat_model::{KindName, NoMemory, Row};
use number_text::{put_decimal, put_hex, put_text};

/// What the report calls a kind of event, by the number of its bit in a filter.
fn event_word(number: u64) -> &'static str
    ensures word { result.now ≡ event_word number }
{
    match number {
        0 => "init",
        1 => "block",
        2 => "insn",
        3 => "mem",
        4 => "sys",
        5 => "sysret",
        6 => "exit",
        _ => "",
    }
}

/// What the report calls a class of words, by the number of its bit in a filter.
fn class_word(number: u64) -> &'static str
    ensures word { result.now ≡ class_word number }
{
    match number {
        0 => "alu",
        1 => "muldiv",
        2 => "load",
        3 => "store",
        4 => "branch",
        5 => "jump",
        6 => "atomic",
        7 => "system",
        8 => "illegal",
        _ => "",
    }
}

/// What the report calls an access.
fn access_word(direction: u8, signed: bool) -> &'static str
    ensures word { result.now ≡ access_word direction signed }
{
    if direction == READS_AND_WRITES {
        "amo"
    } else if direction == WRITES {
        "store"
    } else if signed {
        "sload"
    } else {
        "load"
    }
}

/// Puts a value in hexadecimal behind what it is.
fn put_tagged(out: &mut Vec<u8>, tag: &str, value: u64) -> Result<(), NoMemory>
    ensures text { OnOk result (out.new.items ≡ out.old.items ++ tagged_text tag.now value) }
{
    put_text(out, tag)?;
    put_hex(out, value, 16)
}

/// Puts what an access read and what it wrote.
fn put_both(out: &mut Vec<u8>, read: u64, written: u64) -> Result<(), NoMemory>
    ensures text { OnOk result (out.new.items ≡ out.old.items ++ both_text read written) }
{
    put_tagged(out, " read 0x", read)?;
    put_tagged(out, " written 0x", written)
}

/// Puts the value that an access read or wrote, or both of one that did both.
fn put_value(out: &mut Vec<u8>, direction: u8, read: u64, written: u64) -> Result<(), NoMemory>
    ensures text { OnOk result (out.new.items ≡ out.old.items ++ value_text direction read written) }
{
    if direction == READS_AND_WRITES {
        put_both(out, read, written)
    } else if direction == WRITES {
        put_tagged(out, " value 0x", written)
    } else {
        put_tagged(out, " value 0x", read)
    }
}

/// Puts a name and a number.
#[tactic(auto, unfolding(crate::specs::RowLines::named_line))]
fn put_named(out: &mut Vec<u8>, name: &str, number: u64) -> Result<(), NoMemory>
    ensures line { OnOk result (out.new.items ≡ out.old.items ++ named_line name.now number) }
{
    put_text(out, name)?;
    put_text(out, " ")?;
    put_decimal(out, number)?;
    put_text(out, "\n")
}

/// Puts the line of a block.
#[tactic(auto, unfolding(crate::specs::RowLines::hot_line))]
fn put_block(out: &mut Vec<u8>, row: &Row) -> Result<(), NoMemory>
    ensures line { OnOk result (out.new.items ≡ out.old.items ++ hot_line row.now) }
{
    put_text(out, "block 0x")?;
    put_hex(out, row.key, 16)?;
    put_text(out, " runs ")?;
    put_decimal(out, row.a)?;
    put_text(out, " insns ")?;
    put_decimal(out, row.b)?;
    put_text(out, "\n")
}

/// Puts where an access went, how many bytes, and what it moved.
#[tactic(auto, unfolding(crate::specs::RowLines::moved_text))]
fn put_moved(out: &mut Vec<u8>, row: &Row) -> Result<(), NoMemory>
    ensures text { OnOk result (out.new.items ≡ out.old.items ++ moved_text row.now) }
{
    put_text(out, " addr 0x")?;
    put_hex(out, row.key, 16)?;
    put_text(out, " size ")?;
    put_decimal(out, 1u64 << (row.c % 4))?;
    put_value(out, (row.c / 8 % 4) as u8, row.a, row.d)?;
    put_text(out, "\n")
}

/// Puts the line of an access.
#[tactic(auto, unfolding(crate::specs::RowLines::mem_line))]
fn put_access(out: &mut Vec<u8>, row: &Row) -> Result<(), NoMemory>
    ensures line { OnOk result (out.new.items ≡ out.old.items ++ mem_line row.now) }
{
    put_text(out, "hart ")?;
    put_decimal(out, row.c / 256)?;
    put_text(out, " pc 0x")?;
    put_hex(out, row.b, 16)?;
    put_text(out, " ")?;
    put_text(out, access_word((row.c / 8 % 4) as u8, row.c / 4 % 2 == 1))?;
    put_moved(out, row)
}

/// Puts what was executed.
#[tactic(auto, unfolding(crate::specs::RowLines::word_text))]
fn put_word(out: &mut Vec<u8>, row: &Row) -> Result<(), NoMemory>
    ensures text { OnOk result (out.new.items ≡ out.old.items ++ word_text row.now) }
{
    put_text(out, " pc 0x")?;
    put_hex(out, row.key, 16)?;
    put_text(out, " word 0x")?;
    put_hex(out, row.a, 8)?;
    put_text(out, "\n")
}

/// Puts the line of an executed instruction.
#[tactic(auto, unfolding(crate::specs::RowLines::exec_line))]
fn put_executed(out: &mut Vec<u8>, row: &Row) -> Result<(), NoMemory>
    ensures line { OnOk result (out.new.items ≡ out.old.items ++ exec_line row.now) }
{
    put_text(out, "hart ")?;
    put_decimal(out, row.c)?;
    put_text(out, " step ")?;
    put_decimal(out, row.b)?;
    put_word(out, row)
}

/// Puts the line of a page.
#[tactic(auto, unfolding(crate::specs::RowLines::page_line))]
fn put_page(out: &mut Vec<u8>, row: &Row) -> Result<(), NoMemory>
    ensures line { OnOk result (out.new.items ≡ out.old.items ++ page_line row.now) }
{
    put_text(out, "page 0x")?;
    put_hex(out, row.key.wrapping_mul(PAGE_BYTES), 16)?;
    put_text(out, " loads ")?;
    put_decimal(out, row.a)?;
    put_text(out, " stores ")?;
    put_decimal(out, row.b)?;
    put_text(out, "\n")
}

/// Puts the line of a row of a kind at the end of `out`. A kind of the caller's own has no rows.
pub fn put_row(out: &mut Vec<u8>, name: KindName, row: &Row) -> Result<(), NoMemory>
    ensures line { OnOk result (out.new.items ≡ out.old.items ++ row_line name row.now) }
{
    match name {
        KindName::Counts => put_named(out, event_word(row.key), row.a),
        KindName::Hot => put_block(out, row),
        KindName::Mem => put_access(out, row),
        KindName::Exec => put_executed(out, row),
        KindName::Classes => put_named(out, class_word(row.key), row.a),
        KindName::Pages => put_page(out, row),
        KindName::Own { .. } => put_text(out, "\n"),
    }
}
