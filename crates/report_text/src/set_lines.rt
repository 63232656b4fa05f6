//! The report's lines of a set: how it ended, its entries and its subscriptions.

ghost use Rattle.std.specs.Prelude.{◌≡◌, ◌++◌, OnOk};
ghost use Rattle.report_text.specs.RowLines.{state_word, kind_word, set_line, entry_line, sub_line};

use flat_model::{How, KindName, NoMemory};
use number_text::{put_decimal, put_text};

/// What the report calls how a set ended; one that has not ended is live.
fn state_word(ending: Option<How>) -> &'static str
    ensures word { result.now ≡ state_word ending }
{
    match ending {
        None => "live",
        Some(How::Reset) => "reset",
        Some(How::Uninstall) => "gone",
    }
}

/// What the report calls a kind.
fn kind_word(name: KindName) -> &'static str
    ensures word { result.now ≡ kind_word name }
{
    match name {
        KindName::Counts => "counts",
        KindName::Hot => "hot",
        KindName::Mem => "mem",
        KindName::Exec => "exec",
        KindName::Classes => "classes",
        KindName::Pages => "pages",
        KindName::Own { .. } => "own",
    }
}

/// Puts the line of a set at the end of `out`. Plug-ins and their sets are numbered from 1.
#[tactic(auto, unfolding(crate::specs::RowLines::set_line))]
pub fn put_set(out: &mut Vec<u8>, plugin: u8, set: u64, ending: Option<How>) -> Result<(), NoMemory>
    ensures line { OnOk result (out.new.items ≡ out.old.items ++ set_line plugin set ending) }
{
    put_text(out, "plugin ")?;
    put_decimal(out, u64::from(plugin))?;
    put_text(out, " set ")?;
    put_decimal(out, set)?;
    put_text(out, " ")?;
    put_text(out, state_word(ending))?;
    put_text(out, "\n")
}

/// Puts the line of an entry at the end of `out`. Entries are numbered from 0.
#[tactic(auto, unfolding(crate::specs::RowLines::entry_line))]
pub fn put_entry(out: &mut Vec<u8>, entry: u8, sum: u64) -> Result<(), NoMemory>
    ensures line { OnOk result (out.new.items ≡ out.old.items ++ entry_line entry sum) }
{
    put_text(out, "entry ")?;
    put_decimal(out, u64::from(entry))?;
    put_text(out, " sum ")?;
    put_decimal(out, sum)?;
    put_text(out, "\n")
}

/// Puts the line of a subscription that calls at the end of `out`. Subscriptions are numbered from 0.
#[tactic(auto, unfolding(crate::specs::RowLines::sub_line))]
pub fn put_sub(out: &mut Vec<u8>, sub: u8, name: KindName) -> Result<(), NoMemory>
    ensures line { OnOk result (out.new.items ≡ out.old.items ++ sub_line sub name) }
{
    put_text(out, "sub ")?;
    put_decimal(out, u64::from(sub))?;
    put_text(out, " ")?;
    put_text(out, kind_word(name))?;
    put_text(out, "\n")
}
