//! The values of options.

ghost use Rattle.std.specs.Prelude.{◌≡◌, ◌≤◌, map, option_map, IfOk, IfSome, Some};
ghost use Rattle.std.specs.Option.{ForSome};
ghost use Rattle.flat_model.specs.declared.limits.TheConstants.{HARTS_MOST, LIMIT_MOST};
ghost use Rattle.command_words.specs.Parts.{part_text, text_seen, texts_seen, texts_of};
ghost use Rattle.command_words.specs.Words.{named};
ghost use Rattle.command_words.specs.Commands.{number_given, mode_given, name_given, mode_names, options_from, options_of, IsWithin};

use crate::numbers::number_within;
use crate::parts::{Part, texts_of};
use crate::words::OptionName;
use flat_model::limits::{HARTS_MOST, LIMIT_DEFAULT, LIMIT_MOST, TOTAL_MOST};
use flat_model::{Mode, NoMemory};
use std::alloc::Global;

/// What a run is made with.
#[derive(Clone, Copy, Debug, PartialEq, Eq)]
pub struct RunOptions {
    /// The number of harts, 1 to 32.
    pub harts: u8,
    /// The limit of each hart's steps, 1 to 4,000,000. Harts times limit is at most 32,000,000.
    pub limit: u64,
    /// Which harts have their start from the first.
    pub mode: Mode,
}

fn number_given(default: u64, most: u64, texts: &[&str]) -> Option<u64>
    requires some { 1 ≤ default }
    requires few { default ≤ most }
    ensures value { result ≡ number_given default most (texts_seen texts.now) }
    ensures some { IfSome result (λ n. 1 ≤ n) }
    ensures most { IfSome result (λ n. n ≤ most) }
{
    match texts {
        [] => Some(default),
        [text] => number_within(most, text),
        _ => None,
    }
}

fn mode_named(text: &str) -> Option<Mode>
    ensures { result ≡ named mode_names text.now }
{
    match text {
        "all" => Some(Mode::All),
        "first" => Some(Mode::First),
        _ => None,
    }
}

fn mode_given(texts: &[&str]) -> Option<Mode>
    ensures { result ≡ mode_given (texts_seen texts.now) }
{
    match texts {
        [] => Some(Mode::All),
        [text] => mode_named(text),
        _ => None,
    }
}

// The name of a file: none where it is given twice.
fn name_given<'a>(texts: &[&'a str]) -> Option<Option<&'a str>>
    ensures { option_map text_seen result ≡ name_given (texts_seen texts.now) }
{
    match texts {
        [] => Some(None),
        [text] => Some(Some(text)),
        _ => None,
    }
}

fn options_from(harts: Option<u64>, limit: Option<u64>, mode: Option<Mode>) -> Option<RunOptions>
    requires some_harts { ForSome harts (λ n. 1 ≤ n) }
    requires few_harts { ForSome harts (λ n. n ≤ HARTS_MOST) }
    requires some_steps { ForSome limit (λ n. 1 ≤ n) }
    requires few_steps { ForSome limit (λ n. n ≤ LIMIT_MOST) }
    ensures value { result ≡ options_from harts limit mode }
    ensures limits { IfSome result IsWithin }
{
    match (harts, limit, mode) {
        (Some(harts), Some(limit), Some(mode)) => {
            if harts * limit <= TOTAL_MOST {
                Some(RunOptions {
                    harts: harts as u8,
                    limit,
                    mode,
                })
            } else {
                None
            }
        }
        _ => None,
    }
}

/// What the run is made with; none where an option is refused, or the harts would take too many steps together.
#[tactic(auto, unfolding(crate::specs::Commands::options_of))]
pub fn options_of(alloc: Global, parts: &[Part]) -> Result<Option<RunOptions>, NoMemory>
    ensures value { IfOk result (λ r. r ≡ options_of (map part_text parts.now)) }
    ensures limits { IfOk result (λ r. IfSome r IsWithin) }
{
    let harts = texts_of(alloc, Some(OptionName::Harts), parts)?;
    let limit = texts_of(alloc, Some(OptionName::Limit), parts)?;
    let start = texts_of(alloc, Some(OptionName::Start), parts)?;
    Ok(options_from(
        number_given(1, u64::from(HARTS_MOST), &harts),
        number_given(LIMIT_DEFAULT, LIMIT_MOST, &limit),
        mode_given(&start),
    ))
}

/// The name of the file that an option gives, where it does; none where it is given twice.
pub fn file_of<'a>(
    alloc: Global,
    option: OptionName,
    parts: &[Part<'a>],
) -> Result<Option<Option<&'a str>>, NoMemory>
    ensures { IfOk result (λ r. option_map text_seen r ≡ name_given (texts_of (Some option) (map part_text parts.now))) }
{
    let texts = texts_of(alloc, Some(option), parts)?;
    Ok(name_given(&texts))
}
