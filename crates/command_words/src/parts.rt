//! The words of a command line as parts: plain words, and options with their values.

ghost use Rattle.std.specs.Prelude.{◌≡◌, ◌++◌, map, option_map, string_bytes, IfOk};
ghost use Rattle.command_words.specs.Parts.{PartText, part_text, texts_seen, parts_seen, after, plain_parts, parts_of};
ghost use Rattle.command_words.specs.Parts.{is_same, texts_of};

use crate::words::{OptionName, Sort, sort_of, value_in};
use flat_model::NoMemory;
use std::alloc::Global;

/// A part of a command line: a plain word, or an option with its value.
#[derive(Clone, Copy)]
pub struct Part<'a> {
    /// The option; none for a plain word.
    pub option: Option<OptionName>,
    /// The plain word, or the option's value.
    pub text: &'a str,
}

// The parts with words that stand behind `--`; none where one of these is empty.
fn with_plain<'a>(
    mut parts: Vec<Part<'a>>,
    words: &'a [String],
) -> Result<Option<Vec<Part<'a>>>, NoMemory>
    ensures { IfOk result (λ r. parts_seen r ≡ after (map part_text parts.entry.items) (plain_parts (map string_bytes words.now))) }
{
    for word in words {
        let text = word.as_str();
        if text.is_empty() {
            return Ok(None);
        }
        parts.push(Part { option: None, text })?;
    }
    Ok(Some(parts))
}

/// The parts that the words behind the command make; none where they make none.
pub fn parts_of<'a>(alloc: Global, words: &'a [String]) -> Result<Option<Vec<Part<'a>>>, NoMemory>
    ensures { IfOk result (λ r. parts_seen r ≡ parts_of None (map string_bytes words.now)) }
{
    let mut parts = Vec::new(alloc);
    let mut waiting = None;
    for (at, word) in words.iter().enumerate() {
        let text = word.as_str();
        match (waiting, sort_of(text)) {
            (_, Sort::Plain) => {
                parts.push(Part {
                    option: waiting,
                    text,
                })?;
                waiting = None;
            }
            (None, Sort::Valued { name }) => {
                parts.push(Part {
                    option: Some(name),
                    text: value_in(text),
                })?;
            }
            (None, Sort::Bare { name }) => waiting = Some(name),
            (None, Sort::End) => return with_plain(parts, &words[at + 1..]),
            _ => return Ok(None),
        }
    }
    match waiting {
        None => Ok(Some(parts)),
        Some(_) => Ok(None),
    }
}

fn is_same(one: Option<OptionName>, other: Option<OptionName>) -> bool
    ensures { result ≡ is_same one other }
{
    one == other
}

/// The texts of the parts that are of the option, or are plain words, in order.
pub fn texts_of<'a>(
    alloc: Global,
    option: Option<OptionName>,
    parts: &[Part<'a>],
) -> Result<Vec<&'a str>, NoMemory>
    ensures { IfOk result (λ v. texts_seen v.items ≡ texts_of option (map part_text parts.now)) }
{
    let mut texts = Vec::new(alloc);
    for part in parts {
        if is_same(option, part.option) {
            texts.push(part.text)?;
        }
    }
    Ok(texts)
}
