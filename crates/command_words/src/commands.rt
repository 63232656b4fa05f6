//! Commands.

ghost use Rattle.std.specs.Prelude.{◌≡◌, map, IfOk, IfSome};
ghost use Rattle.command_words.specs.Parts.{part_text, texts_seen};
ghost use Rattle.command_words.specs.Commands.{takes, all_taken, run_with, replay_with, generated, command_on, command_with};
ghost use Rattle.command_words.specs.Commands.{command_seen, KeepsLimits};

use crate::numbers::{GENERATED_MOST, number_within};
use crate::parts::Part;
use crate::values::{RunOptions, file_of, options_of};
use crate::words::{OptionName, Verb};
use flat_model::NoMemory;
use std::alloc::Global;

/// A command, with the words that it names.
#[derive(Debug, PartialEq, Eq, Drop)]
pub enum Command<'a> {
    /// Run the file, and write the journal to the file of that name where one is given.
    Run {
        options: RunOptions,
        script: Option<&'a str>,
        journal: Option<&'a str>,
        file: &'a str,
        plugins: Vec<&'a str>,
    },
    /// Replay the journal on the file.
    Replay {
        options: RunOptions,
        script: Option<&'a str>,
        file: &'a str,
        journal: &'a str,
        plugins: Vec<&'a str>,
    },
    /// List the blocks of the file.
    Blocks {
        file: &'a str,
    },
    /// List the instructions of the file.
    Disas {
        file: &'a str,
    },
    /// Generate the program of this number, 1 to 100,000, and run it.
    Generated {
        n: u32,
    },
}

fn takes(verb: Verb, name: OptionName) -> bool
    ensures { result ≡ takes verb name }
{
    match (verb, name) {
        (Verb::Run, _) => true,
        (Verb::Replay, OptionName::Journal) => false,
        (Verb::Replay, _) => true,
        _ => false,
    }
}

/// Whether the command takes each of the options.
pub fn all_taken(verb: Verb, parts: &[Part]) -> bool
    ensures { result ≡ all_taken verb (map part_text parts.now) }
{
    for part in parts {
        if let Some(name) = part.option
            && !takes(verb, name)
        {
            return false;
        }
    }
    true
}

fn run_with<'a>(
    alloc: Global,
    parts: &[Part<'a>],
    mut plain: Vec<&'a str>,
) -> Result<Option<Command<'a>>, NoMemory>
    ensures value { IfOk result (λ r. command_seen r ≡ run_with (map part_text parts.now) (texts_seen plain.entry.items)) }
    ensures limits { IfOk result (λ r. IfSome r KeepsLimits) }
{
    if plain.is_empty() {
        return Ok(None);
    }
    let file = plain.remove(0);
    let options = options_of(alloc, parts)?;
    let script = file_of(alloc, OptionName::Script, parts)?;
    let journal = file_of(alloc, OptionName::Journal, parts)?;
    Ok(match (options, script, journal) {
        (Some(options), Some(script), Some(journal)) => Some(Command::Run {
            options,
            script,
            journal,
            file,
            plugins: plain,
        }),
        _ => None,
    })
}

fn replay_with<'a>(
    alloc: Global,
    parts: &[Part<'a>],
    mut plain: Vec<&'a str>,
) -> Result<Option<Command<'a>>, NoMemory>
    ensures value { IfOk result (λ r. command_seen r ≡ replay_with (map part_text parts.now) (texts_seen plain.entry.items)) }
    ensures limits { IfOk result (λ r. IfSome r KeepsLimits) }
{
    if plain.len() < 2 {
        return Ok(None);
    }
    let file = plain.remove(0);
    let journal = plain.remove(0);
    let options = options_of(alloc, parts)?;
    let script = file_of(alloc, OptionName::Script, parts)?;
    Ok(match (options, script) {
        (Some(options), Some(script)) => Some(Command::Replay {
            options,
            script,
            file,
            journal,
            plugins: plain,
        }),
        _ => None,
    })
}

fn generated<'a>(word: &str) -> Option<Command<'a>>
    ensures value { command_seen result ≡ generated word.now }
    ensures limits { IfSome result KeepsLimits }
{
    let n = number_within(u64::from(GENERATED_MOST), word)?;
    Some(Command::Generated { n: n as u32 })
}

// The command of a verb that takes one word.
fn command_on<'a>(verb: Verb, plain: &[&'a str]) -> Option<Command<'a>>
    ensures value { command_seen result ≡ command_on verb (texts_seen plain.now) }
    ensures limits { IfSome result KeepsLimits }
{
    match (verb, plain) {
        (Verb::Blocks, [file]) => Some(Command::Blocks { file }),
        (Verb::Disas, [file]) => Some(Command::Disas { file }),
        (Verb::Generated, [n]) => generated(n),
        _ => None,
    }
}

/// The command of a verb with its parts, and the plain words among these.
pub fn command_with<'a>(
    alloc: Global,
    verb: Verb,
    parts: &[Part<'a>],
    plain: Vec<&'a str>,
) -> Result<Option<Command<'a>>, NoMemory>
    ensures value { IfOk result (λ r. command_seen r ≡ command_with verb (map part_text parts.now) (texts_seen plain.entry.items)) }
    ensures limits { IfOk result (λ r. IfSome r KeepsLimits) }
{
    match verb {
        Verb::Run => run_with(alloc, parts, plain),
        Verb::Replay => replay_with(alloc, parts, plain),
        _ => Ok(command_on(verb, &plain)),
    }
}
