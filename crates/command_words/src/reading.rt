//! The command that words ask for.

ghost use Rattle.std.specs.Prelude.{◌≡◌, map, string_bytes, Some, IfOk, IfSome};
ghost use Rattle.command_words.specs.Commands.{CommandText, command_of, command_text, command_seen, KeepsLimits};
ghost use Rattle.command_words.specs.Grammar.{Asks};

use crate::commands::{Command, all_taken, command_with};
use crate::parts::{parts_of, texts_of};
use crate::words::verb_named;
use flat_model::NoMemory;
use std::alloc::Global;

#[tactic(auto, unfolding(crate::specs::Commands::command_of))]
fn read<'a>(alloc: Global, words: &'a [String]) -> Result<Option<Command<'a>>, NoMemory>
    ensures value { IfOk result (λ r. command_seen r ≡ command_of (map string_bytes words.now)) }
    ensures limits { IfOk result (λ r. IfSome r KeepsLimits) }
{
    let [first, rest @ ..] = words else {
        return Ok(None);
    };
    let Some(verb) = verb_named(first.as_str()) else {
        return Ok(None);
    };
    let Some(parts) = parts_of(alloc, rest)? else {
        return Ok(None);
    };
    if !all_taken(verb, &parts) {
        return Ok(None);
    }
    let plain = texts_of(alloc, None, &parts)?;
    command_with(alloc, verb, &parts, plain)
}

/// The command that the words ask for, which are without the program's own name; none where they are not in the grammar.
pub fn command<'a>(alloc: Global, words: &'a [String]) -> Result<Option<Command<'a>>, NoMemory>
    // The command that is read is asked for in the grammar, and keeps its limits.
    ensures only { IfOk result (λ r. IfSome r (λ c. Asks (map string_bytes words.now) (command_text c))) }
    ensures limits { IfOk result (λ r. IfSome r KeepsLimits) }

    // Each command is read from all words that ask for it, want of memory aside.
    ensures reads { (c : CommandText) → Asks (map string_bytes words.now) c → IfOk result (λ r. command_seen r ≡ Some c) }

    // So the words determine the answer.
    ensures value { IfOk result (λ r. command_seen r ≡ command_of (map string_bytes words.now)) }
{
    read(alloc, words)
}
