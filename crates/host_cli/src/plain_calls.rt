//! The top call that waits for nobody.

ghost use Rattle.std.specs.Prelude.{◌≡◌, ◌≤◌, map, string_bytes, vec_len};
ghost use Rattle.flat_model.specs.declared.limits.TheConstants.{PLUGINS_MOST, RACK_BOXES};
ghost use Rattle.command_words.specs.Commands.{command_text, KeepsLimits};
ghost use Rattle.host_cli.specs.Files.{files_around};
ghost use Rattle.host_cli.specs.Plain.{EndsPlainly, PlainAnswers};
ghost use Rattle.host_cli.specs.Sinks.{around};

use crate::listing::list;
use crate::outcomes::Ended;
use crate::refusing::{refuse, refuse_for_memory};
use crate::replaying::replay;
use call_inputs::Refusal;
use code_listing::ListingOf;
use command_words::{Command, command};
use outer_io::{Files, Sink};
use std::alloc::Global;
use watcher_api::{Closer, Held, Rack, Watcher};

/// Carries out a command that waits for nobody. Others are refused as words that are in no command.
pub(crate) fn carry_out<W: Watcher, C: Closer<Held<W>>, F: Files, O: Sink, E: Sink>(
    alloc: Global,
    asked: Command<'_>,
    files: &mut F,
    out: &mut O,
    report: &mut E,
    rack: Rack<W, C>,
) -> Ended<W, C>
    requires limits { KeepsLimits asked }
    requires boxes { RACK_BOXES ≤ vec_len rack.watchers }
    requires closers { PLUGINS_MOST ≤ vec_len rack.closers }
    ensures ends { EndsPlainly (files_around F.told F.contents F.read_faults F.write_faults files.old files.new)
        (around O.pieces O.faults out.old out.new) (around E.pieces E.faults report.old report.new)
        (command_text asked.entry) result.status result.state }
    ensures told { F.told files.new ≡ F.told files.old }
{
    match asked {
        Command::Blocks { file } => {
            Ended::without_state(list(alloc, ListingOf::Blocks, file, files, out, report))
        }
        Command::Disas { file } => Ended::without_state(list(
            alloc,
            ListingOf::Instructions,
            file,
            files,
            out,
            report,
        )),
        Command::Replay {
            options,
            script,
            file,
            journal,
            plugins,
        } => replay(
            alloc, options, script, file, journal, &plugins, files, out, report, rack,
        ),
        Command::Run { .. } => Ended::without_state(refuse(alloc, report, "", &Refusal::Usage)),
        Command::Generated { .. } => {
            Ended::without_state(refuse(alloc, report, "", &Refusal::Usage))
        }
    }
}

/// Carries out the command that the words ask for, without a thread and without waiting: the words `run` and `self` are in no command
/// here. All else is as with `host`.
pub fn host_plain<W: Watcher, C: Closer<Held<W>>, F: Files, O: Sink, E: Sink>(
    alloc: Global,
    words: &[String],
    files: &mut F,
    out: &mut O,
    report: &mut E,
    rack: Rack<W, C>,
) -> Ended<W, C>
    requires boxes { RACK_BOXES ≤ vec_len rack.watchers }
    requires closers { PLUGINS_MOST ≤ vec_len rack.closers }
    ensures answers { PlainAnswers (map string_bytes words.now)
        (files_around F.told F.contents F.read_faults F.write_faults files.old files.new)
        (around O.pieces O.faults out.old out.new) (around E.pieces E.faults report.old report.new)
        result.status result.state }
    ensures told { F.told files.new ≡ F.told files.old }
{
    let asked = match command(alloc, words) {
        Ok(asked) => asked,
        Err(_) => return Ended::without_state(refuse_for_memory(report)),
    };
    let Some(asked) = asked else {
        return Ended::without_state(refuse(alloc, report, "", &Refusal::Usage));
    };
    carry_out(alloc, asked, files, out, report, rack)
}
