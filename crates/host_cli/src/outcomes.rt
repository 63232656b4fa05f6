//! The top call.

ghost use Rattle.std.specs.Prelude.{◌≡◌, ◌≤◌, map, string_bytes, vec_len, None};
ghost use Rattle.flat_model.specs.declared.limits.TheConstants.{PLUGINS_MOST, RACK_BOXES};
ghost use Rattle.host_cli.specs.Answers.{Answers};
ghost use Rattle.host_cli.specs.Files.{files_around};
ghost use Rattle.host_cli.specs.Sinks.{around};

use crate::generated::run_generated;
use crate::plain_calls::carry_out;
use crate::refusing::{refuse, refuse_for_memory};
use crate::running::run;
use call_inputs::Refusal;
use command_words::{Command, command};
use host_state::HostState;
use outer_io::{Files, Sink};
use std::alloc::Global;
use std::sync::Wait;
use std::thread::Threads;
use watcher_api::{Closer, Held, Rack, Watcher};

/// What a call answers: the status of the process, and the state of a run or a replay that is whole.
#[derive(Drop)]
pub struct Ended<W: Watcher, C: Closer<Held<W>>> {
    pub status: u8,
    pub state: Option<HostState<W, C>>,
}

impl<W: Watcher, C: Closer<Held<W>>> Ended<W, C> {
    /// The answer of a call without a run.
    pub(crate) fn without_state(status: u8) -> Ended<W, C>
        ensures status { result.status ≡ status }
        ensures none { result.state ≡ None }
    {
        Ended {
            status,
            state: None,
        }
    }
}

/// Carries out the command that the words ask for.
///
/// `out` takes the guest's output, what is listed, or the summary of a generated program; `report` takes the report of a run, or the
/// line of a refusal. The rack has 128 blank boxes and 8 closers without notices at least.
pub fn host<
    W: Watcher + Send,
    C: Closer<Held<W>> + Send,
    R: Threads + Wait + Sync,
    F: Files,
    O: Sink,
    E: Sink,
>(
    rt: &R,
    alloc: Global,
    words: &[String],
    files: &mut F,
    out: &mut O,
    report: &mut E,
    rack: Rack<W, C>,
) -> Ended<W, C>
    requires boxes { RACK_BOXES ≤ vec_len rack.watchers }
    requires closers { PLUGINS_MOST ≤ vec_len rack.closers }
    ensures answers { Answers (map string_bytes words.now)
        (files_around F.told F.contents F.read_faults F.write_faults files.old files.new)
        (around O.pieces O.faults out.old out.new) (around E.pieces E.faults report.old report.new)
        result.status result.state }
    ensures told { F.told files.new ≡ F.told files.old }
{
    let asked = match command(alloc, words) {
        Ok(asked) => asked,
        Err(_) => return Ended::without_state(refuse_for_memory(report)),
    };
    let Some(asked) = asked else {
        return Ended::without_state(refuse(alloc, report, "", &Refusal::Usage));
    };
    match asked {
        Command::Run {
            options,
            script,
            journal,
            file,
            plugins,
        } => run(
            rt, alloc, options, script, journal, file, &plugins, files, out, report, rack,
        ),
        Command::Generated { n } => run_generated(rt, alloc, n, out, report, rack),
        Command::Blocks { file } => {
            carry_out(alloc, Command::Blocks { file }, files, out, report, rack)
        }
        Command::Disas { file } => {
            carry_out(alloc, Command::Disas { file }, files, out, report, rack)
        }
        Command::Replay {
            options,
            script,
            file,
            journal,
            plugins,
        } => {
            let replay = Command::Replay {
                options,
                script,
                file,
                journal,
                plugins,
            };
            carry_out(alloc, replay, files, out, report, rack)
        }
    }
}
