//! Runs on threads.

ghost use Rattle.std.specs.Prelude.{◌≡◌, ◌≤◌, option_map, map, vec_len, IfOk};
ghost use Rattle.plug_registry.specs.Installs.{AreAllowed};
ghost use Rattle.host_core.specs.Runs.{IsRunOf};
ghost use Rattle.host_cli.specs.Refusals.{name_in, task_for, head_for};
ghost use Rattle.flat_model.specs.declared.limits.TheConstants.{PLUGINS_MOST, RACK_BOXES};
ghost use Rattle.command_words.specs.Commands.{IsWithin};
ghost use Rattle.host_cli.specs.Answers.{RunAnswers};
ghost use Rattle.host_cli.specs.Files.{files_around};
ghost use Rattle.host_cli.specs.Sinks.{around};

use crate::ending::end;
use crate::outcomes::Ended;
use crate::refusing::{refuse, refuse_for_memory};
use call_inputs::{Input, Refusal, RunInputs, run_inputs};
use command_words::RunOptions;
use flat_model::NoMemory;
use host_state::HostState;
use journal_file::RunHead;
use outer_io::{Files, Sink};
use std::alloc::Global;
use std::sync::{Arc, Wait};
use std::thread::Threads;
use watcher_api::{Closer, Held, Rack, Watcher};

/// The name of the input that a refusal speaks of, if it speaks of one.
pub(crate) fn name_of<'a>(
    refusal: &Refusal,
    file: &'a str,
    script: Option<&'a str>,
    journal: &'a str,
) -> &'a str
    ensures name { result.now ≡ name_in refusal.now file.entry.now (option_map (λ n. n.now) script.entry) journal.entry.now }
{
    let (Refusal::CannotRead { input } | Refusal::TooLong { input }) = refusal else {
        return "";
    };
    match input {
        Input::File => file,
        Input::Script => script.unwrap_or(""),
        Input::Journal => journal,
    }
}

/// What a journal file says of a run with these options.
pub(crate) fn head_for(options: RunOptions) -> RunHead
    requires within { IsWithin options }
    ensures head { result ≡ head_for options }
{
    let Some(head) = RunHead::new(options.harts, options.mode, options.limit) else {
        unreachable!()
    };
    head
}

/// Runs the task of the inputs, and gives its whole state.
pub(crate) fn whole_state<W: Watcher + Send, C: Closer<Held<W>> + Send, R: Threads + Wait + Sync>(
    rt: &R,
    alloc: Global,
    options: RunOptions,
    inputs: RunInputs,
    rack: Rack<W, C>,
) -> Result<HostState<W, C>, NoMemory>
    requires within { IsWithin options }
    requires allowed { AreAllowed options.harts inputs.plan.installs }
    requires boxes { RACK_BOXES ≤ vec_len rack.watchers }
    requires closers { PLUGINS_MOST ≤ vec_len rack.closers }
    ensures run { IfOk result (IsRunOf (task_for options inputs.image inputs.plan)) }
{
    let image = Arc::new(alloc, inputs.image)?;
    host_core::run(
        rt,
        alloc,
        image,
        options.harts,
        options.limit,
        options.mode,
        inputs.plan,
        rack,
    )
}

/// Runs the file on its harts, each on a thread of its own, and ends the run.
pub(crate) fn run<
    W: Watcher + Send,
    C: Closer<Held<W>> + Send,
    R: Threads + Wait + Sync,
    F: Files,
    O: Sink,
    E: Sink,
>(
    rt: &R,
    alloc: Global,
    options: RunOptions,
    script: Option<&str>,
    journal: Option<&str>,
    file: &str,
    plugins: &[&str],
    files: &mut F,
    out: &mut O,
    report: &mut E,
    rack: Rack<W, C>,
) -> Ended<W, C>
    requires within { IsWithin options }
    requires boxes { RACK_BOXES ≤ vec_len rack.watchers }
    requires closers { PLUGINS_MOST ≤ vec_len rack.closers }
    ensures answers { RunAnswers options (option_map (λ n. n.now) script.entry) (option_map (λ n. n.now) journal.entry) file.now
        (map (λ w. w.now) plugins.now)
        (files_around F.told F.contents F.read_faults F.write_faults files.old files.new)
        (around O.pieces O.faults out.old out.new) (around E.pieces E.faults report.old report.new)
        result.status result.state }
    ensures told { F.told files.new ≡ F.told files.old }
{
    let inputs = match run_inputs(alloc, files, options.harts, file, plugins, script) {
        Ok(inputs) => inputs,
        Err(refusal) => {
            let name = name_of(&refusal, file, script, "");
            return Ended::without_state(refuse(alloc, report, name, &refusal));
        }
    };
    let Ok(state) = whole_state(rt, alloc, options, inputs, rack) else {
        return Ended::without_state(refuse_for_memory(report));
    };
    let head = head_for(options);
    let status = end(alloc, &state, &head, journal, files, out, report);
    Ended {
        status,
        state: Some(state),
    }
}
