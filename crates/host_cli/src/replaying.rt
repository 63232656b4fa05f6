//! Replays of journals.

ghost use Rattle.std.specs.Prelude.{◌≡◌, ◌≤◌, option_map, map, vec_len, IfOk, IfErr};
ghost use Rattle.flat_model.specs.declared.limits.TheConstants.{PLUGINS_MOST, RACK_BOXES};
ghost use Rattle.plug_registry.specs.Installs.{AreAllowed};
ghost use Rattle.command_words.specs.Commands.{IsWithin};
ghost use Rattle.run_replay.specs.Replays.{IsReplayOf};
ghost use Rattle.host_cli.specs.Answers.{ReplayAnswers};
ghost use Rattle.host_cli.specs.Files.{files_around};
ghost use Rattle.host_cli.specs.Refusals.{task_for};
ghost use Rattle.host_cli.specs.Replays.{ReplayedCause};
ghost use Rattle.host_cli.specs.Sinks.{around};

use crate::ending::end;
use crate::outcomes::Ended;
use crate::refusing::refuse;
use crate::running::{head_for, name_of};
use call_inputs::{Refusal, ReplayInputs, replay_inputs};
use command_words::RunOptions;
use flat_model::{NotThisRun, Refused};
use host_state::HostState;
use outer_io::{Files, Sink};
use std::alloc::Global;
use std::sync::Arc;
use watcher_api::{Closer, Held, Rack, Watcher};

/// Replays the journal of the inputs, and gives the whole state that it tells.
fn replayed_state<W: Watcher, C: Closer<Held<W>>>(
    alloc: Global,
    options: RunOptions,
    inputs: ReplayInputs,
    rack: Rack<W, C>,
) -> Result<HostState<W, C>, Refusal>
    requires within { IsWithin options }
    requires allowed { AreAllowed options.harts inputs.plan.installs }
    requires boxes { RACK_BOXES ≤ vec_len rack.watchers }
    requires closers { PLUGINS_MOST ≤ vec_len rack.closers }
    ensures replayed { IfOk result (IsReplayOf (task_for options inputs.image inputs.plan) inputs.file.journal.entries) }
    ensures refused { IfErr result (ReplayedCause (task_for options inputs.image inputs.plan) inputs.file.journal.entries) }
{
    let Ok(image) = Arc::new(alloc, inputs.image) else {
        return Err(Refusal::OutOfMemory);
    };
    let replayed = run_replay::replay(
        alloc,
        image,
        options.harts,
        options.limit,
        options.mode,
        inputs.plan,
        &inputs.file.journal,
        rack,
    );
    match replayed {
        Ok(state) => Ok(state),
        Err(Refused::Because(NotThisRun { place })) => Err(Refusal::NotThisRun { place }),
        Err(Refused::NoMemory) => Err(Refusal::OutOfMemory),
    }
}

/// Replays the journal on the file, and ends the run that it tells.
pub(crate) fn replay<'a, W: Watcher, C: Closer<Held<W>>, F: Files, O: Sink, E: Sink>(
    alloc: Global,
    options: RunOptions,
    script: Option<&'a str>,
    file: &'a str,
    journal: &'a str,
    plugins: &[&str],
    files: &mut F,
    out: &mut O,
    report: &mut E,
    rack: Rack<W, C>,
) -> Ended<W, C>
    requires within { IsWithin options }
    requires boxes { RACK_BOXES ≤ vec_len rack.watchers }
    requires closers { PLUGINS_MOST ≤ vec_len rack.closers }
    ensures answers { ReplayAnswers options (option_map (λ n. n.now) script.entry) file.entry.now journal.entry.now
        (map (λ w. w.now) plugins.now)
        (files_around F.told F.contents F.read_faults F.write_faults files.old files.new)
        (around O.pieces O.faults out.old out.new) (around E.pieces E.faults report.old report.new)
        result.status result.state }
    ensures told { F.told files.new ≡ F.told files.old }
{
    let head = head_for(options);
    let inputs = match replay_inputs(alloc, files, &head, file, journal, plugins, script) {
        Ok(inputs) => inputs,
        Err(refusal) => {
            let name = name_of(&refusal, file, script, journal);
            return Ended::without_state(refuse(alloc, report, name, &refusal));
        }
    };
    let state = match replayed_state(alloc, options, inputs, rack) {
        Ok(state) => state,
        Err(refusal) => return Ended::without_state(refuse(alloc, report, "", &refusal)),
    };
    let status = end(alloc, &state, &head, None, files, out, report);
    Ended {
        status,
        state: Some(state),
    }
}
