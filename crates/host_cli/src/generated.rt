//! Runs of generated programs, which end with a summary.

ghost use Rattle.std.specs.Prelude.{◌≡◌, ◌≤◌, vec_len, MatchResult, IfOk};
ghost use Rattle.flat_model.specs.declared.limits.TheConstants.{PLUGINS_MOST, RACK_BOXES};
ghost use Rattle.command_words.specs.declared.numbers.TheConstants.{GENERATED_MOST};
ghost use Rattle.command_words.specs.Commands.{IsWithin};
ghost use Rattle.outer_io.specs.Memory.{file_bytes};
ghost use Rattle.run_rules.specs.Legal.{Whole};
ghost use Rattle.run_order.specs.InOrder.{task_run};
ghost use Rattle.host_cli.specs.Answers.{SelfAnswers};
ghost use Rattle.host_cli.specs.Files.{FilesAround, AreRead, AreKept};
ghost use Rattle.host_cli.specs.Generated.{generated_options, IsGenerated, IsGeneratedPlan, GeneratedCause, SummaryEnds};
ghost use Rattle.host_cli.specs.Generated.{HoldsProgram, in_memory};
ghost use Rattle.host_cli.specs.Sinks.{around};

use crate::ending::put_text_pieces;
use crate::outcomes::Ended;
use crate::refusing::{refuse, refuse_for_memory};
use crate::running::whole_state;
use crate::summary::summary;
use call_inputs::{Refusal, RunInputs, run_inputs};
use command_words::RunOptions;
use flat_model::limits::LIMIT_DEFAULT;
use flat_model::{Mode, NoMemory};
use guest_gen::program;
use host_state::HostState;
use outer_io::{MemFiles, Sink};
use report_text::status;
use std::alloc::Global;
use std::sync::Wait;
use std::thread::Threads;
use watcher_api::{Closer, Held, Rack, Watcher};

/// The name of the program's file, which stands in memory alone.
const NAME: &str = "program";

/// What each generated program is run with.
fn generated_options() -> RunOptions
    ensures options { result ≡ generated_options }
    ensures within { IsWithin result }
{
    RunOptions {
        harts: 2,
        limit: LIMIT_DEFAULT,
        mode: Mode::All,
    }
}

/// Files in memory, of which the program of `n` alone is there, under this name.
fn only_program(alloc: Global, n: u32, name: &str) -> Result<MemFiles, NoMemory>
    requires first { 1 ≤ n }
    requires last { n ≤ GENERATED_MOST }
    ensures holds { IfOk result (λ files. HoldsProgram n (file_bytes files name.now)) }
{
    let file = program(alloc, n)?;
    let mut files = MemFiles::new(alloc, Vec::new(alloc), Vec::new(alloc));
    match files.add(name, file.as_slice()) {
        Ok(()) => Ok(files),
        Err(_) => Err(NoMemory),
    }
}

/// A refusal where the file is in memory: it is there and is read, or memory has run out.
fn in_memory(refusal: Refusal) -> Refusal
    ensures refusal { result ≡ in_memory refusal }
{
    match refusal {
        Refusal::CannotRead { .. } | Refusal::TooLong { .. } => Refusal::OutOfMemory,
        refusal => refusal,
    }
}

/// What the run of the program of `n` is made of.
fn generated_inputs(alloc: Global, n: u32) -> Result<RunInputs, Refusal>
    requires first { 1 ≤ n }
    requires last { n ≤ GENERATED_MOST }
    ensures cases { MatchResult result
        (λ inputs. IsGenerated n inputs.image × IsGeneratedPlan inputs.plan)
        (GeneratedCause n) }
{
    let Ok(mut files) = only_program(alloc, n, NAME) else {
        return Err(Refusal::OutOfMemory);
    };
    let harts = generated_options().harts;
    match run_inputs(alloc, &mut files, harts, NAME, &["classes"], None) {
        Ok(inputs) => Ok(inputs),
        Err(refusal) => Err(in_memory(refusal)),
    }
}

/// Ends the whole run of the program of `n`: puts its summary, and answers the status.
fn sum_up<W: Watcher, C: Closer<Held<W>>, O: Sink, E: Sink>(
    alloc: Global,
    n: u32,
    state: &HostState<W, C>,
    out: &mut O,
    report: &mut E,
) -> u8
    requires whole { Whole (task_run state.now.task) state.now.past }
    ensures ends { SummaryEnds n state.now (around O.pieces O.faults out.old out.new)
        (around E.pieces E.faults report.old report.new) result }
{
    let Ok(text) = summary(alloc, n, state) else {
        return refuse_for_memory(report);
    };
    match put_text_pieces(out, text.as_slice()) {
        Ok(()) => status(state),
        Err(_) => 6,
    }
}

/// Runs the program of `n` on two harts, and puts the summary of the run. No file of the caller's is touched.
pub(crate) fn run_generated<
    W: Watcher + Send,
    C: Closer<Held<W>> + Send,
    R: Threads + Wait + Sync,
    O: Sink,
    E: Sink,
>(rt: &R, alloc: Global, n: u32, out: &mut O, report: &mut E, rack: Rack<W, C>) -> Ended<W, C>
    requires first { 1 ≤ n }
    requires last { n ≤ GENERATED_MOST }
    requires boxes { RACK_BOXES ≤ vec_len rack.watchers }
    requires closers { PLUGINS_MOST ≤ vec_len rack.closers }
    ensures answers { (files : FilesAround) → AreRead files → AreKept files
        → SelfAnswers n files (around O.pieces O.faults out.old out.new) (around E.pieces E.faults report.old report.new)
        result.status result.state }
{
    let inputs = match generated_inputs(alloc, n) {
        Ok(inputs) => inputs,
        Err(refusal) => return Ended::without_state(refuse(alloc, report, "", &refusal)),
    };
    let Ok(state) = whole_state(rt, alloc, generated_options(), inputs, rack) else {
        return Ended::without_state(refuse_for_memory(report));
    };
    let status = sum_up(alloc, n, &state, out, report);
    Ended {
        status,
        state: Some(state),
    }
}
