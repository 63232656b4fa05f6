//! The end of a whole run: what it prints and writes.

ghost use Rattle.std.specs.Prelude.{◌≡◌, ◌++◌, ◌∷◌, [], option_map, IfOk, MatchResult};
ghost use Rattle.run_rules.specs.Legal.{Whole};
ghost use Rattle.run_order.specs.InOrder.{task_run};
ghost use Rattle.journal_file.specs.Head.{Head};
ghost use Rattle.host_cli.specs.Ends.{RunEnds, JournalEnds, cannot_write_line, journal_bytes, head_of_task};
ghost use Rattle.host_cli.specs.Files.{files_around};
ghost use Rattle.report_text.specs.Report.{report_of};
ghost use Rattle.host_cli.specs.Sinks.{around, Says, StopsAt};

use crate::refusing::{refuse_for_memory, tell};
use flat_model::NoMemory;
use flat_model::limits::PIECE_BYTES;
use host_state::HostState;
use journal_file::RunHead;
use number_text::put_text;
use outer_io::{Failed, Files, Sink, put_pieces};
use report_text::{report as put_report, status};
use std::alloc::Global;
use watcher_api::{Closer, Held, Watcher};

/// Puts a text in pieces of 4,096 bytes.
pub(crate) fn put_text_pieces<S: Sink>(sink: &mut S, text: &[u8]) -> Result<(), Failed>
    ensures put { MatchResult result
        (λ _. Says (around S.pieces S.faults sink.old sink.new) text.now)
        (λ _. StopsAt (around S.pieces S.faults sink.old sink.new) text.now) }
{
    put_pieces(sink, PIECE_BYTES, text)
}

/// The report of a whole run.
fn whole_report<W: Watcher, C: Closer<Held<W>>>(
    alloc: Global,
    state: &HostState<W, C>,
) -> Result<Vec<u8>, NoMemory>
    requires whole { Whole (task_run state.now.task) state.now.past }
    ensures text { IfOk result (λ text. text.items ≡ report_of state.now.task state.now.past) }
{
    let mut text = Vec::new(alloc);
    put_report(state, alloc, &mut text)?;
    Ok(text)
}

/// The line of a journal that is not written.
fn cannot_write_line(alloc: Global, name: &str) -> Result<Vec<u8>, NoMemory>
    ensures line { IfOk result (λ line. line.items ≡ cannot_write_line name.now) }
{
    let mut out = Vec::new(alloc);
    put_text(&mut out, "tcg_host: cannot write ")?;
    put_text(&mut out, name)?;
    put_text(&mut out, "\n")?;
    Ok(out)
}

/// The file of the run's journal.
fn journal_bytes<W: Watcher, C: Closer<Held<W>>>(
    alloc: Global,
    state: &HostState<W, C>,
    head: &RunHead,
) -> Result<Vec<u8>, NoMemory>
    requires whole { Whole (task_run state.now.task) state.now.past }
    requires head { head.now ≡ head_of_task state.now.task }
    ensures bytes { IfOk result (λ bytes. bytes.items ≡ journal_bytes state.now) }
{
    // Each state is in order.
    let _ = state.task();
    journal_file::write(alloc, head, state.journal())
}

/// Writes the journal of a run whose report was put, and answers the status. The line for a failed write is made before it, so that
/// no want of memory follows it.
fn write_journal<W: Watcher, C: Closer<Held<W>>, F: Files, E: Sink>(
    alloc: Global,
    state: &HostState<W, C>,
    head: &RunHead,
    name: &str,
    files: &mut F,
    report: &mut E,
) -> u8
    requires whole { Whole (task_run state.now.task) state.now.past }
    requires head { head.now ≡ head_of_task state.now.task }
    ensures ends { JournalEnds state.now (files_around F.told F.contents F.read_faults F.write_faults files.old files.new)
        (around E.pieces E.faults report.old report.new) (Some name.now) result }
    ensures reads { F.read_faults files.new ≡ F.read_faults files.old }
    ensures told { F.told files.new ≡ F.told files.old }
{
    let Ok(line) = cannot_write_line(alloc, name) else {
        return refuse_for_memory(report);
    };
    let Ok(bytes) = journal_bytes(alloc, state, head) else {
        return refuse_for_memory(report);
    };
    match files.write(name, bytes.as_slice()) {
        Ok(()) => status(state),
        Err(_) => {
            tell(report, line.as_slice());
            6
        }
    }
}

/// Ends a run whose report was put.
fn end_journal<W: Watcher, C: Closer<Held<W>>, F: Files, E: Sink>(
    alloc: Global,
    state: &HostState<W, C>,
    head: &RunHead,
    journal: Option<&str>,
    files: &mut F,
    report: &mut E,
) -> u8
    requires whole { Whole (task_run state.now.task) state.now.past }
    requires head { head.now ≡ head_of_task state.now.task }
    ensures ends { JournalEnds state.now (files_around F.told F.contents F.read_faults F.write_faults files.old files.new)
        (around E.pieces E.faults report.old report.new) (option_map (λ n. n.now) journal.entry) result }
    ensures reads { F.read_faults files.new ≡ F.read_faults files.old }
    ensures told { F.told files.new ≡ F.told files.old }
{
    match journal {
        None => status(state),
        Some(name) => write_journal(alloc, state, head, name, files, report),
    }
}

/// Prints the output and the report of a whole run, writes its journal where that has a name, and answers the status.
pub(crate) fn end<W: Watcher, C: Closer<Held<W>>, F: Files, O: Sink, E: Sink>(
    alloc: Global,
    state: &HostState<W, C>,
    head: &RunHead,
    journal: Option<&str>,
    files: &mut F,
    out: &mut O,
    report: &mut E,
) -> u8
    requires whole { Whole (task_run state.now.task) state.now.past }
    requires head { head.now ≡ head_of_task state.now.task }
    ensures ends { RunEnds state.now (option_map (λ n. n.now) journal.entry)
        (files_around F.told F.contents F.read_faults F.write_faults files.old files.new)
        (around O.pieces O.faults out.old out.new) (around E.pieces E.faults report.old report.new) result }
    ensures reads { F.read_faults files.new ≡ F.read_faults files.old }
    ensures told { F.told files.new ≡ F.told files.old }
{
    // Each state is in order.
    let _ = state.task();
    let Ok(()) = put_text_pieces(out, state.output()) else {
        return 6;
    };
    let Ok(text) = whole_report(alloc, state) else {
        return refuse_for_memory(report);
    };
    let Ok(()) = put_text_pieces(report, text.as_slice()) else {
        return 6;
    };
    end_journal(alloc, state, head, journal, files, report)
}
