//! The summary of the run of a generated program.

ghost use Rattle.std.specs.Prelude.{◌≡◌, ◌==◌, ◌<◌, ◌≤◌, ◌++◌, IfOk, IsSome, OnOk, find, length, option_copied};
ghost use Rattle.flat_model.specs.Registry.{sets_of};
ghost use Rattle.flat_model.specs.Worlds.{hart_of};
ghost use Rattle.watcher_api.specs.Attachment.{called_kind};
ghost use Rattle.run_rules.specs.Legal.{Whole};
ghost use Rattle.run_order.specs.InOrder.{task_run};
ghost use Rattle.report_text.specs.RowLines.{named_line};
ghost use Rattle.host_cli.specs.Summary.{first_number, first_rows, first_called, counted_at, steps_made, blocks_started, sum_written};
ghost use Rattle.host_cli.specs.Summary.{atomics_counted, summary_lines, summary_of};

use flat_model::{Act, Kind, NoMemory, Row};
use host_state::HostState;
use number_text::{put_text, put_wide_decimal};
use report_text::merge;
use rv_exec::Hart;
use std::alloc::Global;
use watcher_api::{Closer, Held, Watcher};

/// The number of the class of atomic instructions, which is the key of its row.
const ATOMIC: u64 = 6;

/// The steps that all harts have made, and the blocks that they have started.
#[derive(Clone, Copy, Debug)]
struct Made {
    steps: u128,
    blocks: u128,
}

/// The first 8 bytes as a number, low byte first; a byte that is not there is 0.
fn first_number(bytes: &[u8]) -> u64
    ensures number { result ≡ first_number bytes.now }
{
    let front = &bytes[..bytes.len().min(8)];
    let mut raw = [0u8; 8];
    raw[..front.len()].copy_from_slice(front);
    u64::from_le_bytes(raw)
}

/// A hart of a run that is whole.
fn left_hart<W: Watcher, C: Closer<Held<W>>>(state: &HostState<W, C>, no: u8) -> &Hart
    requires whole { Whole (task_run state.now.task) state.now.past }
    requires hart { no < state.now.task.machine.harts }
    ensures hart { result.now ≡ hart_of state.now.task.machine state.now.task.mode state.now.past no }
{
    let _ = state.task();
    let Some(hart) = state.hart(no) else {
        unreachable!()
    };
    hart
}

/// What all harts have made.
fn all_made<W: Watcher, C: Closer<Held<W>>>(state: &HostState<W, C>) -> Made
    requires whole { Whole (task_run state.now.task) state.now.past }
    ensures steps { result.steps ≡ steps_made state.now.task state.now.past }
    ensures blocks { result.blocks ≡ blocks_started state.now.task state.now.past }
{
    let mut steps = 0u128;
    let mut blocks = 0u128;
    for no in 0..state.task().harts() {
        let hart = left_hart(state, no);
        steps += u128::from(hart.steps);
        blocks += u128::from(hart.blocks);
    }
    Made { steps, blocks }
}

/// The kind of the box that an act calls; `None` where it calls none.
fn kind_of(act: &Act) -> Option<Kind>
    ensures kind { result ≡ called_kind act.now }
{
    match act {
        Act::Call { kind } | Act::Cond { kind, .. } => Some(*kind),
        Act::Inline { .. } => None,
    }
}

/// The kind of the box that the first subscription of the first set of the first plug-in calls; `None` where it calls none.
fn first_called<W: Watcher, C: Closer<Held<W>>>(state: &HostState<W, C>) -> Option<Kind>
    ensures kind { result ≡ first_called state.now.registry.table }
    ensures set { IsSome result → 1 ≤ length (sets_of state.now.registry.table 1) }
{
    let set = state.specs(1).first()?;
    let sub = set.subs.as_slice().first()?;
    kind_of(&sub.act)
}

/// The merged rows of that subscription.
fn first_rows<W: Watcher, C: Closer<Held<W>>>(
    alloc: Global,
    state: &HostState<W, C>,
) -> Result<Vec<Row>, NoMemory>
    requires whole { Whole (task_run state.now.task) state.now.past }
    ensures rows { IfOk result (λ rows. rows.items
        ≡ first_rows (task_run state.now.task) state.now.past (first_called state.now.registry.table)) }
{
    let Some(kind) = first_called(state) else {
        return Ok(Vec::new(alloc));
    };
    let tallies = state.tally(alloc, 1, 1, 0)?;
    merge(alloc, kind.name, tallies.as_slice())
}

/// The first row of a key.
fn row_at(key: u64, rows: &[Row]) -> Option<&Row>
    ensures row { option_copied result ≡ find (λ row. row.key == key) rows.now }
{
    rows.iter().find(|row| row.key == key)
}

/// What the row of a key counts; 0 where there is none.
fn counted_at(key: u64, rows: &[Row]) -> u64
    ensures count { result ≡ counted_at key rows.now }
{
    match row_at(key, rows) {
        Some(row) => row.a,
        None => 0,
    }
}

/// The atomic instructions that the plug-in has counted.
fn atomics<W: Watcher, C: Closer<Held<W>>>(
    alloc: Global,
    state: &HostState<W, C>,
) -> Result<u64, NoMemory>
    requires whole { Whole (task_run state.now.task) state.now.past }
    ensures count { IfOk result (λ n. n ≡ atomics_counted state.now.task state.now.past) }
{
    // Each state is in order.
    let _ = state.task();
    let rows = first_rows(alloc, state)?;
    Ok(counted_at(ATOMIC, rows.as_slice()))
}

/// The guest's sum.
fn sum_written<W: Watcher, C: Closer<Held<W>>>(state: &HostState<W, C>) -> u64
    ensures sum { result ≡ sum_written state.now.task state.now.past }
{
    // Each state is in order.
    let _ = state.task();
    first_number(state.output())
}

/// Puts a line of a word and a number.
#[tactic(auto, unfolding(report_text::specs::RowLines::named_line))]
fn put_line(out: &mut Vec<u8>, word: &str, number: u128) -> Result<(), NoMemory>
    ensures line { OnOk result (out.new.items ≡ out.old.items ++ named_line word.now number) }
{
    put_text(out, word)?;
    put_text(out, " ")?;
    put_wide_decimal(out, number)?;
    put_text(out, "\n")
}

/// The lines of a summary.
#[tactic(auto, unfolding(crate::specs::Summary::summary_lines))]
fn lines(alloc: Global, n: u32, sum: u64, made: Made, atomics: u64) -> Result<Vec<u8>, NoMemory>
    ensures lines { IfOk result (λ text. text.items ≡ summary_lines n sum made.steps made.blocks atomics) }
{
    let mut out = Vec::new(alloc);
    put_line(&mut out, "self", u128::from(n))?;
    put_line(&mut out, "sum", u128::from(sum))?;
    put_line(&mut out, "steps", made.steps)?;
    put_line(&mut out, "blocks", made.blocks)?;
    put_line(&mut out, "atomics", u128::from(atomics))?;
    Ok(out)
}

/// The summary of the whole run of the program of `n`.
#[tactic(auto, unfolding(crate::specs::Summary::summary_of))]
pub(crate) fn summary<W: Watcher, C: Closer<Held<W>>>(
    alloc: Global,
    n: u32,
    state: &HostState<W, C>,
) -> Result<Vec<u8>, NoMemory>
    requires whole { Whole (task_run state.now.task) state.now.past }
    ensures text { IfOk result (λ text. text.items ≡ summary_of n state.now.task state.now.past) }
{
    let atomics = atomics(alloc, state)?;
    lines(alloc, n, sum_written(state), all_made(state), atomics)
}
