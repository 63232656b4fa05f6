//! Refusals that are told.

ghost use Rattle.std.specs.Prelude.{◌≡◌, []};
ghost use Rattle.call_inputs.specs.declared.refusals.Refusal.TheVariants.{OutOfMemory};
ghost use Rattle.call_inputs.specs.Lines.{refusal_status, refusal_line};
ghost use Rattle.host_cli.specs.Ends.{out_of_memory_line};
ghost use Rattle.host_cli.specs.Sinks.{around, WasTold};
ghost use Rattle.host_cli.specs.Telling.{IsTold};

use call_inputs::{OUT_OF_MEMORY, Refusal};
use outer_io::Sink;
use std::alloc::Global;

/// Puts the line of a refusal, and answers its status. Where the line finds no memory, it is that of want of memory.
pub(crate) fn refuse<E: Sink>(alloc: Global, report: &mut E, name: &str, refusal: &Refusal) -> u8
    ensures told { IsTold name.now refusal.now (around E.pieces E.faults report.old report.new) result }
{
    match refusal.line(alloc, name) {
        Ok(line) => {
            let _ = report.put(line.as_slice());
            refusal.status()
        }
        Err(_) => refuse_for_memory(report),
    }
}

/// Puts the line of want of memory, which takes none, and answers its status.
pub(crate) fn refuse_for_memory<E: Sink>(report: &mut E) -> u8
    ensures told { WasTold (around E.pieces E.faults report.old report.new) out_of_memory_line }
    ensures status { result ≡ 7 }
{
    let _ = report.put(OUT_OF_MEMORY);
    Refusal::OutOfMemory.status()
}

/// Puts a line.
pub(crate) fn tell<E: Sink>(report: &mut E, line: &[u8])
    ensures told { WasTold (around E.pieces E.faults report.old report.new) line.now }
{
    let _ = report.put(line);
}
