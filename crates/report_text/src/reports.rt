//! The report of a run that is whole.

ghost use Rattle.std.specs.Prelude.{◌≡◌, ◌++◌, IfOk, OnOk, OnErr};
ghost use Rattle.run_rules.specs.Legal.{Whole};
ghost use Rattle.run_order.specs.InOrder.{task_run};
ghost use Rattle.report_text.specs.Report.{report_of};

use crate::lines::Lines;
use flat_model::NoMemory;
use host_state::HostState;
use number_text::put_bytes;
use std::alloc::Global;
use watcher_api::{Closer, Held, Watcher};

/// Puts the whole report at the end of `out`; where memory runs out, nothing of it.
pub fn report<W: Watcher, C: Closer<Held<W>>>(
    state: &HostState<W, C>,
    alloc: Global,
    out: &mut Vec<u8>,
) -> Result<(), NoMemory>
    requires whole { Whole (task_run state.now.task) state.now.past }
    ensures report { OnOk result (out.new.items ≡ out.old.items ++ report_of state.now.task state.now.past) }
    ensures unchanged { OnErr result (out.new.items ≡ out.old.items) }
{
    let text = whole_text(state, alloc)?;
    put_bytes(out, text.as_slice())
}

/// The whole report.
fn whole_text<W: Watcher, C: Closer<Held<W>>>(
    state: &HostState<W, C>,
    alloc: Global,
) -> Result<Vec<u8>, NoMemory>
    requires whole { Whole (task_run state.now.task) state.now.past }
    ensures report { IfOk result (λ text. text.items ≡ report_of state.now.task state.now.past) }
{
    let _ = state.task();
    let mut lines = Lines::new(alloc);
    let mut text = Vec::new(alloc);
    loop {
        let more = lines.next(state, alloc, &mut text)?;
        if !more {
            return Ok(text);
        }
    }
}
