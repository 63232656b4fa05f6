//! The end of a run.

ghost use Rattle.std.specs.Prelude.{◌≡◌, false, List, All, map, IfOk};
ghost use Rattle.flat_model.specs.declared.journals.Item.{Item};
ghost use Rattle.flat_model.specs.Log.{party};
ghost use Rattle.baton_gate.specs.Logs.{Ahead};
ghost use Rattle.baton_gate.specs.Passes.{IsPassOf, ended, holds, known, seen};
ghost use Rattle.host_core.specs.Stages.{IsFinished, IsOver, MayFinish};

use crate::settling::settled;
use crate::starting::Started;
use baton_gate::{Gate, Pass};
use flat_model::NoMemory;
use hart_runner::Runner;
use host_state::HostState;
use std::sync::Wait;
use watcher_api::{Closer, Held, Watcher};

/// Joins the passes of runners, whose harts have left, into a pass.
fn join_all<W: Watcher, C: Closer<Held<W>>>(
    gate: &Gate<Box<HostState<W, C>>>,
    own: &mut Pass<Box<HostState<W, C>>>,
    runners: Vec<Runner<W, C>>,
)
    requires gate { IsPassOf gate.now own.old }
    requires free { holds own.old ≡ false }
    requires over { All (λ r. IsOver gate.now r.pass) runners.items }
    ensures gate { IsPassOf gate.now own.new }
    ensures same { known own.new ≡ record (known own.old) { ended = ended own.new } }
    ensures party { own.new.party ≡ own.old.party }
    ensures ended { (log : List Item) → All (λ e. Ahead party log e.party e.seen) (ended own.new)
        → All (λ r. Ahead party log r.pass.party (seen r.pass)) runners.items }
{
    for runner in runners {
        gate.join(own, runner.into_pass());
    }
}

/// Ends a run whose harts have all left: joins the runners' passes, takes the state, and settles what is due. Want of memory
/// also where a hart found too little.
pub fn finish<W: Watcher, C: Closer<Held<W>>, R: Wait>(
    rt: &R,
    started: Started<W, C>,
) -> Result<HostState<W, C>, NoMemory>
    requires over { MayFinish started.gate started.own (map (λ r. r.pass) started.runners.items) }
    ensures finished { IfOk result (IsFinished started.own (map (λ r. r.pass) started.runners.items)) }
{
    let Started {
        gate,
        runners,
        mut own,
    } = started;
    join_all(&gate, &mut own, runners);
    let state = Box::into_inner(gate.take(rt, &mut own));
    // Each state is in order.
    let _ = state.task();
    settled(state, own.party())
}
