//! Turns.

ghost use Rattle.std.specs.Prelude.{◌≡◌, ◌<◌, true, false, IfOk, OnOk};
ghost use Rattle.flat_model.specs.declared.journals.Entry.TheVariants as entries;
ghost use Rattle.flat_model.specs.Log.{steps};
ghost use Rattle.baton_gate.specs.Logs.{GoesOn};
ghost use Rattle.host_state.specs.Taking.{IsGotBy};
ghost use Rattle.run_rules.specs.Due.{turn_length};
ghost use Rattle.run_rules.specs.Legal.{owes_any};
ghost use Rattle.run_rules.specs.Places.{takes_all};
ghost use Rattle.run_order.specs.InOrder.{task_run};
ghost use Rattle.run_replay.specs.Following.{IsBerth, IsFollowing, IsFollowed, IsTurning};
ghost use Rattle.run_replay.specs.Turns.{HasMade, HasFollowedTurn, MayTurn};

use crate::berths::Berth;
use crate::judging::{may_step, owes_any};
use crate::looking::{look, next_generation};
use crate::places::{put_back, take_out};
use crate::placing::place_due;
use crate::replays::{Followed, Replay};
use crate::stepping::step;
use block_finder::BlockCache;
use flat_model::NoMemory;
use host_state::HostState;
use std::alloc::Global;
use watcher_api::{Closer, Held, Watcher};

/// Gives the hart the sets that wait for it.
fn take_sets<W: Watcher, C: Closer<Held<W>>>(
    state: &mut HostState<W, C>,
    no: u8,
    berth: &mut Berth<W>,
) -> Result<(), NoMemory>
    requires berth { IsBerth state.old.task no state.old.past berth.old }
    requires owes_none { owes_any (task_run state.old.task) no state.old.past ≡ false }
    ensures berth { OnOk result (IsBerth state.new.task no state.new.past berth.new) }
    ensures hart { OnOk result (berth.new.hart ≡ berth.old.hart) }
    ensures gots { OnOk result (GoesOn (IsGotBy no) state.old.past state.new.past) }
    ensures rest { OnOk result (state.new ≡ record state.old {
      past = state.new.past;
      waiting = state.new.waiting;
      arriving = state.new.arriving;
    }) }
    ensures all { OnOk result (takes_all (task_run state.new.task) no state.new.past ≡ true) }
{
    let next = next_generation(berth.generation)?;
    let came = state.attach(no, &mut berth.attached, &mut berth.specs);
    // Each state is in order.
    let _ = state.task();
    if came {
        berth.generation = next;
        return Ok(());
    }
    Ok(())
}

/// Makes the steps of a Turn, one after the other. Whether each of them may be made.
fn make_steps<W: Watcher, C: Closer<Held<W>>>(
    state: &mut HostState<W, C>,
    no: u8,
    berth: &mut Berth<W>,
    blocks: &mut BlockCache,
    n: u32,
) -> Result<bool, NoMemory>
    requires turning { IsTurning state.old.task no 0 state.old.past berth.old blocks.old }
    requires open { state.old.short ≡ false }
    ensures made { IfOk result (λ all. HasMade all no n state.old state.new berth.new blocks.new) }
{
    for made in 0..n {
        if !may_step(state, no, berth, made) {
            return Ok(false);
        }
        step(state, no, berth, blocks, made)?;
    }
    Ok(true)
}

/// A Turn of a hart that hasn't left, with the lines that are due behind it.
fn turn_berth<W: Watcher, C: Closer<Held<W>>>(
    state: &mut HostState<W, C>,
    alloc: Global,
    no: u8,
    berth: &mut Berth<W>,
    blocks: &mut BlockCache,
    n: u32,
) -> Result<Followed, NoMemory>
    requires may { MayTurn no state.old berth.old blocks.old }
    requires some { 0 < n }
    ensures turned { IfOk result (λ f. HasFollowedTurn f no n state.old state.new berth.new blocks.new) }
{
    look(state, no, berth);
    if owes_any(state, no) {
        return Ok(Followed::Breaks);
    }
    take_sets(state, no, berth)?;
    let all = make_steps(state, no, berth, blocks, n)?;
    if all {
        return place_due(state, alloc, no, n);
    }
    Ok(Followed::Breaks)
}

impl<W: Watcher, C: Closer<Held<W>>> Replay<W, C> {
    /// Follows a Turn, step after step, and places the lines of the script that are due behind it.
    pub fn turn(&mut self, no: u8, n: u32) -> Result<Followed, NoMemory>
        requires following { IsFollowing self.old.state self.old.berths.items self.old.blocks }
        requires anew { turn_length no self.old.state.past ≡ 0 }
        requires some { 0 < n }
        ensures followed { IfOk result
            (λ f. IsFollowed f (entries.Turn no n) self.old.state self.new.state self.new.berths.items self.new.blocks) }
    {
        let Some(mut berth) = take_out(&mut self.berths, no) else {
            return Ok(Followed::Breaks);
        };
        let followed = turn_berth(
            &mut self.state,
            self.alloc,
            no,
            &mut berth,
            &mut self.blocks,
            n,
        )?;
        put_back(&mut self.berths, no, berth);
        // Each state is in order.
        let _ = self.state.task();
        Ok(followed)
    }
}
