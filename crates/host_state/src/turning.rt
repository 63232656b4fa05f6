//! Turns of whole blocks.

ghost use Rattle.std.specs.Prelude.{◌≡◌, ◌<◌, ◌≤◌, ◌+◌, ◌*◌, ◌↔◌, [], ℕ, true, false, None, IsTrue, min, length};
ghost use Rattle.flat_model.specs.declared.limits.TheConstants.{BLOCK_WORDS};
ghost use Rattle.flat_model.specs.Log.{steps};
ghost use Rattle.flat_model.specs.Step.{steps_of};
ghost use Rattle.flat_model.specs.Worlds.{world, hart_of};
ghost use Rattle.guest_memory.specs.Memory.{harts_of};
ghost use Rattle.rv_exec.specs.Sharing.{shared_of, machine_on, IsMemoryOf, KeepsLayout, KeepsPlaces, HasRoom};
ghost use Rattle.block_finder.specs.Block.{IsBlock};
ghost use Rattle.run_rules.specs.Legal.{Legal};
ghost use Rattle.run_rules.specs.Laws.{MayTurn};
ghost use Rattle.run_rules.specs.Places.{IsStateLog, takes_all};
ghost use Rattle.run_order.specs.InOrder.{task_run};
ghost use Rattle.kept_order.specs.Lying.{GoesInside};
ghost use Rattle.host_state.specs.MidTurns.{IsMidTurn};
ghost use Rattle.host_state.specs.Moving.{IsPrivateTurn, StaysInside, IsAtWord, IsRest};

use crate::committing::with_steps;
use crate::states::HostState;
use block_finder::Block;
use flat_model::{Entry, Image};
use guest_memory::{Memory, Near};
use rv_exec::{Hart, RawLog, Services};
use shared_runs::shared_run;
use watcher_api::{Closer, Held, Watcher};

/// Makes the rest of a block of which the hart has made `ran` steps, with what the harts share, and answers how many steps
/// they are: none where the hart has left the block or has ended.
fn rest_of_block(
    no: u8,
    hart: &mut Hart,
    image: &Image,
    block: &Block,
    ran: u32,
    memory: &mut Memory,
    services: &mut Services,
    limit: u64,
    near: &mut Near,
    raw: &mut RawLog,
) -> u32
    requires block { IsBlock image.now block.now.pc block.now }
    requires most { ran ≤ 512 }
    requires begins { ran ≡ 0 → hart.old.ending ≡ None }
    requires place { StaysInside ran hart.old → IsAtWord ran block.now hart.old }
    requires awake { hart.old.parked ≡ false }
    requires below_limit { hart.old.ending ≡ None → hart.old.steps < limit }
    requires going_on { services.old.group ≡ None }
    requires few { length raw.old.events ≤ 3 * ran + 2 * min ran 1 }
    requires output { HasRoom services.old }
    requires no { no < harts_of memory.old }
    requires starts { length services.old.starts ≡ harts_of memory.old }
    requires memory { IsMemoryOf image.now memory.old }

    ensures rest { IsRest (machine_on image.now memory.old limit) no ran result hart.old hart.new
        (shared_of memory.old services.old) (shared_of memory.new services.new) raw.old.events raw.new.events }

    // With those before they lead out of the block or to the hart's end.
    ensures some { 0 < ran + result }
    ensures whole { ran + result ≤ 512 }
    ensures leaves { hart.new.ending ≡ None → hart.new.since ≡ 0 }

    ensures kept { raw.new.kept ≡ raw.old.kept }
    ensures awake { hart.new.parked ≡ false }
    ensures within_limit { hart.new.ending ≡ None → hart.new.steps < limit }
    ensures going_on { hart.new.ending ≡ None → services.new.group ≡ None }
    ensures layout { KeepsLayout memory.old memory.new }
    ensures places { KeepsPlaces services.old services.new }
{
    if hart.ending.is_some() || (ran > 0 && hart.since == 0) {
        return 0;
    }
    shared_run(
        no, hart, image, block, ran, memory, services, limit, near, raw,
    )
}

impl<W: Watcher, C: Closer<Held<W>>> HostState<W, C> {
    /// Records the Turn of one block: `ran` steps that the hart has made by itself, from `before` to `hart`, and the rest of the
    /// block, which it makes here with what is shared. Answers how many steps the Turn has, at most 512.
    pub fn commit_turn(
        &mut self,
        no: u8,
        before: &Hart,
        hart: &mut Hart,
        ran: u32,
        block: &Block,
        near: &mut Near,
        raw: &mut RawLog,
    ) -> u32
        requires open { self.old.short ≡ false }
        requires begins { MayTurn (task_run self.old.task) no 0 self.old.past }
        requires taken { takes_all (task_run self.old.task) no self.old.past ≡ true }
        requires room { 0 < self.old.journal.spare }
        requires output { HasRoom self.old.services }
        requires group { self.old.services.group ≡ None }
        requires before { before.now ≡ hart_of self.old.task.machine self.old.task.mode self.old.past no }
        requires awake { before.now.parked ≡ false }
        requires running { before.now.ending ≡ None }
        requires below { before.now.steps < self.old.task.machine.limit }
        requires starts { before.now.since ≡ 0 }
        requires block { IsBlock self.old.task.machine.image before.now.pc block.now }
        requires ran { IsPrivateTurn self.old.task.machine.image self.old.task.machine.limit no ran before.now hart.old
            raw.old.events }
        ensures steps { self.new.past ≡ steps no result self.old.past }
        ensures some { 0 < result }
        ensures most { result ≤ 512 }
        ensures hart { hart.new ≡ hart_of self.new.task.machine self.new.task.mode self.new.past no }
        ensures told { raw.new.events ≡ (steps_of self.old.task.machine no result before.now
            (world self.old.task.machine self.old.task.mode self.old.past).shared).events }
        ensures inside { (j : ℕ) → j < result → GoesInside j (steps_of self.old.task.machine no j before.now
            (world self.old.task.machine self.old.task.mode self.old.past).shared).hart }
        ensures legal { Legal (task_run self.new.task) self.new.past }
        ensures state_log { IsStateLog (task_run self.new.task) self.new.past }
        ensures rest { self.new ≡ record self.old {
          past = self.new.past;
          journal = self.new.journal;
          memory = self.new.memory;
          services = self.new.services;
        } }
        ensures room { self.old.journal.spare ≤ self.new.journal.spare + 1 }

        // What the next Turn needs.
        ensures awake { hart.new.parked ≡ false }
        ensures leaves { hart.new.ending ≡ None → hart.new.since ≡ 0 }
        ensures within_limit { hart.new.ending ≡ None → hart.new.steps < self.old.task.machine.limit }
        ensures going_on { hart.new.ending ≡ None → self.new.services.group ≡ None }
        ensures kept { raw.new.kept ≡ raw.old.kept }
    {
        // The harts are sound.
        let _start = before.pc;
        let _since = hart.since;
        let rest = rest_of_block(
            no,
            hart,
            self.task.image(),
            block,
            ran,
            &mut self.memory,
            &mut self.services,
            self.task.limit(),
            near,
            raw,
        );
        let n = ran + rest;
        self.journal.push(Entry::Turn { hart: no, n });
        self.past = with_steps(&self.past, no, n);
        n
    }

    /// Whether there is room for one Turn more: for an entry of the journal, and for what one call of `write` appends.
    pub fn has_turn_room(&self) -> bool
        ensures room { IsTrue result ↔ ((0 < self.now.journal.spare) × HasRoom self.now.services) }
    {
        self.journal.spare() > 0 && self.services.has_room()
    }

    /// Records one more block of a Turn of which the hart has made `made` steps since it could begin it: a whole block, which it
    /// makes here with what is shared. Answers how many steps they are. The Turn has at most 512 then.
    pub fn commit_block(
        &mut self,
        no: u8,
        hart: &mut Hart,
        made: u32,
        block: &Block,
        near: &mut Near,
        raw: &mut RawLog,
    ) -> u32
        requires open { self.old.short ≡ false }
        requires turning { IsMidTurn (task_run self.old.task) no made self.old.past }
        requires words { 0 < block.now.n }
        requires fits { made + block.now.n < BLOCK_WORDS }
        requires room { 0 < self.old.journal.spare }
        requires output { HasRoom self.old.services }
        requires group { self.old.services.group ≡ None }
        requires hart { hart.old ≡ hart_of self.old.task.machine self.old.task.mode self.old.past no }
        requires awake { hart.old.parked ≡ false }
        requires running { hart.old.ending ≡ None }
        requires below { hart.old.steps < self.old.task.machine.limit }
        requires starts { hart.old.since ≡ 0 }
        requires block { IsBlock self.old.task.machine.image hart.old.pc block.now }
        requires untold { raw.old.events ≡ [] }
        ensures steps { self.new.past ≡ steps no result self.old.past }
        ensures turning { IsMidTurn (task_run self.new.task) no (made + result) self.new.past }
        ensures some { 0 < result }
        ensures most { made + result ≤ BLOCK_WORDS }
        ensures hart { hart.new ≡ hart_of self.new.task.machine self.new.task.mode self.new.past no }
        ensures told { raw.new.events ≡ (steps_of self.old.task.machine no result hart.old
            (world self.old.task.machine self.old.task.mode self.old.past).shared).events }
        ensures inside { (j : ℕ) → j < result → GoesInside j (steps_of self.old.task.machine no j hart.old
            (world self.old.task.machine self.old.task.mode self.old.past).shared).hart }
        ensures legal { Legal (task_run self.new.task) self.new.past }
        ensures state_log { IsStateLog (task_run self.new.task) self.new.past }
        ensures rest { self.new ≡ record self.old {
          past = self.new.past;
          journal = self.new.journal;
          memory = self.new.memory;
          services = self.new.services;
        } }
        ensures room { self.old.journal.spare ≤ self.new.journal.spare + 1 }

        // What the next block needs.
        ensures awake { hart.new.parked ≡ false }
        ensures leaves { hart.new.ending ≡ None → hart.new.since ≡ 0 }
        ensures within_limit { hart.new.ending ≡ None → hart.new.steps < self.old.task.machine.limit }
        ensures going_on { hart.new.ending ≡ None → self.new.services.group ≡ None }
        ensures kept { raw.new.kept ≡ raw.old.kept }
    {
        let more = shared_run(
            no,
            hart,
            self.task.image(),
            block,
            0,
            &mut self.memory,
            &mut self.services,
            self.task.limit(),
            near,
            raw,
        );
        self.journal.push(Entry::Turn { hart: no, n: more });
        self.past = with_steps(&self.past, no, more);
        more
    }
}
