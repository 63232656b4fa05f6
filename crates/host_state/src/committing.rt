//! Steps that harts made, and steps that they make with what is shared.

ghost use Rattle.std.specs.Prelude.{◌≡◌, ◌∷◌, ◌++◌, ◌<◌, ◌≤◌, ◌+◌, ◌^◌, true, false, None, length};
ghost use Rattle.flat_model.specs.declared.journals.Item.TheVariants.{Step};
ghost use Rattle.flat_model.specs.Log.{steps};
ghost use Rattle.flat_model.specs.Blocks.{length_of};
ghost use Rattle.flat_model.specs.Step.{starts_block};
ghost use Rattle.flat_model.specs.Worlds.{hart_of, next_step};
ghost use Rattle.rv_exec.specs.Sharing.{HasRoom, KeepsPlaces};
ghost use Rattle.rv_exec.specs.Going.{GoesStraight, TellsFew};
ghost use Rattle.run_rules.specs.Legal.{Legal};
ghost use Rattle.run_rules.specs.Places.{takes_all};
ghost use Rattle.run_order.specs.InOrder.{task_run};
ghost use Rattle.host_state.specs.Moving.{MovesAlone};

use crate::states::HostState;
use flat_model::{Entry, Item, Trace};
use rv_exec::{Hart, RawLog, shared_step};
use watcher_api::{Closer, Held, Watcher};

/// The log with one item more.
pub(crate) fn with_item(past: &Trace<Item>, item: Item) -> Trace<Item>
    ensures item { result.items ≡ item ∷ past.now.items }
{
    past.before(&item)
}

/// The log with so many steps of a hart more.
pub(crate) fn with_steps(past: &Trace<Item>, no: u8, count: u32) -> Trace<Item>
    requires some { 1 ≤ count }
    ensures steps { result.items ≡ steps no count past.now.items }
{
    let mut now = with_item(past, Item::Step { hart: no });
    for _ in 1..count {
        now = with_item(&now, Item::Step { hart: no });
    }
    now
}

impl<W: Watcher, C: Closer<Held<W>>> HostState<W, C> {
    /// Records a Turn of `ran` steps that the hart made by itself, from `before` to `after`.
    pub fn commit_private(&mut self, no: u8, before: &Hart, after: &Hart, ran: u32)
        requires open { self.old.short ≡ false }
        requires some { 1 ≤ ran }
        requires legal { Legal (task_run self.old.task) (steps no ran self.old.past) }
        requires taken { takes_all (task_run self.old.task) no self.old.past ≡ true }
        requires room { 0 < self.old.journal.spare }
        requires hart { before.now ≡ hart_of self.old.task.machine self.old.task.mode self.old.past no }
        requires alone { MovesAlone self.old.task.machine no ran before.now after.now }
        ensures steps { self.new.past ≡ steps no ran self.old.past }
        ensures hart { hart_of self.new.task.machine self.new.task.mode self.new.past no ≡ after.now }
        ensures rest { self.new ≡ record self.old { past = self.new.past; journal = self.new.journal } }
        ensures room { self.old.journal.spare ≤ self.new.journal.spare + 1 }
    {
        self.journal.push(Entry::Turn { hart: no, n: ran });
        self.past = with_steps(&self.past, no, ran);
    }

    /// Makes one step of the hart with what is shared, at any word, and records a Turn of it. Where the step starts a block,
    /// `n` is the block's length.
    pub fn commit_shared(&mut self, no: u8, hart: &mut Hart, n: u32, raw: &mut RawLog)
        requires open { self.old.short ≡ false }
        requires legal { Legal (task_run self.old.task) (Step no ∷ self.old.past) }
        requires taken { takes_all (task_run self.old.task) no self.old.past ≡ true }
        requires room { 0 < self.old.journal.spare }
        requires hart { hart.old ≡ hart_of self.old.task.machine self.old.task.mode self.old.past no }
        requires limit { hart.old.steps < self.old.task.machine.limit }
        requires events { length raw.old.events + 6 ≤ 2048 }
        requires output { HasRoom self.old.services }
        requires block { starts_block hart.old ≡ true → n ≡ length_of self.old.task.machine.image hart.old.pc }
        ensures steps { self.new.past ≡ Step no ∷ self.old.past }
        ensures hart { hart.new ≡ hart_of self.new.task.machine self.new.task.mode self.new.past no }
        ensures told { raw.new.events
            ≡ raw.old.events ++ (next_step self.old.task.machine self.old.task.mode self.old.past no).events }
        ensures rest { self.new ≡ record self.old {
          past = self.new.past;
          journal = self.new.journal;
          memory = self.new.memory;
          services = self.new.services;
        } }
        ensures room { self.old.journal.spare ≤ self.new.journal.spare + 1 }

        // What the next step needs.
        ensures kept { raw.new.kept ≡ raw.old.kept }
        ensures few { TellsFew hart.old hart.new raw.old.events raw.new.events }
        ensures awake { hart.new.parked ≡ false }
        ensures counted { hart.new.steps ≡ hart.old.steps + 1 }
        ensures within_limit { hart.new.ending ≡ None → hart.new.steps < self.old.task.machine.limit }
        ensures straight { GoesStraight hart.old hart.new }
        ensures going_on { hart.new.ending ≡ None → self.new.services.group ≡ None }
        ensures steady { hart.new.ending ≡ None → 0 < hart.new.since → self.new.services ≡ self.old.services }
    {
        shared_step(
            no,
            hart,
            self.task.image(),
            &mut self.memory,
            &mut self.services,
            self.task.limit(),
            n,
            raw,
        );
        self.journal.push(Entry::Turn { hart: no, n: 1 });
        self.past = with_item(&self.past, Item::Step { hart: no });
    }
}
