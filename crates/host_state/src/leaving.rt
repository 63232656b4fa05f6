//! Harts that leave, and harts that find no memory.

ghost use Rattle.std.specs.Prelude.{◌≡◌, ◌∷◌, ◌<◌, ◌≤◌, ◌+◌, ◌-◌, true, false, length, slice_set, All};
ghost use Rattle.flat_model.specs.declared.journals.Item.TheVariants.{Left};
ghost use Rattle.flat_model.specs.Worlds.{hart_of};
ghost use Rattle.run_rules.specs.Legal.{Legal};
ghost use Rattle.run_rules.specs.Places.{is_with_hart};
ghost use Rattle.run_order.specs.Sets.{sets_for};
ghost use Rattle.run_order.specs.InOrder.{task_run};
ghost use Rattle.run_order.specs.Laws.{park_all};
ghost use Rattle.host_state.specs.Tables.{rows_of, AreWide};

use crate::committing::with_item;
use crate::states::HostState;
use crate::tables::put_at;
use flat_model::{Entry, Item};
use rv_exec::Hart;
use watcher_api::{Attached, AttachedSet, Closer, Held, Watcher};

/// Parks sets of a hart, each in the row of its plug-in.
fn park_all<W: Watcher>(rows: &mut [Vec<Option<AttachedSet<W>>>], no: u8, sets: Vec<AttachedSet<W>>)
    requires rows { All (λ a. (1 ≤ a.plugin) × (a.plugin ≤ length rows.old)) sets.items }
    requires wide { AreWide no (rows_of rows.old) }
    ensures parked { rows_of rows.new ≡ park_all no sets.items (rows_of rows.old) }
{
    for set in sets {
        put_at(rows, usize::from(set.plugin() - 1), usize::from(no), set);
    }
}

impl<W: Watcher, C: Closer<Held<W>>> HostState<W, C> {
    /// The hart leaves: it is kept, and its sets are parked.
    pub fn leave(&mut self, no: u8, hart: Hart, attached: Attached<W>)
        requires open { self.old.short ≡ false }
        requires legal { Legal (task_run self.old.task) (Left no ∷ self.old.past) }
        requires room { 0 < self.old.journal.spare }
        requires hart { hart ≡ hart_of self.old.task.machine self.old.task.mode self.old.past no }
        requires attached { attached ≡ sets_for is_with_hart (task_run self.old.task) no self.old.past }
        ensures left { self.new.past ≡ Left no ∷ self.old.past }
        ensures rest { self.new ≡ record self.old {
          past = self.new.past;
          journal = self.new.journal;
          registry = self.new.registry;
          parked = self.new.parked;
          harts = self.new.harts;
        } }
        ensures room { self.old.journal.spare ≤ self.new.journal.spare + 1 }
    {
        park_all(&mut self.parked, no, attached.into_sets());
        self.kept[usize::from(no)] = Some(hart);
        self.registry.left(no);
        self.journal.push(Entry::Leave { hart: no });
        self.past = with_item(&self.past, Item::Left { hart: no });
    }

    /// The hart found no memory: the state is short from then on, and records nothing more.
    pub fn fail(&mut self, no: u8)
        requires hart { no < self.old.task.machine.harts }
        ensures failed { self.new ≡ record self.old { failed = slice_set self.old.failed no true; short = true } }
    {
        self.failed[usize::from(no)] = true;
        self.short = true;
    }
}
